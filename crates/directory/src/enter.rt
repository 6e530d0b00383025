//! A name entered.
ghost use Rattle.std.specs.Prelude.{◌≡◌, ◌+◌, ◌*◌, ◌==◌, ◌<◌, ◌≤◌, ◌^◌, Some, None, IsSome, IfSome, IfNone};
ghost use Rattle.directory.specs.Vocabulary.{Used, dirent_len_of, spell_dirent, IsName, bits_per_block, inode_block, begun_of, IfBegun, IsAfter, IsLoadedAt, answer_in, Goes, index_at, left_after, loaded_in, record_in, bare, Hand as HandState, InodePlace as InodePlaceState, NoBuffers};
ghost use Rattle.directory.specs.Programs.{most_slots};
ghost use Rattle.directory.specs.Indexes.{on_disk};
ghost use Rattle.directory.specs.Entering.{EnteredState, enter, enter_at, entered_if, slot_for};
ghost use Rattle.directory.specs.Searching.{beside_index, found_with};
ghost use Rattle.directory.specs.EnterParts.{entered_as, enter_left, enter_asked, enter_seat, entered_in, EnterReady, IsEntering};

use crate::found::{Found, Sought, slot_count};
use crate::search::Search;
use crate::seat::enter_at;
use byteorder::{ByteOrder, LittleEndian};
use fs_layout::widths::DIRENT_NAME_AT;
use fs_layout::{Dinode, Super};
use fs_machine::{Answer, Hand, InodePlace, Op, Routine};
use image_versions::Version;
use image_versions::widths::LONGEST_DIRENT_LEN;
use inode_data::{Begun, WritePart, Written};
use inode_table::record_at;

// How many numbers an entry can have, in its 16 bits.
const NUMBERS: u32 = 65_536;

/// Whether there was room for a name.
#[derive(Clone, Copy, PartialEq, Eq, Debug)]
pub enum Room {
    /// There was: it is entered.
    There,
    /// No block was free for a new last slot.
    NoBlock,
    /// The directory has all the slots that it may have.
    NoSlot,
}

/// The directory that a name is entered into, and the bytes of its entry, at the front.
#[derive(Clone, Copy, Drop)]
pub struct Entering {
    /// The seat of its lock.
    pub seat: InodePlace,
    pub number: u32,
    /// The superblock of its disk.
    pub sizes: Super,
    pub entry: [u8; LONGEST_DIRENT_LEN],
}

/// An entry on its way into a slot of the directory whose lock is at a seat. Its bytes are at the front.
#[derive(Clone, Copy, Drop)]
pub struct Placing {
    pub version: Version,
    pub seat: InodePlace,
    pub entry: [u8; LONGEST_DIRENT_LEN],
    pub slot: u32,
}

/// The directory as it was stored, and whether there was room for the name. If no slot was left it is as it was, and
/// not stored. The index of its names is in hand, at the seat.
#[derive(Clone, Copy, Drop)]
pub struct Entered {
    pub inode: Dinode,
    pub room: Room,
    pub seat: InodePlace,
}

/// Enters a name into a directory: into its first free slot, or else into a new last one. The inode is stored also if
/// no block was free for that (xv6: `dirlink`).
#[derive(Drop)]
pub enum Enter {
    /// A free slot is sought.
    Searching(Entering, Search),
    /// The slot is written.
    Writing(Placing, WritePart),
}

impl Enter {
    /// Inode `child` by this name, into directory `number` whose lock is at a seat, on a disk with this superblock.
    /// An entry has the low 16 bits of a number, and an inode's has no more.
    pub fn begin(
        number: u32,
        seat: InodePlace,
        sizes: &Super,
        child: u32,
        name: &[u8],
        hand: &Hand,
    ) -> Begun<Enter, Entered>
        requires size { sizes.now.size ≤ bits_per_block }
        requires block { inode_block sizes.now.inodestart number < 2 ^ 32 }
        requires name { IsName sizes.now.version name.now }
        requires loaded { IsLoadedAt seat hand.now }
        ensures program { begun_of (λ m. enter_left m hand.now) (λ r. entered_as r hand.now) result
            ≡ enter sizes.now number (loaded_in seat hand.now) child name.now }
        ensures ready { NoBuffers hand.now → IsSome hand.now.txn → IfBegun (λ m. EnterReady m hand.now) (λ _. Unit {0}) result }
        ensures seat { IfBegun (λ m. enter_seat m ≡ seat) (λ r. r.seat ≡ seat) result }
    {
        let entering = Entering {
            seat,
            number,
            sizes: *sizes,
            entry: entry_bytes(sizes.version, child, name),
        };
        match Search::begin(sizes.version, hand, seat, Sought::Free) {
            Begun::Is(found) => place(&entering, found, hand),
            Begun::Runs(search) => Begun::Runs(Enter::Searching(entering, search)),
        }
    }
}

impl Routine for Enter {
    type Out = Entered;

    ghost Value = { EnteredState };

    ghost value = { entered_as };

    ghost left = { enter_left };

    ghost asked = { enter_asked };

    ghost Ready = { EnterReady };

    ghost About = { InodePlaceState };

    ghost about = { enter_seat };

    ghost beside = { beside_index };

    ghost Ends = { λ m r h. NoBuffers h × (r.seat ≡ enter_seat m) × IsLoadedAt r.seat h };

    fn op(&self, hand: &mut Hand) -> Op {
        match self {
            Enter::Searching(_, search) => search.op(hand),
            Enter::Writing(placing, part) => part.op(entry_in(placing), hand),
        }
    }

    #[tactic(auto, using(fs_machine::proofs::Going::goes_bind))]
    fn next(&mut self, answer: &Answer, hand: &mut Hand) -> Option<Entered> {
        match self {
            Enter::Searching(entering, search) => {
                let (version, seat) = (entering.sizes.version, entering.seat);
                let found = search.next(version, seat, Sought::Free, answer, hand)?;
                match place(entering, found, hand) {
                    Begun::Is(entered) => Some(entered),
                    Begun::Runs(enter) => {
                        *self = enter;
                        None
                    }
                }
            }
            Enter::Writing(placing, part) => {
                let placing = *placing;
                let written = part.next(entry_in(&placing), answer, hand)?;
                Some(room_in(&placing, &written, hand))
            }
        }
    }
}

// Goes on after a free slot was sought.
fn place(entering: &Entering, found: Option<Found>, hand: &Hand) -> Begun<Enter, Entered>
    requires entering { IsEntering entering.now }
    requires loaded { IsLoadedAt entering.now.seat hand.now }
    ensures program { begun_of (λ m. enter_left m hand.now) (λ r. entered_as r hand.now) result
        ≡ enter_at entering.now.sizes entering.now.number (record_in entering.now.seat hand.now)
        (on_disk entering.now.sizes.version entering.now.entry) (found_with entering.now.seat found hand.now) }
    ensures ready { NoBuffers hand.now → IsSome hand.now.txn → IfBegun (λ m. EnterReady m hand.now) (λ _. Unit {0}) result }
    ensures seat { IfBegun (λ m. enter_seat m ≡ entering.now.seat) (λ r. r.seat ≡ entering.now.seat) result }
{
    let (version, seat) = (entering.sizes.version, entering.seat);
    let inode = record_at(hand, seat);
    let slot = slot_for(version, inode, found);
    if slot >= version.most_slots() {
        return Begun::Is(Entered {
            inode: *inode,
            room: Room::NoSlot,
            seat,
        });
    }
    let len = version.dirent_len();
    let at = (len * slot) as u32;
    let part = WritePart::begin(entering.number, inode, &entering.sizes, at, len);
    let placing = Placing {
        version,
        seat,
        entry: entering.entry,
        slot: slot as u32,
    };
    Begun::Runs(Enter::Writing(placing, part))
}

// The bytes of its entry.
fn entry_in(placing: &Placing) -> &[u8]
    ensures { result.now ≡ on_disk placing.now.version placing.now.entry }
{
    &placing.entry[..placing.version.dirent_len()]
}

// The slot of a new name: the free one that was found, or a new last one.
fn slot_for(version: Version, inode: &Dinode, found: Option<Found>) -> usize
    ensures { result ≡ slot_for version inode.now found }
{
    match found {
        Some(free) => free.slot as usize,
        None => slot_count(version, inode),
    }
}

// The result of writing a slot. If the entry is there the index has it.
fn room_in(placing: &Placing, written: &Written, hand: &mut Hand) -> Entered
    requires slot { placing.now.slot < most_slots placing.now.version }
    requires loaded { IsLoadedAt placing.now.seat hand.old }
    ensures entered { result ≡ entered_in placing.now.version placing.now.seat placing.now.slot written.now }
    ensures state { entered_as result hand.new ≡ entered_if placing.now.version placing.now.slot
        (on_disk placing.now.version placing.now.entry) (index_at placing.now.seat hand.old) written.now.inode
        (written.now.upto == dirent_len_of placing.now.version * (placing.now.slot + 1)) }
    ensures loaded { IsLoadedAt placing.now.seat hand.new }
    ensures buffers { NoBuffers hand.old → NoBuffers hand.new }
    ensures beside { beside_index placing.now.seat hand.new ≡ beside_index placing.now.seat hand.old }
    ensures hand { bare hand.new ≡ bare hand.old }
{
    let (version, seat) = (placing.version, placing.seat);
    let slot = placing.slot as usize;
    let room = if written.upto == version.dirent_len() * (slot + 1) {
        enter_at(version, hand, seat, slot, entry_in(placing));
        Room::There
    } else {
        Room::NoBlock
    };
    Entered {
        inode: written.inode,
        room,
        seat,
    }
}

/// The bytes of an entry of this number and name, at the front. It has the low 16 bits of the number.
pub fn entry_bytes(version: Version, number: u32, name: &[u8]) -> [u8; LONGEST_DIRENT_LEN]
    requires { IsName version name.now }
    ensures { on_disk version result ≡ spell_dirent version (Used number name.now) }
{
    let mut entry = [0; LONGEST_DIRENT_LEN];
    LittleEndian::write_u16(&mut entry, (number % NUMBERS) as u16);
    entry[DIRENT_NAME_AT..DIRENT_NAME_AT + name.len()].copy_from_slice(name);
    entry
}
