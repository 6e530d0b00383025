//! Operations that change a directory, each as a part: a name is entered or cleared, or the names of a new one are
//! written.
ghost use Rattle.std.specs.Prelude.{◌≡◌, ℕ, List};
ghost use Rattle.inode_parts.specs.Vocabulary.{Name, Ret, Version, bare, Hand as HandState, HasNoBuffer, IsLoadedAt, entered_as};
ghost use Rattle.inode_machine.specs.World as world;
ghost use Rattle.inode_parts.specs.Starts.{carry_in, having, part_left, HasStarted, IsPart, PartReady, PartTold, UnderWay};
ghost use Rattle.inode_parts.specs.Carries.{handed, note_at};
ghost use Rattle.inode_parts.specs.Changes.{IsAmid};
ghost use Rattle.inode_parts.specs.Enters.{enter_part_left, enter_part_asked, entered, EnterAmid, EnterBegins, EnterPartReady};
ghost use Rattle.inode_parts.specs.Holding.{Changed, StandBeside};
ghost use Rattle.inode_parts.specs.Clears.{clear_part_left, clear_part_asked, slot_in, ClearAmid, ClearBegins, ClearPartReady, HasFound};
ghost use Rattle.inode_parts.specs.Fills.{fill_part_left, fill_part_asked, FillAmid, FillBegins, FillPartReady};

use crate::note::{Note, Notes};
use crate::operation::Operation;
use crate::part::InodePart;
use crate::places::lock_seat;
use crate::records::{change, clear_index_at};
use directory::{Clear, Enter, Entered, Fill, Room, Slot, clear_in_index};
use fs_layout::Super;
use fs_machine::{Answer, Hand, InodePlace, Op, Routine};
use inode_data::Begun;
use inode_table::record_at;
use path_walk::{Entered as Entry, Heard};

/// A name is entered in a directory whose lock is in hand.
#[derive(Drop)]
pub struct EnterPart {
    pub enter: Enter,
}

impl InodePart {
    /// Begins to enter inode `child` by this name in directory `number`, on a disk with this superblock.
    #[inline(always)]
    pub(crate) fn begin_enter(
        &mut self,
        number: u32,
        child: u32,
        name: &[u8],
        sizes: &Super,
        hand: &Hand,
    )
        requires { EnterBegins sizes.now number name.now hand.now }
        ensures { HasStarted sizes.now (world.Enter number name.now child) hand.now self.new hand.now }
    {
        let seat = lock_seat(hand, number);
        match Enter::begin(number, seat, sizes, child, name, hand) {
            Begun::Runs(enter) => *self = InodePart::Enter(EnterPart { enter }),
            Begun::Is(_) => unreachable!(),
        }
    }
}

impl Operation for EnterPart {
    ghost left = { enter_part_left };

    ghost asked = { enter_part_asked };

    ghost Ready = { EnterPartReady };

    // The directory, the inode that is named in it, and the name.
    ghost About = { ℕ × ℕ × Name };

    ghost above = { λ a. world.Enter a.0 a.2 a.1 };

    ghost Amid = { λ a. EnterAmid a.0 };

    fn op(&self, hand: &mut Hand) -> Op {
        self.enter.op(hand)
    }

    // At its end the directory has its new record and index.
    #[tactic(auto, using(crate::proofs::Enters::enter_on, crate::proofs::Enters::enter_ends))]
    fn next(
        &mut self,
        notes: &mut Notes,
        answer: &Answer,
        hand: &mut Hand,
        heard: &mut Heard,
    ) -> bool {
        match self.enter.next(answer, hand) {
            None => false,
            Some(entered) => {
                *heard = hear(&entered, notes, hand);
                true
            }
        }
    }
}

// What is heard of it. The directory was stored, unless it has no slot left.
fn hear(outcome: &Entered, notes: &mut Notes, hand: &mut Hand) -> Heard
    requires { IsLoadedAt outcome.now.seat hand.old }
    ensures is { (path : List ℕ)
        → entered path notes.old outcome.now.seat hand.old (entered_as outcome.now hand.old) ≡ Ret (handed path notes.new result hand.new) }
    ensures leaves { (n : ℕ) (start : HandState) → IsAmid n start outcome.now.seat hand.old → HasNoBuffer hand.old
        → Changed n start hand.new × StandBeside n (having start notes.old) (having hand.new notes.new) }
    ensures hand { bare hand.new ≡ bare hand.old }
{
    let room = match outcome.room {
        Room::There => Entry::InPlace,
        Room::NoBlock => Entry::NoBlock,
        Room::NoSlot => return Heard::Entered(Entry::NoSlot),
    };
    change(outcome.seat, outcome.inode, notes, hand);
    Heard::Entered(room)
}

/// A slot is cleared of the directory whose lock is at this seat.
#[derive(Drop)]
pub struct ClearPart {
    pub seat: InodePlace,
    /// Counted from the directory's first one.
    pub slot: u32,
    pub clear: Clear,
}

impl InodePart {
    /// Begins to clear the slot that was found in directory `number`, on a disk with this superblock.
    #[inline(always)]
    #[tactic(auto, using(crate::proofs::Clears::clear_is_part))]
    pub(crate) fn begin_clear(&mut self, number: u32, sizes: &Super, notes: &Notes, hand: &Hand)
        requires begins { (path : List ℕ) × (name : Name) × ClearBegins sizes.now path notes.now number name hand.now }
        ensures part { (path : List ℕ) (name : Name) → ClearBegins sizes.now path notes.now number name hand.now
            → IsPart sizes.now (carry_in path notes.now hand.now) (world.Clear number name)
            (part_left path notes.now self.new hand.now) }
        ensures ready { PartReady self.new hand.now }
        ensures told { (first second : List ℕ) → PartTold first second self.new }
        ensures under { (path : List ℕ) (name : Name)
            → UnderWay sizes.now.version path (world.Clear number name) (having hand.now notes.now) self.new (having hand.now notes.now) }
    {
        let seat = lock_seat(hand, number);
        let slot = found_slot(notes, seat);
        let clear = Clear::new(Slot {
            version: sizes.version,
            inode: *record_at(hand, seat),
            number,
            inodestart: sizes.inodestart,
            slot,
        });
        *self = InodePart::Clear(ClearPart { seat, slot, clear });
    }
}

impl Operation for ClearPart {
    ghost left = { clear_part_left };

    ghost asked = { clear_part_asked };

    ghost Ready = { ClearPartReady };

    // The directory, and the name.
    ghost About = { ℕ × Name };

    ghost above = { λ a. world.Clear a.0 a.1 };

    ghost Amid = { λ a. ClearAmid a.0 };

    fn op(&self, hand: &mut Hand) -> Op {
        self.clear.op(hand)
    }

    // At its end the directory has its new record, and the slot is gone from its index.
    #[tactic(auto, using(crate::proofs::Clears::clear_on, crate::proofs::Clears::clear_ends))]
    fn next(
        &mut self,
        notes: &mut Notes,
        answer: &Answer,
        hand: &mut Hand,
        heard: &mut Heard,
    ) -> bool {
        match self.clear.next(answer, hand) {
            None => false,
            Some(inode) => {
                clear_in_index(hand, self.seat, self.slot);
                change(self.seat, inode, notes, hand);
                *heard = Heard::WasDone;
                true
            }
        }
    }
}

// The slot that was found in the directory at a seat.
fn found_slot(notes: &Notes, seat: InodePlace) -> u32
    requires { (version : Version) × (path : List ℕ) × (name : Name) × HasFound version path name (note_at seat notes.now) }
    ensures { result ≡ slot_in (note_at seat notes.now) }
{
    match notes.at(seat) {
        Note::Finds(_, slot) => slot,
        _ => unreachable!(),
    }
}

/// "." and ".." are written in the new directory whose lock is at this seat.
#[derive(Drop)]
pub struct FillPart {
    pub seat: InodePlace,
    pub fill: Fill,
}

impl InodePart {
    /// Begins to write the two names of directory `number`, which is in this one, on a disk with this superblock.
    #[inline(always)]
    #[tactic(auto, using(crate::proofs::Fills::fill_is_part))]
    pub(crate) fn begin_fill(&mut self, number: u32, parent: u32, sizes: &Super, hand: &Hand)
        requires { FillBegins sizes.now number hand.now }
        ensures { HasStarted sizes.now (world.Fill number parent) hand.now self.new hand.now }
    {
        let seat = lock_seat(hand, number);
        let inode = record_at(hand, seat);
        let fill = Fill::new(number, inode, sizes, parent);
        *self = InodePart::Fill(FillPart { seat, fill });
    }
}

impl Operation for FillPart {
    ghost left = { fill_part_left };

    ghost asked = { fill_part_asked };

    ghost Ready = { FillPartReady };

    // The directory, and the one that it is in.
    ghost About = { ℕ × ℕ };

    ghost above = { λ a. world.Fill a.0 a.1 };

    ghost Amid = { λ a. FillAmid a.0 };

    fn op(&self, hand: &mut Hand) -> Op {
        self.fill.op(hand)
    }

    // At its end the directory has its new record, and none of its names is indexed.
    #[tactic(auto, using(crate::proofs::Fills::fill_on, crate::proofs::Fills::fill_ends))]
    fn next(
        &mut self,
        notes: &mut Notes,
        answer: &Answer,
        hand: &mut Hand,
        heard: &mut Heard,
    ) -> bool {
        match self.fill.next(answer, hand) {
            None => false,
            Some(filled) => {
                clear_index_at(self.seat, hand);
                change(self.seat, filled.inode, notes, hand);
                *heard = Heard::Is(filled.whole);
                true
            }
        }
    }
}
