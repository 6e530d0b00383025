//! An inode stored, as it is in hand or like a record.
ghost use Rattle.std.specs.Prelude.{◌≡◌, ◌<◌, ◌^◌, ℕ, None, IsSome, IfSome, IfNone};
ghost use Rattle.inode_table.specs.Programs.{inode_block, store};
ghost use Rattle.inode_table.specs.Vocabulary.{buffer_at, with_buffer, with_record, IsAfter, answer_in, Goes, left_after, bare, Hand as HandState, InodePlace};
ghost use Rattle.inode_table.specs.HeldInodes.{counted, number_in, record_in, HasBlock, IsLoadedAt};
ghost use Rattle.inode_table.specs.StoringRecords.{record_left, record_asked, record_place, record_seat, RecordReady};
ghost use Rattle.inode_table.specs.Storing.{store_left, store_asked, store_place, StoreReady};

use crate::held::record_at;
use crate::place::{block_of, write_dinode_at};
use fs_layout::Dinode;
use fs_machine::{Answer, Fetch, Hand, InodePlace, Op, Part, Place};

/// Records the inode whose lock is at a seat in its block, as it is in hand (xv6: `iupdate`).
#[derive(Clone, Copy, Drop)]
pub enum StoreRecord {
    /// The block is fetched.
    Fetching(InodePlace, Fetch),
    /// It is there.
    Write(InodePlace, Place),
}

impl StoreRecord {
    /// On a disk whose inode blocks begin at block `inodestart`.
    pub fn new(inodestart: u32, hand: &Hand, seat: InodePlace, place: Place) -> StoreRecord
        requires loaded { IsLoadedAt seat hand.now }
        requires block { HasBlock inodestart seat hand.now }
        ensures program { record_left result hand.now ≡ store inodestart (number_in seat hand.now) (record_in seat hand.now) }
        ensures ready { buffer_at place hand.now ≡ None → IsSome hand.now.txn → RecordReady result hand.now }
        ensures place { record_place result ≡ place }
        ensures seat { record_seat result ≡ seat }
    {
        let block = block_of(inodestart, hand.inode(seat).number());
        StoreRecord::Fetching(seat, Fetch::Get(place, block))
    }

    /// The same, and from then on the inode has this record in hand.
    pub fn with(
        inodestart: u32,
        hand: &mut Hand,
        seat: InodePlace,
        inode: Dinode,
        place: Place,
    ) -> StoreRecord
        requires loaded { IsLoadedAt seat hand.old }
        requires block { HasBlock inodestart seat hand.old }
        ensures program { record_left result hand.new ≡ store inodestart (number_in seat hand.old) inode }
        ensures record { record_in seat hand.new ≡ inode }
        ensures ready { buffer_at place hand.old ≡ None → IsSome hand.old.txn → RecordReady result hand.new }
        ensures place { record_place result ≡ place }
        ensures seat { record_seat result ≡ seat }
        ensures hand { hand.new ≡ with_record seat inode hand.old }
    {
        hand.set_record(seat, inode);
        StoreRecord::new(inodestart, hand, seat, place)
    }

    /// The same, and from then on the inode has this count of links in hand.
    pub fn with_count(
        inodestart: u32,
        hand: &mut Hand,
        seat: InodePlace,
        count: u32,
        place: Place,
    ) -> StoreRecord
        requires loaded { IsLoadedAt seat hand.old }
        requires block { HasBlock inodestart seat hand.old }
        requires count { count < 2 ^ 15 }
        ensures program { record_left result hand.new
            ≡ store inodestart (number_in seat hand.old) (counted count (record_in seat hand.old)) }
        ensures record { record_in seat hand.new ≡ counted count (record_in seat hand.old) }
        ensures ready { buffer_at place hand.old ≡ None → IsSome hand.old.txn → RecordReady result hand.new }
        ensures place { record_place result ≡ place }
        ensures seat { record_seat result ≡ seat }
        ensures hand { hand.new ≡ with_record seat (counted count (record_in seat hand.old)) hand.old }
    {
        let inode = counted(*record_at(hand, seat), count);
        StoreRecord::with(inodestart, hand, seat, inode, place)
    }
}

impl Part for StoreRecord {
    type Out = ();

    ghost Value = { Unit {0} };

    ghost value = { λ _ _. tt };

    ghost left = { record_left };

    ghost asked = { record_asked };

    ghost Ready = { RecordReady };

    ghost place = { record_place };

    ghost About = { InodePlace };

    ghost about = { record_seat };

    ghost Ends = { λ m _ h. (buffer_at (record_place m) h ≡ None) × IsLoadedAt (record_seat m) h };

    #[inline(never)]
    fn op(&self, hand: &mut Hand) -> Op {
        match self {
            StoreRecord::Fetching(_, fetch) => fetch.op(hand),
            StoreRecord::Write(seat, place) => {
                let inode = *record_at(hand, *seat);
                let number = hand.inode(*seat).number();
                write_dinode_at(hand, *place, number, &inode);
                Op::Record(*place)
            }
        }
    }

    #[tactic(auto, using(fs_machine::proofs::Going::goes_bind, fs_machine::proofs::Goings::fetched_goes))]
    fn next(&mut self, answer: &Answer, hand: &Hand) -> Option<()> {
        match self {
            StoreRecord::Fetching(seat, fetch) => {
                let seat = *seat;
                let fetched = fetch.next(answer, hand)?;
                *self = StoreRecord::Write(seat, fetched.place);
                None
            }
            StoreRecord::Write(_, _) => Some(()),
        }
    }
}

// A record with this count of links.
fn counted(inode: Dinode, count: u32) -> Dinode
    requires { count < 2 ^ 15 }
    ensures { result ≡ counted count inode }
{
    Dinode {
        nlink: count as i16,
        ..inode
    }
}

/// Records an inode in its block, by its number and its record (xv6: `iupdate`).
#[derive(Drop)]
pub enum StoreInode {
    /// The block of this inode is fetched.
    Fetching(u32, Dinode, Fetch),
    /// The block is there.
    Write(u32, Dinode, Place),
}

impl StoreInode {
    /// Inode `number` of a disk whose inode blocks begin at block `inodestart`, with this record.
    pub fn new(inodestart: u32, number: u32, inode: Dinode, place: Place) -> StoreInode
        requires { inode_block inodestart number < 2 ^ 32 }
        ensures program { (h : HandState) → store_left result h ≡ store inodestart number inode }
        ensures ready { (h : HandState) → buffer_at place h ≡ None → IsSome h.txn → StoreReady result h }
        ensures place { store_place result ≡ place }
    {
        let fetch = Fetch::Get(place, block_of(inodestart, number));
        StoreInode::Fetching(number, inode, fetch)
    }
}

impl Part for StoreInode {
    type Out = ();

    ghost Value = { Unit {0} };

    ghost value = { λ _ _. tt };

    ghost left = { store_left };

    ghost asked = { store_asked };

    ghost Ready = { StoreReady };

    ghost place = { store_place };

    ghost About = { Unit {0} };

    ghost about = { λ _. tt };

    ghost Ends = { λ m _ h. buffer_at (store_place m) h ≡ None };

    fn op(&self, hand: &mut Hand) -> Op {
        match self {
            StoreInode::Fetching(_, _, fetch) => fetch.op(hand),
            StoreInode::Write(number, inode, place) => {
                write_dinode_at(hand, *place, *number, inode);
                Op::Record(*place)
            }
        }
    }

    #[tactic(auto, using(fs_machine::proofs::Going::goes_bind, fs_machine::proofs::Goings::fetched_goes))]
    fn next(&mut self, answer: &Answer, hand: &Hand) -> Option<()> {
        match self {
            StoreInode::Fetching(number, inode, fetch) => {
                let fetched = fetch.next(answer, hand)?;
                *self = StoreInode::Write(*number, *inode, fetched.place);
                None
            }
            StoreInode::Write(_, _, _) => Some(()),
        }
    }
}
