//! Operations that change an inode, each as a part: its count is put, it is emptied, freed, or made.
ghost use Rattle.std.specs.Prelude.{◌≡◌, ℕ};
ghost use Rattle.inode_parts.specs.Vocabulary.{Store, Empty, Free, Hand as HandState, new_value, Claim, type_of};
ghost use Rattle.inode_parts.specs.Starts.{HasStarted};
ghost use Rattle.inode_parts.specs.Stores.{store_part_left, store_part_asked, StoreAmid, StoreBegins, StorePartReady};
ghost use Rattle.inode_parts.specs.Empties.{empty_part_left, empty_part_asked, EmptyAmid, EmptyBegins, EmptyPartReady};
ghost use Rattle.inode_parts.specs.Frees.{free_left, free_asked, FreeAmid, FreeBegins, FreeReady};
ghost use Rattle.inode_machine.specs.Inodes as whole;
ghost use Rattle.inode_parts.specs.Claims.{claim_left, claim_asked, claimed_by, ClaimAmid, ClaimBegins, ClaimReady};

use crate::note::{Note, Notes};
use crate::opening::kind;
use crate::operation::Operation;
use crate::part::InodePart;
use crate::places::{free_seat, lock_seat};
use fs_layout::Super;
use fs_machine::{Answer, Hand, InodePlace, Op, Part, Place, Routine};
use inode_data::{FreeInode, Truncate};
use inode_table::{NewInode, StoreRecord};
use path_walk::{Heard, InodeType};

/// The inode whose lock is at this seat is stored, as it is in hand.
#[derive(Clone, Copy, Drop)]
pub struct StorePart {
    pub seat: InodePlace,
    pub store: StoreRecord,
}

impl InodePart {
    /// Begins to store inode `number`, which has this count from here on, on a disk with this superblock.
    #[inline(always)]
    #[tactic(auto, using(crate::proofs::Stores::store_is_part))]
    pub(crate) fn begin_store(&mut self, number: u32, count: u32, sizes: &Super, hand: &mut Hand)
        requires { StoreBegins sizes.now number count hand.old }
        ensures { HasStarted sizes.now (Store number count) hand.old self.new hand.new }
    {
        let seat = lock_seat(hand, number);
        let store = StoreRecord::with_count(sizes.inodestart, hand, seat, count, Place::First);
        *self = InodePart::Store(StorePart { seat, store });
    }
}

impl Operation for StorePart {
    ghost left = { store_part_left };

    ghost asked = { store_part_asked };

    ghost Ready = { StorePartReady };

    // The inode, and its count.
    ghost About = { ℕ × ℕ };

    ghost above = { λ a. Store a.0 a.1 };

    ghost Amid = { λ a. StoreAmid a.0 };

    // The inode is written in its block's buffer.
    fn op(&self, hand: &mut Hand) -> Op {
        self.store.op(hand)
    }

    #[tactic(auto, using(crate::proofs::Stores::store_on, crate::proofs::Stores::store_ends))]
    fn next(
        &mut self,
        notes: &mut Notes,
        answer: &Answer,
        hand: &mut Hand,
        heard: &mut Heard,
    ) -> bool {
        match self.store.next(answer, hand) {
            None => false,
            Some(()) => {
                notes.set(self.seat, Note::Nothing);
                *heard = Heard::WasDone;
                true
            }
        }
    }
}

/// All blocks of an inode are given back, and it is stored without them.
#[derive(Clone, Copy, Drop)]
pub struct EmptyPart {
    pub truncate: Truncate,
}

impl InodePart {
    /// Begins to give back all blocks of inode `number`, on a disk with this superblock.
    #[inline(always)]
    #[tactic(auto, using(crate::proofs::Empties::empty_is_part))]
    pub(crate) fn begin_empty(&mut self, number: u32, sizes: &Super, hand: &mut Hand)
        requires { EmptyBegins sizes.now number hand.old }
        ensures { HasStarted sizes.now (Empty number) hand.old self.new hand.new }
    {
        let seat = lock_seat(hand, number);
        let truncate = Truncate::begin(hand, seat, sizes);
        *self = InodePart::Empty(EmptyPart { truncate });
    }
}

impl Operation for EmptyPart {
    ghost left = { empty_part_left };

    ghost asked = { empty_part_asked };

    ghost Ready = { EmptyPartReady };

    // The inode.
    ghost About = { ℕ };

    ghost above = { Empty };

    ghost Amid = { EmptyAmid };

    fn op(&self, hand: &mut Hand) -> Op {
        self.truncate.op(hand)
    }

    #[tactic(auto, using(crate::proofs::Empties::empty_on, crate::proofs::Empties::empty_ends))]
    fn next(
        &mut self,
        notes: &mut Notes,
        answer: &Answer,
        hand: &mut Hand,
        heard: &mut Heard,
    ) -> bool {
        match self.truncate.next(answer, hand) {
            None => false,
            Some(emptying) => {
                notes.set(emptying.seat, Note::Nothing);
                *heard = Heard::WasDone;
                true
            }
        }
    }
}

/// An inode without links, whose lock is at this seat, is emptied and stored so that it may be taken again.
#[derive(Clone, Copy, Drop)]
pub struct FreePart {
    pub seat: InodePlace,
    pub free: FreeInode,
}

impl InodePart {
    /// Begins to free the inode of this number, on a disk of these sizes.
    #[inline(always)]
    pub(crate) fn begin_free(&mut self, number: u32, sizes: &Super, hand: &mut Hand)
        requires { FreeBegins sizes.now number hand.old }
        ensures { HasStarted sizes.now (Free number) hand.old self.new hand.new }
    {
        let seat = lock_seat(hand, number);
        let free = FreeInode::begin(hand, seat, sizes);
        *self = InodePart::Free(FreePart { seat, free });
    }
}

impl Operation for FreePart {
    ghost left = { free_left };

    ghost asked = { free_asked };

    ghost Ready = { FreeReady };

    // The inode.
    ghost About = { ℕ };

    ghost above = { Free };

    ghost Amid = { FreeAmid };

    fn op(&self, hand: &mut Hand) -> Op {
        self.free.op(hand)
    }

    fn next(
        &mut self,
        notes: &mut Notes,
        answer: &Answer,
        hand: &mut Hand,
        heard: &mut Heard,
    ) -> bool {
        match self.free.next(answer, hand) {
            None => false,
            Some(()) => {
                notes.set(self.seat, Note::Freed);
                *heard = Heard::WasDone;
                true
            }
        }
    }
}

/// An inode is sought that is free, and recorded with its type. The reference to it is in hand then.
#[derive(Clone, Copy, Drop)]
pub struct ClaimPart {
    pub claim: NewInode,
}

impl InodePart {
    /// Begins to seek a free inode, for a new one of this type, on a disk of these sizes.
    #[inline(always)]
    pub(crate) fn begin_claim(&mut self, inode_type: InodeType, sizes: &Super, hand: &Hand)
        requires { ClaimBegins sizes.now hand.now }
        ensures { HasStarted sizes.now (Claim (type_of inode_type)) hand.now self.new hand.now }
    {
        let claim = NewInode::new(kind(inode_type), sizes, free_seat(hand));
        *self = InodePart::Claim(ClaimPart { claim });
    }
}

impl Operation for ClaimPart {
    ghost left = { claim_left };

    ghost asked = { claim_asked };

    ghost Ready = { ClaimReady };

    // The type.
    ghost About = { whole.InodeType };

    ghost above = { Claim };

    ghost Amid = { λ _. ClaimAmid };

    // The new record is written in its block's buffer.
    fn op(&self, hand: &mut Hand) -> Op {
        self.claim.op(hand)
    }

    fn next(
        &mut self,
        notes: &mut Notes,
        answer: &Answer,
        hand: &mut Hand,
        heard: &mut Heard,
    ) -> bool {
        match self.claim.next(answer, hand) {
            None => false,
            Some(made) => {
                *heard = Heard::Claimed(claimed(made));
                true
            }
        }
    }
}

// The search's result, as a call hears it.
fn claimed(made: inode_table::Made) -> path_walk::Claimed
    ensures { (h : HandState) → result ≡ claimed_by (new_value made h) }
{
    match made {
        inode_table::Made::Inode(number) => path_walk::Claimed::New(number),
        inode_table::Made::NoPlace => path_walk::Claimed::NoPlace,
        inode_table::Made::NoInode => path_walk::Claimed::NoInode,
    }
}
