//! An inode freed.
ghost use Rattle.std.specs.Prelude.{◌≡◌, None, IfSome, IfNone};
ghost use Rattle.inode_data.specs.Vocabulary.{store, IsAfter, answer_in, Goes, left_after, bare, HandState, number_in, record_in};
ghost use Rattle.inode_data.specs.Freeing.{freed};
ghost use Rattle.inode_data.specs.Emptying.{IsEmptying, HasNoBuffer};
ghost use Rattle.inode_data.specs.FreeingInodes.{beside_freeing, free_record, store_free, freeing_left, freeing_asked, freeing_of, FreeingReady, HasFreed};
ghost use Rattle.inode_data.specs.declared.truncate.Emptying.{Emptying as EmptyingState};

use crate::truncate::{Emptying, Truncate};
use fs_layout::{Dinode, Super};
use fs_machine::{Answer, Hand, InodePlace, Op, Part, Place, Routine};
use inode_table::{StoreRecord, record_at, unload_at};

/// Empties an inode without links and stores it with type 0, so that it may be taken again (xv6: `iput` of the last
/// reference). Nothing is loaded of it then.
#[derive(Clone, Copy, Drop)]
pub enum FreeInode {
    /// It is emptied.
    Truncating(Truncate),
    /// It is stored with type 0.
    Storing(Emptying, StoreRecord),
}

impl FreeInode {
    /// The inode whose lock is at a seat, on a disk with this superblock.
    pub fn begin(hand: &mut Hand, seat: InodePlace, sizes: &Super) -> FreeInode
        requires emptying { IsEmptying (record { seat = seat; sizes = sizes.now }) hand.old }
        requires free { HasNoBuffer hand.old }
        ensures program { freeing_left result hand.new ≡ free_record sizes.now (number_in seat hand.old) (record_in seat hand.old) }
        ensures ready { FreeingReady result hand.new }
        ensures about { freeing_of result ≡ record { seat = seat; sizes = sizes.now } }
        ensures beside { beside_freeing (record { seat = seat; sizes = sizes.now }) hand.new
            ≡ beside_freeing (record { seat = seat; sizes = sizes.now }) hand.old }
        ensures hand { bare hand.new ≡ bare hand.old }
    {
        FreeInode::Truncating(Truncate::begin(hand, seat, sizes))
    }
}

impl Routine for FreeInode {
    type Out = ();

    ghost Value = { Unit {0} };

    ghost value = { λ _ _. tt };

    ghost left = { freeing_left };

    ghost asked = { freeing_asked };

    ghost Ready = { FreeingReady };

    ghost About = { EmptyingState };

    ghost about = { freeing_of };

    ghost beside = { beside_freeing };

    ghost Ends = { λ m _ h. HasFreed (freeing_of m) h };

    fn op(&self, hand: &mut Hand) -> Op {
        match self {
            FreeInode::Truncating(truncate) => truncate.op(hand),
            FreeInode::Storing(_, store) => store.op(hand),
        }
    }

    #[tactic(auto, using(fs_machine::proofs::Going::goes_bind))]
    fn next(&mut self, answer: &Answer, hand: &mut Hand) -> Option<()> {
        match self {
            FreeInode::Truncating(truncate) => {
                let emptying = truncate.next(answer, hand)?;
                *self = store_free(emptying, hand);
                None
            }
            FreeInode::Storing(emptying, store) => {
                let seat = emptying.seat;
                store.next(answer, hand)?;
                unload_at(hand, seat);
                Some(())
            }
        }
    }
}

// It is stored with type 0.
fn store_free(emptying: Emptying, hand: &mut Hand) -> FreeInode
    requires emptying { IsEmptying emptying hand.old }
    requires free { HasNoBuffer hand.old }
    ensures program { freeing_left result hand.new
        ≡ store_free emptying.sizes (number_in emptying.seat hand.old) (record_in emptying.seat hand.old) }
    ensures ready { FreeingReady result hand.new }
    ensures about { freeing_of result ≡ emptying }
    ensures beside { beside_freeing emptying hand.new ≡ beside_freeing emptying hand.old }
    ensures hand { bare hand.new ≡ bare hand.old }
{
    let inode = free(*record_at(hand, emptying.seat));
    let Emptying { seat, sizes } = emptying;
    let store = StoreRecord::with(sizes.inodestart, hand, seat, inode, Place::First);
    FreeInode::Storing(emptying, store)
}

// The record of an inode that may be taken.
fn free(inode: Dinode) -> Dinode
    ensures { result ≡ freed inode }
{
    Dinode { kind: 0, ..inode }
}
