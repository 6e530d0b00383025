//! A block given back.
ghost use Rattle.std.specs.Prelude.{◌≡◌, ℕ, None, IsSome, IfSome, IfNone};
ghost use Rattle.bitmap_alloc.specs.Vocabulary.{buffer_at, with_buffer, IsAfter, answer_in, Goes, left_after, bare, Hand as HandState};
ghost use Rattle.bitmap_alloc.specs.Programs.{free_block};
ghost use Rattle.bitmap_alloc.specs.FreeingBlocks.{free_left, free_asked, free_place, FreeReady};

use crate::bits::clear;
use fs_machine::{Answer, Fetch, Hand, Op, Part, Place};

/// Clears a block's bit, so that it may be taken (xv6: `bfree`).
#[derive(Clone, Copy, Drop)]
pub enum FreeBlock {
    /// The bitmap is fetched, for this block.
    Bitmap(u32, Fetch),
    /// It is there, and goes back with this block's bit clear.
    Unmark(u32, Place),
}

impl FreeBlock {
    /// Block `b` of a disk whose bitmap is block `bmapstart`. A number past the bitmap has no bit, and changes none.
    pub fn new(bmapstart: u32, b: u32, place: Place) -> FreeBlock
        ensures program { (h : HandState) → free_left result h ≡ free_block bmapstart b }
        ensures ready { (h : HandState) → buffer_at place h ≡ None → IsSome h.txn → FreeReady result h }
        ensures place { free_place result ≡ place }
    {
        FreeBlock::Bitmap(b, Fetch::Get(place, bmapstart))
    }
}

impl Part for FreeBlock {
    type Out = ();

    ghost Value = { Unit {0} };

    ghost value = { λ _ _. tt };

    ghost left = { free_left };

    ghost asked = { free_asked };

    ghost Ready = { FreeReady };

    ghost place = { free_place };

    ghost About = { Unit {0} };

    ghost about = { λ _. tt };

    ghost Ends = { λ m _ h. buffer_at (free_place m) h ≡ None };

    fn op(&self, hand: &mut Hand) -> Op {
        match self {
            FreeBlock::Bitmap(_, fetch) => fetch.op(hand),
            FreeBlock::Unmark(b, place) => {
                clear(hand.block_mut(*place), *b as usize);
                Op::Record(*place)
            }
        }
    }

    #[tactic(auto, using(fs_machine::proofs::Going::goes_bind, fs_machine::proofs::Goings::fetched_goes))]
    fn next(&mut self, answer: &Answer, hand: &Hand) -> Option<()> {
        match self {
            FreeBlock::Bitmap(b, fetch) => {
                let b = *b;
                let place = fetch.next(answer, hand)?.place;
                *self = FreeBlock::Unmark(b, place);
                None
            }
            FreeBlock::Unmark(_, _) => Some(()),
        }
    }
}
