//! A block taken.
ghost use Rattle.std.specs.Prelude.{◌≡◌, ◌≤◌, ℕ, Option, None, IsSome, IfSome, IfNone};
ghost use Rattle.bitmap_alloc.specs.Vocabulary.{bits_per_block, buffer_at, with_buffer, IsAfter, answer_in, Goes, left_after, bare, Hand as HandState};
ghost use Rattle.bitmap_alloc.specs.Programs.{take_block};
ghost use Rattle.bitmap_alloc.specs.Taking.{take_left, take_asked, take_place, TakeReady};

use crate::bits::{set, zero};
use crate::search::first_clear;
use fs_machine::{Answer, Fetch, Hand, Op, Part, Place};

/// Takes a free block and fills it with zeros (xv6: `balloc`). None if no block is free.
#[derive(Clone, Copy, Drop)]
pub enum TakeBlock {
    /// The bitmap is fetched, of a disk of this size.
    Bitmap(u32, Fetch),
    /// It goes back with this bit set, or as it was.
    Mark(Option<u32>, Place),
    /// The block of this number is fetched.
    Block(u32, Fetch),
    /// It goes back with zeros.
    Zero(u32, Place),
}

impl TakeBlock {
    /// By the bitmap at this block, of a disk of this size.
    pub fn new(at: u32, size: u32, place: Place) -> TakeBlock
        requires { size ≤ bits_per_block }
        ensures program { (h : HandState) → take_left result h ≡ take_block at size }
        ensures ready { (h : HandState) → buffer_at place h ≡ None → IsSome h.txn → TakeReady result h }
        ensures place { take_place result ≡ place }
    {
        TakeBlock::Bitmap(size, Fetch::Get(place, at))
    }
}

impl Part for TakeBlock {
    type Out = Option<u32>;

    ghost Value = { Option ℕ };

    ghost value = { λ number _. number };

    ghost left = { take_left };

    ghost asked = { take_asked };

    ghost Ready = { TakeReady };

    ghost place = { take_place };

    ghost About = { Unit {0} };

    ghost about = { λ _. tt };

    ghost Ends = { λ m _ h. buffer_at (take_place m) h ≡ None };

    #[inline(always)]
    fn op(&self, hand: &mut Hand) -> Op {
        match self {
            TakeBlock::Bitmap(_, fetch) => fetch.op(hand),
            TakeBlock::Mark(found, place) => match found {
                None => Op::Give(*place),
                Some(b) => {
                    set(hand.block_mut(*place), *b as usize);
                    Op::Record(*place)
                }
            },
            TakeBlock::Block(_, fetch) => fetch.op(hand),
            TakeBlock::Zero(_, place) => {
                zero(hand.block_mut(*place));
                Op::Record(*place)
            }
        }
    }

    #[inline(always)]
    #[tactic(auto, using(fs_machine::proofs::Going::goes_bind, fs_machine::proofs::Goings::fetched_goes))]
    fn next(&mut self, answer: &Answer, hand: &Hand) -> Option<Option<u32>> {
        match self {
            TakeBlock::Bitmap(size, fetch) => {
                let size = *size as usize;
                let place = fetch.next(answer, hand)?.place;
                *self = TakeBlock::Mark(first_clear(hand.block(place), size), place);
                None
            }
            TakeBlock::Mark(found, place) => match *found {
                None => Some(None),
                Some(b) => {
                    *self = TakeBlock::Block(b, Fetch::Get(*place, b));
                    None
                }
            },
            TakeBlock::Block(b, fetch) => {
                let b = *b;
                let place = fetch.next(answer, hand)?.place;
                *self = TakeBlock::Zero(b, place);
                None
            }
            TakeBlock::Zero(b, _) => Some(Some(*b)),
        }
    }
}
