//! A block of a content taken.
ghost use Rattle.inode_data.specs.Vocabulary.{MatchOption, numbers_in, numbers_per_block, buffer_at, bytes_at, IsAfter, answer_in, Goes, left_after, bare, HandState, FetchEnds};
ghost use Rattle.std.specs.Prelude.{IsSome, ◌≡◌, ◌<◌, ℕ, Some, None, IfSome, IfNone, slice_index};
ghost use Rattle.inode_data.specs.Widths.{most_blocks};
ghost use Rattle.inode_data.specs.Programs.{FetchedBlock, fetch_block};
ghost use Rattle.inode_data.specs.InHand.{FetchesFirst, NoBuffers};
ghost use Rattle.inode_data.specs.FetchingBlocks.{block_left, block_asked, block_place, BlockReady, fetched_block};

use crate::addresses::{Address, DIRECT, address_of};
use crate::place::number_at;
use fs_layout::Dinode;
use fs_machine::{Answer, Fetch, Fetched, Hand, Op, Part, Place};

/// Takes the buffer of a block of a content, valid, after a touch of the indirect block if that has the block's
/// number (xv6: `bmap` of a block that is there).
#[derive(Clone, Copy, Drop)]
pub enum FetchBlock {
    /// The indirect block is fetched, for the number at this place.
    Table(usize, Fetch),
    /// It is given back; this is the number.
    Number(u32, Place),
    /// The block is fetched.
    Block(Fetch),
}

impl FetchBlock {
    /// Block `k` of the content of this inode, by way of the first place.
    pub fn new(inode: &Dinode, k: usize) -> FetchBlock
        requires { k < most_blocks }
        ensures program { (h : HandState) → block_left result h ≡ fetch_block inode.now k }
        ensures ready { (h : HandState) → NoBuffers h → FetchesFirst result h }
    {
        match address_of(k) {
            Address::Direct(i) => FetchBlock::Block(Fetch::Get(Place::First, inode.addrs[i])),
            Address::InTable(i) => {
                FetchBlock::Table(i, Fetch::Get(Place::First, inode.addrs[DIRECT]))
            }
        }
    }
}

impl Part for FetchBlock {
    type Out = Fetched;

    ghost Value = { FetchedBlock };

    ghost value = { fetched_block };

    ghost left = { block_left };

    ghost asked = { block_asked };

    ghost Ready = { BlockReady };

    ghost place = { block_place };

    ghost About = { Unit {0} };

    ghost about = { λ _. tt };

    ghost Ends = { λ m out h. MatchOption (buffer_at out.place h) ⊥ (λ g. IsSome g.value.content) × (out.place ≡ block_place m) };

    fn op(&self, hand: &mut Hand) -> Op {
        match self {
            FetchBlock::Table(_, fetch) => fetch.op(hand),
            FetchBlock::Number(_, place) => Op::Give(*place),
            FetchBlock::Block(fetch) => fetch.op(hand),
        }
    }

    #[inline(always)]
    fn next(&mut self, answer: &Answer, hand: &Hand) -> Option<Fetched> {
        match self {
            FetchBlock::Table(i, fetch) => {
                let i = *i;
                let Some(fetched) = fetch.next(answer, hand) else {
                    return None;
                };
                let number = number_at(hand, fetched.place, i);
                *self = FetchBlock::Number(number, fetched.place);
                None
            }
            FetchBlock::Number(number, place) => {
                *self = FetchBlock::Block(Fetch::Get(*place, *number));
                None
            }
            FetchBlock::Block(fetch) => fetch.next(answer, hand),
        }
    }
}
