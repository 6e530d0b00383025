//! A part of a content read.
ghost use Rattle.std.specs.Prelude.{◌≡◌, ◌+◌, ◌-◌, ◌≤◌, ℕ, List, length, Some, None, IfSome, IfNone};
ghost use Rattle.inode_data.specs.Vocabulary.{asks, Dinode as DinodeState, op_in, answer_in, CanDo, Prepared, IsAfter, Goes, left_after, HandState, First};
ghost use Rattle.inode_data.specs.Beginnings.{begun_of, IfBegun};
ghost use Rattle.inode_data.specs.Programs.{end_of, read_blocks, read_from};
ghost use Rattle.inode_data.specs.Locating.{Leaves};
ghost use Rattle.inode_data.specs.InHand.{NoBuffers};
ghost use Rattle.inode_data.specs.PartReading.{filled_in, filled_to, in_all, read_count, read_left, read_asked, HasRead, HasRoom, IsReading, ReadReady};

use crate::addresses::MOST_BLOCKS;
use crate::begun::Begun;
use crate::fetch_block::FetchBlock;
use crate::place::{blocks, copy_into};
use fs_layout::Dinode;
use fs_layout::widths::{BLOCK_LEN, Block};
use fs_machine::{Answer, Hand, Op, Part, Place};

/// What a read must still do.
#[derive(Clone, Copy, Drop)]
pub struct Reading {
    /// The number of bytes that were read.
    pub filled: usize,
    /// It goes on from this offset of the content ..
    pub from: usize,
    /// .. up to this one.
    pub upto: usize,
    /// The number of blocks to read after the next one.
    pub left: usize,
}

/// Reads bytes of a content, block by block (xv6: `readi`). The inode's record and the memory are lent to each step.
#[derive(Clone, Copy, Drop)]
pub enum ReadPart {
    /// The block of the next bytes is fetched.
    Fetching(Reading, FetchBlock),
    /// They were read, and it is given back.
    Giving(Reading),
}

impl ReadPart {
    /// At most `count` bytes from an offset on, and none past the size. The answer is how many these were.
    pub fn begin(inode: &Dinode, offset: u32, count: u32) -> Begun<ReadPart, usize>
        ensures program { (bytes : List ℕ) (h : HandState) → begun_of (λ m. read_left inode.now bytes m h) (λ n. filled_to n bytes) result
            ≡ read_from inode.now offset count bytes }
        ensures ready { (bytes : List ℕ) (h : HandState) → NoBuffers h → count ≤ length bytes
            → IfBegun (λ m. ReadReady bytes m h) (λ _. Unit {0}) result }
        ensures count { IfBegun (λ m. read_count m ≡ end_of inode.now offset count - offset)
            (λ n. n ≡ end_of inode.now offset count - offset) result }
    {
        let from = offset as usize;
        let upto = (from + count as usize).min((inode.size as usize).min(BLOCK_LEN * MOST_BLOCKS));
        let reading = Reading {
            filled: 0,
            from,
            upto,
            left: blocks(from, upto),
        };
        next(inode, &reading)
    }

    /// The next operation.
    pub fn op(&self, hand: &mut Hand) -> Op
        requires ready { (bytes : List ℕ) × ReadReady bytes self.now hand.old }
        ensures op { result ≡ read_asked self.now }
        ensures asks { (d : DinodeState) (bytes : List ℕ) → asks (read_left d bytes self.now hand.old) ≡ Some (op_in hand.new result) }
        ensures can { CanDo result hand.new }
        ensures prepared { Prepared result hand.old hand.new }
    {
        match self {
            ReadPart::Fetching(_, fetch) => fetch.op(hand),
            ReadPart::Giving(_) => Op::Give(Place::First),
        }
    }

    /// How it goes on.
    #[inline(always)]
    #[tactic(auto, using(fs_machine::proofs::Going::goes_bind))]
    pub fn next(
        &mut self,
        inode: &Dinode,
        memory: &mut [u8],
        answer: &Answer,
        hand: &Hand,
    ) -> Option<usize>
        requires came { (before : HandState) × ReadReady memory.old self.old before
            × IsAfter (read_asked self.old) before answer.now hand.now }
        ensures goes { (before : HandState) → ReadReady memory.old self.old before
            → IsAfter (read_asked self.old) before answer.now hand.now
            → Goes (read_left inode.now memory.old self.old before) (answer_in (read_asked self.old) answer.now hand.now)
            (left_after (read_left inode.now memory.new) (λ n _. filled_to n memory.new) result self.new hand.now) }
        ensures ready { IfNone result (ReadReady memory.new self.new hand.now) }
        ensures over { IfSome result (λ _. NoBuffers hand.now) }
        ensures still { IfNone result (read_count self.new ≡ read_count self.old) }
        ensures count { IfSome result (λ n. (n ≡ read_count self.old) × (n ≤ length memory.new)) }
        ensures beside { (before : HandState) → ReadReady memory.old self.old before
            → IsAfter (read_asked self.old) before answer.now hand.now
            → Leaves before hand.now }
    {
        match self {
            ReadPart::Fetching(reading, fetch) => {
                fetch.next(answer, hand)?;
                let reading = copied(reading, memory, hand.block(Place::First));
                *self = ReadPart::Giving(reading);
                None
            }
            ReadPart::Giving(reading) => match next(inode, reading) {
                Begun::Is(count) => Some(count),
                Begun::Runs(part) => {
                    *self = part;
                    None
                }
            },
        }
    }
}

// Goes on with the next block, if one is left.
#[tactic(auto, unfolding(crate::specs::Programs::read_blocks))]
fn next(inode: &Dinode, reading: &Reading) -> Begun<ReadPart, usize>
    requires { IsReading reading.now.left reading.now }
    ensures program { (bytes : List ℕ) (h : HandState)
        → begun_of (λ m. read_left inode.now bytes m h) (λ n. filled_to n bytes) result
        ≡ read_blocks reading.now.left inode.now reading.now.from reading.now.upto (filled_in reading.now bytes) }
    ensures ready { (bytes : List ℕ) (h : HandState) → NoBuffers h → HasRoom reading.now bytes
        → IfBegun (λ m. ReadReady bytes m h) (λ _. Unit {0}) result }
    ensures count { IfBegun (λ m. read_count m ≡ in_all reading.now) (λ n. n ≡ in_all reading.now) result }
{
    if reading.left == 0 {
        return Begun::Is(reading.filled);
    }
    let reading = Reading {
        left: reading.left - 1,
        ..*reading
    };
    let fetch = FetchBlock::new(inode, reading.from / BLOCK_LEN);
    Begun::Runs(ReadPart::Fetching(reading, fetch))
}

// Copies the block's part after what was read before.
fn copied(reading: &Reading, memory: &mut [u8], block: &Block) -> Reading
    requires ready { IsReading (reading.now.left + 1) reading.now }
    requires room { HasRoom reading.now memory.old }
    ensures { HasRead reading.now memory.old block.now result memory.new }
{
    let start = reading.from % BLOCK_LEN;
    let count = (reading.upto - reading.from).min(BLOCK_LEN - start);
    copy_into(memory, reading.filled, &block[start..start + count]);
    Reading {
        filled: reading.filled + count,
        from: reading.from + (BLOCK_LEN - start),
        ..*reading
    }
}
