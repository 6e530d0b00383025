//! A part of a content written.
ghost use Rattle.std.specs.Prelude.{◌≡◌, ◌≢◌, ◌+◌, ◌<◌, ◌≤◌, ◌^◌, ℕ, List, drop, length, Some, None, IsSome, IfSome, IfNone};
ghost use Rattle.inode_data.specs.Vocabulary.{MatchOption, bits_per_block, asks, inode_block, op_in, answer_in, bind, CanDo, Prepared, IsAfter, Goes, left_after, HandState};
ghost use Rattle.inode_data.specs.Widths.{most_bytes};
ghost use Rattle.inode_data.specs.Writing.{grown, write_part};
ghost use Rattle.inode_data.specs.Locating.{Leaves};
ghost use Rattle.inode_data.specs.InHand.{NoBuffers};
ghost use Rattle.inode_data.specs.declared.write_part.WritePart.TheVariants as parts;
ghost use Rattle.inode_data.specs.PartWriting.{after_location, blocks_behind, stored, write_left, write_asked, write_rest, written_as, written_so, BeginsAmid, IsPast, IsWithin, IsWriting, WriteReady};

use crate::begun::Begun;
use crate::locate::{Locate, Located};
use crate::place::{blocks, write_at};
use fs_layout::widths::BLOCK_LEN;
use fs_layout::{Dinode, Super};
use fs_machine::{Answer, Control, Fetch, Hand, Op, Part, Place};
use inode_table::StoreInode;

/// What a writing must still do.
#[derive(Clone, Copy, Drop)]
pub struct Writing {
    /// The inode's number.
    pub number: u32,
    /// The superblock of its disk.
    pub sizes: Super,
    /// It goes on at this offset of the content.
    pub at: usize,
    /// The number of bytes that were written.
    pub done: usize,
    /// The number of blocks to write after the next one.
    pub left: usize,
}

/// What a writing ends with: the inode as it was stored, and the offset of its content up to which the bytes were
/// written. That is their end, or the block that is missing if none was free.
#[derive(Clone, Copy, Drop)]
pub struct Written {
    pub inode: Dinode,
    pub upto: usize,
}

/// Writes bytes into a content, block by block, and then stores the inode (xv6: `writei`). A block that is missing is
/// taken; if none is free, only the bytes before it are written. The bytes are lent to each step.
#[derive(Drop)]
pub enum WritePart {
    /// The next block is sought, and taken if it is missing.
    Locating(Writing, Locate),
    /// It is fetched. The inode's record so far is this, with the blocks that were taken.
    Fetching(Writing, Dinode, Fetch),
    /// It is there.
    There(Writing, Dinode),
    /// The inode is stored.
    Storing(Written, StoreInode),
}

impl WritePart {
    /// `count` bytes from an offset on, into the content of inode `number`, whose record is `inode`, on a disk with
    /// this superblock.
    pub fn begin(number: u32, inode: &Dinode, sizes: &Super, offset: u32, count: usize) -> WritePart
        requires within { offset + count ≤ most_bytes }
        requires size { sizes.now.size ≤ bits_per_block }
        requires block { inode_block sizes.now.inodestart number < 2 ^ 32 }
        ensures program { (bytes : List ℕ) (h : HandState) → length bytes ≡ count → write_left bytes result h
            ≡ write_part sizes.now number inode.now offset bytes }
        ensures ready { (bytes : List ℕ) (h : HandState) → NoBuffers h → IsSome h.txn → WriteReady bytes result h }
    {
        let at = offset as usize;
        let writing = Writing {
            number,
            sizes: *sizes,
            at,
            done: 0,
            left: blocks(at, at + count),
        };
        onward(&writing, inode)
    }

    /// The next operation. The next block's part of the bytes is written in its buffer.
    pub fn op(&self, bytes: &[u8], hand: &mut Hand) -> Op
        requires ready { WriteReady bytes.now self.now hand.old }
        ensures op { result ≡ write_asked self.now }
        ensures asks { asks (write_left bytes.now self.now hand.old) ≡ Some (op_in hand.new result) }
        ensures can { CanDo result hand.new }
        ensures prepared { Prepared result hand.old hand.new }
    {
        match self {
            WritePart::Locating(_, locate) => locate.op(hand),
            WritePart::Fetching(_, _, fetch) => fetch.op(hand),
            WritePart::There(writing, _) => {
                write_at(hand, writing.at, rest(bytes, writing.done));
                Op::Record(Place::First)
            }
            WritePart::Storing(_, store) => store.op(hand),
        }
    }

    /// How it goes on.
    #[tactic(auto, using(fs_machine::proofs::Going::goes_bind, fs_machine::proofs::Goings::fetched_goes))]
    #[inline(always)]
    pub fn next(&mut self, bytes: &[u8], answer: &Answer, hand: &mut Hand) -> Option<Written>
        requires came { (before : HandState) × WriteReady bytes.now self.old before
            × IsAfter (write_asked self.old) before answer.now hand.old }
        ensures goes { (before : HandState) → WriteReady bytes.now self.old before
            → IsAfter (write_asked self.old) before answer.now hand.old
            → Goes (write_left bytes.now self.old before) (answer_in (write_asked self.old) answer.now hand.old)
            (left_after (write_left bytes.now) (λ r _. written_as r) result self.new hand.new) }
        ensures ready { IfNone result (WriteReady bytes.now self.new hand.new) }
        ensures same { hand.new ≡ hand.old }
        ensures over { IfSome result (λ _. NoBuffers hand.new) }
        ensures within { IfSome result (λ r. IsWithin r) }
        ensures beside { (before : HandState) → WriteReady bytes.now self.old before
            → IsAfter (write_asked self.old) before answer.now hand.old → Leaves before hand.old }
    {
        match self {
            WritePart::Locating(writing, locate) => {
                let located = locate.next(answer, hand)?;
                let writing = *writing;
                seek_on(self, writing, &located);
                None
            }
            WritePart::Fetching(writing, so_far, fetch) => {
                fetch.next(answer, hand)?;
                let (writing, so_far) = (*writing, *so_far);
                fetch_on(self, writing, so_far);
                None
            }
            WritePart::There(writing, so_far) => {
                let (writing, so_far) = (*writing, *so_far);
                pass(self, writing, so_far, bytes.len());
                None
            }
            WritePart::Storing(written, store) => {
                store.next(answer, hand)?;
                Some(*written)
            }
        }
    }
}

// Goes on after the next block was sought.
#[inline(always)]
fn seek_on(at: &mut WritePart, writing: Writing, located: &Located)
    requires { IsWriting (writing.left + 1) writing }
    ensures program { (bytes : List ℕ) (h : HandState) → write_left bytes at.new h ≡ after_location writing bytes located.now }
    ensures ready { BeginsAmid writing.done at.new }
{
    *at = found(&writing, located);
}

// Goes on after its buffer was fetched.
#[inline(always)]
fn fetch_on(at: &mut WritePart, writing: Writing, so_far: Dinode)
    ensures { at.new ≡ parts.There writing so_far }
{
    *at = WritePart::There(writing, so_far);
}

// Goes on after it was written; `count` is the number of all bytes.
#[inline(always)]
fn pass(at: &mut WritePart, writing: Writing, so_far: Dinode, count: usize)
    requires ready { IsWriting (writing.left + 1) writing }
    requires there { writing.done ≤ count }
    ensures program { (bytes : List ℕ) (h : HandState) → length bytes ≡ count
        → write_left bytes at.new h ≡ bind (blocks_behind writing bytes so_far) (stored writing) }
    ensures ready { (bytes : List ℕ) (h : HandState) → length bytes ≡ count → NoBuffers h → IsSome h.txn → WriteReady bytes at.new h }
{
    let next = passed(&writing, count);
    *at = onward(&next, &so_far);
}

// Goes on with the next block, or with the store.
#[inline(always)]
fn onward(writing: &Writing, so_far: &Dinode) -> WritePart
    requires { IsWriting writing.now.left writing.now }
    ensures program { (bytes : List ℕ) (h : HandState) → write_left bytes result h ≡ write_rest writing.now so_far.now bytes }
    ensures ready { BeginsAmid writing.now.done result }
{
    if writing.left == 0 {
        return store(writing, so_far);
    }
    next_of(writing, so_far)
}

// Goes on with the next block, which is sought.
#[inline(always)]
fn next_of(writing: &Writing, so_far: &Dinode) -> WritePart
    requires ready { IsWriting writing.now.left writing.now }
    requires some { writing.now.left ≢ 0 }
    ensures program { (bytes : List ℕ) (h : HandState) → write_left bytes result h ≡ write_rest writing.now so_far.now bytes }
    ensures ready { BeginsAmid writing.now.done result }
{
    let writing = Writing {
        left: writing.left - 1,
        ..*writing
    };
    match Locate::begin(so_far, &writing.sizes, writing.at / BLOCK_LEN) {
        Begun::Runs(locate) => WritePart::Locating(writing, locate),
        Begun::Is(located) => found(&writing, &located),
    }
}

// Goes on after the next block was sought.
#[inline(always)]
fn found(writing: &Writing, located: &Located) -> WritePart
    requires { IsWriting (writing.now.left + 1) writing.now }
    ensures program { (bytes : List ℕ) (h : HandState) → write_left bytes result h ≡ after_location writing.now bytes located.now }
    ensures ready { BeginsAmid writing.now.done result }
{
    match located.number {
        None => store(writing, &located.inode),
        Some(b) => WritePart::Fetching(*writing, located.inode, Fetch::Get(Place::First, b)),
    }
}

// The inode is stored.
fn store(writing: &Writing, so_far: &Dinode) -> WritePart
    requires { IsWriting 0 writing.now }
    ensures program { (bytes : List ℕ) (h : HandState)
        → write_left bytes result h ≡ stored writing.now (written_so so_far.now writing.now) }
    ensures ready { BeginsAmid writing.now.done result }
{
    let inode = grown(writing, so_far);
    let store = StoreInode::new(
        writing.sizes.inodestart,
        writing.number,
        inode,
        Place::First,
    );
    let written = Written {
        inode,
        upto: writing.at,
    };
    WritePart::Storing(written, store)
}

// The record that is to be stored.
fn grown(writing: &Writing, so_far: &Dinode) -> Dinode
    requires { IsWriting 0 writing.now }
    ensures { result ≡ grown (written_so so_far.now writing.now) }
{
    Dinode {
        size: so_far.size.max(writing.at as u32),
        ..*so_far
    }
}

// The writing past the next block, which was written; `count` is the number of all bytes.
fn passed(writing: &Writing, count: usize) -> Writing
    requires ready { IsWriting (writing.now.left + 1) writing.now }
    requires there { writing.now.done ≤ count }
    ensures { (bytes : List ℕ) → length bytes ≡ count → IsPast writing.now bytes result }
{
    let part = (BLOCK_LEN - writing.at % BLOCK_LEN).min(count - writing.done);
    Writing {
        at: writing.at + part,
        done: writing.done + part,
        ..*writing
    }
}

// The bytes after the first `done`.
fn rest(bytes: &[u8], done: usize) -> &[u8]
    requires { done ≤ length bytes.now }
    ensures { result.now ≡ drop done bytes.now }
{
    &bytes[done..]
}
