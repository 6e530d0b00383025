//! A content emptied.
ghost use Rattle.std.specs.Prelude.{◌≡◌, ◌<◌, ◌^◌, ℕ, take, None, IsSome, IfSome, IfNone, slice_index};
ghost use Rattle.inode_data.specs.Vocabulary.{MatchOption, numbers_in, numbers_per_block, Dinode as DinodeState, bind, free_block, buffer_at, inode_in, IsAfter, answer_in, Goes, left_after, bare, HandState, Second, number_in, record_in, IsLoadedAt};
ghost use Rattle.inode_data.specs.Freeing.{truncate, without_content};
ghost use Rattle.inode_data.specs.Numbers.{IsNext};
ghost use Rattle.inode_data.specs.Emptying.{record_rest, indirect_rest, own_rest, listed_rest, truncate_left, truncate_asked, emptying_of, beside_emptying, IsEmptying, HasTable, HasNoBuffer, TruncateReady};
ghost use Rattle.inode_data.specs.declared.truncate.Emptying.{Emptying as EmptyingState};

use crate::addresses::DIRECT;
use crate::numbers::{next_listed, next_own};
use crate::place::{block_number, next_at, number_at};
use bitmap_alloc::FreeBlock;
use fs_layout::widths::ADDRESSES;
use fs_layout::{Dinode, Super};
use fs_machine::{Answer, Fetch, Hand, InodePlace, Op, Part, Place, Routine};
use inode_table::{StoreRecord, record_at};

/// What an emptying is about: the seat of the inode's lock, and the places of the disk's parts.
#[derive(Clone, Copy, Drop)]
pub struct Emptying {
    pub seat: InodePlace,
    pub sizes: Super,
}

/// Gives back all blocks of an inode, the bitmap touched once for each, and then stores its record without them (xv6:
/// `itrunc`). The indirect block is in the second place of the hand.
#[derive(Clone, Copy, Drop)]
pub enum Truncate {
    /// The block is given back that the inode's number at this place names.
    Own(Emptying, usize, FreeBlock),
    /// The indirect block is fetched.
    Indirect(Emptying, Fetch),
    /// The block is given back that the indirect block's number at this place names.
    Listed(Emptying, usize, FreeBlock),
    /// All that the indirect block names were given back, and its buffer goes back: that of this block.
    GiveBack(Emptying, u32),
    /// The indirect block itself is given back.
    Table(Emptying, FreeBlock),
    /// The record is stored.
    Record(Emptying, StoreRecord),
}

impl Truncate {
    /// The content of the inode whose lock is at a seat, on a disk with this superblock.
    pub fn begin(hand: &mut Hand, seat: InodePlace, sizes: &Super) -> Truncate
        requires emptying { IsEmptying (record { seat = seat; sizes = sizes.now }) hand.old }
        requires free { HasNoBuffer hand.old }
        ensures program { truncate_left result hand.new ≡ truncate sizes.now (number_in seat hand.old) (record_in seat hand.old) }
        ensures ready { TruncateReady result hand.new }
        ensures about { emptying_of result ≡ record { seat = seat; sizes = sizes.now } }
        ensures beside { beside_emptying (record { seat = seat; sizes = sizes.now }) hand.new
            ≡ beside_emptying (record { seat = seat; sizes = sizes.now }) hand.old }
        ensures hand { bare hand.new ≡ bare hand.old }
    {
        let emptying = Emptying {
            seat,
            sizes: *sizes,
        };
        free_own(emptying, 0, hand)
    }
}

impl Routine for Truncate {
    type Out = Emptying;

    ghost Value = { DinodeState };

    ghost value = { λ e h. record_in e.seat h };

    ghost left = { truncate_left };

    ghost asked = { truncate_asked };

    ghost Ready = { TruncateReady };

    ghost About = { EmptyingState };

    ghost about = { emptying_of };

    ghost beside = { beside_emptying };

    ghost Ends = { λ m e h. (e ≡ emptying_of m) × IsEmptying e h × HasNoBuffer h };

    fn op(&self, hand: &mut Hand) -> Op {
        match self {
            Truncate::Own(_, _, free) => free.op(hand),
            Truncate::Indirect(_, fetch) => fetch.op(hand),
            Truncate::Listed(_, _, free) => free.op(hand),
            Truncate::GiveBack(_, _) => Op::Give(Place::Second),
            Truncate::Table(_, free) => free.op(hand),
            Truncate::Record(_, store) => store.op(hand),
        }
    }

    #[inline(always)]
    #[tactic(auto, using(fs_machine::proofs::Going::goes_bind, fs_machine::proofs::Goings::fetched_goes))]
    fn next(&mut self, answer: &Answer, hand: &mut Hand) -> Option<Emptying> {
        match self {
            Truncate::Own(emptying, at, free) => {
                let emptying = *emptying;
                let at = *at;
                free.next(answer, hand)?;
                *self = free_own(emptying, at + 1, hand);
                None
            }
            Truncate::Indirect(emptying, fetch) => {
                let emptying = *emptying;
                fetch.next(answer, hand)?;
                *self = free_listed(emptying, 0, hand);
                None
            }
            Truncate::Listed(emptying, at, free) => {
                let emptying = *emptying;
                let at = *at;
                free.next(answer, hand)?;
                *self = free_listed(emptying, at + 1, hand);
                None
            }
            Truncate::GiveBack(emptying, table) => {
                let emptying = *emptying;
                let free = FreeBlock::new(emptying.sizes.bmapstart, *table, Place::First);
                *self = Truncate::Table(emptying, free);
                None
            }
            Truncate::Table(emptying, free) => {
                let emptying = *emptying;
                free.next(answer, hand)?;
                *self = store(emptying, hand);
                None
            }
            Truncate::Record(emptying, store) => {
                let emptying = *emptying;
                store.next(answer, hand)?;
                Some(emptying)
            }
        }
    }
}

// Gives back the blocks that the inode itself names, from a place on; then goes on.
fn free_own(emptying: Emptying, from: usize, hand: &mut Hand) -> Truncate
    requires emptying { IsEmptying emptying hand.old }
    requires free { HasNoBuffer hand.old }
    ensures program { truncate_left result hand.new ≡ own_rest emptying from (inode_in emptying.seat hand.old) }
    ensures ready { TruncateReady result hand.new }
    ensures about { emptying_of result ≡ emptying }
    ensures beside { beside_emptying emptying hand.new ≡ beside_emptying emptying hand.old }
    ensures hand { bare hand.new ≡ bare hand.old }
{
    let inode = record_at(hand, emptying.seat);
    match next_own(inode, from) {
        None => free_indirect(emptying, hand),
        Some(at) => {
            let free = FreeBlock::new(emptying.sizes.bmapstart, inode.addrs[at], Place::First);
            Truncate::Own(emptying, at, free)
        }
    }
}

// Fetches the indirect block, if there is one.
fn free_indirect(emptying: Emptying, hand: &mut Hand) -> Truncate
    requires emptying { IsEmptying emptying hand.old }
    requires free { HasNoBuffer hand.old }
    ensures program { truncate_left result hand.new ≡ indirect_rest emptying (inode_in emptying.seat hand.old) }
    ensures ready { TruncateReady result hand.new }
    ensures about { emptying_of result ≡ emptying }
    ensures beside { beside_emptying emptying hand.new ≡ beside_emptying emptying hand.old }
    ensures hand { bare hand.new ≡ bare hand.old }
{
    let table = record_at(hand, emptying.seat).addrs[DIRECT];
    if table == 0 {
        return store(emptying, hand);
    }
    Truncate::Indirect(emptying, Fetch::Get(Place::Second, table))
}

// Gives back the blocks that the indirect block names, from a place on; then its buffer goes back.
fn free_listed(emptying: Emptying, from: usize, hand: &Hand) -> Truncate
    requires emptying { IsEmptying emptying hand.now }
    requires table { HasTable hand.now }
    requires free { hand.now.first ≡ None }
    ensures program { truncate_left result hand.now ≡ listed_rest emptying from (inode_in emptying.seat hand.now) hand.now.second }
    ensures ready { TruncateReady result hand.now }
    ensures about { emptying_of result ≡ emptying }
{
    match next_at(hand, Place::Second, from) {
        None => Truncate::GiveBack(emptying, block_number(hand, Place::Second)),
        Some(at) => {
            let number = number_at(hand, Place::Second, at);
            let free = FreeBlock::new(emptying.sizes.bmapstart, number, Place::First);
            Truncate::Listed(emptying, at, free)
        }
    }
}

// The record is stored without the blocks.
fn store(emptying: Emptying, hand: &mut Hand) -> Truncate
    requires emptying { IsEmptying emptying hand.old }
    requires free { HasNoBuffer hand.old }
    ensures program { truncate_left result hand.new ≡ record_rest emptying (inode_in emptying.seat hand.old) }
    ensures ready { TruncateReady result hand.new }
    ensures about { emptying_of result ≡ emptying }
    ensures beside { beside_emptying emptying hand.new ≡ beside_emptying emptying hand.old }
    ensures hand { bare hand.new ≡ bare hand.old }
{
    let inode = without(*record_at(hand, emptying.seat));
    let Emptying { seat, sizes } = emptying;
    let store = StoreRecord::with(sizes.inodestart, hand, seat, inode, Place::First);
    Truncate::Record(emptying, store)
}

// A record without a content.
fn without(inode: Dinode) -> Dinode
    ensures { result ≡ without_content inode }
{
    Dinode {
        size: 0,
        addrs: [0; ADDRESSES],
        ..inode
    }
}
