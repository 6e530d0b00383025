//! A new inode.
ghost use Rattle.std.specs.Prelude.{◌≡◌, ◌<◌, ◌≤◌, ◌+◌, ◌-◌, ◌*◌, ◌^◌, take, None, IsSome, IfSome, IfNone};
ghost use Rattle.inode_table.specs.Vocabulary.{MatchOption, i16_at, inode_len, inodes_per_block, Ret, bytes_of, bytes_at, reference_at, IsAfter, answer_in, Goes, left_after, bare, Hand as HandState, First, InodePlace};
ghost use Rattle.inode_table.specs.NewInodes.{free_in, inode_blocks, is_free_in, new_from, new_inode, new_record};
ghost use Rattle.inode_table.specs.declared.new_inode.Made.{Made as MadeState};
ghost use Rattle.inode_table.specs.Making.{new_left, new_value, new_asked, new_seat, beside_new, claimed_of, rest_of, HasFree, HasInodes, IsLooking, NewEnds, NewReady};

use crate::place::write_dinode_at;
use byteorder::{ByteOrder, LittleEndian};
use fs_layout::widths::{ADDRESSES, Block, INODE_LEN, INODES_PER_BLOCK};
use fs_layout::{Dinode, Super};
use fs_machine::{Answer, Fetch, Hand, InodePlace, Op, Part, Place, Routine};

/// The result of a search for a new inode.
#[derive(Clone, Copy, Drop)]
pub enum Made {
    /// The inode of this number was taken, and the reference to it is in hand.
    Inode(u32),
    /// Each of the fifty places for inodes in memory is referred to.
    NoPlace,
    /// Each inode was in use, or referred to, when its block was looked at.
    NoInode,
}

/// What a search for a new inode has in hand.
#[derive(Drop, Clone, Copy)]
pub struct Looking {
    /// The type of the new inode.
    pub kind: i16,
    pub sizes: Super,
    /// The number of inode blocks before the one that is looked at.
    pub before: u32,
    /// The number of inode blocks to look at after it.
    pub left: u32,
}

/// Takes the first inode, by rising number, whose type is 0 and that has no reference, and records it with its type
/// (xv6: `ialloc`). The reference to it is at a seat then.
#[derive(Clone, Copy, Drop)]
pub enum NewInode {
    /// An inode block is fetched.
    Fetching(InodePlace, Looking, Fetch),
    /// It is there, and the numbers of its free inodes are in hand.
    Look(InodePlace, Looking),
    /// One of them was claimed, of this number.
    Record(InodePlace, Looking, u32),
    /// None could be claimed, because each place in memory is referred to.
    GiveBack(InodePlace, Looking),
}

impl NewInode {
    /// An inode of this type, not 0, on a disk with this superblock, whose inodes are at least one.
    #[tactic(auto, unfolding(crate::specs::NewInodes::new_from))]
    pub fn new(kind: i16, sizes: &Super, seat: InodePlace) -> NewInode
        requires some { 0 < sizes.now.ninodes }
        requires blocks { sizes.now.inodestart + inode_blocks sizes.now.ninodes < 2 ^ 32 }
        ensures program { (h : HandState) → new_left result h ≡ new_inode kind sizes.now }
        ensures ready { (h : HandState) → h.first ≡ None → h.second ≡ None → reference_at seat h ≡ None → IsSome h.txn → NewReady result h }
        ensures seat { new_seat result ≡ seat }
    {
        let blocks = (sizes.ninodes - 1) / INODES_PER_BLOCK as u32 + 1;
        let looking = Looking {
            kind,
            sizes: *sizes,
            before: 0,
            left: blocks - 1,
        };
        look_at(seat, looking)
    }
}

impl Routine for NewInode {
    type Out = Made;

    ghost Value = { MadeState };

    ghost value = { new_value };

    ghost left = { new_left };

    ghost asked = { new_asked };

    ghost Ready = { NewReady };

    ghost About = { InodePlace };

    ghost about = { new_seat };

    ghost beside = { beside_new };

    ghost Ends = { NewEnds };

    fn op(&self, hand: &mut Hand) -> Op {
        match self {
            NewInode::Fetching(_, _, fetch) => fetch.op(hand),
            NewInode::Look(seat, _) => Op::Claim(Place::First, *seat),
            NewInode::Record(_, looking, number) => {
                write_dinode_at(hand, Place::First, *number, &as_new(looking.kind));
                Op::Record(Place::First)
            }
            NewInode::GiveBack(_, _) => Op::Give(Place::First),
        }
    }

    #[tactic(auto, using(fs_machine::proofs::Going::goes_bind, fs_machine::proofs::Goings::fetched_goes))]
    fn next(&mut self, answer: &Answer, hand: &mut Hand) -> Option<Made> {
        match self {
            NewInode::Fetching(seat, looking, fetch) => {
                let seat = *seat;
                let looking = *looking;
                fetch.next(answer, hand)?;
                hold_free(looking, hand);
                *self = NewInode::Look(seat, looking);
                None
            }
            NewInode::Look(seat, looking) => {
                let seat = *seat;
                let looking = *looking;
                match *answer {
                    Answer::Number(number) => {
                        *self = NewInode::Record(seat, looking, number);
                        None
                    }
                    Answer::Is(_) => {
                        *self = NewInode::GiveBack(seat, looking);
                        None
                    }
                    Answer::Nothing => {
                        if looking.left == 0 {
                            return Some(none_left(looking));
                        }
                        *self = look_at(seat, after(looking));
                        None
                    }
                    _ => unreachable!(),
                }
            }
            NewInode::Record(_, _, number) => Some(Made::Inode(*number)),
            NewInode::GiveBack(_, _) => Some(Made::NoPlace),
        }
    }
}

// The next block is fetched.
#[tactic(auto, unfolding(crate::specs::NewInodes::new_from))]
fn look_at(seat: InodePlace, looking: Looking) -> NewInode
    requires { IsLooking looking }
    ensures program { (h : HandState) → new_left result h ≡ new_from (looking.left + 1) looking.kind looking.sizes looking.before }
    ensures ready { (h : HandState) → h.first ≡ None → h.second ≡ None → reference_at seat h ≡ None → IsSome h.txn → NewReady result h }
    ensures seat { new_seat result ≡ seat }
{
    let block = looking.sizes.inodestart + looking.before;
    NewInode::Fetching(seat, looking, Fetch::Get(Place::First, block))
}

// The same for the next block.
fn after(looking: Looking) -> Looking
    requires some { 0 < looking.left }
    requires fits { IsLooking looking }
    ensures { result ≡ record looking { before = looking.before + 1; left = looking.left - 1 } }
{
    Looking {
        before: looking.before + 1,
        left: looking.left - 1,
        ..looking
    }
}

// The result of a search that has no block left.
#[tactic(auto, unfolding(crate::specs::NewInodes::new_from))]
fn none_left(looking: Looking) -> Made
    requires { looking.left ≡ 0 }
    ensures program { (h : HandState) → rest_of looking ≡ Ret (new_value result h) }
    ensures none { claimed_of result ≡ None }
{
    Made::NoInode
}

// Takes the numbers of the free inodes of the block at the first place in hand.
fn hold_free(looking: Looking, hand: &mut Hand)
    requires { HasInodes hand.old }
    ensures free { HasFree looking hand.new }
    ensures hand { hand.new ≡ record hand.old { numbers = hand.new.numbers; count = hand.new.count } }
{
    let block = hand.block(Place::First);
    let (numbers, count) = free_numbers(block, looking.sizes.ninodes, looking.before);
    hand.numbers = numbers;
    hand.count = count as u8;
}

// The type of an inode, read alone.
#[tactic(auto, unfolding(fs_layout::specs::Bytes::u16_at))]
fn kind_at(block: &Block, place: usize) -> i16
    requires { place < inodes_per_block }
    ensures { result ≡ i16_at block.now (inode_len * place) }
{
    LittleEndian::read_i16(&block[INODE_LEN * place..])
}

// Whether an inode can be used and is free, by its block.
fn is_free(block: &Block, number: usize, ninodes: u32) -> bool
    ensures { result ≡ is_free_in ninodes block.now number }
{
    0 < number && number < ninodes as usize && kind_at(block, number % INODES_PER_BLOCK) == 0
}

/// The free inodes of an inode block that comes after `before` others, and how many there are.
pub fn free_numbers(block: &Block, ninodes: u32, before: u32) -> ([u32; INODES_PER_BLOCK], usize)
    ensures count { result.1 ≤ inodes_per_block }
    ensures numbers { take result.1 result.0 ≡ free_in ninodes before block.now }
{
    let mut numbers = [0; INODES_PER_BLOCK];
    let mut count = 0;
    for k in 0..INODES_PER_BLOCK {
        let number = INODES_PER_BLOCK * before as usize + k;
        if is_free(block, number, ninodes) {
            numbers[count] = number as u32;
            count += 1;
        }
    }
    (numbers, count)
}

/// A new inode's record: all but its type is zero.
pub fn as_new(kind: i16) -> Dinode
    ensures { result ≡ new_record kind }
{
    Dinode {
        kind,
        major: 0,
        minor: 0,
        nlink: 0,
        size: 0,
        addrs: [0; ADDRESSES],
    }
}
