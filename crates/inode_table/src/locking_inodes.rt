//! An inode locked, and loaded if it isn't loaded.
ghost use Rattle.std.specs.Prelude.{◌≡◌, ◌<◌, ◌^◌, None, IfSome, IfNone, IsSome, MatchOption};
ghost use Rattle.inode_table.specs.Vocabulary.{Loaded, unindexed, buffer_at, IsAfter, answer_in, Goes, left_after, bare, Hand as HandState, inode_at, inode_in, number_at, reference_at, InodePlace};
ghost use Rattle.inode_table.specs.Programs.{inode_block, load, load_unless};
ghost use Rattle.inode_table.specs.Loading.{load_left, load_asked, load_place, LoadReady};
ghost use Rattle.inode_table.specs.HeldInodes.{number_in, HasBlock, loaded_in};
ghost use Rattle.inode_table.specs.LoadingHeld.{begun_left, HasBegun, beside_lock};
ghost use Rattle.inode_table.specs.LockingInodes.{held_left, lock_loaded, lock_left, lock_asked, lock_seat, HasLocked, LockReady};

use crate::place::{block_of, dinode_at};
use fs_layout::Dinode;
use fs_machine::{Answer, Fetch, Hand, InodePlace, Op, Part, Place, Routine};

/// Reads an inode from its block.
#[derive(Clone, Copy, Drop)]
pub enum LoadInode {
    /// The block of this inode is fetched.
    Fetching(u32, Fetch),
    /// It goes back, and had this.
    Give(Dinode, Place),
}

impl LoadInode {
    /// Inode `number` of a disk whose inode blocks begin at block `inodestart`.
    pub fn new(inodestart: u32, number: u32, place: Place) -> LoadInode
        requires { inode_block inodestart number < 2 ^ 32 }
        ensures program { (h : HandState) → load_left result h ≡ load inodestart number }
        ensures ready { (h : HandState) → buffer_at place h ≡ None → LoadReady result h }
        ensures place { load_place result ≡ place }
    {
        LoadInode::Fetching(number, Fetch::Get(place, block_of(inodestart, number)))
    }
}

impl Part for LoadInode {
    type Out = Dinode;

    ghost Value = { Loaded };

    ghost value = { λ d _. unindexed d };

    ghost left = { load_left };

    ghost asked = { load_asked };

    ghost Ready = { LoadReady };

    ghost place = { load_place };

    ghost About = { Unit {0} };

    ghost about = { λ _. tt };

    ghost Ends = { λ m _ h. buffer_at (load_place m) h ≡ None };

    fn op(&self, hand: &mut Hand) -> Op {
        match self {
            LoadInode::Fetching(_, fetch) => fetch.op(hand),
            LoadInode::Give(_, place) => Op::Give(*place),
        }
    }

    #[inline(always)]
    #[tactic(auto, using(fs_machine::proofs::Going::goes_bind, fs_machine::proofs::Goings::fetched_goes))]
    fn next(&mut self, answer: &Answer, hand: &Hand) -> Option<Dinode> {
        match self {
            LoadInode::Fetching(number, fetch) => {
                let number = *number;
                let fetched = fetch.next(answer, hand)?;
                let inode = dinode_at(hand, fetched.place, number);
                *self = LoadInode::Give(inode, fetched.place);
                None
            }
            LoadInode::Give(inode, _) => Some(*inode),
        }
    }
}

/// Begins to load it, on a disk whose inode blocks begin at block `inodestart`. None if it is loaded.
pub fn load_held(inodestart: u32, hand: &Hand, seat: InodePlace) -> Option<LoadInode>
    requires there { IsSome (inode_at seat hand.now) }
    requires block { HasBlock inodestart seat hand.now }
    requires free { hand.now.first ≡ None }
    ensures program { begun_left result seat hand.now ≡ load_unless inodestart (number_in seat hand.now) (inode_in seat hand.now).content }
    ensures begun { HasBegun seat result hand.now }
{
    if hand.is_loaded(seat) {
        return None;
    }
    Some(LoadInode::new(inodestart, hand.inode(seat).number(), Place::First))
}

/// Takes the lock of the inode of the reference at a seat, and loads the inode if it isn't loaded (xv6: `ilock`).
#[derive(Clone, Copy, Drop)]
pub enum LockInode {
    /// The lock is taken, on a disk whose inode blocks begin there.
    Lock(InodePlace, u32),
    /// The inode is loaded.
    Loading(InodePlace, LoadInode),
}

impl LockInode {
    /// On a disk whose inode blocks begin at block `inodestart`.
    pub fn new(inodestart: u32, seat: InodePlace) -> LockInode
        ensures program { (h : HandState) → lock_left result h ≡ lock_loaded inodestart (number_at seat h) }
        ensures ready { (h : HandState) → IsSome (reference_at seat h) → inode_at seat h ≡ None → h.first ≡ None
            → inode_block inodestart (number_at seat h) < 2 ^ 32 → LockReady result h }
        ensures seat { lock_seat result ≡ seat }
    {
        LockInode::Lock(seat, inodestart)
    }

    /// The same for an inode whose lock is at a seat already, with the reference. None if the inode is loaded.
    pub fn held(inodestart: u32, hand: &Hand, seat: InodePlace) -> Option<LockInode>
        requires there { IsSome (inode_at seat hand.now) }
        requires number { number_in seat hand.now ≡ number_at seat hand.now }
        requires block { HasBlock inodestart seat hand.now }
        requires free { hand.now.first ≡ None }
        ensures program { held_left result seat hand.now
            ≡ load_unless inodestart (number_in seat hand.now) (inode_in seat hand.now).content }
        ensures ready { MatchOption result (HasLocked seat hand.now) (λ lock. LockReady lock hand.now × (lock_seat lock ≡ seat)) }
    {
        match load_held(inodestart, hand, seat) {
            None => None,
            Some(load) => Some(LockInode::Loading(seat, load)),
        }
    }
}

impl Routine for LockInode {
    type Out = InodePlace;

    ghost Value = { Loaded };

    ghost value = { loaded_in };

    ghost left = { lock_left };

    ghost asked = { lock_asked };

    ghost Ready = { LockReady };

    ghost About = { InodePlace };

    ghost about = { lock_seat };

    ghost beside = { beside_lock };

    ghost Ends = { λ m k h. (k ≡ lock_seat m) × HasLocked k h };

    fn op(&self, hand: &mut Hand) -> Op {
        match self {
            LockInode::Lock(seat, _) => Op::Lock(*seat),
            LockInode::Loading(_, load) => load.op(hand),
        }
    }

    #[inline(always)]
    fn next(&mut self, answer: &Answer, hand: &mut Hand) -> Option<InodePlace> {
        match self {
            LockInode::Lock(seat, inodestart) => {
                let seat = *seat;
                match load_held(*inodestart, hand, seat) {
                    None => Some(seat),
                    Some(load) => {
                        *self = LockInode::Loading(seat, load);
                        None
                    }
                }
            }
            LockInode::Loading(seat, load) => {
                let seat = *seat;
                let Some(inode) = load.next(answer, hand) else {
                    return None;
                };
                hand.set_record(seat, inode);
                Some(seat)
            }
        }
    }
}
