//! The kernel, its seats, and the calls that they make.
ghost use Rattle.std.specs.Prelude.{◌≡◌, ◌≢◌, ◌<◌, ◌≤◌, ◌+◌, ◌++◌, ◌∷◌, [], ℕ, Some, None, All, map, sum_by, IfOk, IfErr, IfNone, IfSome, OnOk, OnErr, length, slice_get, true};
ghost use Rattle.block_device.specs.Blocks.{blocks_of};
ghost use Rattle.image_tree.specs.Images.{IsWellFormed, JudgesFault};
ghost use Rattle.locked_world.specs.Kept.{replies_of, count_of};
ghost use Rattle.hart_runner.specs.Seats.{kept_view, kept_of, busy_of, IsListed, OneDiffers, Differs};
ghost use Rattle.hart_runner.specs.Calls.{WentOn, IsAnswered, IsRefused, StillBusy};

use crate::gate::Gate;
use fs_machine::Kind;
use image_tree::MountFault;
use locked_world::{
    Begun, Closed, Halt, Locked, LockedOutcome, NotStarted, Receipt, Share, StartRefused, filled,
    is_handed_back,
};
use plain_tree::{Call, Reply};
use std::alloc::{AllocFailed, Global};
use std::marker::Model;
use std::sync::atomic::AtomicU64;
use std::sync::ledger::{Blank, Ledger};
use std::sync::{Condvar, Mutex, MutexGuard, Wait};
use std::time::Duration;

// How often a worker looks for the lock before it sleeps until it is free.
const LOOKS: u32 = 64;

// How many microseconds a worker sleeps between two looks. What a step works on is in the cache of the processor that
// made the last one, and to move it takes longer than many steps do. So each worker makes many events before another
// one has the lock, when several want it.
const ASIDE: u64 = 1000;

// What is under the lock: the world, and how many workers wait for others.
struct Inside<L: Ledger> {
    locked: Box<Locked<L>>,
    waiting: usize,
}

/// One lock round a locked world, of which threads make calls, each on a seat of its own.
///
/// It must be spent, by `close`, which takes all seats: so no seat can be lost.
pub struct Kernel<L: Ledger, G: Gate + Drop> {
    inside: Mutex<Inside<L>>,
    moved: Condvar,
    gate: G,
}

/// The right to make calls on one hart, with a copy of each reply that it had.
#[derive(Drop)]
pub struct Seat<L: Ledger> {
    share: Share<L>,
    replies: Vec<Reply>,
}

impl<L: Ledger> Model for Seat<L> {
    ghost use Rattle.hart_runner.specs.Seats.{SeatV};

    ghost Value = { SeatV };

    ghost view = { λ s. record { hart = s.share.hart; replies = s.replies.items; count = s.share.tally.amount } };
}

/// A seat whose call has not been answered.
#[derive(Drop)]
pub struct BusySeat<L: Ledger> {
    share: Share<L>,
    replies: Vec<Reply>,
    begun: Begun<L>,
    tries: u64,
}

impl<L: Ledger> Model for BusySeat<L> {
    ghost use Rattle.std.specs.Prelude.{◌≡◌, ◌<◌, vec_len, vec_capacity};
    ghost use Rattle.hart_runner.specs.Seats.{BusyV};

    ghost Value = { BusyV };

    ghost view = { λ s. record { hart = s.share.hart; replies = s.replies.items; count = s.share.tally.amount; call = s.begun.call } };

    ghost invariant = { λ s. (vec_len s.replies < vec_capacity s.replies) × (s.begun.hart ≡ s.share.hart) };
}

/// Why there is no reply.
#[derive(Drop)]
pub enum CallFault<L: Ledger> {
    /// The call was refused at its start.
    Start(Seat<L>, Call, StartRefused),
    /// Memory was refused before the call was started.
    Memory(Seat<L>, Call),
    /// The call was started, and is stopped. After want of memory it can go on.
    Stopped(BusySeat<L>, Halt),
}

/// A reply of a hart that is not the one in the list; the list may have none there.
#[derive(Drop)]
pub struct Strange<L: Ledger> {
    pub hart: u8,
    /// Counted from 0 among the hart's replies.
    pub place: u64,
    pub closed: Closed<L>,
}

/// How a call's steps ended.
#[derive(Drop)]
pub enum CallEnd<L: Ledger> {
    Done(Receipt<L>),
    Halts(Halt),
}

impl<L: Ledger> Seat<L> {
    pub fn hart(&self) -> u8
        ensures { result ≡ self.now.hart }
    {
        self.share.hart()
    }
}

// A hart, with the replies that its seat kept.
#[derive(Drop)]
struct Kept {
    hart: u8,
    replies: Vec<Reply>,
}

// The shares of the seats, and what the seats kept.
#[tactic(auto, using(crate::proofs::Eight::eight))]
fn parted<L: Ledger>(seats: [Seat<L>; 8]) -> ([Share<L>; 8], [Kept; 8])
    ensures counts { sum_by (λ s. s.tally.amount) result.0 ≡ sum_by (λ s. s.count) seats }
    ensures kept { map kept_view result.1 ≡ map kept_of seats }
{
    let [a, b, c, d, e, f, g, h] = seats;
    let (a, of_a) = split(a);
    let (b, of_b) = split(b);
    let (c, of_c) = split(c);
    let (d, of_d) = split(d);
    let (e, of_e) = split(e);
    let (f, of_f) = split(f);
    let (g, of_g) = split(g);
    let (h, of_h) = split(h);
    (
        [a, b, c, d, e, f, g, h],
        [of_a, of_b, of_c, of_d, of_e, of_f, of_g, of_h],
    )
}

// The share of a seat, and what it kept.
fn split<L: Ledger>(seat: Seat<L>) -> (Share<L>, Kept)
    ensures share { result.0.tally.amount ≡ seat.count }
    ensures kept { kept_view result.1 ≡ kept_of seat }
{
    let Seat { share, replies } = seat;
    let hart = share.hart();
    (share, Kept { hart, replies })
}

// The first hart and place of these that is not in the list.
#[tactic(auto, using(crate::proofs::Listed::grown, crate::proofs::Listed::found, crate::proofs::Listed::whole))]
fn first_strange<L: Ledger>(closed: &Closed<L>, kept: &[Kept; 8]) -> Option<(u8, u64)>
    ensures none { IfNone result (All (IsListed closed.now.stored) (map kept_view kept.now)) }
    ensures some { IfSome result (λ r. OneDiffers r.0 r.1 closed.now.stored (map kept_view kept.now)) }
{
    for i in 0..8 {
        let one = &kept[i];
        if let Some(place) = closed.difference(one.hart, one.replies.as_slice()) {
            return Some((one.hart, place));
        }
    }
    None
}

// A seat with no replies.
fn make_seat<L: Ledger>(alloc: Global, share: Share<L>) -> Seat<L>
    ensures { result ≡ record { hart = share.hart; replies = []; count = share.tally.amount } }
{
    Seat {
        share,
        replies: Vec::new(alloc),
    }
}

// A seat for each share.
#[tactic(auto, using(crate::proofs::Eight::eight))]
fn seats_of<L: Ledger>(alloc: Global, shares: [Share<L>; 8]) -> [Seat<L>; 8]
    ensures harts { map (λ s. s.hart) result ≡ map (λ s. s.hart) shares }
    ensures fresh { All (λ s. s.tally.amount ≡ 0) shares → All (λ s. (s.replies ≡ []) × (s.count ≡ 0)) result }
{
    let [a, b, c, d, e, f, g, h] = shares;
    [
        make_seat(alloc, a),
        make_seat(alloc, b),
        make_seat(alloc, c),
        make_seat(alloc, d),
        make_seat(alloc, e),
        make_seat(alloc, f),
        make_seat(alloc, g),
        make_seat(alloc, h),
    ]
}

impl<L: Ledger> BusySeat<L> {
    /// Gives the reply up, for a halted kernel.
    pub fn give_up(self) -> Seat<L>
        ensures { result ≡ record { hart = self.hart; replies = self.replies; count = self.count } }
    {
        let BusySeat {
            share,
            replies,
            begun: _,
            tries: _,
        } = self;
        Seat { share, replies }
    }
}

impl<L: Ledger, G: Gate + Drop> Kernel<L, G> {
    /// A kernel over this image, on a disk that passes `fuse` calls and then fails, and a seat for each hart. It
    /// answers the image's first damage, a failure of the device, or want of memory.
    pub fn open(
        alloc: Global,
        blank: Blank,
        image: Vec<u8>,
        fuse: u64,
        gate: G,
    ) -> Result<(Kernel<L, G>, [Seat<L>; 8]), MountFault>
        requires name { blank.name ≡ L.name }
        requires parts { blank.parts ≡ L.parts }
        requires eight { blank.parts ≡ 8 }
        ensures harts { IfOk result (λ r. map (λ s. s.hart) r.1 ≡ 0 ∷ 1 ∷ 2 ∷ 3 ∷ 4 ∷ 5 ∷ 6 ∷ 7 ∷ []) }
        ensures fresh { IfOk result (λ r. All (λ s. (s.replies ≡ []) × (s.count ≡ 0)) r.1) }
        ensures well { IfOk result (λ _. IsWellFormed (blocks_of image.items)) }
        ensures fault { IfErr result (λ fault. JudgesFault (blocks_of image.items) fault) }
    {
        let (locked, parts) = match Locked::new(alloc, blank, image, fuse) {
            Ok(made) => made,
            Err(fault) => return Err(fault),
        };
        let locked = match Box::new(alloc, locked) {
            Ok(locked) => locked,
            Err(AllocFailed { value }) => {
                let _closed = value.end(parts);
                return Err(MountFault::NoMemory);
            }
        };
        let kernel = Kernel {
            inside: Mutex::new(Inside { locked, waiting: 0 }),
            moved: Condvar::new(),
            gate,
        };
        Ok((kernel, seats_of(alloc, parts)))
    }

    /// Ends the kernel, without a call of the device. `Ok` only if each seat's replies are those of its hart in the
    /// list, in their order. The seats together then count the calls that were started and answered.
    #[tactic(auto, using(crate::proofs::Listed::all_seats))]
    pub fn close(self, seats: [Seat<L>; 8]) -> Result<Closed<L>, Strange<L>>
        requires { L.parts ≡ 8 }
        ensures same { IfOk result (λ c. All (λ s. s.replies ≡ replies_of s.hart c.stored) seats) }
        ensures counted { IfOk result (λ c. count_of c.stored ≡ sum_by (λ s. s.count) seats) }
        ensures strange { IfErr result (λ e. Differs e.hart e.place e.closed.stored seats) }
    {
        let Kernel {
            inside,
            moved: _,
            gate: _,
        } = self;
        let (shares, kept) = parted(seats);
        let Inside { locked, waiting: _ } = inside.into_inner();
        let closed = Box::into_inner(locked).end(shares);
        match first_strange(&closed, &kept) {
            Some((hart, place)) => Err(Strange {
                hart,
                place,
                closed,
            }),
            None => Ok(closed),
        }
    }

    /// Makes a call of the seat's hart, and waits for its reply, which is the hart's next one in the list and hands this call back. Room
    /// for it is taken before the start.
    pub fn call<R: Wait>(
        &self,
        rt: &R,
        seat: Seat<L>,
        call: Call,
    ) -> Result<(Seat<L>, Receipt<L>), CallFault<L>>
        ensures ok { IfOk result (λ r. IsAnswered (busy_of seat call) r.0 r.1) }
        ensures err { IfErr result (λ e. IsRefused seat call e) }
    {
        let Seat {
            mut share,
            mut replies,
        } = seat;
        if replies.reserve(1).is_err() {
            return Err(CallFault::Memory(Seat { share, replies }, call));
        }
        let hart = share.hart();
        let started = self.enter(rt).locked.start(&mut share, hart, call);
        match started {
            Ok(begun) => {
                let busy = BusySeat {
                    share,
                    replies,
                    begun,
                    tries: 0,
                };
                self.resume(rt, busy)
            }
            Err((call, why)) => match why {
                NotStarted::Refused(why) => {
                    Err(CallFault::Start(Seat { share, replies }, call, why))
                }
                NotStarted::NoMemory => Err(CallFault::Memory(Seat { share, replies }, call)),
            },
        }
    }

    /// Goes on with a call that was stopped. It is stopped again if nothing has changed.
    pub fn resume<R: Wait>(
        &self,
        rt: &R,
        busy: BusySeat<L>,
    ) -> Result<(Seat<L>, Receipt<L>), CallFault<L>>
        ensures ok { IfOk result (λ r. IsAnswered busy r.0 r.1) }
        ensures err { IfErr result (λ e. StillBusy busy e) }
    {
        let BusySeat {
            mut share,
            mut replies,
            begun,
            mut tries,
        } = busy;
        match self.go(rt, &mut share, &mut tries) {
            CallEnd::Halts(stop) => {
                let busy = BusySeat {
                    share,
                    replies,
                    begun,
                    tries,
                };
                Err(CallFault::Stopped(busy, stop))
            }
            CallEnd::Done(receipt) => {
                if receipt.place() != replies.len() as u64
                    || !is_handed_back(begun.call(), receipt.reply())
                {
                    wait_for_good(rt);
                }
                let copy = Reply {
                    answer: receipt.reply().answer,
                    call: filled(begun.into_call(), receipt.reply()),
                };
                replies.push_reserved(copy);
                Ok((Seat { share, replies }, receipt))
            }
        }
    }

    // The lock. When another worker has it, that one goes on for a while before it is looked for again.
    fn enter<R: Wait>(&self, rt: &R) -> MutexGuard<'_, Inside<L>> {
        for _ in 0..LOOKS {
            if let Some(guard) = self.inside.try_lock() {
                return guard;
            }
            stand_aside(rt);
        }
        self.inside.lock(rt)
    }

    // Steps of the hart until its call is answered or stopped, each under the lock, which is free between any two of them.
    fn go<R: Wait>(&self, rt: &R, share: &mut Share<L>, tries: &mut u64) -> CallEnd<L>
        ensures hart { share.new.hart ≡ share.old.hart }
        ensures went { WentOn share.old.hart share.old.tally.amount result share.new.tally.amount }
    {
        let hart = share.hart();
        for _ in rt.forever() {
            self.gate.at(rt, hart, *tries);
            *tries = tries.saturating_add(1);
            let mut guard = self.enter(rt);
            match guard.locked.step(share, hart) {
                LockedOutcome::Ran(kind) => self.leave(guard, may_free(kind)),
                LockedOutcome::Waits => self.wait(rt, guard),
                LockedOutcome::Idle => self.leave(guard, true),
                LockedOutcome::Done(receipt) => {
                    self.leave(guard, true);
                    return CallEnd::Done(receipt);
                }
                LockedOutcome::Stopped(stop) => {
                    self.leave(guard, true);
                    return CallEnd::Halts(stop);
                }
            }
        }
        unreachable!()
    }

    // Gives the lock up, and wakes those who wait, if what was done may have freed what they wait for.
    fn leave(&self, guard: MutexGuard<'_, Inside<L>>, may_free: bool) {
        let wakes = may_free && guard.waiting > 0;
        drop(guard);
        if wakes {
            self.moved.notify_all();
        }
    }

    // Waits until another worker may have freed something.
    fn wait<R: Wait>(&self, rt: &R, mut guard: MutexGuard<'_, Inside<L>>) {
        guard.waiting = guard.waiting.saturating_add(1);
        let mut guard = self.moved.wait(rt, guard);
        guard.waiting = guard.waiting.saturating_sub(1);
        drop(guard);
    }
}

// Whether a worker that waits may go on after a step of this kind. One that takes a lock, a buffer or a place in a transaction, or reads a block
// into a buffer, frees nothing.
fn may_free(kind: Kind) -> bool {
    !matches!(kind, Kind::Lock | Kind::Get | Kind::Read | Kind::Join)
}

// Leaves others their turns for a while.
fn stand_aside<R: Wait>(rt: &R) {
    AtomicU64::new(0).park_timeout(rt, 0, Duration::from_micros(ASIDE));
}

// Does not return.
fn wait_for_good<R: Wait>(rt: &R)
    ensures { ⊥ }
{
    for _ in rt.forever() {}
    unreachable!()
}
