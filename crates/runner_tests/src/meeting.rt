//! Two harts that meet, by a gate which holds one of them.
ghost use Rattle.std.specs.Prelude.{◌≡◌};

use crate::kernels::{
    CallResult, all_of, called, closed, first_two, image, mkdir, no_kernel, open,
};
use hart_runner::{Gate, Kernel, Seat};
use locked_world::{Closed, EventRef};
use plain_tree::{Answer, Call, Cause};
use std::alloc::Global;
use std::marker::Brand;
use std::process::Abort;
use std::sync::Wait;
use std::sync::atomic::{AtomicBool, Ordering};
use std::sync::ledger::{Blank, Ledger};
use std::thread;
use std::thread::Threads;
use std::time::{Clock, Duration};

const POLLS: u32 = 100_000;

const HELD_TRY: u64 = 9;

#[derive(Drop)]
struct Flags {
    // the next call of hart 0 must be held
    armed: AtomicBool,
    held: AtomicBool,
    returned: AtomicBool,
}

// Holds hart 0 before one of its tries until the other call has returned.
#[derive(Drop)]
struct Meeting<'a, R: Clock> {
    rt: &'a R,
    flags: &'a Flags,
}

impl<R: Clock> Gate for Meeting<'_, R> {
    fn at(&self, _rt: &impl Wait, hart: u8, number: u64) {
        if hart == 0 && number == HELD_TRY && self.flags.armed.load(Ordering::SeqCst) {
            self.flags.held.store(true, Ordering::SeqCst);
            poll(self.rt, &self.flags.returned);
        }
    }
}

// Waits for the flag, but not for good.
fn poll(clock: &impl Clock, flag: &AtomicBool) {
    for _ in 0..POLLS {
        if flag.load(Ordering::SeqCst) {
            return;
        }
        thread::sleep(clock, Duration::from_micros(100));
    }
}

// How many steps of hart 0's last call come before the start of hart 1's.
fn steps_before<L: Ledger>(closed: &Closed<L>) -> usize {
    let mut steps: usize = 0;
    let mut before: usize = 0;
    for (event, _came) in closed.iter() {
        match event {
            EventRef::Start { hart: 0, call: _ } => steps = 0,
            EventRef::Start { hart: 1, call: _ } => before = steps,
            EventRef::Step { hart: 0 } => steps = steps.saturating_add(1),
            _ => {}
        }
    }
    before
}

#[derive(Drop)]
struct Calls {
    // what hart 0 makes before
    first: Call,
    second: Call,
    // its call that is held
    held: Call,
    // hart 1's
    other: Call,
}

fn make_calls(rt: &impl Abort, alloc: Global) -> Calls {
    Calls {
        first: mkdir(rt, alloc, b"/a"),
        second: mkdir(rt, alloc, b"/b"),
        held: open(rt, alloc, b"/a/x"),
        other: mkdir(rt, alloc, b"/b/x"),
    }
}

fn call_held<L: Ledger, G: Gate + Drop, R: Wait>(
    rt: &R,
    kernel: &Kernel<L, G>,
    flags: &Flags,
    seat: Seat<L>,
    call: Call,
) -> (Seat<L>, CallResult) {
    flags.armed.store(true, Ordering::SeqCst);
    called(rt, kernel, seat, call)
}

fn call_meeting<L: Ledger, G: Gate + Drop, R: Wait + Clock>(
    rt: &R,
    kernel: &Kernel<L, G>,
    flags: &Flags,
    seat: Seat<L>,
    call: Call,
) -> (Seat<L>, CallResult) {
    poll(rt, &flags.held);
    let made = called(rt, kernel, seat, call);
    flags.returned.store(true, Ordering::SeqCst);
    made
}

// The answers of two calls that met, if they have any. The number says how many of the first one's steps come before
// the start of the second.
type Met = (Option<Answer>, Option<Answer>, usize);

fn answer_of(came: &CallResult) -> Option<Answer> {
    match came {
        Ok(reply) => Some(reply.answer),
        Err(_) => None,
    }
}

// The meeting of two harts.
fn met<L: Ledger + Send + Sync, G: Gate + Drop + Sync, R: Threads + Wait + Clock + Abort + Sync>(
    rt: &R,
    kernel: Kernel<L, G>,
    seats: [Seat<L>; 8],
    flags: &Flags,
    calls: Calls,
) -> Met
    requires { L.parts ≡ 8 }
{
    let (a, b, others) = first_two(seats);
    let Calls {
        first,
        second,
        held,
        other,
    } = calls;
    let (a, _) = called(rt, &kernel, a, first);
    let (a, _) = called(rt, &kernel, a, second);
    let shared = &kernel;
    let (one, two) = thread::join(
        rt,
        move || call_held(rt, shared, flags, a, held),
        move || call_meeting(rt, shared, flags, b, other),
    );
    let (a, held) = one;
    let (b, other) = two;
    let closed = closed(rt, kernel, all_of(a, b, others));
    let before = steps_before(&closed);
    (answer_of(&held), answer_of(&other), before)
}

fn meet<'a, L: Ledger + Send + Sync, R: Threads + Wait + Clock + Abort + Sync>(
    rt: &'a R,
    alloc: Global,
    blank: Blank,
    image: Vec<u8>,
    flags: &'a Flags,
    calls: Calls,
) -> Met
    requires name { blank.name ≡ L.name }
    requires parts { blank.parts ≡ L.parts }
    requires eight { blank.parts ≡ 8 }
{
    let gate = Meeting { rt, flags };
    match Kernel::<L, Meeting<'a, R>>::open(alloc, blank, image, u64::MAX, gate) {
        Ok(opened) => {
            let (kernel, seats) = opened;
            met(rt, kernel, seats, flags, calls)
        }
        Err(fault) => no_kernel(rt, fault),
    }
}

/// Hart 0 has made `/a` and `/b`. It is held before try 9 of its open of `/a/x`, when it has locked `/a`. Then hart
/// 1's mkdir of `/b/x` begins, and hart 0 is held until that has returned. In the list exactly nine steps of that
/// open come before the start of the mkdir.
#[test]
fn two_harts_meet(rt: HostRuntime) {
    let alloc = rt.alloc();
    let (image, calls) = (image(&rt, alloc), make_calls(&rt, alloc));
    let flags = Flags {
        armed: AtomicBool::new(false),
        held: AtomicBool::new(false),
        returned: AtomicBool::new(false),
    };
    let met = meet::<Brand, HostRuntime>(&rt, alloc, Blank::new(8), image, &flags, calls);
    let held = Answer::Failed(Cause::NoEntry);
    assert!(rt; met == (Some(held), Some(Answer::Done), 9));
}
