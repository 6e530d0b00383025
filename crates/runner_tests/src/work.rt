//! Eight harts at work in one directory at once.
ghost use Rattle.std.specs.Prelude.{◌≡◌};

use crate::asks::{FILES, Rounds, SWEEP, calls_of};
use crate::kernels::{CallResult, all_of, came_of, closed, first_two, image_of, no_kernel};
use crate::runs::{LeftRun, left_by};
use block_device::MemoryDisk;
use hart_runner::{CallFault, Gate, Kernel, NoGate, Seat};
use image_tree::examine;
use image_versions::Version;
use locked_world::Halt;
use plain_tree::Call;
use std::alloc::Global;
use std::marker::Brand;
use std::process::Abort;
use std::sync::Wait;
use std::sync::ledger::{Blank, Ledger};
use std::thread;
use std::thread::Threads;

// How often the harts do their work on an image of each version.
const ROUNDS: u32 = 50;

// How many calls are made in a round.
const CALLS: u32 = 140;

/// A gate at which harts also ask before they start a call.
pub trait Turning: Gate {
    /// Before this hart starts a call.
    fn start(&self, rt: &impl Wait, hart: u8);

    /// The hart's last step found no memory, and it will ask for that step once more.
    fn again(&self, hart: u8);

    /// When the hart has made all its calls.
    fn end(&self, hart: u8);
}

impl Turning for NoGate {
    fn start(&self, _rt: &impl Wait, _hart: u8) {}

    fn again(&self, _hart: u8) {}

    fn end(&self, _hart: u8) {}
}

/// A hart's seat, and the calls that it will make.
#[derive(Drop)]
pub struct Task<L: Ledger> {
    seat: Seat<L>,
    calls: Vec<Call>,
}

/// What harts' work leaves, and how many of their calls were answered.
pub type Worked<S> = (S, u32);

// Makes a call. A call that finds no memory is tried once more.
fn make<L: Ledger, G: Turning + Drop, R: Wait>(
    rt: &R,
    kernel: &Kernel<L, G>,
    gate: &G,
    seat: Seat<L>,
    call: Call,
) -> (Seat<L>, CallResult) {
    let hart = seat.hart();
    gate.start(rt, hart);
    let made = match kernel.call(rt, seat, call) {
        Err(CallFault::Memory(seat, call)) => kernel.call(rt, seat, call),
        Err(CallFault::Stopped(busy, Halt::NoMemory)) => {
            gate.again(hart);
            kernel.resume(rt, busy)
        }
        made => made,
    };
    came_of(made)
}

// A hart makes its calls, one after the other.
fn work<L: Ledger, G: Turning + Drop, R: Wait>(
    rt: &R,
    kernel: &Kernel<L, G>,
    gate: &G,
    task: Task<L>,
) -> Worked<Seat<L>> {
    let Task { seat, calls } = task;
    let hart = seat.hart();
    let mut seat = seat;
    let mut answered: u32 = 0;
    for call in calls {
        let (back, came) = make(rt, kernel, gate, seat, call);
        seat = back;
        if came.is_ok() {
            answered = answered.saturating_add(1);
        }
    }
    gate.end(hart);
    (seat, answered)
}

fn two_work<L: Ledger + Send + Sync, G: Turning + Drop + Sync, R: Threads + Wait + Sync>(
    rt: &R,
    kernel: &Kernel<L, G>,
    gate: &G,
    tasks: [Task<L>; 2],
) -> Worked<[Seat<L>; 2]> {
    let [a, b] = tasks;
    let ((a, answered), (b, more)) = thread::join(
        rt,
        move || work(rt, kernel, gate, a),
        move || work(rt, kernel, gate, b),
    );
    ([a, b], answered.saturating_add(more))
}

fn four_work<L: Ledger + Send + Sync, G: Turning + Drop + Sync, R: Threads + Wait + Sync>(
    rt: &R,
    kernel: &Kernel<L, G>,
    gate: &G,
    tasks: [Task<L>; 4],
) -> Worked<[Seat<L>; 4]> {
    let [a, b, c, d] = tasks;
    let ((low, answered), (high, more)) = thread::join(
        rt,
        move || two_work(rt, kernel, gate, [a, b]),
        move || two_work(rt, kernel, gate, [c, d]),
    );
    let [a, b] = low;
    let [c, d] = high;
    ([a, b, c, d], answered.saturating_add(more))
}

/// Eight harts make their calls at once, each in a thread of its own.
pub fn eight_work<L: Ledger + Send + Sync, G: Turning + Drop + Sync, R: Threads + Wait + Sync>(
    rt: &R,
    kernel: &Kernel<L, G>,
    gate: &G,
    tasks: [Task<L>; 8],
) -> Worked<[Seat<L>; 8]> {
    let [a, b, c, d, e, f, g, h] = tasks;
    let ((low, answered), (high, more)) = thread::join(
        rt,
        move || four_work(rt, kernel, gate, [a, b, c, d]),
        move || four_work(rt, kernel, gate, [e, f, g, h]),
    );
    let [a, b, c, d] = low;
    let [e, f, g, h] = high;
    ([a, b, c, d, e, f, g, h], answered.saturating_add(more))
}

/// Each hart's seat with its calls.
pub fn tasks_of<L: Ledger>(seats: [Seat<L>; 8], calls: [Vec<Call>; 8]) -> [Task<L>; 8] {
    let [a, b, c, d, e, f, g, h] = seats;
    let [i, j, k, l, m, n, o, p] = calls;
    [
        Task { seat: a, calls: i },
        Task { seat: b, calls: j },
        Task { seat: c, calls: k },
        Task { seat: d, calls: l },
        Task { seat: e, calls: m },
        Task { seat: f, calls: n },
        Task { seat: g, calls: o },
        Task { seat: h, calls: p },
    ]
}

// What the harts call at once, and what hart 0 calls then.
#[derive(Drop)]
struct Calls {
    work: [Vec<Call>; 8],
    sweep: Vec<Call>,
}

// Hart 0 removes the remaining shared names.
fn sweep<L: Ledger, R: Wait>(
    rt: &R,
    kernel: &Kernel<L, NoGate>,
    seats: [Seat<L>; 8],
    calls: Vec<Call>,
) -> [Seat<L>; 8] {
    let (seat, b, others) = first_two(seats);
    let (seat, _answered) = work(rt, kernel, &NoGate, Task { seat, calls });
    all_of(seat, b, others)
}

// What a round leaves.
fn round_of<L: Ledger + Send + Sync, R: Threads + Wait + Abort + Sync>(
    rt: &R,
    alloc: Global,
    kernel: Kernel<L, NoGate>,
    seats: [Seat<L>; 8],
    calls: Calls,
) -> LeftRun
    requires { L.parts ≡ 8 }
{
    let Calls { work, sweep: last } = calls;
    let (seats, _answered) = eight_work(rt, &kernel, &NoGate, tasks_of(seats, work));
    let seats = sweep(rt, &kernel, seats, last);
    left_by(rt, alloc, closed(rt, kernel, seats))
}

fn round<L: Ledger + Send + Sync, R: Threads + Wait + Abort + Sync>(
    rt: &R,
    alloc: Global,
    blank: Blank,
    image: Vec<u8>,
    calls: Calls,
) -> LeftRun
    requires name { blank.name ≡ L.name }
    requires parts { blank.parts ≡ L.parts }
    requires eight { blank.parts ≡ 8 }
{
    match Kernel::<L, NoGate>::open(alloc, blank, image, u64::MAX, NoGate) {
        Ok(opened) => {
            let (kernel, seats) = opened;
            round_of(rt, alloc, kernel, seats, calls)
        }
        Err(fault) => no_kernel(rt, fault),
    }
}

/// Eight harts make, write, link, read and unlink files in one directory at once, on images of both versions, over names of their own and four
/// shared ones. Each call is answered as it may be, and the close finds each seat's replies in the list. Nothing but
/// the root is left on the disk.
#[test]
fn eight_harts(rt: HostRuntime) {
    let alloc = rt.alloc();
    let files = Rounds::new(&rt, alloc, &FILES);
    let mut all = Rounds::new(&rt, alloc, &FILES);
    all.add(&rt, 0, &SWEEP);
    for version in [Version::One, Version::Two] {
        for _ in 0..ROUNDS {
            let calls = Calls {
                work: files.calls(&rt, alloc),
                sweep: calls_of(&rt, alloc, 0, &SWEEP),
            };
            let image = image_of(&rt, alloc, version);
            let left = round::<Brand, HostRuntime>(&rt, alloc, Blank::new(8), image, calls);
            assert!(rt; all.count_good(&left) == CALLS);
            let mut disk = MemoryDisk::new(left.bytes);
            let shape = examine(alloc, &mut disk, version).expect(&rt, "error");
            assert!(rt; (shape.live, shape.orphans, shape.blocks) == (1, 0, 1));
        }
    }
}
