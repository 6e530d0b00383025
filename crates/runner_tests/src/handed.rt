//! Eight harts that take turns, as a plan has them.
ghost use Rattle.std.specs.Prelude.{◌≡◌};

use crate::kernels::{closed, copied, no_kernel, roomy_image};
use crate::plan::{CALLS, draw_plan};
use crate::runs::{LeftRun, are_same, left_by};
use crate::turns::{Handing, Turns};
use crate::work::{eight_work, tasks_of};
use block_device::MemoryDisk;
use explain::explain;
use hart_core::trace;
use hart_runner::{Kernel, Seat};
use image_tree::{examine, tree_of};
use image_versions::Version;
use plain_tree::{Call, check};
use std::alloc::Global;
use std::env;
use std::env::VarError;
use std::marker::Brand;
use std::process::Abort;
use std::rt::Env;
use std::sync::Wait;
use std::sync::ledger::{Blank, Ledger};
use std::thread::Threads;

// The environment's variable that names the seed of the plan, and the seed if there is none.
const SEED: &str = "EIGHT_HARTS_SEED";

const FIRST_SEED: u64 = 1;

fn seed_in<R: Env + AllocGlobal + Abort>(rt: &R) -> u64 {
    match env::var(rt, SEED) {
        Ok(text) => text.as_str().parse::<u64>().expect(rt, "the seed"),
        Err(VarError::NotPresent) => FIRST_SEED,
        Err(_) => panic!(rt; "error: AllocError"),
    }
}

// What the harts' threads leave, each of which makes its calls in the turns that it is handed.
fn hand<L: Ledger + Send + Sync, R: Threads + Wait + Abort + Sync>(
    rt: &R,
    alloc: Global,
    kernel: Kernel<L, Handing<'_>>,
    seats: [Seat<L>; 8],
    turns: &Turns,
    calls: [Vec<Call>; 8],
) -> LeftRun
    requires { L.parts ≡ 8 }
{
    let gate = Handing { turns };
    let (seats, answered) = eight_work(rt, &kernel, &gate, tasks_of(seats, calls));
    let closed = closed(rt, kernel, seats);
    assert!(rt; answered == CALLS);
    left_by(rt, alloc, closed)
}

fn hand_round<'a, L: Ledger + Send + Sync, R: Threads + Wait + Abort + Sync>(
    rt: &R,
    alloc: Global,
    blank: Blank,
    image: Vec<u8>,
    turns: &'a Turns,
    calls: [Vec<Call>; 8],
) -> LeftRun
    requires name { blank.name ≡ L.name }
    requires parts { blank.parts ≡ L.parts }
    requires eight { blank.parts ≡ 8 }
{
    let gate = Handing { turns };
    match Kernel::<L, Handing<'a>>::open(alloc, blank, image, u64::MAX, gate) {
        Ok(opened) => {
            let (kernel, seats) = opened;
            hand(rt, alloc, kernel, seats, turns, calls)
        }
        Err(fault) => no_kernel(rt, fault),
    }
}

// Whether the list that is handed out explains what a run on the image, one of this version, has shown.
fn is_explained(
    rt: &impl Abort,
    alloc: Global,
    version: Version,
    image: &[u8],
    run: &LeftRun,
) -> bool {
    let events = run.events.as_slice();
    let list = explain(alloc, image, events).expect(rt, "error");
    let mut disk = MemoryDisk::new(copied(rt, alloc, image));
    let base = tree_of(alloc, &mut disk, version).expect(rt, "error");
    let trace = trace(alloc, events, run.outcomes.as_slice()).expect(rt, "error");
    let explains = check(alloc, version, &base, &trace, list.as_slice()).expect(rt, "error");
    explains && !list.is_empty()
}

/// Eight threads make the calls of a plan on an image of each version, and a gate hands turns to them. The close finds each seat's replies in the
/// list. Each event is that of its turn, and has the outcome that a world gave it. One list of tree steps explains
/// all replies, and the disk is in order.
#[test]
fn eight_harts(rt: HostRuntime) {
    let alloc = rt.alloc();
    let seed = seed_in(&rt);
    let mut count = 0usize;
    for version in [Version::One, Version::Two] {
        let image = roomy_image(&rt, alloc, version);
        let plan = draw_plan(&rt, alloc, image.as_slice(), seed);
        let turns = Turns::new(plan.turns(&rt, alloc));
        let copy = copied(&rt, alloc, image.as_slice());
        let calls = plan.rounds.calls(&rt, alloc);
        let left = hand_round::<Brand, HostRuntime>(&rt, alloc, Blank::new(8), copy, &turns, calls);
        assert!(rt; turns.are_over());
        assert!(rt; are_same(&left, &plan.left));
        assert!(rt; plan.rounds.count_good(&left) == CALLS);
        assert!(rt; is_explained(&rt, alloc, version, image.as_slice(), &left));
        count = count.saturating_add(left.events.len());
        let shape = examine(alloc, &mut MemoryDisk::new(left.bytes), version).expect(&rt, "error");
        assert!(rt; shape.orphans == 0);
    }
    let _ = println!(rt; "{count} events");
}
