//! Calls of one hart or four, each in a thread of its own, under one lock.
ghost use Rattle.std.specs.Prelude.{◌≡◌, ◌≤◌};

use crate::images::{files, image};
use crate::plans::{Ask, CREATE, Row, WRITE, plan};
use crate::workload::WorkloadError;
use hart_runner::{CallFault, Kernel, NoGate, Seat};
use image_versions::Version;
use plain_tree::{Call, Reply};
use std::alloc::Global;
use std::marker::Brand;
use std::sync::Wait;
use std::sync::ledger::{Blank, Ledger};
use std::thread::Threads;
use std::{mem, thread};

/// How many harts work.
#[derive(Clone, Copy, PartialEq, Eq, Debug)]
pub enum Crew {
    One,
    Four,
}

impl Crew {
    fn harts(self) -> u64
        ensures { result ≤ 4 }
    {
        match self {
            Crew::One => 1,
            Crew::Four => 4,
        }
    }
}

// How often each hart makes its calls: so often that the opening of the kernel hardly counts.
const ROUNDS: u32 = 5000;

const FILES: u32 = 8;

const DISK_BLOCKS: u32 = 2000;

const INODES: u32 = 108;

// Each hart's directory.
const PLACE: [Ask; 2] = [Ask::Mkdir(b"/d"), Ask::Chdir(b"/d")];

const ROUND: [Ask; 4] = [
    Ask::Open(b"new", CREATE | WRITE),
    Ask::Write(5),
    Ask::Close,
    Ask::Unlink(b"new"),
];

// What a hart calls: at first, and again and again.
#[derive(Drop)]
struct Plan {
    place: Vec<Row>,
    round: Vec<Row>,
}

// A hart's seat with what it calls.
type Seated<L> = (Seat<L>, Plan);

// A hart's seat, and whether each call was answered as it should be.
type Worked<L> = (Seat<L>, bool);

fn plan_of(alloc: Global, hart: u8) -> Result<Plan, WorkloadError> {
    Ok(Plan {
        place: plan(alloc, hart, &PLACE)?,
        round: plan(alloc, hart, &ROUND)?,
    })
}

fn plans(alloc: Global) -> Result<[Plan; 4], WorkloadError> {
    Ok([
        plan_of(alloc, 0)?,
        plan_of(alloc, 1)?,
        plan_of(alloc, 2)?,
        plan_of(alloc, 3)?,
    ])
}

// The seat of a call that failed.
fn seat_of<L: Ledger>(fault: CallFault<L>) -> Seat<L> {
    match fault {
        CallFault::Start(seat, _, _) => seat,
        CallFault::Memory(seat, _) => seat,
        CallFault::Stopped(busy, _) => busy.give_up(),
    }
}

// Makes these calls, one after the other. The replies hand them back.
fn make_calls<L: Ledger, R: Wait>(
    rt: &R,
    kernel: &Kernel<L, NoGate>,
    seat: Seat<L>,
    rows: &mut [Row],
) -> Worked<L> {
    let mut seat = seat;
    for row in rows.iter_mut() {
        let call = mem::replace(&mut row.call, Call::Dup { fd: 0 });
        let receipt = match kernel.call(rt, seat, call) {
            Err(fault) => return (seat_of(fault), false),
            Ok((back, receipt)) => {
                seat = back;
                receipt
            }
        };
        let Reply { answer, call } = receipt.into_reply();
        if answer != row.wanted {
            return (seat, false);
        }
        row.call = call;
    }
    (seat, true)
}

fn work<L: Ledger, R: Wait>(rt: &R, kernel: &Kernel<L, NoGate>, seated: Seated<L>) -> Worked<L> {
    let (seat, mut plan) = seated;
    let (seat, is_good) = make_calls(rt, kernel, seat, plan.place.as_mut_slice());
    if !is_good {
        return (seat, false);
    }
    let mut seat = seat;
    for _ in 0..ROUNDS {
        let (back, is_good) = make_calls(rt, kernel, seat, plan.round.as_mut_slice());
        seat = back;
        if !is_good {
            return (seat, false);
        }
    }
    (seat, true)
}

fn two_work<L: Ledger + Send + Sync, R: Threads + Wait + Sync>(
    rt: &R,
    kernel: &Kernel<L, NoGate>,
    one: Seated<L>,
    other: Seated<L>,
) -> (Worked<L>, Worked<L>) {
    thread::join(
        rt,
        move || work(rt, kernel, one),
        move || work(rt, kernel, other),
    )
}

// Four harts at work, the seats that they leave, and whether each call was answered as it should be.
fn four_work<L: Ledger + Send + Sync, R: Threads + Wait + Sync>(
    rt: &R,
    kernel: &Kernel<L, NoGate>,
    seats: [Seat<L>; 8],
    plans: [Plan; 4],
) -> ([Seat<L>; 8], bool) {
    let [a, b, c, d, e, f, g, h] = seats;
    let [of_a, of_b, of_c, of_d] = plans;
    let (low, high) = thread::join(
        rt,
        move || two_work(rt, kernel, (a, of_a), (b, of_b)),
        move || two_work(rt, kernel, (c, of_c), (d, of_d)),
    );
    let ((a, of_a), (b, of_b)) = low;
    let ((c, of_c), (d, of_d)) = high;
    ([a, b, c, d, e, f, g, h], of_a && of_b && of_c && of_d)
}

// One hart at work, and the seats that are left.
fn one_works<L: Ledger, R: Wait>(
    rt: &R,
    kernel: &Kernel<L, NoGate>,
    seats: [Seat<L>; 8],
    plans: [Plan; 4],
) -> ([Seat<L>; 8], bool) {
    let [a, b, c, d, e, f, g, h] = seats;
    let [of_a, _, _, _] = plans;
    let (a, is_good) = work(rt, kernel, (a, of_a));
    ([a, b, c, d, e, f, g, h], is_good)
}

// These harts at work, from the kernel's opening to its end.
fn run<L: Ledger + Send + Sync, R: Threads + Wait + Sync>(
    rt: &R,
    alloc: Global,
    blank: Blank,
    image: Vec<u8>,
    crew: Crew,
    plans: [Plan; 4],
) -> Result<u64, WorkloadError>
    requires name { blank.name ≡ L.name }
    requires parts { blank.parts ≡ L.parts }
    requires eight { blank.parts ≡ 8 }
{
    let Ok(opened) = Kernel::<L, NoGate>::open(alloc, blank, image, u64::MAX, NoGate) else {
        return Err(WorkloadError::Wrong);
    };
    let (kernel, seats) = opened;
    let (seats, is_good) = match crew {
        Crew::One => one_works(rt, &kernel, seats, plans),
        Crew::Four => four_work(rt, &kernel, seats, plans),
    };
    match kernel.close(seats) {
        Ok(_closed) if is_good => Ok(crew.harts() * u64::from(ROUNDS)),
        _ => Err(WorkloadError::Wrong),
    }
}

/// A file made, written, closed and removed by each of these harts in a directory of its own, in threads of their own.
pub fn make_write_remove<R: Threads + Wait + Sync>(
    rt: &R,
    alloc: Global,
    crew: Crew,
) -> Result<u64, WorkloadError> {
    let files = files(alloc, FILES, 0)?;
    let disk = image(alloc, Version::One, DISK_BLOCKS, INODES, files.as_slice())?;
    let image = disk.into_bytes();
    run::<Brand, R>(rt, alloc, Blank::new(8), image, crew, plans(alloc)?)
}
