//! What calls do if memory is short. `bin/short-memory` refuses, in turn, each request for memory that a call makes
//! between the first lines "call" and "done". Then the call answers 33, and the run goes on as one that met no
//! refusal.
ghost use Rattle.std.specs.Prelude.{◌≡◌};

use crate::kernels::{all_of, called, came_of, closed, copied, first_two, image, mkdir, no_kernel};
use crate::runs::{LeftRun, are_same, left_by};
use console::ConsoleFault;
use console_threads::{ThreadsFault, run_threads, status};
use hart_runner::{CallFault, Gate, Kernel, NoGate, Seat};
use image_tree::MountFault;
use locked_world::Halt;
use plain_tree::Call;
use script::{Mode, Schedule};
use std::alloc::Global;
use std::marker::Brand;
use std::process::Abort;
use std::sync::Wait;
use std::sync::ledger::{Blank, Ledger};
use std::thread::Threads;

// The answer of a call that was refused memory, and that of one that wasn't.
const NO_MEMORY: u8 = 33;

const ANSWERED: u8 = 0;

// What is answered, and what the run leaves.
type HartEnd = (u8, LeftRun);

// What a kernel leaves that is opened between the lines, and closed without a call.
fn opened<L: Ledger, R: Print + Abort>(
    rt: &R,
    alloc: Global,
    blank: Blank,
    image: Vec<u8>,
) -> Result<LeftRun, MountFault>
    requires name { blank.name ≡ L.name }
    requires parts { blank.parts ≡ L.parts }
    requires eight { blank.parts ≡ 8 }
{
    let _ = println!(rt; "call");
    let came = Kernel::<L, NoGate>::open(alloc, blank, image, u64::MAX, NoGate);
    let _ = println!(rt; "done");
    match came {
        Ok(opened) => {
            let (kernel, seats) = opened;
            Ok(left_by(rt, alloc, closed(rt, kernel, seats)))
        }
        Err(fault) => Err(fault),
    }
}

fn open_once<R: Print + Abort>(rt: &R, alloc: Global, image: &[u8]) -> Result<LeftRun, MountFault> {
    opened::<Brand, R>(rt, alloc, Blank::new(8), copied(rt, alloc, image))
}

/// A kernel that isn't opened for want of memory is opened the next time.
#[test]
fn of_open(rt: HostRuntime) {
    let alloc = rt.alloc();
    let image = image(&rt, alloc);
    let (answer, left) = match open_once(&rt, alloc, image.as_slice()) {
        Ok(left) => (ANSWERED, left),
        Err(fault) => {
            let again = open_once(&rt, alloc, image.as_slice());
            (fault.number(), again.expect(&rt, "error"))
        }
    };
    let _ = println!(rt; "answer {answer}");
    assert!(rt; answer == ANSWERED || answer == NO_MEMORY);
    assert!(rt; left.events.is_empty() && left.outcomes.is_empty());
    assert!(rt; left.bytes.as_slice() == image.as_slice());
}

// A call, made between the lines. If it finds no memory, what is handed back is made once more, or goes on.
fn call_short<L: Ledger, R: Wait + Print>(
    rt: &R,
    kernel: &Kernel<L, NoGate>,
    seat: Seat<L>,
    call: Call,
) -> (u8, Seat<L>) {
    let _ = println!(rt; "call");
    let came = kernel.call(rt, seat, call);
    let _ = println!(rt; "done");
    let (answer, made) = match came {
        Err(CallFault::Memory(seat, call)) => (NO_MEMORY, kernel.call(rt, seat, call)),
        Err(CallFault::Stopped(busy, Halt::NoMemory)) => (NO_MEMORY, kernel.resume(rt, busy)),
        came => (ANSWERED, came),
    };
    let (seat, _) = came_of(made);
    (answer, seat)
}

// A run of that call, and a further one of the same hart.
fn run_call<L: Ledger, R: Wait + Print + Abort>(
    rt: &R,
    alloc: Global,
    kernel: Kernel<L, NoGate>,
    seats: [Seat<L>; 8],
    calls: (Call, Call),
) -> HartEnd
    requires { L.parts ≡ 8 }
{
    let (seat, b, others) = first_two(seats);
    let (answer, seat) = call_short(rt, &kernel, seat, calls.0);
    let (seat, _) = called(rt, &kernel, seat, calls.1);
    let closed = closed(rt, kernel, all_of(seat, b, others));
    (answer, left_by(rt, alloc, closed))
}

fn call_on<L: Ledger, R: Wait + Print + Abort>(
    rt: &R,
    alloc: Global,
    blank: Blank,
    image: Vec<u8>,
    calls: (Call, Call),
) -> HartEnd
    requires name { blank.name ≡ L.name }
    requires parts { blank.parts ≡ L.parts }
    requires eight { blank.parts ≡ 8 }
{
    match Kernel::<L, NoGate>::open(alloc, blank, image, u64::MAX, NoGate) {
        Ok(opened) => {
            let (kernel, seats) = opened;
            run_call(rt, alloc, kernel, seats, calls)
        }
        Err(fault) => no_kernel(rt, fault),
    }
}

fn call_once<R: Wait + Print + Abort>(rt: &R, alloc: Global) -> HartEnd {
    let calls = (mkdir(rt, alloc, b"/d"), mkdir(rt, alloc, b"/d"));
    call_on::<Brand, R>(rt, alloc, Blank::new(8), image(rt, alloc), calls)
}

/// A call that finds no memory is handed back and not started, or goes on to the reply that it would have had.
#[test]
fn of_call(rt: HostRuntime) {
    let alloc = rt.alloc();
    let (answer, left) = call_once(&rt, alloc);
    let _ = println!(rt; "answer {answer}");
    let (_, wanted) = call_once(&rt, alloc);
    assert!(rt; are_same(&left, &wanted));
}

// Prints the first line when a call was started.
#[derive(Drop)]
struct Marks<'a, R: Print> {
    rt: &'a R,
}

impl<R: Print> Gate for Marks<'_, R> {
    fn at(&self, _rt: &impl Wait, _hart: u8, number: u64) {
        let rt = self.rt;
        if number == 0 {
            let _ = println!(rt; "call");
        }
    }
}

// A call. If it finds no memory it goes on, up to the second line; if it then finds none, it goes on once more.
fn resume_short<L: Ledger, R: Wait + Print>(
    rt: &R,
    kernel: &Kernel<L, Marks<'_, R>>,
    seat: Seat<L>,
    call: Call,
) -> (u8, Seat<L>) {
    let came = match kernel.call(rt, seat, call) {
        Err(CallFault::Stopped(busy, Halt::NoMemory)) => kernel.resume(rt, busy),
        came => came,
    };
    let _ = println!(rt; "done");
    let (answer, made) = match came {
        Err(CallFault::Stopped(busy, Halt::NoMemory)) => (NO_MEMORY, kernel.resume(rt, busy)),
        came => (ANSWERED, came),
    };
    let (seat, _) = came_of(made);
    (answer, seat)
}

fn run_resume<L: Ledger, R: Wait + Print + Abort>(
    rt: &R,
    alloc: Global,
    kernel: Kernel<L, Marks<'_, R>>,
    seats: [Seat<L>; 8],
    call: Call,
) -> HartEnd
    requires { L.parts ≡ 8 }
{
    let (seat, b, others) = first_two(seats);
    let (answer, seat) = resume_short(rt, &kernel, seat, call);
    let closed = closed(rt, kernel, all_of(seat, b, others));
    (answer, left_by(rt, alloc, closed))
}

fn resume_on<'a, L: Ledger, R: Wait + Print + Abort>(
    rt: &'a R,
    alloc: Global,
    blank: Blank,
    image: Vec<u8>,
    call: Call,
) -> HartEnd
    requires name { blank.name ≡ L.name }
    requires parts { blank.parts ≡ L.parts }
    requires eight { blank.parts ≡ 8 }
{
    let gate = Marks { rt };
    match Kernel::<L, Marks<'a, R>>::open(alloc, blank, image, u64::MAX, gate) {
        Ok(opened) => {
            let (kernel, seats) = opened;
            run_resume(rt, alloc, kernel, seats, call)
        }
        Err(fault) => no_kernel(rt, fault),
    }
}

fn resume_once<R: Wait + Print + Abort>(rt: &R, alloc: Global) -> HartEnd {
    let (image, call) = (image(rt, alloc), mkdir(rt, alloc, b"/d"));
    resume_on::<Brand, R>(rt, alloc, Blank::new(8), image, call)
}

/// A call that is stopped for want of memory, and stopped again as it goes on, has changed nothing. It gets the reply
/// that it would have had. Of its requests two in a row are refused.
#[test]
fn of_resume(rt: HostRuntime) {
    let alloc = rt.alloc();
    let (answer, left) = resume_once(&rt, alloc);
    let _ = println!(rt; "answer {answer}");
    let (_, wanted) = resume_once(&rt, alloc);
    assert!(rt; are_same(&left, &wanted));
}

const SCRIPT: &[u8] =
    b"3 mkdir /d\n3 open /d/f 0x202\n3 write 0 hello\n3 close 0\n3 open hex:00 0\n3 unlink /d/f\n";

const LINES: &[u8] =
    b"3 mkdir ok\n3 open fd 0\n3 write 5\n3 close ok\n3 open refused 43 ZeroInPath\n3 unlink ok\n";

// Room for what is printed, so that no line asks for more.
const ROOM: usize = 65_536;

const MODE: Mode = Mode {
    schedule: Schedule::Round,
    last: 3,
    timeline: true,
    explain: true,
    check: false,
};

fn number_of(fault: &ThreadsFault) -> u8 {
    match fault {
        ThreadsFault::Console(ConsoleFault::Memory) => NO_MEMORY,
        fault => status(fault),
    }
}

fn answer_of<R: Threads + Wait + Sync>(
    rt: &R,
    alloc: Global,
    image: Vec<u8>,
    out: &mut Vec<u8>,
) -> u8 {
    match run_threads(rt, alloc, Some(image), MODE, SCRIPT, out).err() {
        None => ANSWERED,
        Some(fault) => number_of(&fault),
    }
}

/// What is printed of a script whose threads find no memory is a beginning of what the script usually prints. The
/// next time all of it is printed.
#[test]
fn of_run_threads(rt: HostRuntime) {
    let alloc = rt.alloc();
    let image = image(&rt, alloc);
    let mut wanted = Vec::new(alloc);
    let copy = copied(&rt, alloc, image.as_slice());
    assert!(rt; answer_of(&rt, alloc, copy, &mut wanted) == ANSWERED);
    assert!(rt; wanted.starts_with(LINES));
    let mut out = Vec::with_capacity(alloc, ROOM).expect(&rt, "error");
    let copy = copied(&rt, alloc, image.as_slice());
    let _ = println!(rt; "call");
    let answer = answer_of(&rt, alloc, copy, &mut out);
    let _ = println!(rt; "done");
    let _ = println!(rt; "answer {answer}");
    assert!(rt; answer == ANSWERED && out.len() == wanted.len() || answer == NO_MEMORY);
    assert!(rt; wanted.starts_with(out.as_slice()));
    out.clear();
    assert!(rt; answer_of(&rt, alloc, image, &mut out) == ANSWERED);
    assert!(rt; out.as_slice() == wanted.as_slice());
}
