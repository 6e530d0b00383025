//! Running a script by threads.
ghost use Rattle.std.specs.Prelude.{◌≡◌, ◌↔◌, ◌-◌, ◌^◌, [], All, IfOk, IfErr, OnOk, IsTrue, map};
ghost use Rattle.console_threads.specs.Vocabulary.{blocks_of, IsWellFormed, bytes_for, disk_for};
ghost use Rattle.console_threads.specs.Faults.{IsMounted, JudgesRun};
ghost use Rattle.console_threads.specs.Runs.{IsPrinted, IsUnprinted, RunsThreads, TellsRun};
ghost use Rattle.console_threads.specs.Worked.{AllAnswered, eight_harts};

use crate::asked::{Asked, asked_in};
use crate::fault::ThreadsFault;
use crate::starts::are_started;
use crate::tell::{notes_of, write_harts};
use crate::work::run_calls;
use block_device::MemoryDisk;
use console::{ConsoleFault, finish_on, image_disk};
use hart_core::Event;
use hart_runner::{Kernel, NoGate, Seat};
use locked_world::Closed;
use plain_tree::Call;
use script::Mode;
use std::alloc::Global;
use std::io::{Read, Write};
use std::marker::Brand;
use std::sync::Wait;
use std::sync::ledger::{Blank, Ledger};
use std::thread::Threads;

/// Mounts the image, or a fresh one, has a thread for each of the eight harts make the calls of its lines, and hands
/// out the disk. When all have reached their end, the answers are printed hart by hart, in each hart's order. The
/// rest of what is wanted of the run comes after them. The schedule doesn't count, nor whether the image must only be
/// examined. Faults are found in the order image, script.
pub fn run_threads<R: Threads + Wait + Sync, S: Read + Drop, W: Write>(
    rt: &R,
    alloc: Global,
    image: Option<Vec<u8>>,
    mode: Mode,
    script: S,
    out: &mut W,
) -> Result<MemoryDisk, ThreadsFault>
    ensures runs { RunsThreads mode (bytes_for image) (S.remaining script) result (W.contents out.old) (W.contents out.new) }
    ensures mounted { IfOk result (λ _. IsWellFormed (disk_for image)) }
    ensures refused { IfErr result (JudgesRun (disk_for image)) }
{
    let image = image_disk(alloc, image)?.into_bytes();
    let copy = Vec::from_slice(alloc, image.as_slice())?;
    run_over::<Brand, R, S, W>(rt, alloc, Blank::new(8), image, copy, mode, script, out)
}

// Over a kernel on this image, of which there is a copy.
fn run_over<L: Ledger + Send + Sync, R: Threads + Wait + Sync, S: Read + Drop, W: Write>(
    rt: &R,
    alloc: Global,
    blank: Blank,
    image: Vec<u8>,
    copy: Vec<u8>,
    mode: Mode,
    script: S,
    out: &mut W,
) -> Result<MemoryDisk, ThreadsFault>
    requires name { blank.name ≡ L.name }
    requires parts { blank.parts ≡ L.parts }
    requires eight { blank.parts ≡ 8 }
    requires same { copy.items ≡ image.items }
    ensures runs { RunsThreads mode image.items (S.remaining script) result (W.contents out.old) (W.contents out.new) }
    ensures mounted { IfOk result (λ _. IsWellFormed (blocks_of image.items)) }
    ensures refused { IfErr result (JudgesRun (blocks_of image.items)) }
{
    let (kernel, seats) = match Kernel::<L, NoGate>::open(alloc, blank, image, u64::MAX, NoGate) {
        Ok(opened) => opened,
        Err(fault) => return Err(ThreadsFault::from(fault)),
    };
    run_open(rt, alloc, kernel, seats, copy.as_slice(), mode, script, out)
}

// On a kernel whose seats have made no calls yet.
fn run_open<L: Ledger + Send + Sync, R: Threads + Wait + Sync, S: Read + Drop, W: Write>(
    rt: &R,
    alloc: Global,
    kernel: Kernel<L, NoGate>,
    seats: [Seat<L>; 8],
    image: &[u8],
    mode: Mode,
    script: S,
    out: &mut W,
) -> Result<MemoryDisk, ThreadsFault>
    requires parts { L.parts ≡ 8 }
    requires harts { map (λ s. s.hart) seats ≡ eight_harts }
    requires fresh { All (λ s. (s.replies ≡ []) × (s.count ≡ 0)) seats }
    ensures runs { RunsThreads mode image.now (S.remaining script) result (W.contents out.old) (W.contents out.new) }
    ensures mounted { IfErr result IsMounted }
{
    let Asked { calls, copies } = match asked_in(alloc, script) {
        Ok(asked) => asked,
        Err(fault) => {
            let _closed = kernel.close(seats);
            return Err(ThreadsFault::Console(fault));
        }
    };
    let closed = run_calls(rt, kernel, seats, calls)?;
    tell(alloc, mode, image, copies, closed, out)
}

// Prints a run on this image, in which these calls were asked for, and gives its disk.
fn tell<L: Ledger, W: Write>(
    alloc: Global,
    mode: Mode,
    image: &[u8],
    asked: [Vec<Call>; 8],
    closed: Closed<L>,
    out: &mut W,
) -> Result<MemoryDisk, ThreadsFault>
    requires { AllAnswered (map (λ v. v.items) asked) closed.stored }
    ensures { TellsRun mode image.now (map (λ v. v.items) asked) result (W.contents out.old) (W.contents out.new) }
{
    if !is_run_on(&closed, image) {
        return Err(ThreadsFault::Strange);
    }
    let events = closed.events(alloc)?;
    let events = events.as_slice();
    if !are_started(events, asked) {
        return Err(ThreadsFault::Strange);
    }
    closed.one_list_explains_it();
    print(alloc, mode, image, &closed, events, out)?;
    Ok(closed.into_disk())
}

// Prints a run, which has these events: the lines of its harts, and then what else is wanted of it.
fn print<L: Ledger, W: Write>(
    alloc: Global,
    mode: Mode,
    image: &[u8],
    closed: &Closed<L>,
    events: &[Event],
    out: &mut W,
) -> Result<(), ConsoleFault>
    requires { events.now ≡ closed.now.stored.events }
    ensures printed { OnOk result (IsPrinted mode image.now closed.now.stored (W.contents out.old) (W.contents out.new)) }
    ensures unprinted { IfErr result IsUnprinted }
{
    let outcomes = closed.outcomes(alloc)?;
    let outcomes = outcomes.as_slice();
    let notes = notes_of(alloc, mode, events, outcomes)?;
    write_harts(out, events, outcomes).map_err(ConsoleFault::Write)?;
    finish_on(alloc, out, mode, image, &notes)
}

// Whether it is a run on this image, over a disk that doesn't fail.
fn is_run_on<L: Ledger>(closed: &Closed<L>, image: &[u8]) -> bool
    ensures { IsTrue result ↔ ((closed.now.stored.image ≡ image.now) × (closed.now.stored.fuse ≡ 2 ^ 64 - 1)) }
{
    closed.image() == image && closed.fuse() == u64::MAX
}
