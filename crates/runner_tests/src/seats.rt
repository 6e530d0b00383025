//! The results of the calls of two seats: at a shared offset, and if the device fails.
ghost use Rattle.std.specs.Prelude.{◌≡◌};

use crate::kernels::{
    all_of, called, closed, copied, first_two, fresh_image, image, mkdir, no_kernel, open, read,
};
use block_device::{Fused, MemoryDisk};
use hart_core::World;
use hart_runner::{Kernel, NoGate, Seat, two_calls};
use image_tree::MountFault;
use locked_world::Halt;
use plain_tree::Call;
use std::alloc::Global;
use std::marker::Brand;
use std::process::Abort;
use std::sync::Wait;
use std::sync::ledger::{Blank, Ledger};
use std::thread::Threads;

// The first two entries of the root.
const DOT: [u8; 16] = *b"\x01\0.\0\0\0\0\0\0\0\0\0\0\0\0\0";

const DOT_DOT: [u8; 16] = *b"\x01\0..\0\0\0\0\0\0\0\0\0\0\0\0";

// More calls of the disk than a mount of the fresh image makes.
const MOST_CALLS: u64 = 100_000;

// Hart 0 makes the first call, hart 1 inherits its files, and then both read at once. The reads as they are handed back.
fn reads_of<L: Ledger + Send + Sync, R: Threads + Wait + Sync>(
    rt: &R,
    kernel: Kernel<L, NoGate>,
    seats: [Seat<L>; 8],
    open: Call,
    reads: (Call, Call),
) -> Option<(Call, Call)>
    requires { L.parts ≡ 8 }
{
    let (a, b, others) = first_two(seats);
    let (one, other) = reads;
    let (a, _) = called(rt, &kernel, a, open);
    let (a, _) = called(rt, &kernel, a, Call::Inherit { child: 1 });
    let (_closed, one, other) = two_calls(rt, kernel, all_of(a, b, others), one, other)?;
    let (one, other) = (one.into_reply(), other.into_reply());
    Some((one.call, other.call))
}

fn two_reads<L: Ledger + Send + Sync, R: Threads + Wait + Abort + Sync>(
    rt: &R,
    alloc: Global,
    blank: Blank,
    image: Vec<u8>,
    open: Call,
    reads: (Call, Call),
) -> Option<(Call, Call)>
    requires name { blank.name ≡ L.name }
    requires parts { blank.parts ≡ L.parts }
    requires eight { blank.parts ≡ 8 }
{
    match Kernel::<L, NoGate>::open(alloc, blank, image, u64::MAX, NoGate) {
        Ok(opened) => {
            let (kernel, seats) = opened;
            reads_of(rt, kernel, seats, open, reads)
        }
        Err(fault) => no_kernel(rt, fault),
    }
}

/// Two harts read from one open file at once: each gets an entry of its own.
#[test]
fn seats_share_an_offset(rt: HostRuntime) {
    let alloc = rt.alloc();
    let (image, open) = (image(&rt, alloc), open(&rt, alloc, b"/"));
    let reads = (read(&rt, alloc, 0, &[9; 16]), read(&rt, alloc, 0, &[9; 16]));
    let (dot, dot_dot) = (read(&rt, alloc, 0, &DOT), read(&rt, alloc, 0, &DOT_DOT));
    let came = two_reads::<Brand, HostRuntime>(&rt, alloc, Blank::new(8), image, open, reads);
    let (one, two) = came.expect(&rt, "no two replies");
    assert!(rt; (one == dot && two == dot_dot) || (one == dot_dot && two == dot));
}

// Whether a world is mounted on a disk of this image that passes `fuse` calls.
fn is_mounted(rt: &impl Abort, alloc: Global, image: &[u8], fuse: u64) -> bool {
    let disk = MemoryDisk::new(copied(rt, alloc, image));
    match World::mount(alloc, Fused::new(disk, fuse)) {
        Ok(world) => {
            let _disk = world.unmount();
            true
        }
        Err((_, MountFault::DeviceFault)) => false,
        Err((_, fault)) => no_kernel(rt, fault),
    }
}

// The least number of calls that a disk of this image passes for a world to be mounted on it.
fn least_fuse(rt: &impl Abort, alloc: Global, image: &[u8]) -> u64 {
    let (mut too_few, mut enough) = (0u64, MOST_CALLS);
    for _ in 0..u64::BITS {
        if enough.saturating_sub(too_few) <= 1 {
            break;
        }
        let middle = too_few.saturating_add(enough) / 2;
        if is_mounted(rt, alloc, image, middle) {
            enough = middle;
        } else {
            too_few = middle;
        }
    }
    enough
}

// What stops two calls, and what the closed kernel holds.
#[derive(Drop)]
struct Stopped {
    halts: (Option<Halt>, Option<Halt>),
    image: Vec<u8>,
    fuse: u64,
}

// What stops a call of hart 0, and then one of hart 1.
fn stops_of<L: Ledger, R: Wait + Abort>(
    rt: &R,
    alloc: Global,
    kernel: Kernel<L, NoGate>,
    seats: [Seat<L>; 8],
    calls: (Call, Call),
) -> Stopped
    requires { L.parts ≡ 8 }
{
    let (a, b, others) = first_two(seats);
    let (one, other) = calls;
    let (a, first) = called(rt, &kernel, a, one);
    let (b, second) = called(rt, &kernel, b, other);
    let closed = closed(rt, kernel, all_of(a, b, others));
    Stopped {
        halts: (first.err().flatten(), second.err().flatten()),
        image: copied(rt, alloc, closed.image()),
        fuse: closed.fuse(),
    }
}

// The same on a disk of this image that passes `fuse` calls. None if the device fails before.
fn stops<L: Ledger, R: Wait + Abort>(
    rt: &R,
    alloc: Global,
    blank: Blank,
    image: &[u8],
    fuse: u64,
) -> Option<Stopped>
    requires name { blank.name ≡ L.name }
    requires parts { blank.parts ≡ L.parts }
    requires eight { blank.parts ≡ 8 }
{
    let calls = (mkdir(rt, alloc, b"/a"), open(rt, alloc, b"/"));
    let copy = copied(rt, alloc, image);
    match Kernel::<L, NoGate>::open(alloc, blank, copy, fuse, NoGate) {
        Ok(opened) => {
            let (kernel, seats) = opened;
            Some(stops_of(rt, alloc, kernel, seats, calls))
        }
        Err(MountFault::DeviceFault) => None,
        Err(fault) => no_kernel(rt, fault),
    }
}

fn stops_with<R: Wait + Abort>(rt: &R, alloc: Global, image: &[u8], fuse: u64) -> Option<Stopped> {
    stops::<Brand, R>(rt, alloc, Blank::new(8), image, fuse)
}

/// A kernel opens with the least fuse at which a world is mounted, and with no smaller one. Then the device's failure
/// stops the first call that needs a block, and the halt stops another hart's call. Given up, both seats are as the
/// list has them. The closed kernel has the image and the fuse.
#[test]
fn a_fuse_stops_calls(rt: HostRuntime) {
    let alloc = rt.alloc();
    let image = fresh_image(&rt, alloc);
    let image = image.as_slice();
    let least = least_fuse(&rt, alloc, image);
    assert!(rt; stops_with(&rt, alloc, image, least.saturating_sub(1)).is_none());
    let stopped = stops_with(&rt, alloc, image, least).expect(&rt, "it isn't opened");
    assert!(rt; stopped.halts == (Some(Halt::DeviceFault), Some(Halt::Halted)));
    assert!(rt; stopped.image.as_slice() == image && stopped.fuse == least);
}
