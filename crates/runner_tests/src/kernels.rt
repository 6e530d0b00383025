//! What the tests have in common: memory, images, seats, and calls of a kernel. If memory for a test is refused, the
//! test says so, and ends.
ghost use Rattle.std.specs.Prelude.{◌≡◌};

use hart_runner::{CallFault, Gate, Kernel, Seat};
use image_tree::MountFault;
use image_versions::Version;
use locked_world::{Closed, Halt, Receipt};
use mkfs::{NewFile, make_as};
use plain_tree::{Bytes, Call, Reply};
use std::alloc::Global;
use std::process::Abort;
use std::sync::Wait;
use std::sync::ledger::Ledger;

/// The result of a call: its reply, or why it was stopped, if it was started.
pub type CallResult = Result<Reply, Option<Halt>>;

/// One item more.
pub fn push<T: Drop>(rt: &impl Abort, items: &mut Vec<T>, item: T) {
    assert!(rt; items.push(item).is_ok(), "error: AllocError");
}

/// Items of their own.
pub fn copied<T: Copy>(rt: &impl Abort, alloc: Global, items: &[T]) -> Vec<T> {
    Vec::from_slice(alloc, items).expect(rt, "error")
}

pub fn bytes(rt: &impl Abort, alloc: Global, bytes: &[u8]) -> Bytes {
    Bytes::new(copied(rt, alloc, bytes))
}

/// An open to read.
pub fn open(rt: &impl Abort, alloc: Global, path: &[u8]) -> Call {
    Call::Open {
        path: bytes(rt, alloc, path),
        flags: 0,
    }
}

pub fn mkdir(rt: &impl Abort, alloc: Global, path: &[u8]) -> Call {
    Call::Mkdir {
        path: bytes(rt, alloc, path),
    }
}

/// A read over these bytes, or as it is handed back with them.
pub fn read(rt: &impl Abort, alloc: Global, fd: u32, buf: &[u8; 16]) -> Call {
    Call::Read {
        fd,
        buf: bytes(rt, alloc, buf),
    }
}

// A new image of this version, of this number of blocks and inodes, whose root has these files.
fn made(
    rt: &impl Abort,
    alloc: Global,
    version: Version,
    size: u32,
    ninodes: u32,
    files: &[NewFile],
) -> Vec<u8> {
    let disk = make_as(alloc, version, size, ninodes, files).expect(rt, "error");
    disk.into_bytes()
}

/// An image of this version, of 60 blocks and 16 inodes, and a root without names.
pub fn image_of(rt: &impl Abort, alloc: Global, version: Version) -> Vec<u8> {
    made(rt, alloc, version, 60, 16, &[])
}

/// One of version 1.
pub fn image(rt: &impl Abort, alloc: Global) -> Vec<u8> {
    image_of(rt, alloc, Version::One)
}

/// An image of this version, of 200 blocks and 64 inodes, and a root without names: room for all that eight harts make at once.
pub fn roomy_image(rt: &impl Abort, alloc: Global, version: Version) -> Vec<u8> {
    made(rt, alloc, version, 200, 64, &[])
}

/// The image that `mkfs` makes if nothing else is asked for: 2000 blocks and 200 inodes, and a root without names.
pub fn fresh_image(rt: &impl Abort, alloc: Global) -> Vec<u8> {
    made(rt, alloc, Version::One, 2000, 200, &[])
}

/// The fresh image with the file `/f`, which has no bytes.
pub fn image_with_f(rt: &impl Abort, alloc: Global) -> Vec<u8> {
    let file = NewFile {
        name: copied(rt, alloc, b"f"),
        content: Vec::new(alloc),
    };
    made(rt, alloc, Version::One, 2000, 200, &[file])
}

/// Ends a test that has no kernel.
pub fn no_kernel(rt: &impl Abort, fault: MountFault) -> ! {
    panic!(rt; "error: {fault:?}")
}

/// A kernel that is closed, with all its seats.
pub fn closed<L: Ledger, G: Gate + Drop>(
    rt: &impl Abort,
    kernel: Kernel<L, G>,
    seats: [Seat<L>; 8],
) -> Closed<L>
    requires { L.parts ≡ 8 }
{
    match kernel.close(seats) {
        Ok(closed) => closed,
        Err(_) => panic!(rt; "no close"),
    }
}

/// The seats of harts 0 and 1, and the others.
pub fn first_two<L: Ledger>(seats: [Seat<L>; 8]) -> (Seat<L>, Seat<L>, [Seat<L>; 6]) {
    let [a, b, c, d, e, f, g, h] = seats;
    (a, b, [c, d, e, f, g, h])
}

pub fn all_of<L: Ledger>(a: Seat<L>, b: Seat<L>, others: [Seat<L>; 6]) -> [Seat<L>; 8] {
    let [c, d, e, f, g, h] = others;
    [a, b, c, d, e, f, g, h]
}

/// The seat after a call, and the call's result. If the call is stopped, it is given up.
pub fn came_of<L: Ledger>(
    made: Result<(Seat<L>, Receipt<L>), CallFault<L>>,
) -> (Seat<L>, CallResult) {
    match made {
        Ok((seat, receipt)) => (seat, Ok(receipt.into_reply())),
        Err(CallFault::Start(seat, _, _)) => (seat, Err(None)),
        Err(CallFault::Memory(seat, _)) => (seat, Err(None)),
        Err(CallFault::Stopped(busy, halt)) => (busy.give_up(), Err(Some(halt))),
    }
}

/// Makes a call. A call that finds no memory is tried once more.
pub fn called<L: Ledger, G: Gate + Drop, R: Wait>(
    rt: &R,
    kernel: &Kernel<L, G>,
    seat: Seat<L>,
    call: Call,
) -> (Seat<L>, CallResult) {
    let made = match kernel.call(rt, seat, call) {
        Err(CallFault::Memory(seat, call)) => kernel.call(rt, seat, call),
        Err(CallFault::Stopped(busy, Halt::NoMemory)) => kernel.resume(rt, busy),
        made => made,
    };
    came_of(made)
}
