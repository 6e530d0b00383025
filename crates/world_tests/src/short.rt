//! What calls do if memory is short. `bin/short-memory` refuses, in turn, each request for memory that a call makes
//! between the lines "call" and "done". Then the call answers 33, and what it was given is as before. Made once more,
//! it has its usual result.
use crate::histories::{explains, history_of};
use crate::images::{Image, SMALL, disk_of, tree_in};
use crate::lists::{are_same, groups_in, mounted, play, ran, traced};
use crate::memory::copied;
use crate::rows::Ask::{Link, Mkdir, Open, Read, Unlink, Write};
use crate::rows::Line::{Do, End, Start, Upto};
use crate::rows::Says::{Bytes, Count, Done, Fd};
use crate::rows::{CREATE, Line, READ, READ_AND_WRITE};
use block_device::MemoryDisk;
use fs_machine::Kind;
use hart_core::{Run, World};
use image_versions::Version;
use plain_tree::{Trace, TracedCall};

// The answer of a call that was refused memory, and that of one that wasn't.
const NO_MEMORY: u8 = 33;

const ANSWERED: u8 = 0;

// A directory, a file in it, and its second name, which is given while the first one goes.
const LINES: &[Line] = &[
    Do(0, Mkdir(b"/x"), Done),
    Do(0, Open(b"/x/y", CREATE | READ_AND_WRITE), Fd(0)),
    Do(0, Write(0, b"hello"), Count(5)),
    Start(1, Link(b"/x/y", b"/z")),
    Upto(1, Kind::Unlock, 2),
    Do(0, Unlink(b"/x/y"), Done),
    End(1, Done),
    Do(1, Open(b"/z", READ), Fd(0)),
    Do(1, Read(0, 8), Bytes(b"hello")),
];

/// A device whose mount is refused memory is handed back unwritten, and mounted then.
#[test]
fn of_mount(rt: HostRuntime) {
    let alloc = rt.alloc();
    let image = disk_of(&rt, alloc, Image::Tree).into_bytes();
    let disk = MemoryDisk::new(copied(&rt, alloc, image.as_slice()));
    let _ = println!(rt; "call");
    let came = World::mount(alloc, disk);
    let _ = println!(rt; "done");
    let (disk, answer) = match came {
        Ok(world) => (world.unmount(), ANSWERED),
        Err((disk, fault)) => (disk, fault.number()),
    };
    let _ = println!(rt; "answer {answer}");
    assert!(rt; answer == ANSWERED || answer == NO_MEMORY);
    let bytes = disk.into_bytes();
    assert!(rt; bytes.as_slice() == image.as_slice());
    let disk = mounted(&rt, alloc, MemoryDisk::new(bytes)).unmount();
    assert!(rt; disk.into_bytes().as_slice() == image.as_slice());
}

/// A world whose run is refused memory is handed back as it was: the same events have the same outcomes on it.
#[test]
fn of_run(rt: HostRuntime) {
    let alloc = rt.alloc();
    let (made, disk) = play(&rt, alloc, disk_of(&rt, alloc, SMALL), LINES);
    let bytes = disk.into_bytes();
    let groups = groups_in(&rt, alloc, made.outcomes.as_slice());
    let last = groups.as_slice().last().map(|group| group.leave);
    let world = mounted(&rt, alloc, disk_of(&rt, alloc, SMALL));
    let _ = println!(rt; "call");
    let came = hart_core::run(alloc, world, made.events.as_slice());
    let _ = println!(rt; "done");
    let (run, answer) = match came {
        Ok(run) => (run, ANSWERED),
        Err((world, _)) => (ran(&rt, alloc, world, made.events.as_slice()), NO_MEMORY),
    };
    let _ = println!(rt; "answer {answer}");
    let Run {
        world,
        outcomes,
        cut,
        doubt,
    } = run;
    let again = world.unmount().into_bytes();
    assert!(rt; are_same(outcomes.as_slice(), made.outcomes.as_slice()));
    assert!(rt; again.as_slice() == bytes.as_slice());
    assert!(rt; cut == last && doubt.is_none());
}

fn is_same_call(one: &TracedCall, other: &TracedCall) -> bool {
    let is_finished = match (&one.finished, &other.finished) {
        (Some((event, reply)), Some((wanted, also))) => {
            event == wanted && reply.answer == also.answer && reply.call == also.call
        }
        (None, None) => true,
        _ => false,
    };
    is_finished && one.hart == other.hart && one.start == other.start && one.call == other.call
}

fn is_same_trace(one: &Trace, other: &Trace) -> bool {
    let calls = one
        .calls
        .as_slice()
        .iter()
        .zip(other.calls.as_slice().iter());
    one.events == other.events
        && one.calls.as_slice().len() == other.calls.as_slice().len()
        && calls.map(|(a, b)| is_same_call(a, b)).all(|same| same)
}

/// If a trace was refused memory, the next one shows the same.
#[test]
fn of_trace(rt: HostRuntime) {
    let alloc = rt.alloc();
    let (made, _disk) = play(&rt, alloc, disk_of(&rt, alloc, SMALL), LINES);
    let wanted = traced(&rt, alloc, &made);
    let _ = println!(rt; "call");
    let came = hart_core::trace(alloc, made.events.as_slice(), made.outcomes.as_slice());
    let _ = println!(rt; "done");
    let (trace, answer) = match came {
        Ok(trace) => (trace, ANSWERED),
        Err(_) => (traced(&rt, alloc, &made), NO_MEMORY),
    };
    let _ = println!(rt; "answer {answer}");
    assert!(rt; is_same_trace(&trace, &wanted));
}

/// A check that was refused memory answers true the next time, of the same tree.
#[test]
fn of_check(rt: HostRuntime) {
    let alloc = rt.alloc();
    let (made, _disk) = play(&rt, alloc, disk_of(&rt, alloc, SMALL), LINES);
    let mut disk = disk_of(&rt, alloc, SMALL);
    let base = tree_in(&rt, alloc, &mut disk);
    let trace = traced(&rt, alloc, &made);
    let list = history_of(&rt, alloc, &mut disk, &trace);
    let _ = println!(rt; "call");
    let came = plain_tree::check(alloc, Version::One, &base, &trace, list.as_slice());
    let _ = println!(rt; "done");
    let (explained, answer) = match came {
        Ok(explained) => (explained, ANSWERED),
        Err(_) => (true, NO_MEMORY),
    };
    let _ = println!(rt; "answer {answer}");
    assert!(rt; explained && explains(&rt, alloc, Version::One, &base, &trace, list.as_slice()));
}

/// No start and no step asks for memory.
#[test]
fn of_start_and_step(rt: HostRuntime) {
    let alloc = rt.alloc();
    let (made, _disk) = play(&rt, alloc, disk_of(&rt, alloc, SMALL), LINES);
    let mut world = mounted(&rt, alloc, disk_of(&rt, alloc, SMALL));
    let _ = println!(rt; "call");
    for event in made.events {
        let _ = world.event(event);
    }
    let _ = println!(rt; "done");
    let _disk = world.unmount();
    let _ = println!(rt; "answer {ANSWERED}");
}
