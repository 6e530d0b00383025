//! A script played on a world, event by event.
use block_device::MemoryDisk;
use fs_machine::Kind;
use hart_core::{Came, Event, Outcome, Run, World, run, trace};
use image_tree::tree_of;
use image_versions::Version;
use mkfs::make;
use plain_tree::{Bytes, Call, HARTS, NoMemory, Placed, Trace, Tree, check};
use script::{CallLine, Command, parse};
use std::alloc::{AllocError, Global};
use std::test::Fail;

/// More steps than a call of these runs has.
const MANY: usize = 100000;

/// A fresh image of 2000 blocks and 200 inodes, and the events that a script makes on it.
#[derive(Drop)]
pub struct Play {
    pub image: Vec<u8>,
    pub events: Vec<Event>,
}

/// What the events show: the image's tree, and the trace.
#[derive(Drop)]
pub struct Seen {
    pub base: Tree,
    pub trace: Trace,
}

fn filled(alloc: Global, byte: u8, count: u32) -> Result<Bytes, AllocError> {
    Ok(Bytes::new(vec![in alloc; byte; count as usize]?))
}

fn call_of(alloc: Global, line: CallLine) -> Result<Call, AllocError> {
    Ok(match line {
        CallLine::Open { path, flags } => Call::Open {
            path: Bytes::new(path),
            flags,
        },
        CallLine::Read { fd, count } => Call::Read {
            fd,
            buf: filled(alloc, 0, count)?,
        },
        CallLine::Write { fd, bytes } => Call::Write {
            fd,
            bytes: Bytes::new(bytes),
        },
        CallLine::Fill { fd, count } => Call::Write {
            fd,
            bytes: filled(alloc, b'x', count)?,
        },
        CallLine::Link { old, new } => Call::Link {
            old: Bytes::new(old),
            new: Bytes::new(new),
        },
        CallLine::Unlink { path } => Call::Unlink {
            path: Bytes::new(path),
        },
        CallLine::Mkdir { path } => Call::Mkdir {
            path: Bytes::new(path),
        },
        CallLine::Chdir { path } => Call::Chdir {
            path: Bytes::new(path),
        },
        CallLine::Dup { fd } => Call::Dup { fd },
        CallLine::Fstat { fd } => Call::Fstat { fd },
        CallLine::Close { fd } => Call::Close { fd },
        CallLine::Inherit { child } => Call::Inherit { child },
    })
}

fn start(
    world: &mut World<MemoryDisk>,
    events: &mut Vec<Event>,
    alloc: Global,
    hart: u8,
    line: CallLine,
) -> Result<(), AllocError> {
    let call = call_of(alloc, line)?;
    let again = call.clone()?;
    events.push(Event::Start { hart, call: again })?;
    let _ = world.start(hart, call);
    Ok(())
}

// Steps of a hart, until `count` of a kind have run, or its call ends.
fn go_on(
    world: &mut World<MemoryDisk>,
    events: &mut Vec<Event>,
    hart: u8,
    kind: Kind,
    count: u32,
) -> Result<(), AllocError> {
    let mut left = count;
    for _ in 0..MANY {
        if left == 0 {
            return Ok(());
        }
        events.push(Event::Step { hart })?;
        match world.step(hart) {
            Outcome::Ran(ran) => {
                if ran == kind {
                    left -= 1;
                }
            }
            _ => return Ok(()),
        }
    }
    Ok(())
}

// A step of each hart; and whether one of them ran.
fn turn(world: &mut World<MemoryDisk>, events: &mut Vec<Event>) -> Result<bool, AllocError> {
    let mut has_run = false;
    for hart in 0..HARTS {
        events.push(Event::Step { hart })?;
        match world.step(hart) {
            Outcome::Ran(_) | Outcome::Done(_) => has_run = true,
            _ => {}
        }
    }
    Ok(has_run)
}

// Steps of all harts in turn, until none of them runs.
fn go_on_together(
    world: &mut World<MemoryDisk>,
    events: &mut Vec<Event>,
) -> Result<(), AllocError> {
    for _ in 0..MANY {
        if !turn(world, events)? {
            return Ok(());
        }
    }
    Ok(())
}

fn play_command(
    world: &mut World<MemoryDisk>,
    events: &mut Vec<Event>,
    alloc: Global,
    command: Command,
) -> Result<(), AllocError> {
    match command {
        Command::Start { hart, call } => start(world, events, alloc, hart, call),
        Command::Do { hart, call } => {
            start(world, events, alloc, hart, call)?;
            go_on(world, events, hart, Kind::Reply, 1)
        }
        Command::Upto { hart, kind, steps } => go_on(world, events, hart, kind, steps),
        Command::End { hart } => go_on(world, events, hart, Kind::Reply, 1),
        Command::All => go_on_together(world, events),
        _ => Ok(()),
    }
}

fn mounted(alloc: Global, image: &[u8]) -> Result<World<MemoryDisk>, Fail> {
    match World::mount(alloc, MemoryDisk::new(Vec::from_slice(alloc, image)?)) {
        Ok(world) => Ok(world),
        Err(_) => Err(Fail::from(AllocError)),
    }
}

fn events_of(
    alloc: Global,
    world: &mut World<MemoryDisk>,
    text: &str,
) -> Result<Vec<Event>, AllocError> {
    let mut events = Vec::new(alloc);
    let Ok(lines) = parse(alloc, text.as_bytes()) else {
        return Err(AllocError);
    };
    for line in lines {
        play_command(world, &mut events, alloc, line.command)?;
    }
    Ok(events)
}

/// Plays a script on a world over a fresh image.
pub fn played(alloc: Global, text: &str) -> Result<Play, Fail> {
    let Ok(disk) = make(alloc, 2000, 200, &[]) else {
        return Err(Fail::from(AllocError));
    };
    let image = disk.into_bytes();
    let mut world = mounted(alloc, &image)?;
    let events = events_of(alloc, &mut world, text);
    let _disk = world.unmount();
    Ok(Play {
        image,
        events: events?,
    })
}

fn outcomes_of(alloc: Global, play: &Play) -> Result<Vec<Came>, Fail> {
    match run(alloc, mounted(alloc, &play.image)?, &play.events) {
        Ok(run) => {
            let Run {
                world,
                outcomes,
                cut: _,
                doubt: _,
            } = run;
            let _disk = world.unmount();
            Ok(outcomes)
        }
        Err((world, _)) => {
            let _disk = world.unmount();
            Err(Fail::from(AllocError))
        }
    }
}

/// What the events show.
pub fn seen_in(alloc: Global, play: &Play) -> Result<Seen, Fail> {
    let mut disk = MemoryDisk::new(Vec::from_slice(alloc, &play.image)?);
    let Ok(base) = tree_of(alloc, &mut disk, Version::One) else {
        return Err(Fail::from(AllocError));
    };
    let outcomes = outcomes_of(alloc, play)?;
    match trace(alloc, &play.events, &outcomes) {
        Ok(trace) => Ok(Seen { base, trace }),
        Err(_) => Err(Fail::from(AllocError)),
    }
}

/// Whether the list explains what was seen.
pub fn explains(alloc: Global, seen: &Seen, list: &[Placed]) -> Result<bool, Fail> {
    match check(alloc, Version::One, &seen.base, &seen.trace, list) {
        Ok(explains) => Ok(explains),
        Err(NoMemory) => Err(Fail::from(AllocError)),
    }
}

/// Whether the steps, made on the image's tree in order, give the answers of the list.
pub fn gives_answers(alloc: Global, seen: Seen, list: &[Placed]) -> Result<bool, Fail> {
    let mut tree = seen.base;
    for entry in list {
        match tree.apply(alloc, Version::One, &entry.step) {
            Ok(answer) => {
                if answer != entry.answer {
                    return Ok(false);
                }
            }
            Err(_) => return Err(Fail::from(AllocError)),
        }
    }
    Ok(true)
}
