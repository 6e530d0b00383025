//! The history of a run of eight harts, found.
use crate::images::{files, image};
use crate::plans::{Ask, CREATE, WRITE, call};
use crate::workload::WorkloadError;
use block_device::MemoryDisk;
use explain::explain;
use hart_core::{Event, Outcome, World};
use image_versions::Version;
use plain_tree::HARTS;
use std::alloc::Global;

// In each turn each hart makes one event.
const TURNS: u64 = 12_500;

// With the root 200 nodes.
const FILES: u32 = 199;

const DISK_BLOCKS: u32 = 2000;

// More than harts make at once.
const NEW_INODES: u32 = 100;

// Which part of a hart's number comes after the paths of a call: all of it, or none, so that all harts share the
// name.
const OWN: u8 = 7;

const SHARED: u8 = 0;

// What a hart calls, again and again. It asks for the state of a file of the image, and of one that it has just made.
const WORK: [(u8, Ask); 19] = [
    (OWN, Ask::Mkdir(b"/d")),
    (OWN, Ask::Chdir(b"/d")),
    (OWN, Ask::Open(b"n", CREATE | WRITE)),
    (OWN, Ask::Write(5)),
    (OWN, Ask::Stray),
    (OWN, Ask::Close),
    (OWN, Ask::Link(b"n", b"m")),
    (OWN, Ask::Unlink(b"n")),
    (OWN, Ask::Unlink(b"m")),
    (OWN, Ask::Unlink(b"/d")),
    (OWN, Ask::Open(b"/f", 0)),
    (OWN, Ask::Stray),
    (OWN, Ask::Close),
    (SHARED, Ask::Open(b"/s", CREATE)),
    (SHARED, Ask::Read(16)),
    (SHARED, Ask::Close),
    (SHARED, Ask::Link(b"/s", b"/t")),
    (SHARED, Ask::Unlink(b"/s")),
    (SHARED, Ask::Unlink(b"/t")),
];

// A hart, the place in that list of the call that it makes next, and whether one is under way.
#[derive(Clone, Copy)]
struct Worker {
    hart: u8,
    next: usize,
    is_busy: bool,
}

// Each begins two calls after the one before.
fn workers(alloc: Global) -> Result<Vec<Worker>, WorkloadError> {
    let mut workers = Vec::new(alloc);
    for hart in 0..HARTS {
        workers.push(Worker {
            hart,
            next: 2 * usize::from(hart),
            is_busy: false,
        })?;
    }
    Ok(workers)
}

fn start(
    alloc: Global,
    world: &mut World<MemoryDisk>,
    events: &mut Vec<Event>,
    worker: &mut Worker,
) -> Result<(), WorkloadError> {
    let Worker { hart, next, .. } = *worker;
    let Some((part, ask)) = WORK.get(next % WORK.len()) else {
        return Err(WorkloadError::Wrong);
    };
    let call = call(alloc, *ask, hart & *part)?;
    let again = call.clone()?;
    events.push(Event::Start { hart, call: again })?;
    worker.next = next.wrapping_add(1);
    worker.is_busy = true;
    world.start(hart, call).map_err(|_| WorkloadError::Wrong)
}

fn step(
    world: &mut World<MemoryDisk>,
    events: &mut Vec<Event>,
    worker: &mut Worker,
) -> Result<(), WorkloadError> {
    let hart = worker.hart;
    events.push(Event::Step { hart })?;
    match world.step(hart) {
        Outcome::Done(_) => worker.is_busy = false,
        Outcome::Stopped(_) => return Err(WorkloadError::Device),
        _ => {}
    }
    Ok(())
}

// An event of each hart: a step of its call, or the start of its next one.
fn turn(
    alloc: Global,
    world: &mut World<MemoryDisk>,
    events: &mut Vec<Event>,
    workers: &mut [Worker],
) -> Result<(), WorkloadError> {
    for worker in workers.iter_mut() {
        if worker.is_busy {
            step(world, events, worker)?;
        } else {
            start(alloc, world, events, worker)?;
        }
    }
    Ok(())
}

fn play(alloc: Global, world: &mut World<MemoryDisk>) -> Result<Vec<Event>, WorkloadError> {
    let mut workers = workers(alloc)?;
    let mut events = Vec::new(alloc);
    for _ in 0..TURNS {
        turn(alloc, world, &mut events, workers.as_mut_slice())?;
    }
    Ok(events)
}

// The events of a run on this image.
fn events_on(alloc: Global, image: &[u8]) -> Result<Vec<Event>, WorkloadError> {
    let disk = MemoryDisk::new(Vec::from_slice(alloc, image)?);
    let Ok(mut world) = World::mount(alloc, disk) else {
        return Err(WorkloadError::Wrong);
    };
    let events = play(alloc, &mut world);
    let _disk = world.unmount();
    events
}

/// Eight harts at work in one tree, an event of each in turn, and a list of tree steps found that explains their run. Each event is an
/// operation: it is made twice, once before and once for the list.
pub fn explain_events(alloc: Global) -> Result<u64, WorkloadError> {
    let files = files(alloc, FILES, 0)?;
    let inodes = FILES + NEW_INODES;
    let disk = image(alloc, Version::One, DISK_BLOCKS, inodes, files.as_slice())?;
    let image = disk.into_bytes();
    let events = events_on(alloc, &image)?;
    match explain(alloc, &image, &events) {
        Ok(_) => Ok(events.len() as u64),
        Err(_) => Err(WorkloadError::Wrong),
    }
}
