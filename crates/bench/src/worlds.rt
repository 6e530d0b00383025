//! Calls of harts in a mounted world, over a disk in memory. What they read is in the cache.
use crate::images::{files, image};
use crate::plans::{Ask, CREATE, Row, TRUNCATE, WRITE, Wave, waves};
use crate::workload::WorkloadError;
use block_device::MemoryDisk;
use hart_core::{Outcome, World};
use image_versions::Version;
use image_versions::widths::LARGEST_SIZE;
use plain_tree::{Call, Reply};
use std::alloc::Global;
use std::mem;

const DISK_BLOCKS: u32 = 2000;

// More turns than the measured calls take.
const MOST_TURNS: u32 = 100_000;

// The number of the image's first file.
const FILE: u16 = 2;

// A file whose blocks are cached all at once: nine pages, twelve pieces.
const CACHED: usize = 36_864;

const PAGE: u32 = 4096;

const PIECE: u32 = 3072;

// The greatest file.
const LARGEST: u32 = LARGEST_SIZE as u32;

// Directories below one another, with a file in each.
const DEEPEN: [(u32, Ask); 4] = [
    (1, Ask::Mkdir(b"d")),
    (1, Ask::Chdir(b"d")),
    (1, Ask::Open(b"f", CREATE)),
    (1, Ask::Close),
];

// The file in the fifteenth of these, on an image with no others. Each one before has two numbers.
const DEEP: &[u8] = b"/d0/d0/d0/d0/d0/d0/d0/d0/d0/d0/d0/d0/d0/d0/d0/f";

const DEEP_FILE: u16 = FILE + 29;

/// What harts do, again and again.
#[derive(Clone, Copy)]
pub struct Line {
    /// The image's version.
    version: Version,
    harts: u8,
    /// The image's files `/f0`, `/f1` .., and their bytes.
    files: (u32, usize),
    /// How many directories there are below one another.
    depth: u32,
    round: &'static [(u32, Ask)],
    rounds: u32,
    /// How many operations a round is.
    operations: u32,
}

const ROOT: Line = Line {
    version: Version::One,
    harts: 1,
    files: (8, 0),
    depth: 0,
    round: &[],
    rounds: 50_000,
    operations: 1,
};

/// An `fstat` of a descriptor that isn't open: its start and its reply, in one step.
pub const EVENT: Line = Line {
    round: &[(1, Ask::Stray)],
    rounds: 1_000_000,
    ..ROOT
};

/// `open`, `fstat` and `close` of a file in the root.
pub const VISIT: Line = Line {
    round: &[
        (1, Ask::Open(b"/f", 0)),
        (1, Ask::Fstat(FILE)),
        (1, Ask::Close),
    ],
    ..ROOT
};

/// The same on an image of version 2.
pub const VISIT_OF_VERSION_2: Line = Line {
    version: Version::Two,
    ..VISIT
};

/// `open`, `fstat` and `close` by each of eight harts, of files of their own, a step of each in turn. One operation is one hart's three calls.
pub const TURNS: Line = Line {
    harts: 8,
    rounds: 10_000,
    operations: 8,
    ..VISIT
};

/// The same of a file below fifteen directories.
pub const DEEP_VISIT: Line = Line {
    files: (0, 0),
    depth: 15,
    round: &[
        (1, Ask::Open(DEEP, 0)),
        (1, Ask::Fstat(DEEP_FILE)),
        (1, Ask::Close),
    ],
    rounds: 10_000,
    ..ROOT
};

/// An `open` of a name that a root with a thousand files hasn't.
pub const MISS: Line = Line {
    files: (1000, 0),
    round: &[(1, Ask::Miss(b"/missing"))],
    rounds: 20_000,
    ..ROOT
};

/// The same on an image of version 2.
pub const MISS_OF_VERSION_2: Line = Line {
    version: Version::Two,
    ..MISS
};

/// A read of 4096 bytes, with a ninth of an open and of a close.
pub const READ: Line = Line {
    files: (1, CACHED),
    round: &[
        (1, Ask::Open(b"/f", 0)),
        (9, Ask::Read(PAGE)),
        (1, Ask::Close),
    ],
    rounds: 10_000,
    operations: 9,
    ..ROOT
};

/// A read of no bytes, with the same: what a read costs beside its bytes.
pub const READ_NONE: Line = Line {
    round: &[(1, Ask::Open(b"/f", 0)), (9, Ask::Read(0)), (1, Ask::Close)],
    ..READ
};

/// A write of 3072 bytes into blocks that are there, with its commit, and with a twelfth of an open and of a close.
pub const REWRITE: Line = Line {
    files: (1, CACHED),
    round: &[
        (1, Ask::Open(b"/f", WRITE)),
        (12, Ask::Write(PIECE)),
        (1, Ask::Close),
    ],
    rounds: 5000,
    operations: 12,
    ..ROOT
};

/// The greatest file opened and emptied, written by one call, which makes 90 pieces of it, and closed.
pub const WRITE_ANEW: Line = Line {
    files: (1, 0),
    round: &[
        (1, Ask::Open(b"/f", WRITE | TRUNCATE)),
        (1, Ask::Write(LARGEST)),
        (1, Ask::Close),
    ],
    rounds: 300,
    ..ROOT
};

/// A file made, written, closed and removed.
pub const REMOVE: Line = Line {
    round: &[
        (1, Ask::Open(b"/new", CREATE | WRITE)),
        (1, Ask::Write(5)),
        (1, Ask::Close),
        (1, Ask::Unlink(b"/new")),
    ],
    rounds: 20_000,
    ..ROOT
};

/// Runs it, and says how many operations that were.
pub fn run(alloc: Global, line: Line) -> Result<u64, WorkloadError> {
    let (count, size) = line.files;
    let files = files(alloc, count, size)?;
    let disk = image(
        alloc,
        line.version,
        DISK_BLOCKS,
        count.saturating_add(100),
        files.as_slice(),
    )?;
    let Ok(mut world) = World::mount(alloc, disk) else {
        return Err(WorkloadError::Wrong);
    };
    let done = play(alloc, &mut world, line);
    let _disk = world.unmount();
    done
}

fn play(alloc: Global, world: &mut World<MemoryDisk>, line: Line) -> Result<u64, WorkloadError> {
    make_rounds(world, waves(alloc, 1, &DEEPEN)?, line.depth)?;
    make_rounds(world, waves(alloc, line.harts, line.round)?, line.rounds)?;
    Ok(u64::from(line.rounds) * u64::from(line.operations))
}

fn make_rounds(
    world: &mut World<MemoryDisk>,
    mut waves: Vec<Wave>,
    rounds: u32,
) -> Result<(), WorkloadError> {
    for _ in 0..rounds {
        for wave in waves.iter_mut() {
            make_wave(world, wave)?;
        }
    }
    Ok(())
}

fn make_wave(world: &mut World<MemoryDisk>, wave: &mut Wave) -> Result<(), WorkloadError> {
    for _ in 0..wave.times {
        make_calls(world, wave.rows.as_mut_slice())?;
    }
    Ok(())
}

// Makes a call of each hart, from its start to its reply.
fn make_calls(world: &mut World<MemoryDisk>, rows: &mut [Row]) -> Result<(), WorkloadError> {
    start(world, rows)?;
    if let [row] = rows {
        return make_call(world, row);
    }
    let mut left = rows.len();
    for _ in 0..MOST_TURNS {
        left = left.saturating_sub(turn(world, rows)?);
        if left == 0 {
            return Ok(());
        }
    }
    Err(WorkloadError::Wrong)
}

fn start(world: &mut World<MemoryDisk>, rows: &mut [Row]) -> Result<(), WorkloadError> {
    for row in rows.iter_mut() {
        let call = mem::replace(&mut row.call, Call::Dup { fd: 0 });
        if world.start(row.hart, call).is_err() {
            return Err(WorkloadError::Wrong);
        }
    }
    Ok(())
}

// The same of one hart, with no turns of others between.
fn make_call(world: &mut World<MemoryDisk>, row: &mut Row) -> Result<(), WorkloadError> {
    let hart = row.hart;
    for _ in 0..MOST_TURNS {
        match world.step(hart) {
            Outcome::Done(reply) => return take(row, reply),
            Outcome::Stopped(_) => return Err(WorkloadError::Device),
            _ => {}
        }
    }
    Err(WorkloadError::Wrong)
}

// A step of each hart, and how many have replied.
fn turn(world: &mut World<MemoryDisk>, rows: &mut [Row]) -> Result<usize, WorkloadError> {
    let mut replied = 0usize;
    for row in rows.iter_mut() {
        match world.step(row.hart) {
            Outcome::Done(reply) => {
                take(row, reply)?;
                replied = replied.saturating_add(1);
            }
            Outcome::Stopped(_) => return Err(WorkloadError::Device),
            _ => {}
        }
    }
    Ok(replied)
}

// The reply is the one that is wanted, and hands its call back.
#[inline(always)]
fn take(row: &mut Row, reply: Reply) -> Result<(), WorkloadError> {
    let Reply { answer, call } = reply;
    if answer != row.wanted {
        return Err(WorkloadError::Wrong);
    }
    row.call = call;
    Ok(())
}
