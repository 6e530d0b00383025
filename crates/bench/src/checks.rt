//! The check of a list of tree steps.
use crate::trees;
use crate::workload::WorkloadError;
use image_versions::Version;
use plain_tree::{
    Action, Answer, Bytes, Call, Calls, Placed, Reply, Trace, TracedCall, Tree, TreeStep, check,
};
use std::alloc::{AllocError, Global};

const CALLS: u64 = 200;

const ROUNDS: u32 = 20;

const READ_WRITE: u32 = 2;

/// Bytes of a read and of a write.
const COUNT: u32 = 10;

fn zeros(alloc: Global) -> Result<Bytes, AllocError> {
    Ok(Bytes::new(Vec::from_slice(alloc, &[0; COUNT as usize])?))
}

fn path(alloc: Global) -> Result<Bytes, AllocError> {
    Ok(Bytes::new(Vec::from_slice(alloc, b"/f199")?))
}

/// The call of this number: an open, a write, a read or a close of the last file.
fn call(alloc: Global, number: u64) -> Result<Call, AllocError> {
    match number % 4 {
        0 => Ok(Call::Open {
            path: path(alloc)?,
            flags: READ_WRITE,
        }),
        1 => Ok(Call::Write {
            fd: 0,
            bytes: zeros(alloc)?,
        }),
        2 => Ok(Call::Read {
            fd: 0,
            buf: zeros(alloc)?,
        }),
        _ => Ok(Call::Close { fd: 0 }),
    }
}

/// The step of that call.
fn action(alloc: Global, number: u64) -> Result<Action, AllocError> {
    match number % 4 {
        0 => Ok(Action::Open {
            path: path(alloc)?,
            flags: READ_WRITE,
        }),
        1 => Ok(Action::WritePart {
            fd: 0,
            bytes: zeros(alloc)?,
        }),
        2 => Ok(Action::Read {
            fd: 0,
            count: COUNT as usize,
        }),
        _ => Ok(Action::Close { fd: 0 }),
    }
}

/// What the call is answered; the read is at the end of the file.
fn answer(number: u64) -> Answer {
    match number % 4 {
        0 => Answer::Fd(0),
        1 => Answer::Count(COUNT),
        2 => Answer::Count(0),
        _ => Answer::Done,
    }
}

/// The calls of one hart, one after another: a start, a step and a reply each.
fn calls(alloc: Global) -> Result<Vec<TracedCall>, WorkloadError> {
    let mut calls = Vec::new(alloc);
    for number in 0..CALLS {
        let reply = Reply {
            answer: answer(number),
            call: call(alloc, number)?,
        };
        calls.push(TracedCall {
            hart: 0,
            start: number * 3,
            call: call(alloc, number)?,
            finished: Some((number * 3 + 2, reply)),
        })?;
    }
    Ok(calls)
}

/// Their steps, with the answers that the tree gives.
fn list(alloc: Global, base: &Tree) -> Result<Vec<Placed>, WorkloadError> {
    let mut tree = base.try_clone(alloc).map_err(|_| WorkloadError::Wrong)?;
    let mut list = Vec::new(alloc);
    for number in 0..CALLS {
        let step = TreeStep {
            hart: 0,
            new: 0,
            action: action(alloc, number)?,
        };
        let answer = tree
            .apply(alloc, Version::One, &step)
            .map_err(|_| WorkloadError::Wrong)?;
        list.push(Placed {
            event: number * 3 + 1,
            call: number as usize,
            step,
            answer,
        })?;
    }
    Ok(list)
}

/// A list of 200 opens, writes, reads and closes, on a tree of 200 nodes; each entry is an operation.
pub fn check_entries(alloc: Global) -> Result<u64, WorkloadError> {
    let base = trees::grown(alloc)?;
    let trace = Trace {
        calls: Calls::new(calls(alloc)?),
        events: CALLS * 3,
    };
    let list = list(alloc, &base)?;
    let mut count = 0u64;
    for _ in 0..ROUNDS {
        match check(alloc, Version::One, &base, &trace, &list) {
            Ok(true) => count = count.wrapping_add(CALLS),
            _ => return Err(WorkloadError::Wrong),
        }
    }
    Ok(count)
}
