//! The plain tree.
use crate::workload::WorkloadError;
use image_versions::Version;
use plain_tree::{Action, Bytes, StepAnswer, Tree, TreeStep};
use std::alloc::{AllocError, Global};

const NODES: u16 = 200;

const CREATE: u32 = 0x200;

const ROUNDS: u32 = 2000;

fn path(alloc: Global, number: u16) -> Result<Bytes, AllocError> {
    let text = format!(in alloc; "/f{number}")?;
    Ok(Bytes::new(Vec::from_slice(alloc, text.as_bytes())?))
}

fn apply(
    alloc: Global,
    tree: &mut Tree,
    new: u16,
    action: Action,
) -> Result<StepAnswer, WorkloadError> {
    let step = TreeStep {
        hart: 0,
        new,
        action,
    };
    tree.apply(alloc, Version::One, &step)
        .map_err(|_| WorkloadError::Wrong)
}

fn close(alloc: Global, tree: &mut Tree) -> Result<(), WorkloadError> {
    match apply(alloc, tree, 0, Action::Close { fd: 0 })? {
        StepAnswer::Done => Ok(()),
        _ => Err(WorkloadError::Wrong),
    }
}

fn open(alloc: Global, tree: &mut Tree, number: u16, flags: u32) -> Result<(), WorkloadError> {
    let path = path(alloc, number)?;
    match apply(alloc, tree, number, Action::Open { path, flags })? {
        StepAnswer::Opened { fd: 0, .. } => Ok(()),
        _ => Err(WorkloadError::Wrong),
    }
}

/// A tree of 200 nodes: the root and the files "/f2" to "/f199".
pub fn grown(alloc: Global) -> Result<Tree, WorkloadError> {
    let mut tree = Tree::new(alloc, Version::One, NODES).map_err(|_| WorkloadError::Wrong)?;
    for number in 2..NODES {
        open(alloc, &mut tree, number, CREATE)?;
        close(alloc, &mut tree)?;
    }
    Ok(tree)
}

/// The last file of such a tree opened and closed, each a step.
pub fn apply_steps(alloc: Global) -> Result<u64, WorkloadError> {
    let mut tree = grown(alloc)?;
    let mut count = 0u64;
    for _ in 0..ROUNDS {
        open(alloc, &mut tree, NODES - 1, 0)?;
        close(alloc, &mut tree)?;
        count = count.wrapping_add(2);
    }
    Ok(count)
}
