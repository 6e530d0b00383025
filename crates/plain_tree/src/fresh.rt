//! The parts of a fresh tree.
ghost use Rattle.std.specs.Prelude.{◌≡◌, ◌++◌, ◌-◌, ◌∷◌, IfOk, MatchResult, replicate};
ghost use Rattle.plain_tree.specs.Fresh.{fresh_hart, fresh_root};

use crate::act::slot;
use crate::node::{Node, NodeKind, Slots};
use crate::refused::{Attempt, NoMemory};
use crate::tree::Hart;
use crate::widths::{DESCRIPTOR_COUNT, DOT, DOTDOT, ROOT};
use image_versions::Version;
use std::alloc::Global;

/// Adds `count` places with nothing in them.
pub(crate) fn push_absent<T: Drop>(places: &mut Vec<Option<T>>, count: usize) -> Attempt
    ensures { MatchResult result (λ _. places.new.items ≡ places.old.items ++ replicate count None)
        (λ _. places.new.items ≡ places.old.items) }
{
    let len = places.len();
    for _ in 0..count {
        if places.push(None).is_err() {
            places.truncate(len);
            return Err(NoMemory);
        }
    }
    Ok(())
}

fn fresh_root(alloc: Global, version: Version) -> Attempt<Node>
    ensures { IfOk result (λ v. v ≡ fresh_root version) }
{
    let mut slots = Vec::new(alloc);
    slots.push(slot(alloc, &DOT, ROOT)?)?;
    slots.push(slot(alloc, &DOTDOT, ROOT)?)?;
    push_absent(&mut slots, version.dirents_per_block() - 2)?;
    let slots = Slots::new(slots);
    Ok(Node {
        count: 1,
        kind: NodeKind::Directory { slots },
    })
}

/// The nodes of a fresh tree: the root alone.
pub(crate) fn fresh_nodes(
    alloc: Global,
    version: Version,
    ninodes: u16,
) -> Attempt<Vec<Option<Node>>>
    ensures { IfOk result (λ v. v.items ≡ None ∷ Some (fresh_root version) ∷ replicate (ninodes - 2) None) }
{
    let mut nodes = Vec::new(alloc);
    nodes.push(None)?;
    nodes.push(Some(fresh_root(alloc, version)?))?;
    push_absent(&mut nodes, usize::from(ninodes.saturating_sub(2)))?;
    Ok(nodes)
}

/// A hart in the root with nothing open.
pub(crate) fn fresh_hart() -> Hart
    ensures { result ≡ fresh_hart }
{
    Hart {
        directory: ROOT,
        descriptors: [None; DESCRIPTOR_COUNT],
        hold: None,
    }
}
