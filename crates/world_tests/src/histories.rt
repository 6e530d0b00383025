//! Lists of tree steps that explain the outcomes of events, and the trees that they lead to.
use crate::images::{tree_in, version_in};
use crate::trees::is_same_tree;
use block_device::MemoryDisk;
use image_versions::Version;
use plain_tree::{Placed, Trace, Tree, check};
use std::alloc::Global;
use std::process::Abort;
use tree_histories::find_history;

pub fn explains(
    rt: &impl Abort,
    alloc: Global,
    version: Version,
    base: &Tree,
    trace: &Trace,
    list: &[Placed],
) -> bool {
    check(alloc, version, base, trace, list).expect(rt, "error")
}

/// A list that explains a trace, from the tree of a disk on.
pub fn history_of(
    rt: &impl Abort,
    alloc: Global,
    disk: &mut MemoryDisk,
    trace: &Trace,
) -> Vec<Placed> {
    let (version, base) = (version_in(rt, disk), tree_in(rt, alloc, disk));
    let found = find_history(alloc, version, &base, trace, &[]).expect(rt, "error");
    let list = found.expect(rt, "nothing explains it");
    assert!(rt; explains(rt, alloc, version, &base, trace, list.as_slice()));
    list
}

fn make_steps(rt: &impl Abort, alloc: Global, version: Version, tree: &mut Tree, list: &[Placed]) {
    for placed in list {
        let _answer = tree.apply(alloc, version, &placed.step).expect(rt, "error");
    }
}

/// Whether a disk has the named nodes of the tree that these steps lead to, from the tree of another disk on.
pub fn is_named_after(
    rt: &impl Abort,
    alloc: Global,
    old: &mut MemoryDisk,
    list: &[Placed],
    disk: &mut MemoryDisk,
) -> bool {
    let (version, mut tree) = (version_in(rt, old), tree_in(rt, alloc, old));
    make_steps(rt, alloc, version, &mut tree, list);
    let named = tree.named(alloc).expect(rt, "error");
    is_same_tree(&tree_in(rt, alloc, disk), &named)
}
