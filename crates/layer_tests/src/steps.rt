//! The largest file, the named part of a tree that keeps nodes without names, and steps past the table. A call that
//! finds no memory is tried once more.
use crate::story::bytes;
use image_versions::Version;
use plain_tree::{
    Action, ApplyRefused, Cause, NoMemory, Node, NodeKind, Slot, Slots, StepAnswer, Tree, TreeStep,
};
use std::alloc::Global;
use std::test::Fail;

fn make(
    alloc: Global,
    tree: &mut Tree,
    new: u16,
    action: Action,
) -> Result<StepAnswer, ApplyRefused> {
    let hart = 0;
    let step = TreeStep { hart, new, action };
    match tree.apply(alloc, Version::One, &step) {
        Err(ApplyRefused::NoMemory) => tree.apply(alloc, Version::One, &step),
        answer => answer,
    }
}

fn write(alloc: Global, tree: &mut Tree, text: &[u8]) -> Result<StepAnswer, ApplyRefused> {
    let bytes = bytes(alloc, text)?;
    make(alloc, tree, 0, Action::WritePart { fd: 0, bytes })
}

/// A file takes 268 blocks, and no byte more.
fn is_limited(alloc: Global) -> Result<bool, ApplyRefused> {
    let piece = [7; 3072];
    let mut tree = Tree::new(alloc, Version::One, 10)?;
    let path = bytes(alloc, b"/f")?;
    let flags = 0x202;
    let _ = make(alloc, &mut tree, 2, Action::Open { path, flags })?;
    for _ in 0..89 {
        if write(alloc, &mut tree, &piece)? != StepAnswer::Done {
            return Ok(false);
        }
    }
    let cause = Cause::TooBig;
    let over = write(alloc, &mut tree, &piece[..1025])?;
    let full = write(alloc, &mut tree, &piece[..1024])?;
    Ok(over == StepAnswer::Failed { cause } && full == StepAnswer::Done)
}

#[test]
fn limits_a_file(rt: HostRuntime) -> Result<(), Fail> {
    let alloc = rt.alloc();
    let is = match is_limited(alloc) {
        Err(_) => is_limited(alloc),
        is => is,
    };
    assert!(rt; matches!(is, Ok(true)));
    Ok(())
}

/// A root whose only name leads past the table.
fn astray(alloc: Global) -> Result<Tree, NoMemory> {
    let name = bytes(alloc, b"x")?;
    let mut slots = Vec::new(alloc);
    slots.push(Some(Slot { name, number: 9 }))?;
    let slots = Slots::new(slots);
    let mut nodes = Vec::new(alloc);
    nodes.push(None)?;
    nodes.push(Some(Node {
        count: 1,
        kind: NodeKind::Directory { slots },
    }))?;
    Ok(Tree::of_nodes(alloc, nodes))
}

/// The count of the file of that number, and how many bytes it has.
fn file_in(tree: &Tree, number: usize) -> Option<(u16, usize)> {
    let node = tree.node(number)?;
    match &node.kind {
        NodeKind::File { bytes } => Some((node.count, bytes.as_slice().len())),
        _ => None,
    }
}

fn is_done(alloc: Global, tree: &mut Tree, action: Action) -> Result<bool, ApplyRefused> {
    Ok(make(alloc, tree, 0, action)? == StepAnswer::Done)
}

/// A node past the table is opened and found, emptied, written to, raised, unlinked, lowered and closed.
fn grows_past_the_table(alloc: Global) -> Result<bool, ApplyRefused> {
    let mut tree = astray(alloc)?;
    let path = bytes(alloc, b"/x")?;
    let old = bytes(alloc, b"/x")?;
    let there = bytes(alloc, b"/x")?;
    let opened = make(alloc, &mut tree, 0, Action::Open { path, flags: 2 })?;
    let is_found = is_done(alloc, &mut tree, Action::Find { old })?;
    let is_emptied = is_done(alloc, &mut tree, Action::Truncate { fd: 0 })?;
    let emptied = file_in(&tree, 9);
    let is_written = write(alloc, &mut tree, b"A")? == StepAnswer::Done;
    let is_raised = is_done(alloc, &mut tree, Action::Bump)?;
    let raised = file_in(&tree, 9);
    let is_unlinked = is_done(alloc, &mut tree, Action::Unlink { path: there })?;
    let is_lowered = is_done(alloc, &mut tree, Action::Unbump)?;
    let kept = file_in(&tree, 9);
    let is_closed = is_done(alloc, &mut tree, Action::Close { fd: 0 })?;
    let answer = StepAnswer::Opened {
        fd: 0,
        id: 0,
        is_file: true,
    };
    Ok(
        opened == answer
            && is_found
            && is_emptied
            && is_written
            && is_raised
            && is_unlinked
            && is_lowered
            && is_closed
            && (emptied, raised, kept) == (Some((0, 0)), Some((1, 1)), Some((0, 1)))
            && tree.node(9).is_none()
            && tree.ninodes() == 2,
    )
}

#[test]
fn changes_a_node_past_the_table(rt: HostRuntime) -> Result<(), Fail> {
    let alloc = rt.alloc();
    let grows = match grows_past_the_table(alloc) {
        Err(_) => grows_past_the_table(alloc),
        grows => grows,
    };
    assert!(rt; matches!(grows, Ok(true)));
    Ok(())
}

/// /d (2), which is hart 0's directory, and file 3, which has a descriptor and no name.
fn grown(alloc: Global) -> Result<Tree, ApplyRefused> {
    let mut tree = Tree::new(alloc, Version::One, 10)?;
    let flags = 0x202;
    let path = bytes(alloc, b"d")?;
    let there = bytes(alloc, b"d")?;
    let file = bytes(alloc, b"f")?;
    let again = bytes(alloc, b"f")?;
    for (new, action) in [
        (2, Action::Mkdir { path }),
        (0, Action::Chdir { path: there }),
        (3, Action::Open { path: file, flags }),
        (0, Action::Unlink { path: again }),
    ] {
        let _ = make(alloc, &mut tree, new, action)?;
    }
    Ok(tree)
}

/// A bit for each number that a node has.
fn numbers(tree: &Tree) -> u16 {
    let mut seen = 0;
    for number in 0..10 {
        if tree.node(number).is_some() {
            seen |= 1 << number;
        }
    }
    seen
}

#[test]
fn takes_the_named_part(rt: HostRuntime) -> Result<(), Fail> {
    let alloc = rt.alloc();
    let tree = match grown(alloc) {
        Err(_) => grown(alloc),
        tree => tree,
    };
    let Ok(tree) = tree else {
        panic!(rt; "no memory for the tree");
    };
    let named = match tree.named(alloc) {
        Err(NoMemory) => tree.named(alloc),
        named => named,
    };
    let Ok(named) = named else {
        panic!(rt; "no memory for the named part");
    };
    assert_eq!(rt; numbers(&tree), 0b1110);
    assert_eq!(rt; numbers(&named), 0b110);
    assert_eq!(rt; named.ninodes(), 10);
    assert_eq!(rt; (tree.directory(0), named.directory(0)), (2, 1));
    assert!(rt; tree.descriptor(0, 0).is_some());
    assert!(rt; named.descriptor(0, 0).is_none());
    Ok(())
}
