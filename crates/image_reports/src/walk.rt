//! The lines of all nodes below one.
ghost use Rattle.std.specs.Prelude.{◌≡◌, ◌++◌, drop, reverse, IfErr, OnOk};
ghost use Rattle.image_reports.specs.Vocabulary.{flat_map, tree_of};
ghost use Rattle.image_reports.specs.Faults.{IsOfWriting};
ghost use Rattle.image_reports.specs.Listing.{Listed, OneListing, below, named_at};

use crate::fault::ReportFault;
use crate::item::Item;
use crate::line::write_line;
use crate::paths::joined;
use crate::rows::push;
use image_versions::Version;
use plain_tree::{Node, NodeKind, Slot, Tree};
use std::alloc::{AllocError, Global};
use std::io::Write;

// What comes after "." and "..".
fn further(slots: &[Option<Slot>]) -> &[Option<Slot>]
    ensures { result.now ≡ drop 2 slots.now }
{
    if slots.len() > 2 { &slots[2..] } else { &[] }
}

// Puts what the slot names on top.
fn push_slot(
    alloc: Global,
    pending: &mut Vec<Item>,
    path: &[u8],
    slot: &Option<Slot>,
) -> Result<(), AllocError>
    ensures { OnOk result (reverse pending.new.items ≡ named_at path.now slot.now ++ reverse pending.old.items) }
{
    if let Some(slot) = slot {
        let path = joined(alloc, path, slot.name.as_slice())?;
        push(
            pending,
            Item {
                path,
                number: slot.number,
            },
        )?;
    }
    Ok(())
}

// Puts what the slots name on top, that of the first slot topmost.
fn push_slots(
    alloc: Global,
    pending: &mut Vec<Item>,
    path: &[u8],
    slots: &[Option<Slot>],
) -> Result<(), AllocError>
    ensures { OnOk result (reverse pending.new.items ≡ flat_map (named_at path.now) slots.now ++ reverse pending.old.items) }
{
    let mut end = slots.len();
    while end > 0 {
        end -= 1;
        push_slot(alloc, pending, path, &slots[end])?;
    }
    Ok(())
}

// Puts what the node names on top.
fn push_below(
    alloc: Global,
    pending: &mut Vec<Item>,
    tree: &Tree,
    item: &Item,
) -> Result<(), AllocError>
    ensures { OnOk result (reverse pending.new.items ≡ below (tree_of tree.now).nodes item.now ++ reverse pending.old.items) }
{
    let Some(node) = tree.node(usize::from(item.number)) else {
        return Ok(());
    };
    match &node.kind {
        NodeKind::Directory { slots } => {
            push_slots(
                alloc,
                pending,
                item.path.as_slice(),
                further(slots.as_slice()),
            )
        }
        _ => Ok(()),
    }
}

/// Writes a line for this node, and one for each below it. It takes memory for the paths of those that wait.
pub fn write_below<W: Write>(
    alloc: Global,
    out: &mut W,
    version: Version,
    tree: &Tree,
    long: bool,
    start: Item,
) -> Result<(), ReportFault>
    ensures lists { OnOk result (Listed version (tree_of tree.now).nodes long start (W.contents out.old) (W.contents out.new)) }
    ensures refused { IfErr result IsOfWriting }
{
    let mut pending = Vec::new(alloc);
    push(&mut pending, start)?;
    for _line in 0..u64::MAX {
        let Some(item) = pending.pop() else {
            return Ok(());
        };
        write_line(out, version, tree, long, &item).map_err(ReportFault::Write)?;
        push_below(alloc, &mut pending, tree, &item)?;
    }
    Err(ReportFault::TooLong)
}

/// A listing is one text: no other is a listing of the same tree. The function does nothing: it carries the law.
pub fn listings_are_one()
    ensures { OneListing }
{}
