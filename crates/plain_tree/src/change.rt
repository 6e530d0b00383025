//! A tree changed in one place.
ghost use Rattle.std.specs.Prelude.{◌≡◌, ◌+◌, ◌-◌, ◌<◌, ◌≤◌, ◌^◌, ◌++◌, take, drop, length, true, IfOk, MatchOption, MatchResult, if◌then◌else◌};
ghost use Rattle.plain_tree.specs.Steps.{at_node, cleared, emptied, entered, lowered, node_at, raised, written_kind};
ghost use Rattle.plain_tree.specs.Tree.{live_directory, put, slots_of, tree_of};
ghost use Rattle.plain_tree.specs.declared.node.NodeKind.TheVariants.{Directory, File};

use crate::bytes::Bytes;
use crate::node::{Node, NodeKind, Slot, Slots};
use crate::refused::Attempt;
use crate::slots::{clear_slot, enter_slot};
use crate::tree::{Hold, Tree};
use crate::widths::HARTS;
use std::alloc::Global;

/// These bytes, written at the offset.
fn overwritten(alloc: Global, old: &[u8], offset: u64, bytes: &[u8]) -> Attempt<Vec<u8>>
    ensures { IfOk result (λ v. v.items ≡ take offset old.now ++ bytes.now ++ drop (offset + length bytes.now) old.now) }
{
    let start = if offset < old.len() as u64 {
        offset as usize
    } else {
        old.len()
    };
    let rest = &old[start..];
    let mut out = Vec::from_slice(alloc, &old[..start])?;
    out.extend_from_slice(bytes)?;
    if bytes.len() < rest.len() {
        out.extend_from_slice(&rest[bytes.len()..])?;
    }
    Ok(out)
}

/// The slots of a directory; none of another kind.
fn into_slots(alloc: Global, kind: NodeKind) -> Vec<Option<Slot>>
    ensures { result.items ≡ slots_of kind }
{
    match kind {
        NodeKind::Directory { slots } => slots.into_vec(),
        _ => Vec::new(alloc),
    }
}

/// A file without its bytes; another kind as it is.
fn without_bytes(alloc: Global, kind: NodeKind) -> NodeKind
    ensures { result ≡ emptied kind }
{
    match kind {
        NodeKind::File { .. } => NodeKind::File {
            bytes: Bytes::new(Vec::new(alloc)),
        },
        other => other,
    }
}

fn fewer(count: u16, lowers: bool) -> u16
    ensures { result ≡ (if lowers then count - 1 else count) }
{
    if lowers {
        count.saturating_sub(1)
    } else {
        count
    }
}

impl Tree {
    /// One name more.
    pub(crate) fn raise(&mut self, alloc: Global, number: usize)
        requires place { number < length self.old.nodes }
        requires few { (node_at (tree_of self.old) number).count < 32767 }
        ensures { tree_of self.new ≡ at_node (tree_of self.old) number raised }
    {
        let Node { count, kind } = self.take_node(alloc, number);
        self.set_node(
            number,
            Node {
                count: count + 1,
                kind,
            },
        );
    }

    /// One name less.
    pub(crate) fn lower(&mut self, alloc: Global, number: usize)
        requires { number < length self.old.nodes }
        ensures { tree_of self.new ≡ at_node (tree_of self.old) number lowered }
    {
        let Node { count, kind } = self.take_node(alloc, number);
        self.set_node(
            number,
            Node {
                count: count.saturating_sub(1),
                kind,
            },
        );
    }

    /// A file without bytes.
    pub(crate) fn empty(&mut self, alloc: Global, number: usize)
        requires { number < length self.old.nodes }
        ensures { tree_of self.new ≡ at_node (tree_of self.old) number (λ v. record v { kind = emptied v.kind }) }
    {
        let Node { count, kind } = self.take_node(alloc, number);
        let kind = without_bytes(alloc, kind);
        self.set_node(number, Node { count, kind });
    }

    /// The file's bytes after the write; none if it leaves the node as it is.
    fn rewritten(
        &self,
        alloc: Global,
        number: usize,
        offset: u64,
        bytes: &[u8],
    ) -> Attempt<Option<Vec<u8>>>
        ensures { IfOk result (λ o. MatchOption o
            ((tree_of self.now).nodes number
            ≡ Some (record (node_at (tree_of self.now) number) {
              kind = written_kind
                  (node_at (tree_of self.now) number).kind offset bytes.now;
            }))
            (λ v. written_kind (node_at (tree_of self.now) number).kind offset bytes.now ≡ File v.items)) }
    {
        match self.node(number) {
            Some(node) => match &node.kind {
                NodeKind::File { bytes: old } => Ok(Some(overwritten(
                    alloc,
                    old.as_slice(),
                    offset,
                    bytes,
                )?)),
                NodeKind::Directory { .. } => Ok(None),
                NodeKind::Device { .. } => Ok(None),
            },
            None => Ok(Some(overwritten(alloc, &[], offset, bytes)?)),
        }
    }

    /// A file with these bytes at the offset.
    pub(crate) fn overwrite(
        &mut self,
        alloc: Global,
        number: usize,
        offset: u64,
        bytes: &[u8],
    ) -> Attempt
        requires { number < 2 ^ 16 }
        ensures { MatchResult result
            (λ _. tree_of self.new ≡ at_node (tree_of self.old) number (λ v. record v { kind = written_kind v.kind offset bytes.now }))
            (λ _. self.new ≡ self.old) }
    {
        let Some(new) = self.rewritten(alloc, number, offset, bytes)? else {
            return Ok(());
        };
        self.reach(number)?;
        let count = self.take_node(alloc, number).count;
        let kind = NodeKind::File {
            bytes: Bytes::new(new),
        };
        self.set_node(number, Node { count, kind });
        Ok(())
    }

    /// A live directory with a slot more.
    pub(crate) fn enter(
        &mut self,
        alloc: Global,
        directory: usize,
        name: Bytes,
        number: u16,
    ) -> Attempt
        requires { live_directory ((tree_of self.old).nodes directory) ≡ true }
        ensures tree { MatchResult result (λ _. tree_of self.new ≡ entered (tree_of self.old) directory name number)
            (λ _. self.new ≡ self.old) }
        ensures table { (length self.new.nodes ≡ length self.old.nodes) × (self.new.ninodes ≤ length self.new.nodes) }
    {
        let Node { count, kind } = self.take_node(alloc, directory);
        let mut slots = into_slots(alloc, kind);
        let entered = enter_slot(&mut slots, Slot { name, number });
        let kind = NodeKind::Directory {
            slots: Slots::new(slots),
        };
        self.set_node(directory, Node { count, kind });
        entered
    }

    /// A directory with the first slot of that name free; its count is one lower if `lowers`.
    pub(crate) fn clear(&mut self, alloc: Global, directory: usize, name: &[u8], lowers: bool)
        requires { directory < length self.old.nodes }
        ensures table { length self.new.nodes ≡ length self.old.nodes }
        ensures tree { tree_of self.new
            ≡ at_node (tree_of self.old) directory
            (λ v. record v { kind = Directory (cleared (slots_of v.kind) name.now); count = if lowers then v.count - 1 else v.count }) }
    {
        let Node { count, kind } = self.take_node(alloc, directory);
        let mut slots = into_slots(alloc, kind);
        clear_slot(&mut slots, name);
        let count = fewer(count, lowers);
        let kind = NodeKind::Directory {
            slots: Slots::new(slots),
        };
        self.set_node(directory, Node { count, kind });
    }

    pub(crate) fn set_directory(&mut self, hart: u8, number: u16)
        requires { hart < HARTS }
        ensures { tree_of self.new ≡ record (tree_of self.old) { cwd = put (tree_of self.old).cwd hart number } }
    {
        let mut value = self.hart(hart);
        value.directory = number;
        self.set_hart(hart, value);
    }

    pub(crate) fn set_hold(&mut self, hart: u8, hold: Option<Hold>)
        requires { hart < HARTS }
        ensures { tree_of self.new ≡ record (tree_of self.old) { holds = put (tree_of self.old).holds hart hold } }
    {
        let mut value = self.hart(hart);
        value.hold = hold;
        self.set_hart(hart, value);
    }

    pub(crate) fn set_descriptor(&mut self, hart: u8, fd: usize, id: Option<usize>)
        requires hart { hart < HARTS }
        requires fd { fd < 16 }
        ensures { tree_of self.new
            ≡ record (tree_of self.old) { fds = put (tree_of self.old).fds hart (put ((tree_of self.old).fds hart) fd id) } }
    {
        let mut value = self.hart(hart);
        value.descriptors[fd] = id;
        self.set_hart(hart, value);
    }

    /// The child takes over the hart's descriptors and current directory.
    pub(crate) fn inherit(&mut self, hart: u8, child: u8)
        requires hart { hart < HARTS }
        requires child { child < HARTS }
        ensures { tree_of self.new
            ≡ record (tree_of self.old) {
              fds = put (tree_of self.old).fds child ((tree_of self.old).fds hart);
              cwd = put (tree_of self.old).cwd child ((tree_of self.old).cwd hart);
            } }
    {
        let mut value = self.hart(hart);
        value.hold = self.hold(child);
        self.set_hart(child, value);
    }
}
