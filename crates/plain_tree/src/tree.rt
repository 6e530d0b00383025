//! The tree.
ghost use Rattle.std.specs.Prelude.{◌≡◌, ◌<◌, ◌≤◌, ◌^◌, ◌++◌, ◌∷◌, [], length, replicate, IfOk, MatchOption, MatchResult, OnErr, OnOk, remove, slice_index_or, slice_set, true};
ghost use Rattle.plain_tree.specs.Code.{Advances, HasFiles, IsEntryOf, IsOrphan};
ghost use Rattle.plain_tree.specs.Fresh.{at_rest, fresh};
ghost use Rattle.plain_tree.specs.Steps.{IsLeastUnused, closed, moved, node_at, with_nodes};
ghost use Rattle.plain_tree.specs.Tree.{file_in, hart_at, put, tree_of};

use crate::bytes::Bytes;
use crate::fresh::{fresh_hart, fresh_nodes, push_absent};
use crate::node::{Node, NodeKind};
use crate::refused::{Attempt, NoMemory};
use crate::widths::{DESCRIPTOR_COUNT, HARTS, ROOT};
use image_versions::Version;
use std::alloc::Global;
use std::marker::Model;
use std::mem;

/// An open file: the node's number, and the byte at which the next read or write begins.
#[derive(Clone, Copy)]
pub struct OpenFile {
    pub number: u16,
    pub offset: u64,
    pub readable: bool,
    pub writable: bool,
}

/// An open file with its id.
#[derive(Clone, Copy)]
pub struct OpenFileEntry {
    pub id: usize,
    pub file: OpenFile,
}

/// What a link under way has found: the node's number, and whether its count was raised for the name to come.
#[derive(Clone, Copy)]
pub struct Hold {
    pub number: u16,
    pub raised: bool,
}

/// A hart's current directory, the ids of its open files by descriptor, and what it holds.
#[derive(Clone, Copy)]
pub struct Hart {
    pub directory: u16,
    pub descriptors: [Option<usize>; DESCRIPTOR_COUNT],
    pub hold: Option<Hold>,
}

/// The nodes by their numbers (number 0 names none), the open files, and the harts. A contract reads it by `tree_of`.
/// New nodes have numbers below `ninodes`. The table grows past it if a step changes a node past the table's end.
#[derive(Drop)]
pub struct Tree {
    ninodes: usize,
    nodes: Vec<Option<Node>>,
    files: Vec<OpenFileEntry>,
    harts: [Hart; HARTS as usize],
}

impl Model for Tree {
    ghost use Rattle.plain_tree.specs.TreeData.{TreeData};

    ghost Value = { TreeData };

    ghost use Rattle.std.specs.Prelude.{◌≡◌, ◌≤◌, length};

    ghost view = { λ t. record { ninodes = t.ninodes; nodes = t.nodes.items; files = t.files.items; harts = t.harts } };

    ghost invariant = { λ t. (t.ninodes ≤ length t.nodes.items) × (length t.harts ≡ 8) };
}

/// The index of the first entry of that id.
#[tactic(auto, unfolding(crate::specs::Tree::file_in))]
fn entry_of(files: &[OpenFileEntry], id: usize) -> Option<usize>
    ensures { MatchOption result (file_in files.now id ≡ None) (λ i. IsEntryOf files.now id i) }
{
    for (i, entry) in files.iter().enumerate() {
        if entry.id == id {
            return Some(i);
        }
    }
    None
}

impl Tree {
    /// A root without names in one block, with numbers below `ninodes` for the nodes to come (2 at least).
    pub fn new(alloc: Global, version: Version, ninodes: u16) -> Result<Tree, NoMemory>
        ensures { IfOk result (λ t. t ≡ fresh version ninodes) }
    {
        Ok(Tree::of_nodes(alloc, fresh_nodes(alloc, version, ninodes)?))
    }

    /// A tree of these nodes, each at its number. Nothing is open, and all harts are in the root. It takes no memory.
    pub fn of_nodes(alloc: Global, nodes: Vec<Option<Node>>) -> Tree
        ensures { result ≡ at_rest nodes.items }
    {
        Tree {
            ninodes: nodes.len(),
            nodes,
            files: Vec::new(alloc),
            harts: [fresh_hart(); HARTS as usize],
        }
    }

    /// The numbers of new nodes are below this.
    pub fn ninodes(&self) -> usize
        ensures { result ≡ (tree_of self.now).ninodes }
    {
        self.ninodes
    }

    /// These nodes in a table of the same length. Nothing is open, and all harts are in the root.
    pub(crate) fn at_rest(&self, alloc: Global, nodes: Vec<Option<Node>>) -> Tree
        requires { length nodes.items ≡ length self.now.nodes }
        ensures { result ≡ record (at_rest nodes.items) { ninodes = self.now.ninodes } }
    {
        Tree {
            ninodes: self.ninodes,
            nodes,
            files: Vec::new(alloc),
            harts: [fresh_hart(); HARTS as usize],
        }
    }

    /// How many places the table has.
    pub(crate) fn table_len(&self) -> usize
        ensures { result ≡ length self.now.nodes }
    {
        self.nodes.len()
    }

    /// Has a place for the number: the table grows to it if it is shorter.
    pub(crate) fn reach(&mut self, number: usize) -> Attempt
        requires { number < 2 ^ 16 }
        ensures tree { tree_of self.new ≡ tree_of self.old }
        ensures place { OnOk result (number < length self.new.nodes) }
        ensures err { OnErr result (self.new ≡ self.old) }
    {
        let len = self.nodes.len();
        if number >= len {
            push_absent(&mut self.nodes, number + 1 - len)?;
        }
        Ok(())
    }

    /// The node of that number.
    pub fn node(&self, number: usize) -> Option<&Node>
        ensures { MatchOption result ((tree_of self.now).nodes number ≡ None) (λ v. (tree_of self.now).nodes number ≡ Some v.now) }
    {
        match self.nodes.get(number) {
            Some(Some(node)) => Some(node),
            _ => None,
        }
    }

    /// The open file of that id.
    #[tactic(auto, unfolding(crate::specs::Tree::file_in))]
    pub fn file(&self, id: usize) -> Option<OpenFile>
        ensures { result ≡ (tree_of self.now).files id }
    {
        for entry in &self.files {
            if entry.id == id {
                return Some(entry.file);
            }
        }
        None
    }

    /// The least id that no open file has.
    #[tactic(auto, using(crate::proofs::FileCounts::last_unused))]
    pub(crate) fn least_unused(&self) -> usize
        ensures { IsLeastUnused (tree_of self.now) result }
    {
        for id in 0..self.files.len() {
            if self.file(id).is_none() {
                return id;
            }
        }
        self.files.len()
    }

    /// The hart's current directory; the root for one that isn't there.
    pub fn directory(&self, hart: u8) -> u16
        ensures { result ≡ (tree_of self.now).cwd hart }
    {
        match self.harts.get(usize::from(hart)) {
            Some(hart) => hart.directory,
            None => ROOT,
        }
    }

    /// The id of the open file that the hart has under the descriptor.
    pub fn descriptor(&self, hart: u8, fd: usize) -> Option<usize>
        ensures { result ≡ (tree_of self.now).fds hart fd }
    {
        let hart = self.harts.get(usize::from(hart))?;
        let fd = hart.descriptors.get(fd)?;
        *fd
    }

    /// What the hart holds.
    pub fn hold(&self, hart: u8) -> Option<Hold>
        ensures { result ≡ (tree_of self.now).holds hart }
    {
        let hart = self.harts.get(usize::from(hart))?;
        hart.hold
    }

    /// Everything of the hart.
    pub(crate) fn hart(&self, hart: u8) -> Hart
        requires { hart < HARTS }
        ensures { result ≡ hart_at self.now hart }
    {
        self.harts[usize::from(hart)]
    }

    /// Puts everything of the hart in its place.
    pub(crate) fn set_hart(&mut self, hart: u8, value: Hart)
        requires { hart < HARTS }
        ensures { tree_of self.new
            ≡ record (tree_of self.old) {
              cwd = put (tree_of self.old).cwd hart value.directory;
              fds = put (tree_of self.old).fds hart (λ i. slice_index_or value.descriptors i None);
              holds = put (tree_of self.old).holds hart value.hold;
            } }
    {
        self.harts[usize::from(hart)] = value;
    }

    /// Takes the node out; an empty file if there is none.
    pub(crate) fn take_node(&mut self, alloc: Global, number: usize) -> Node
        requires { number < length self.old.nodes }
        ensures node { result ≡ node_at (tree_of self.old) number }
        ensures rest { tree_of self.new ≡ with_nodes (tree_of self.old) (put (tree_of self.old).nodes number None) }
        ensures place { self.new ≡ record self.old { nodes = slice_set self.old.nodes number None } }
    {
        let place = &mut self.nodes[number];
        match mem::replace(place, None) {
            Some(node) => node,
            None => Node {
                count: 0,
                kind: NodeKind::File {
                    bytes: Bytes::new(Vec::new(alloc)),
                },
            },
        }
    }

    /// Puts the node in its place.
    pub(crate) fn set_node(&mut self, number: usize, node: Node)
        requires { number < length self.old.nodes }
        ensures tree { tree_of self.new ≡ with_nodes (tree_of self.old) (put (tree_of self.old).nodes number (Some node)) }
        ensures place { self.new ≡ record self.old { nodes = slice_set self.old.nodes number (Some node) } }
        ensures table { self.new.ninodes ≤ length self.new.nodes }
    {
        self.nodes[number] = Some(node);
    }

    /// The node goes.
    pub(crate) fn drop_node(&mut self, number: usize)
        requires { number < length self.old.nodes }
        ensures tree { tree_of self.new ≡ with_nodes (tree_of self.old) (put (tree_of self.old).nodes number None) }
        ensures table { length self.new.nodes ≡ length self.old.nodes }
    {
        self.nodes[number] = None;
    }

    /// The open files with one more, under an unused id.
    pub(crate) fn files_with(
        &self,
        alloc: Global,
        id: usize,
        file: OpenFile,
    ) -> Attempt<Vec<OpenFileEntry>>
        requires { (tree_of self.now).files id ≡ None }
        ensures { IfOk result (λ v. HasFiles v.items (put (tree_of self.now).files id (Some file))) }
    {
        let mut files = Vec::from_slice(alloc, &self.files)?;
        files.push(OpenFileEntry { id, file })?;
        Ok(files)
    }

    /// These are the open files.
    pub(crate) fn set_files(&mut self, files: Vec<OpenFileEntry>)
        ensures { tree_of self.new ≡ record (tree_of self.old) { files = λ k. file_in files.items k } }
    {
        self.files = files;
    }

    /// Moves the offset of the open file on, if there is one.
    pub(crate) fn advance(&mut self, id: Option<usize>, by: u64)
        requires { Advances (tree_of self.old) id by }
        ensures { tree_of self.new ≡ moved (tree_of self.old) id by }
    {
        let Some(id) = id else {
            return;
        };
        let Some(i) = entry_of(&self.files, id) else {
            return;
        };
        let mut file = self.files[i].file;
        file.offset += by;
        self.files[i] = OpenFileEntry { id, file };
    }

    /// The index of an open file that no descriptor has.
    fn orphan(&self) -> Option<usize>
        ensures { IsOrphan self.now result }
    {
        for i in 0..self.files.len() {
            if !self.has_descriptor(self.files[i].id) {
                return Some(i);
            }
        }
        None
    }

    fn remove_file(&mut self, i: usize)
        requires { i < length self.old.files }
        ensures { self.new ≡ record self.old { files = remove self.old.files i } }
    {
        let _removed = self.files.remove(i);
    }

    /// The open files that no descriptor has go.
    pub(crate) fn close_orphans(&mut self)
        ensures { tree_of self.new ≡ closed (tree_of self.old) }
    {
        while let Some(i) = self.orphan() {
            self.remove_file(i);
        }
    }
}

impl Tree {
    /// The same tree.
    pub fn try_clone(&self, alloc: Global) -> Result<Tree, NoMemory>
        ensures { IfOk result (λ t. t ≡ self.now) }
    {
        Ok(Tree {
            ninodes: self.ninodes,
            nodes: self.nodes.clone()?,
            files: Vec::from_slice(alloc, &self.files)?,
            harts: self.harts,
        })
    }
}
