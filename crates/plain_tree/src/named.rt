//! The part of a tree that has names.
ghost use Rattle.std.specs.Prelude.{◌≡◌, ◌<◌, length, IfOk, MatchOption, replicate, true, false, map};
ghost use Rattle.plain_tree.specs.Explains.{IsNamedPart};
ghost use Rattle.plain_tree.specs.Marks.{FindsMarked, FindsNew, IsClosed, IsNext, LooksMarked, LooksNew, MarksAll, MarksReached, is_marked};
ghost use Rattle.plain_tree.specs.Tree.{tree_of};

use crate::look::number_of;
use crate::node::{Node, NodeKind, Slot};
use crate::refused::{Attempt, NoMemory};
use crate::tree::Tree;
use crate::widths::ROOT;
use std::alloc::Global;

fn is_marked(marks: &[bool], number: u16) -> bool
    ensures { result ≡ is_marked marks.now number }
{
    match marks.get(usize::from(number)) {
        Some(mark) => *mark,
        None => true,
    }
}

/// A number that a name finds among these slots, and that isn't marked.
fn new_among(slots: &[Option<Slot>], marks: &[bool]) -> Option<u16>
    ensures { MatchOption result (FindsMarked slots.now marks.now) (λ n. FindsNew slots.now marks.now n) }
{
    for slot in slots {
        if let Some(slot) = slot {
            if let Some(number) = number_of(slots, slot.name.as_slice()) {
                if !is_marked(marks, number) {
                    return Some(number);
                }
            }
        }
    }
    None
}

/// No marks, for `count` numbers.
fn no_marks(alloc: Global, count: usize) -> Attempt<Vec<bool>>
    ensures { IfOk result (λ v. v.items ≡ replicate count false) }
{
    let mut marks = Vec::new(alloc);
    for _ in 0..count {
        marks.push(false)?;
    }
    Ok(marks)
}

impl Tree {
    /// A number that the directory finds, and that isn't marked.
    #[tactic(auto, unfolding(crate::specs::Tree::look))]
    fn new_in(&self, directory: usize, marks: &[bool]) -> Option<u16>
        ensures { MatchOption result (LooksMarked (tree_of self.now) marks.now directory)
            (λ n. LooksNew (tree_of self.now) marks.now directory n) }
    {
        let node = self.node(directory)?;
        match &node.kind {
            NodeKind::Directory { slots } if node.count > 0 => new_among(slots.as_slice(), marks),
            _ => None,
        }
    }

    /// A number that a marked directory finds, and that isn't marked.
    fn next_new(&self, marks: &[bool]) -> Option<u16>
        ensures { MatchOption result (IsClosed (tree_of self.now) marks.now) (λ n. IsNext (tree_of self.now) marks.now n) }
    {
        for (directory, is_marked) in marks.iter().enumerate() {
            if *is_marked {
                let new = self.new_in(directory, marks);
                if new.is_some() {
                    return new;
                }
            }
        }
        None
    }

    /// Marks on the numbers that a path from the root leads to.
    fn reached(&self, alloc: Global) -> Attempt<Vec<bool>>
        ensures { IfOk result (λ v. MarksAll self.now v.items) }
    {
        let mut marks = no_marks(alloc, self.table_len())?;
        if usize::from(ROOT) < marks.len() {
            marks[usize::from(ROOT)] = true;
        }
        while let Some(number) = self.next_new(&marks) {
            marks[usize::from(number)] = true;
        }
        Ok(marks)
    }

    fn node_copy(&self, alloc: Global, number: usize) -> Attempt<Option<Node>>
        ensures { IfOk result (λ v. v ≡ (tree_of self.now).nodes number) }
    {
        match self.node(number) {
            Some(node) => Ok(Some(node.clone()?)),
            None => Ok(None),
        }
    }

    /// The part of the tree that can be reached from the root, with nothing open and all harts in the root. A node
    /// that only a descriptor, a current directory or a link under way keeps is no part of it.
    pub fn named(&self, alloc: Global) -> Result<Tree, NoMemory>
        ensures { IfOk result (λ t. IsNamedPart (tree_of self.now) (tree_of t)) }
    {
        let marks = self.reached(alloc)?;
        let mut nodes = Vec::new(alloc);
        for (number, is_marked) in marks.iter().enumerate() {
            if *is_marked {
                nodes.push(self.node_copy(alloc, number)?)?;
            } else {
                nodes.push(None)?;
            }
        }
        Ok(self.at_rest(alloc, nodes))
    }
}
