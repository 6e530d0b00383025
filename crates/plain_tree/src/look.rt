//! What a path names.
ghost use Rattle.std.specs.Prelude.{◌≡◌, IfSome, true};
ghost use Rattle.plain_tree.specs.Code.{with_name};
ghost use Rattle.plain_tree.specs.Tree.{first_slot, live_directory, look, parent, resolve, start_of, tree_of};

use crate::node::{NodeKind, Slot};
use crate::paths::{begins_at_root, next_element, same};
use crate::tree::Tree;
use crate::widths::ROOT;
use image_versions::Version;

/// What an action's path leads to, or what a walk along it has found. It is the node, and the live directory before
/// the last element, with that element.
#[derive(Drop)]
pub struct Found<'a> {
    pub node: Option<u16>,
    pub parent: Option<u16>,
    pub name: &'a [u8],
}

/// The number in the first slot of that name.
#[tactic(auto, unfolding(crate::specs::Tree::first_slot))]
pub(crate) fn number_of(slots: &[Option<Slot>], name: &[u8]) -> Option<u16>
    ensures { result ≡ first_slot slots.now name.now }
{
    for slot in slots {
        if let Some(slot) = slot {
            if same(slot.name.as_slice(), name) {
                return Some(slot.number);
            }
        }
    }
    None
}

impl Tree {
    /// Whether it is a directory that has a link.
    pub fn is_live_directory(&self, number: u16) -> bool
        ensures { result ≡ live_directory ((tree_of self.now).nodes number) }
    {
        match self.node(usize::from(number)) {
            Some(node) => node.count > 0 && matches!(&node.kind, NodeKind::Directory { .. }),
            None => false,
        }
    }

    /// What the directory has under the name.
    #[tactic(auto, unfolding(crate::specs::Tree::look))]
    pub fn look(&self, directory: u16, name: &[u8]) -> Option<u16>
        ensures { result ≡ look (tree_of self.now).nodes directory name.now }
    {
        let node = self.node(usize::from(directory))?;
        match &node.kind {
            NodeKind::Directory { slots } if node.count > 0 => number_of(slots.as_slice(), name),
            _ => None,
        }
    }

    fn start(&self, hart: u8, path: &[u8]) -> u16
        ensures { result ≡ start_of (tree_of self.now) hart path.now }
    {
        if begins_at_root(path) {
            ROOT
        } else {
            self.directory(hart)
        }
    }

    /// The number that the path leads to.
    #[tactic(auto, unfolding(crate::specs::Tree::follow))]
    fn resolve(&self, version: Version, hart: u8, path: &[u8]) -> Option<u16>
        ensures { result ≡ resolve version (tree_of self.now) hart path.now }
    {
        let mut at = self.start(hart, path);
        let mut rest = path;
        while let Some((name, after)) = next_element(version, rest) {
            at = self.look(at, name)?;
            rest = after;
        }
        Some(at)
    }

    #[tactic(auto, unfolding(crate::specs::Tree::parent_of, crate::specs::Tree::parent_from))]
    /// The live directory before the path's last element, and that element.
    fn parent<'a>(&self, version: Version, hart: u8, path: &'a [u8]) -> (Option<u16>, &'a [u8])
        ensures parent { parent version (tree_of self.now) hart path.now ≡ with_name result.0 result.1.now }
        ensures live { IfSome result.0 (λ d. live_directory ((tree_of self.now).nodes d) ≡ true) }
    {
        let Some((first, after)) = next_element(version, path) else {
            return (None, path);
        };
        let mut at = self.start(hart, path);
        let mut name = first;
        let mut rest = after;
        while let Some((next, after)) = next_element(version, rest) {
            match self.look(at, name) {
                Some(number) => at = number,
                None => return (None, name),
            }
            name = next;
            rest = after;
        }
        if self.is_live_directory(at) {
            (Some(at), name)
        } else {
            (None, name)
        }
    }

    /// What the path leads to.
    pub(crate) fn found<'a>(&self, version: Version, hart: u8, path: &'a [u8]) -> Found<'a>
        ensures node { result.node ≡ resolve version (tree_of self.now) hart path.now }
        ensures parent { parent version (tree_of self.now) hart path.now ≡ with_name result.parent result.name.now }
        ensures live { IfSome result.parent (λ d. live_directory ((tree_of self.now).nodes d) ≡ true) }
    {
        let (parent, name) = self.parent(version, hart, path);
        Found {
            node: self.resolve(version, hart, path),
            parent,
            name,
        }
    }
}
