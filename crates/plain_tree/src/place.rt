//! When a step is in its place, and what it may choose.
ghost use Rattle.std.specs.Prelude.{◌≡◌, ◌<◌, ◌≤◌, ℕ, true, IsTrue, ◌↔◌};
ghost use Rattle.plain_tree.specs.Code.{with_name};
ghost use Rattle.plain_tree.specs.Steps.{IsNewNode, has_descriptors, has_room, holds_raised, is_open_file, lowest, makes_node, opens_one, place_of};
ghost use Rattle.plain_tree.specs.Tree.{is_named, tree_of};

use crate::look::Found;
use crate::refusal::has_flag;
use crate::step::Action;
use crate::tree::{Hold, OpenFile, Tree};
use crate::widths::{CREATE, DESCRIPTOR_COUNT, HARTS};

fn is_raised(raised: bool, hold: Option<Hold>) -> bool
    ensures { result ≡ holds_raised raised hold }
{
    match hold {
        Some(hold) => hold.raised == raised,
        None => false,
    }
}

impl Tree {
    /// The lowest free descriptor, 16 if there is none.
    #[tactic(auto, unfolding(crate::specs::Steps::lowest_from))]
    pub(crate) fn lowest(&self, hart: u8) -> usize
        ensures value { result ≡ lowest ((tree_of self.now).fds hart) }
        ensures bound { result ≤ 16 }
    {
        for fd in 0..DESCRIPTOR_COUNT {
            match self.descriptor(hart, fd) {
                None => return fd,
                Some(_) => {}
            }
        }
        DESCRIPTOR_COUNT
    }

    pub(crate) fn has_room(&self, hart: u8) -> bool
        ensures { result ≡ has_room ((tree_of self.now).fds hart) }
    {
        self.lowest(hart) < DESCRIPTOR_COUNT
    }

    #[tactic(auto, unfolding(crate::specs::Tree::any_below))]
    fn has_descriptors(&self, hart: u8) -> bool
        ensures { result ≡ has_descriptors (tree_of self.now) hart }
    {
        for fd in 0..DESCRIPTOR_COUNT {
            if self.descriptor(hart, fd).is_some() {
                return true;
            }
        }
        false
    }

    fn is_open_file(&self, file: Option<OpenFile>) -> bool
        ensures { result ≡ is_open_file (tree_of self.now) file }
    {
        match file {
            Some(file) => self.is_file(file.number),
            None => false,
        }
    }

    /// The action is in its place here.
    #[tactic(auto, unfolding(crate::specs::Steps::place_of))]
    pub fn has_place(&self, hart: u8, action: &Action) -> bool
        ensures { result ≡ place_of (tree_of self.now) hart action.now }
    {
        match action {
            Action::Truncate { fd } => self.is_open_file(self.file_at(hart, *fd)),
            Action::Find { .. } => !is_raised(true, self.hold(hart)),
            Action::Bump => is_raised(false, self.hold(hart)),
            Action::Enter { .. } | Action::Unbump => is_raised(true, self.hold(hart)),
            Action::Dup { fd } => self.file_at(hart, *fd).is_none() || self.has_room(hart),
            Action::Inherit { child } => *child < HARTS
                && *child != hart
                && !self.has_descriptors(*child),
            _ => true,
        }
    }

    /// The action makes a node, if it isn't refused.
    pub(crate) fn makes_node(&self, action: &Action, found: &Found) -> bool
        ensures { result ≡ makes_node (tree_of self.now) action.now (with_name found.now.parent found.now.name.now) }
    {
        match action {
            Action::Open { flags, .. } if has_flag(*flags, CREATE) => match found.parent {
                Some(directory) => self.look(directory, found.name).is_none(),
                None => false,
            },
            Action::Mkdir { .. } => true,
            _ => false,
        }
    }

    /// The number is in range, and no node has it.
    pub(crate) fn is_new(&self, number: u16) -> bool
        ensures { IsTrue result ↔ IsNewNode (tree_of self.now) number }
    {
        let at = usize::from(number);
        number > 0 && at < self.ninodes() && self.node(at).is_none()
    }
}
