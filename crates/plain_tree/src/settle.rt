//! The nodes that nothing keeps.
ghost use Rattle.std.specs.Prelude.{◌≡◌, ◌<◌, ◌||◌, ◌==◌, ℕ};
ghost use Rattle.plain_tree.specs.Code.{is_id, is_lost};
ghost use Rattle.plain_tree.specs.Steps.{has_fd};
ghost use Rattle.plain_tree.specs.Tree.{any_below, fd_names, hold_names, is_named, settle, tree_of};
ghost use Rattle.plain_tree.specs.Widths.{descriptor_count};

use crate::tree::Tree;
use crate::widths::{DESCRIPTOR_COUNT, HARTS};

impl Tree {
    fn is_open_at(&self, hart: u8, fd: usize, number: usize) -> bool
        ensures { result ≡ fd_names (tree_of self.now) ((tree_of self.now).fds hart fd) number }
    {
        let Some(id) = self.descriptor(hart, fd) else {
            return false;
        };
        match self.file(id) {
            Some(file) => usize::from(file.number) == number,
            None => false,
        }
    }

    fn is_open_by(&self, hart: u8, number: usize) -> bool
        ensures { result ≡ any_below descriptor_count (λ i. fd_names (tree_of self.now) ((tree_of self.now).fds hart i) number) }
    {
        for fd in 0..DESCRIPTOR_COUNT {
            if self.is_open_at(hart, fd, number) {
                return true;
            }
        }
        false
    }

    fn is_held_by(&self, hart: u8, number: usize) -> bool
        ensures { result ≡ hold_names ((tree_of self.now).holds hart) number }
    {
        match self.hold(hart) {
            Some(hold) => usize::from(hold.number) == number,
            None => false,
        }
    }

    fn is_named_by(&self, hart: u8, number: usize) -> bool
        ensures { result ≡ (((tree_of self.now).cwd hart == number)
            || (hold_names ((tree_of self.now).holds hart) number
            || any_below descriptor_count (λ i. fd_names (tree_of self.now) ((tree_of self.now).fds hart i) number))) }
    {
        usize::from(self.directory(hart)) == number
            || self.is_held_by(hart, number)
            || self.is_open_by(hart, number)
    }

    /// A hart names the node: by its current directory, its hold or a descriptor.
    fn is_named(&self, number: usize) -> bool
        ensures { result ≡ is_named (tree_of self.now) number }
    {
        for hart in 0..HARTS {
            if self.is_named_by(hart, number) {
                return true;
            }
        }
        false
    }

    fn is_of(&self, hart: u8, fd: usize, id: usize) -> bool
        ensures { result ≡ is_id ((tree_of self.now).fds hart fd) id }
    {
        match self.descriptor(hart, fd) {
            Some(other) => other == id,
            None => false,
        }
    }

    fn has_descriptor_by(&self, hart: u8, id: usize) -> bool
        ensures { result ≡ any_below descriptor_count (λ i. is_id ((tree_of self.now).fds hart i) id) }
    {
        for fd in 0..DESCRIPTOR_COUNT {
            if self.is_of(hart, fd, id) {
                return true;
            }
        }
        false
    }

    /// A descriptor has the open file.
    pub(crate) fn has_descriptor(&self, id: usize) -> bool
        ensures { result ≡ has_fd (tree_of self.now) id }
    {
        for hart in 0..HARTS {
            if self.has_descriptor_by(hart, id) {
                return true;
            }
        }
        false
    }

    /// A node of this number is there that nothing keeps: its count is 0, and no hart names it.
    fn is_lost(&self, number: usize) -> bool
        ensures { result ≡ is_lost (tree_of self.now) number }
    {
        match self.node(number) {
            Some(node) => node.count == 0 && !self.is_named(number),
            None => false,
        }
    }

    /// The nodes that nothing keeps go.
    pub(crate) fn settle(&mut self)
        ensures { tree_of self.new ≡ settle (tree_of self.old) }
    {
        for number in 0..self.table_len() {
            if self.is_lost(number) {
                self.drop_node(number);
            }
        }
    }
}
