//! Why a step is refused, and when it is in its place.
ghost use Rattle.std.specs.Prelude.{◌≡◌, ◌<◌, length, drop, true};
ghost use Rattle.plain_tree.specs.Code.{with_name};
ghost use Rattle.plain_tree.specs.Steps.{any_used, bump_refusal, chdir_refusal, child_refusal, creates, enter_refusal, fd_refusal, file_at, find_refusal, has, has_descriptors, has_driver, has_room, holds_raised, is_file, is_open_file, lowest, mkdir_refusal, no_driver, node_at, not_empty, open_kind, open_new, open_old, part_refusal, place_of, read_refusal, refusal_with, unlink_refusal, write_kind, write_refusal};
ghost use Rattle.plain_tree.specs.Tree.{is_directory, tree_of};

use crate::answer::Cause;
use crate::bytes::Bytes;
use crate::look::Found;
use crate::node::{NodeKind, Slot};
use crate::paths::same;
use crate::slots::slots_size;
use crate::step::Action;
use crate::tree::{Hold, OpenFile, Tree};
use crate::widths::{
    COUNT_LIMIT, CREATE, DESCRIPTOR_COUNT, DOT, DOTDOT, HARTS, LARGEST_SIZE, MAJOR_LIMIT,
};
use image_versions::Version;

/// The flags have the bit.
pub(crate) fn has_flag(flags: u32, bit: u32) -> bool
    ensures { result ≡ has flags bit }
{
    flags & bit != 0
}

fn kind_refuses_open(flags: u32, kind: &NodeKind) -> Option<Cause>
    ensures { result ≡ open_kind flags kind.now }
{
    match kind {
        NodeKind::Directory { .. } if flags != 0 => Some(Cause::IsDirectory),
        NodeKind::Device { major, .. } if !(0 <= *major && *major < MAJOR_LIMIT) => Some(
            Cause::NoDriver,
        ),
        _ => None,
    }
}

fn part_refuses(offset: u64, size: u64, bytes: &[u8]) -> Option<Cause>
    ensures { result ≡ part_refusal offset size bytes.now }
{
    if bytes.is_empty() {
        None
    } else if size < offset {
        Some(Cause::BadOffset)
    } else if LARGEST_SIZE < offset || LARGEST_SIZE - offset < bytes.len() as u64 {
        Some(Cause::TooBig)
    } else {
        None
    }
}

fn kind_refuses_write(version: Version, kind: &NodeKind, offset: u64, bytes: &[u8]) -> Option<Cause>
    ensures { result ≡ write_kind version kind.now offset bytes.now }
{
    match kind {
        NodeKind::Directory { slots } => part_refuses(
            offset,
            slots_size(version, slots.as_slice()),
            bytes,
        ),
        NodeKind::File { bytes: old } => part_refuses(offset, old.as_slice().len() as u64, bytes),
        NodeKind::Device { .. } => Some(Cause::NoDriver),
    }
}

#[tactic(auto, unfolding(crate::specs::Steps::any_used))]
fn slot_in_use(slots: &[Option<Slot>]) -> bool
    ensures { result ≡ any_used slots.now }
{
    for slot in slots {
        if slot.is_some() {
            return true;
        }
    }
    false
}

/// The directory has an entry beside "." and "..".
fn has_entries(slots: &[Option<Slot>]) -> bool
    ensures { result ≡ any_used (drop 2 slots.now) }
{
    slots.len() > 2 && slot_in_use(&slots[2..])
}

impl Tree {
    pub(crate) fn is_directory(&self, number: u16) -> bool
        ensures { result ≡ is_directory (node_at (tree_of self.now) number).kind }
    {
        match self.node(usize::from(number)) {
            Some(node) => matches!(&node.kind, NodeKind::Directory { .. }),
            None => false,
        }
    }

    pub(crate) fn is_file(&self, number: u16) -> bool
        ensures { result ≡ is_file (node_at (tree_of self.now) number).kind }
    {
        match self.node(usize::from(number)) {
            Some(node) => matches!(&node.kind, NodeKind::File { .. }),
            None => true,
        }
    }

    pub(crate) fn count(&self, number: u16) -> u16
        ensures { result ≡ (node_at (tree_of self.now) number).count }
    {
        match self.node(usize::from(number)) {
            Some(node) => node.count,
            None => 0,
        }
    }

    fn refuses_unlink(&self, number: u16) -> Option<Cause>
        ensures { result ≡ not_empty (node_at (tree_of self.now) number).kind }
    {
        let node = self.node(usize::from(number))?;
        match &node.kind {
            NodeKind::Directory { slots } if has_entries(slots.as_slice()) => Some(Cause::NotEmpty),
            _ => None,
        }
    }

    fn node_refuses_open(&self, flags: u32, number: u16) -> Option<Cause>
        ensures { result ≡ open_kind flags (node_at (tree_of self.now) number).kind }
    {
        let node = self.node(usize::from(number))?;
        kind_refuses_open(flags, &node.kind)
    }

    fn open_old(&self, flags: u32, found: Option<u16>) -> Option<Cause>
        ensures { result ≡ open_old (tree_of self.now) flags found }
    {
        match found {
            Some(number) => self.node_refuses_open(flags, number),
            None => Some(Cause::NoEntry),
        }
    }

    fn open_new(&self, flags: u32, parent: Option<u16>, name: &[u8]) -> Option<Cause>
        ensures { result ≡ open_new (tree_of self.now) flags (with_name parent name.now) }
    {
        let Some(directory) = parent else {
            return Some(Cause::NoEntry);
        };
        let number = self.look(directory, name)?;
        self.node_refuses_open(flags, number)
    }

    /// The open file under the descriptor.
    pub(crate) fn file_at(&self, hart: u8, fd: u32) -> Option<OpenFile>
        ensures { result ≡ file_at (tree_of self.now) hart fd }
    {
        let fd = fd as usize;
        if fd >= DESCRIPTOR_COUNT {
            return None;
        }
        let id = self.descriptor(hart, fd)?;
        self.file(id)
    }

    fn read_refusal(&self, file: Option<OpenFile>) -> Option<Cause>
        ensures { result ≡ read_refusal (tree_of self.now) file }
    {
        let Some(file) = file else {
            return Some(Cause::BadDescriptor);
        };
        if !file.readable {
            return Some(Cause::BadMode);
        }
        let node = self.node(usize::from(file.number))?;
        match &node.kind {
            NodeKind::Device { .. } => Some(Cause::NoDriver),
            _ => None,
        }
    }

    fn write_refusal(&self, version: Version, bytes: &[u8], file: Option<OpenFile>) -> Option<Cause>
        ensures { result ≡ write_refusal version (tree_of self.now) bytes.now file }
    {
        let Some(file) = file else {
            return Some(Cause::BadDescriptor);
        };
        if !file.writable {
            return Some(Cause::BadMode);
        }
        match self.node(usize::from(file.number)) {
            Some(node) => kind_refuses_write(version, &node.kind, file.offset, bytes),
            None => part_refuses(file.offset, 0, bytes),
        }
    }

    fn find_refusal(&self, found: Option<u16>) -> Option<Cause>
        ensures { result ≡ find_refusal (tree_of self.now) found }
    {
        match found {
            None => Some(Cause::NoEntry),
            Some(number) if self.is_directory(number) => Some(Cause::IsDirectory),
            Some(_) => None,
        }
    }

    fn bump_refusal(&self, hold: Option<Hold>) -> Option<Cause>
        ensures { result ≡ bump_refusal (tree_of self.now) hold }
    {
        match hold {
            Some(hold) if self.count(hold.number) >= COUNT_LIMIT => Some(Cause::TooManyLinks),
            _ => None,
        }
    }

    fn enter_refusal(&self, parent: Option<u16>, name: &[u8]) -> Option<Cause>
        ensures { result ≡ enter_refusal (tree_of self.now) (with_name parent name.now) }
    {
        let Some(directory) = parent else {
            return Some(Cause::NoEntry);
        };
        match self.look(directory, name) {
            Some(_) => Some(Cause::Exists),
            None => None,
        }
    }

    fn unlink_refusal(&self, parent: Option<u16>, name: &[u8]) -> Option<Cause>
        ensures { result ≡ unlink_refusal (tree_of self.now) (with_name parent name.now) }
    {
        let Some(directory) = parent else {
            return Some(Cause::NoEntry);
        };
        if same(name, &DOT) || same(name, &DOTDOT) {
            return Some(Cause::DotName);
        }
        match self.look(directory, name) {
            Some(number) => self.refuses_unlink(number),
            None => Some(Cause::NoEntry),
        }
    }

    fn mkdir_refusal(&self, parent: Option<u16>, name: &[u8]) -> Option<Cause>
        ensures { result ≡ mkdir_refusal (tree_of self.now) (with_name parent name.now) }
    {
        let Some(directory) = parent else {
            return Some(Cause::NoEntry);
        };
        if self.look(directory, name).is_some() {
            Some(Cause::Exists)
        } else if self.count(directory) >= COUNT_LIMIT {
            Some(Cause::TooManyLinks)
        } else {
            None
        }
    }

    fn chdir_refusal(&self, found: Option<u16>) -> Option<Cause>
        ensures { result ≡ chdir_refusal (tree_of self.now) found }
    {
        match found {
            None => Some(Cause::NoEntry),
            Some(number) if self.is_directory(number) => None,
            Some(_) => Some(Cause::NotDirectory),
        }
    }

    /// The first cause that applies. `found` is what the action's path leads to.
    #[tactic(auto, unfolding(crate::specs::Steps::refusal_with))]
    pub(crate) fn refusal(
        &self,
        version: Version,
        hart: u8,
        action: &Action,
        found: &Found,
    ) -> Option<Cause>
        ensures { result
            ≡ refusal_with version (tree_of self.now) hart action.now found.now.node (with_name found.now.parent found.now.name.now) }
    {
        match action {
            Action::Open { flags, .. } if has_flag(*flags, CREATE) => self.open_new(
                *flags,
                found.parent,
                found.name,
            ),
            Action::Open { flags, .. } => self.open_old(*flags, found.node),
            Action::Read { fd, .. } => self.read_refusal(self.file_at(hart, *fd)),
            Action::WritePart { fd, bytes } => self.write_refusal(
                version,
                bytes.as_slice(),
                self.file_at(hart, *fd),
            ),
            Action::Find { .. } => self.find_refusal(found.node),
            Action::Bump => self.bump_refusal(self.hold(hart)),
            Action::Enter { .. } => self.enter_refusal(found.parent, found.name),
            Action::Unlink { .. } => self.unlink_refusal(found.parent, found.name),
            Action::Mkdir { .. } => self.mkdir_refusal(found.parent, found.name),
            Action::Chdir { .. } => self.chdir_refusal(found.node),
            Action::Dup { fd } | Action::Close { fd } | Action::Fstat { fd } => match self.file_at(
                hart, *fd,
            ) {
                Some(_) => None,
                None => Some(Cause::BadDescriptor),
            },
            Action::Truncate { .. } | Action::Unbump | Action::Inherit { .. } => None,
        }
    }
}
