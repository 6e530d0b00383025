//! The nodes of a tree.
ghost use Rattle.std.specs.Prelude.{◌≡◌};

use crate::bytes::Bytes;
use std::alloc::AllocError;
use std::marker::Model;

/// A used slot of a directory: a name, and the number of the node that it names. A name has at most 14 bytes in
/// version 1, and 30 in version 2.
#[derive(Clone, Drop)]
pub struct Slot {
    pub name: Bytes,
    pub number: u16,
}

/// The slots of a directory in their order, each free or used.
#[derive(Drop)]
pub struct Slots {
    items: Vec<Option<Slot>>,
}

impl Model for Slots {
    ghost use Rattle.std.specs.Prelude.{List, Option};
    ghost use Rattle.plain_tree.specs.declared.node.Slot.{Slot};

    ghost Value = { List (Option Slot) };

    ghost view = { λ s. s.items.items };
}

impl Clone for Slots {
    ghost is_clone = { λ x y. y ≡ x };

    fn clone(&self) -> Result<Slots, AllocError> {
        Ok(Slots {
            items: self.items.clone()?,
        })
    }
}

impl Slots {
    /// These slots. It takes no memory.
    pub fn new(items: Vec<Option<Slot>>) -> Slots
        ensures { result ≡ items.items }
    {
        Slots { items }
    }

    /// The slots, given back. It takes no memory.
    pub fn into_vec(self) -> Vec<Option<Slot>>
        ensures { result.items ≡ self }
    {
        let Slots { items } = self;
        items
    }

    pub fn as_slice(&self) -> &[Option<Slot>]
        ensures { result.now ≡ self.now }
    {
        self.items.as_slice()
    }
}

/// What a node is.
#[derive(Clone, Drop)]
pub enum NodeKind {
    Directory { slots: Slots },
    File { bytes: Bytes },
    /// A device as its image has it: `size` is the size that the inode says, and there are no bytes of it.
    Device { major: i16, minor: i16, size: u32 },
}

/// A node, and how many names it has (a directory: the one in its parent, and the ".." of each directory in it).
#[derive(Clone, Drop)]
pub struct Node {
    pub count: u16,
    pub kind: NodeKind,
}
