//! What is known of a directory's names while it is in memory.
ghost use Rattle.std.specs.Prelude.{◌≡◌, ◌<◌, ◌≤◌, ◌∷◌, ◌++◌, [], length, take, insert, remove, IfOk};
ghost use Rattle.fs_machine.specs.InMemory.{no_index};

use arrayvec::ArrayVec;
use image_versions::widths::LONGEST_DIRENT_LEN;
use std::alloc::{AllocError, Global};
use std::marker::Model;

/// How many used slots of a directory an index has room for.
pub const INDEXED_SLOTS: usize = 64;

/// A used slot of a directory.
#[derive(Clone, Copy, Default)]
pub struct IndexedSlot {
    /// Its place, counted from the directory's first slot.
    pub place: u32,
    /// Its bytes, as they are on the disk, and zeros after them.
    pub bytes: [u8; LONGEST_DIRENT_LEN],
}

/// The used slots of a directory's first blocks, in their order. It has memory of its own, so that its owner moves
/// only that memory's address.
#[derive(Drop)]
pub struct NameIndex {
    blocks: usize,
    slots: Box<ArrayVec<IndexedSlot, INDEXED_SLOTS>>,
}

impl Model for NameIndex {
    ghost use Rattle.fs_machine.specs.InMemory.{IndexState};

    ghost Value = { IndexState };

    ghost view = { λ x. record { blocks = x.blocks; slots = x.slots.value.items } };
}

impl NameIndex {
    /// Of no block, and the memory for all slots.
    pub(crate) fn new(alloc: Global) -> Result<NameIndex, AllocError>
        ensures { IfOk result (λ index. index ≡ no_index) }
    {
        let slots = Box::new(alloc, ArrayVec::new())?;
        Ok(NameIndex { blocks: 0, slots })
    }

    /// How many of the directory's blocks it has, from the first on.
    pub fn blocks(&self) -> usize
        ensures { result ≡ self.now.blocks }
    {
        self.blocks
    }

    /// Their used slots.
    pub fn slots(&self) -> &[IndexedSlot]
        ensures slots { result.now ≡ self.now.slots }
        ensures few { length result.now ≤ INDEXED_SLOTS }
    {
        self.slots.as_slice()
    }

    /// One slot more, at a place among the others.
    pub fn insert(&mut self, at: usize, slot: IndexedSlot)
        requires within { at ≤ length self.old.slots }
        requires room { length self.old.slots < INDEXED_SLOTS }
        ensures { self.new ≡ record self.old { slots = insert self.old.slots at slot } }
    {
        self.slots.insert(at, slot);
    }

    /// The slot at a place among them goes.
    pub fn remove(&mut self, at: usize)
        requires { at < length self.old.slots }
        ensures { self.new ≡ record self.old { slots = remove self.old.slots at } }
    {
        self.slots.remove(at);
    }

    /// One slot more, after the others.
    pub fn push(&mut self, slot: IndexedSlot)
        requires { length self.old.slots < INDEXED_SLOTS }
        ensures { self.new ≡ record self.old { slots = self.old.slots ++ slot ∷ [] } }
    {
        self.slots.push(slot);
    }

    /// It has so many blocks from now on.
    pub fn set_blocks(&mut self, blocks: usize)
        ensures { self.new ≡ record self.old { blocks = blocks } }
    {
        self.blocks = blocks;
    }

    /// The slots after the first `count` go.
    pub fn truncate(&mut self, count: usize)
        ensures { self.new ≡ record self.old { slots = take count self.old.slots } }
    {
        self.slots.truncate(count);
    }

    /// It is of no block from now on.
    pub fn clear(&mut self)
        ensures { self.new ≡ no_index }
    {
        self.blocks = 0;
        self.slots.clear();
    }
}
