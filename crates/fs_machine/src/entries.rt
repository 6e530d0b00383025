//! Inodes in memory, and references to them.
ghost use Rattle.std.specs.Prelude.{◌≡◌, ◌+◌, ◌-◌, ◌<◌, ◌^◌, ◌↔◌, Some, None, IsSome, IsTrue, IfOk, IfSome, position, replicate, slice_get, slice_set};
ghost use Rattle.fs_machine.specs.Tables.{is_for, is_unused, one_more, one_less};
ghost use Rattle.fs_machine.specs.Lists.{change_at};
ghost use Rattle.fs_machine.specs.Inodes.{dead_of};

use crate::limits::{MEMORY_INODES, ROOT};
use crate::name_index::NameIndex;
use fs_layout::Dinode;
use sleep_lock::{Guard, RetiredSlots};
use std::alloc::{AllocError, Global};
use std::marker::Model;

/// An inode in memory, as the holder of its lock has it. It has its number and, once it was loaded, its record on the
/// disk, with an index of its names if it is a directory. A contract sees the index only if the inode is loaded.
#[derive(Drop)]
pub struct Inode {
    number: u32,
    dinode: Option<Dinode>,
    index: NameIndex,
}

impl Model for Inode {
    ghost use Rattle.fs_machine.specs.InMemory.{Inode as InodeState, content_of};

    ghost Value = { InodeState };

    ghost view = { λ v. record { number = v.number; content = content_of v.dinode v.index } };
}

impl Inode {
    ghost use Rattle.std.specs.Borrow.{sem};
    ghost use Rattle.fs_machine.specs.InMemory.{index_of, dinode_of, stands_so};
    ghost use Rattle.fs_machine.specs.Lending.{LendsIndex};

    /// Of this number, with nothing loaded, and the memory for an index.
    pub(crate) fn new(alloc: Global, number: u32) -> Result<Inode, AllocError>
        ensures { IfOk result (λ inode. inode ≡ record { number = number; content = None }) }
    {
        Ok(Inode {
            number,
            dinode: None,
            index: NameIndex::new(alloc)?,
        })
    }

    // From now on it has this number, and nothing is loaded.
    pub(crate) fn renew(&mut self, number: u32)
        ensures { self.new ≡ record { number = number; content = None } }
    {
        self.number = number;
        self.dinode = None;
    }

    /// Its number.
    pub fn number(&self) -> u32
        ensures { result ≡ self.now.number }
    {
        self.number
    }

    /// Whether it is loaded.
    pub fn is_loaded(&self) -> bool
        ensures { IsTrue result ↔ IsSome self.now.content }
    {
        self.dinode.is_some()
    }

    /// The record on the disk of one that is loaded.
    pub fn record(&self) -> &Dinode
        requires { IsSome self.now.content }
        ensures { dinode_of self.now ≡ Some result.now }
    {
        match &self.dinode {
            Some(inode) => inode,
            None => unreachable!(),
        }
    }

    /// This is its record from this call on. If it wasn't loaded none of its names is indexed.
    pub fn set_record(&mut self, inode: Dinode)
        ensures { self.new ≡ stands_so inode self.old }
    {
        if self.dinode.is_none() {
            self.index.clear();
        }
        self.dinode = Some(inode);
    }

    /// Nothing is loaded from now on.
    pub fn unload(&mut self)
        ensures { self.new ≡ record self.old { content = None } }
    {
        self.dinode = None;
    }

    /// The index of its names.
    pub fn index(&self) -> &NameIndex
        requires { IsSome self.now.content }
        ensures { result.now ≡ index_of self.now }
    {
        &self.index
    }

    /// The same, to be changed.
    pub fn index_mut(&mut self) -> &mut NameIndex
        requires { IsSome self.old.content }
        ensures* writes_back { sem 𝓛 (LendsIndex self.entry result) }
        ensures value { result.now ≡ index_of self.old }
    {
        &mut self.index
    }

    /// Whether it is loaded, and has no link.
    pub fn is_dead(&self) -> bool
        ensures { IsTrue result ↔ IsSome (dead_of self.now.content) }
    {
        match self.dinode {
            None => false,
            Some(inode) => inode.nlink <= 0,
        }
    }
}

/// A place for an inode in memory: the inode's number, and the count of references to it. Without one the place is
/// free.
#[derive(Clone, Copy)]
pub struct Entry {
    pub number: u32,
    pub references: u32,
}

/// One counted reference to an inode. A contract sees the inode's number.
///
/// A reference is dropped or goes into a table, or is ended after the tables have ended: code that lets one go doesn't compile.
pub struct Reference {
    number: u32,
}

impl Model for Reference {
    ghost use Rattle.std.specs.Prelude.{ℕ};

    ghost Value = { ℕ };

    ghost view = { λ r. r.number };
}

impl Reference {
    pub(crate) fn new(number: u32) -> Reference
        ensures { result ≡ number }
    {
        Reference { number }
    }

    /// The inode's number.
    pub fn number(&self) -> u32
        ensures { result ≡ self.now }
    {
        self.number
    }

    /// Ends a reference once its table has ended.
    pub fn retire(self, _tables: &RetiredSlots) {
        let Reference { number: _ } = self;
    }

    pub(crate) fn end(self) -> u32
        ensures { result ≡ self }
    {
        let Reference { number } = self;
        number
    }
}

/// The result of a drop.
pub enum Dropped {
    /// The reference was counted down.
    Counted,
    /// It is the last one to a dead inode, whose lock was taken: the inode is to be freed.
    Dying(Reference, Guard<Inode>),
}

/// The places for inodes in memory. A contract sees what is in each.
#[derive(Drop)]
pub(crate) struct Entries {
    entries: [Entry; MEMORY_INODES],
    // From this one on each place is free: who looks for an inode looks no further.
    used: usize,
}

impl Model for Entries {
    ghost use Rattle.std.specs.Prelude.{List};
    ghost use Rattle.fs_machine.specs.Tables.{AreUsedBelow};
    ghost use Rattle.fs_machine.specs.declared.entries.Entry.{Entry as EntryState};

    ghost Value = { List EntryState };

    ghost view = { λ e. e.entries };

    ghost invariant = { λ e. AreUsedBelow e.used e.entries };
}

impl Entries {
    /// To the root there are so many references, and to no other inode one.
    pub fn new(references: u32) -> Entries
        ensures { result ≡ slice_set (replicate MEMORY_INODES (record { number = ROOT; references = 0 })) 0
            (record { number = ROOT; references = references }) }
    {
        let mut entries = [Entry {
            number: ROOT,
            references: 0,
        }; MEMORY_INODES];
        entries[0].references = references;
        Entries { entries, used: 1 }
    }

    /// The place of a referenced inode.
    pub fn place_of(&self, number: u32) -> Option<usize>
        ensures { result ≡ position (is_for number) self.now }
    {
        place_in(&self.entries[..self.used], number)
    }

    /// The first free place.
    pub fn free_place(&self) -> Option<usize>
        ensures { result ≡ position is_unused self.now }
    {
        match free_in(&self.entries[..self.used]) {
            Some(place) => Some(place),
            None => if self.used < MEMORY_INODES {
                Some(self.used)
            } else {
                None
            },
        }
    }

    /// The count of references to the inode at a place.
    pub fn references(&self, place: usize) -> u32
        requires { place < MEMORY_INODES }
        ensures { IfSome (slice_get self.now place) (λ e. result ≡ e.references) }
    {
        self.entries[place].references
    }

    /// A place becomes an inode's, with one reference.
    pub fn begin(&mut self, place: usize, number: u32)
        requires { place < MEMORY_INODES }
        ensures { self.new ≡ slice_set self.old place (record { number = number; references = 1 }) }
    {
        self.entries[place] = Entry {
            number,
            references: 1,
        };
        self.used = self.used.max(place + 1);
    }

    /// One reference more at a place that has one.
    pub fn count_up(&mut self, place: usize)
        requires some { IfSome (slice_get self.old place) (λ e. (0 < e.references) × (e.references + 1 < 2 ^ 32)) }
        requires within { place < MEMORY_INODES }
        ensures { self.new ≡ change_at place one_more self.old }
    {
        self.entries[place].references += 1;
    }

    /// One reference less at a place.
    pub fn count_down(&mut self, place: usize)
        requires some { IfSome (slice_get self.old place) (λ e. 0 < e.references) }
        requires within { place < MEMORY_INODES }
        ensures { self.new ≡ change_at place one_less self.old }
    {
        self.entries[place].references -= 1;
    }
}

fn place_in(entries: &[Entry], number: u32) -> Option<usize>
    ensures { result ≡ position (is_for number) entries.now }
{
    entries
        .iter()
        .position(|entry| entry.number == number && 0 < entry.references)
}

fn free_in(entries: &[Entry]) -> Option<usize>
    ensures { result ≡ position is_unused entries.now }
{
    entries.iter().position(|entry| entry.references == 0)
}
