//! Which harts are in a transaction, and how many blocks each added to the group.
ghost use Rattle.std.specs.Prelude.{◌≡◌, ◌↔◌, ◌<◌, ◌+◌, ◌*◌, ℕ, List, length, replicate, slice_get, slice_set, false, Some, None, IsTrue};
ghost use Rattle.group_log.specs.Group.{joined, HasRoom, IsMember, one_more, members_with, has, with_block};
ghost use Rattle.group_log.specs.Slots.{slots_with};

use crate::limits::{BLOCKS_OF_A_TRANSACTION, MOST_LOGGED, PLACES};
use arrayvec::ArrayVec;
use std::marker::Model;

/// What each hart's transaction has added to the group, if it is in one. A contract sees this alone.
#[derive(Drop)]
pub(crate) struct Members {
    added: [Option<u8>; PLACES],
    // How many are in a transaction (xv6: `outstanding`).
    outstanding: u8,
}

impl Model for Members {
    ghost use Rattle.std.specs.Prelude.{◌≡◌, ℕ, List, Option};
    ghost use Rattle.group_log.specs.Group.{joined};

    ghost Value = { List (Option ℕ) };

    ghost view = { λ m. m.added };

    ghost invariant = { λ m. m.outstanding ≡ joined m.added };
}

impl Members {
    /// No hart is in one.
    pub fn new() -> Members
        ensures { result ≡ replicate PLACES None }
    {
        Members {
            added: [None; PLACES],
            outstanding: 0,
        }
    }

    /// How many are in a transaction.
    pub fn outstanding(&self) -> usize
        ensures { result ≡ joined self.now }
    {
        self.outstanding as usize
    }

    /// A hart joins, with nothing added.
    pub fn join(&mut self, hart: usize)
        requires within { hart < PLACES }
        requires idle { slice_get self.old hart ≡ Some None }
        ensures { self.new ≡ slice_set self.old hart (Some 0) }
    {
        self.added[hart] = Some(0);
        self.outstanding += 1;
    }

    /// Its transaction ends.
    pub fn leave(&mut self, hart: usize)
        requires within { hart < PLACES }
        requires member { IsMember self.old hart }
        ensures { self.new ≡ slice_set self.old hart None }
    {
        self.added[hart] = None;
        self.outstanding -= 1;
    }

    /// Whether the hart is in none.
    pub fn is_idle(&self, hart: usize) -> bool
        requires { hart < PLACES }
        ensures { IsTrue result ↔ (slice_get self.now hart ≡ Some None) }
    {
        self.added[hart].is_none()
    }

    /// Whether the hart is in a transaction.
    pub fn is_member(&self, hart: usize) -> bool
        ensures { IsTrue result ↔ IsMember self.now hart }
    {
        is_member(&self.added, hart)
    }

    /// Whether the hart is in a transaction that may add a block.
    pub fn has_room(&self, hart: usize) -> bool
        ensures { IsTrue result ↔ HasRoom self.now hart }
    {
        has_room(&self.added, hart)
    }

    // One block more that a hart added.
    fn count_up(&mut self, hart: usize)
        requires within { hart < PLACES }
        requires room { HasRoom self.old hart }
        ensures { self.new ≡ one_more self.old hart }
    {
        if let Some(added) = self.added[hart] {
            self.added[hart] = Some(added + 1);
        }
    }
}

/// Whether a block is in the group.
pub(crate) fn contains(group: &[u32], b: u32) -> bool
    ensures { result ≡ has group.now b }
{
    group.iter().any(|k| *k == b)
}

/// A block into the group, once, with its buffer's slot.
pub(crate) fn add(
    group: &mut ArrayVec<u32, MOST_LOGGED>,
    slots: &mut ArrayVec<u32, MOST_LOGGED>,
    members: &mut Members,
    hart: usize,
    b: u32,
    slot: u32,
)
    requires within { hart < PLACES }
    requires room { has group.old.items b ≡ false → HasRoom members.old hart × (length group.old.items < MOST_LOGGED) }
    requires count { length slots.old.items ≡ length group.old.items }
    ensures group { group.new.items ≡ with_block group.old.items b }
    ensures slots { slots.new.items ≡ slots_with group.old.items b slots.old.items slot }
    ensures members { members.new ≡ members_with group.old.items b members.old hart }
{
    if !contains(group, b) {
        group.push(b);
        slots.push(slot);
        members.count_up(hart);
    }
}

fn is_member(members: &[Option<u8>], hart: usize) -> bool
    ensures { IsTrue result ↔ IsMember members.now hart }
{
    if members.len() <= hart {
        return false;
    }
    match members[hart] {
        Some(_) => true,
        None => false,
    }
}

fn has_room(members: &[Option<u8>], hart: usize) -> bool
    ensures { IsTrue result ↔ HasRoom members.now hart }
{
    if members.len() <= hart {
        return false;
    }
    match members[hart] {
        Some(added) => added < BLOCKS_OF_A_TRANSACTION,
        None => false,
    }
}
