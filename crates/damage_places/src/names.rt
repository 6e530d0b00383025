//! Names that come twice in a directory.
ghost use Rattle.std.specs.Prelude.{◌≡◌, ◌≢◌, ◌∷◌, ◌+◌, [], ◌<◌, ◌≤◌, ℕ, List, length, take, slice_index_or, All, None, IfOk, IsTrue, IsFalse};
ghost use Rattle.std.specs.Option.{MatchOption};
ghost use Rattle.damage_places.specs.Vocabulary.{IsOnce, slot_name, slot_names};
ghost use Rattle.damage_places.specs.Places.{IsNameFault};

use crate::place::InodeFault;
use fs_layout::Dirent;
use std::alloc::{AllocError, Global};

fn has_name(slot: &Option<Dirent>, name: &[u8]) -> bool
    ensures has { IsTrue result → slot_name slot.now ≡ name.now ∷ [] }
    ensures lacks { IsFalse result → All (λ n. n ≢ name.now) (slot_name slot.now) }
{
    match slot {
        Some(Dirent::Used { name: own, .. }) => own.as_bytes() == name,
        _ => false,
    }
}

/// The first of the slots before slot s with this name.
fn first_named(slots: &[Option<Dirent>], s: usize, name: &[u8]) -> Option<usize>
    requires { s ≤ length slots.now }
    ensures { MatchOption result (All (λ n. n ≢ name.now) (slot_names (take s slots.now)))
        (λ t. (t < s) × (slot_name (slice_index_or slots.now t None) ≡ name.now ∷ [])) }
{
    for t in 0..s {
        if has_name(&slots[t], name) {
            return Some(t);
        }
    }
    None
}

/// The name in slot s, if an earlier slot has it too.
fn repeat_at(
    alloc: Global,
    slots: &[Option<Dirent>],
    s: usize,
) -> Result<Option<InodeFault>, AllocError>
    requires within { s < length slots.now }
    requires before { IsOnce (slot_names (take s slots.now)) }
    ensures { IfOk result (λ found. MatchOption found (IsOnce (slot_names (take (s + 1) slots.now))) (IsNameFault slots.now)) }
{
    let Some(Dirent::Used { name, .. }) = &slots[s] else {
        return Ok(None);
    };
    let Some(first) = first_named(slots, s, name.as_bytes()) else {
        return Ok(None);
    };
    let name = Vec::from_slice(alloc, name.as_bytes())?;
    Ok(Some(InodeFault::NameTwice {
        first,
        slot: s,
        name,
    }))
}

/// The first name that an earlier slot has too.
pub fn name_fault(alloc: Global, slots: &[Option<Dirent>]) -> Result<Option<InodeFault>, AllocError>
    ensures { IfOk result (λ found. MatchOption found (IsOnce (slot_names slots.now)) (IsNameFault slots.now)) }
{
    for s in 0..slots.len() {
        let found = repeat_at(alloc, slots, s)?;
        if found.is_some() {
            return Ok(found);
        }
    }
    Ok(None)
}
