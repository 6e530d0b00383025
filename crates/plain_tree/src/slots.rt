//! The slots of a directory.
ghost use Rattle.std.specs.Prelude.{◌≡◌, ◌++◌, ◌*◌, MatchResult, IfOk, length, replicate};
ghost use Rattle.image_versions.specs.Versions.{dirent_len_of};
ghost use Rattle.plain_tree.specs.Code.{FreeAt, ClearsAt};
ghost use Rattle.plain_tree.specs.Steps.{cleared, entries, entry_bytes, first_free};

use crate::node::Slot;
use crate::paths::same;
use crate::refused::Attempt;
use image_versions::Version;
use std::alloc::Global;

/// The index of the first free slot.
fn free_slot(slots: &[Option<Slot>]) -> Option<usize>
    ensures { FreeAt slots.now result }
{
    for (i, slot) in slots.iter().enumerate() {
        match slot {
            None => return Some(i),
            Some(_) => {}
        }
    }
    None
}

/// Puts the slot into the first free place, else at the end.
pub(crate) fn enter_slot(slots: &mut Vec<Option<Slot>>, slot: Slot) -> Attempt
    ensures { MatchResult result (λ _. slots.new.items ≡ first_free slots.old.items slot) (λ _. slots.new.items ≡ slots.old.items) }
{
    match free_slot(slots.as_slice()) {
        Some(i) => {
            slots[i] = Some(slot);
            Ok(())
        }
        None => {
            slots.push(Some(slot))?;
            Ok(())
        }
    }
}

/// The index of the first slot of that name.
fn slot_named(slots: &[Option<Slot>], name: &[u8]) -> Option<usize>
    ensures { ClearsAt slots.now name.now result }
{
    for (i, slot) in slots.iter().enumerate() {
        match slot {
            None => {}
            Some(slot) => {
                if same(slot.name.as_slice(), name) {
                    return Some(i);
                }
            }
        }
    }
    None
}

/// Frees the first slot of that name.
pub(crate) fn clear_slot(slots: &mut Vec<Option<Slot>>, name: &[u8])
    ensures { slots.new.items ≡ cleared slots.old.items name.now }
{
    if let Some(i) = slot_named(slots.as_slice(), name) {
        slots[i] = None;
    }
}

/// Appends zeros.
fn push_zeros(out: &mut Vec<u8>, count: usize) -> Attempt
    ensures { IfOk result (λ _. out.new.items ≡ out.old.items ++ replicate count 0) }
{
    for _ in 0..count {
        out.push(0)?;
    }
    Ok(())
}

/// Appends the bytes of a slot: the number, low byte first, then the name, with zeros up to the width of the version.
fn push_entry(out: &mut Vec<u8>, version: Version, slot: &Option<Slot>) -> Attempt
    ensures { IfOk result (λ _. out.new.items ≡ out.old.items ++ entry_bytes version slot.now) }
{
    match slot {
        None => push_zeros(out, version.dirent_len()),
        Some(slot) => {
            let name = slot.name.as_slice();
            out.push((slot.number % 256) as u8)?;
            out.push((slot.number / 256) as u8)?;
            out.extend_from_slice(name)?;
            push_zeros(out, version.name_len().saturating_sub(name.len()))
        }
    }
}

/// The bytes of the slots.
pub(crate) fn entries(alloc: Global, version: Version, slots: &[Option<Slot>]) -> Attempt<Vec<u8>>
    ensures { IfOk result (λ v. v.items ≡ entries version slots.now) }
{
    let mut out = Vec::new(alloc);
    for slot in slots {
        push_entry(&mut out, version, slot)?;
    }
    Ok(out)
}

/// How many bytes the slots are.
pub(crate) fn slots_size(version: Version, slots: &[Option<Slot>]) -> u64
    ensures { result ≡ dirent_len_of version * length slots.now }
{
    version.dirent_len() as u64 * slots.len() as u64
}
