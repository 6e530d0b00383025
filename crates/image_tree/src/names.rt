//! That no directory has a name twice.
ghost use Rattle.std.specs.Prelude.{◌≡◌, ◌++◌, ◌↔◌, map, IfOk, OnOk, IsSorted, IsTrue};
ghost use Rattle.std.specs.Ordering.{nat_cmp};
ghost use Rattle.std.specs.Cmp.Lexicographic.{slice_cmp};
ghost use Rattle.image_tree.specs.Links.{slot_name, slot_names};
ghost use Rattle.image_tree.specs.Lists.{IsOnce};

use fs_layout::Dirent;
use std::alloc::{AllocError, Global};

fn push_name<'a>(names: &mut Vec<&'a [u8]>, slot: &'a Option<Dirent>) -> Result<(), AllocError>
    ensures { OnOk result (map (λ n. n.now) names.new.items ≡ map (λ n. n.now) names.old.items ++ slot_name slot.now) }
{
    if let Some(Dirent::Used { name, .. }) = slot {
        names.push(name.as_bytes())?;
    }
    Ok(())
}

/// Each name in the slots.
fn names_in(alloc: Global, slots: &[Option<Dirent>]) -> Result<Vec<&[u8]>, AllocError>
    ensures { IfOk result (λ names. map (λ n. n.now) names.items ≡ slot_names slots.now) }
{
    let mut names = Vec::new(alloc);
    for s in 0..slots.len() {
        push_name(&mut names, &slots[s])?;
    }
    Ok(names)
}

fn neighbours_differ(names: &[&[u8]]) -> bool
    requires { IsSorted (λ a b. slice_cmp nat_cmp a.now b.now) names.now }
    ensures { IsTrue result ↔ IsOnce (map (λ n. n.now) names.now) }
{
    for k in 1..names.len() {
        if names[k - 1] == names[k] {
            return false;
        }
    }
    true
}

/// It may change their order.
fn are_distinct(names: &mut [&[u8]]) -> bool
    ensures { IsTrue result ↔ IsOnce (map (λ n. n.now) names.old) }
{
    names.sort_unstable();
    neighbours_differ(names)
}

/// Whether no name is in two of the slots.
pub fn are_names_once(alloc: Global, slots: &[Option<Dirent>]) -> Result<bool, AllocError>
    ensures { IfOk result (λ once. IsTrue once ↔ IsOnce (slot_names slots.now)) }
{
    let mut names = names_in(alloc, slots)?;
    Ok(are_distinct(&mut names))
}
