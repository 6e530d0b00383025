//! The first block that is named twice.
ghost use Rattle.std.specs.Prelude.{◌≡◌, ◌≢◌, ◌<◌, ◌≤◌, ◌++◌, ◌∷◌, ◌-◌, [], ℕ, Bool, List, length, filter, take, slice_index, IfOk, All, Contains, IsTrue, IsFalse, None};
ghost use Rattle.std.specs.Option.{MatchOption};
ghost use Rattle.image_tree.specs.Vocabulary.{faults_after};
ghost use Rattle.damage_places.specs.Vocabulary.{IsLayout, OnlyReads, HasGoodNumbers, IsOnce, Marks, NamesOnce, gathered, is_block, named_by, numbers_by, sizes_of};
ghost use Rattle.damage_places.specs.Places.{IsRepeat, IsSecond, IsSharedPlace, Names, Precedes};
ghost use Rattle.damage_places.specs.Reads.{faults_with};

use crate::place::{Naming, Place};
use crate::repeats::place_of;
use crate::search_fault::SearchFault;
use block_device::{Device, Fault};
use fs_layout::widths::BITS_PER_BLOCK;
use image_tree::{Layout, numbers_at};
use std::alloc::Global;

/// Marks a number that isn't 0, if it isn't marked yet.
fn mark(seen: &mut [bool], b: u32) -> bool
    requires length { length seen.old ≡ 8192 }
    requires small { b < 8192 }
    ensures once { (xs : List ℕ) → Marks seen.old xs → IsOnce xs
        → IsTrue result → IsOnce (xs ++ filter is_block (b ∷ [])) }
    ensures twice { (xs : List ℕ) → Marks seen.old xs → IsFalse result → (b ≢ 0) × Contains xs b }
    ensures marks { (xs : List ℕ) → Marks seen.old xs → IsOnce xs
        → IsTrue result → Marks seen.new (xs ++ filter is_block (b ∷ [])) }
{
    if b == 0 {
        return true;
    }
    if seen[b as usize] {
        return false;
    }
    seen[b as usize] = true;
    true
}

/// Marks these numbers, as far as none was marked. It gives the place of the first that was.
fn mark_all(seen: &mut [bool], numbers: &[u32]) -> Option<usize>
    requires length { length seen.old ≡ 8192 }
    requires small { All (λ b. b < 8192) numbers.now }
    ensures once { (xs : List ℕ) → Marks seen.old xs → IsOnce xs
        → MatchOption result (IsOnce (xs ++ filter is_block numbers.now)) (IsSecond xs numbers.now) }
    ensures marks { (xs : List ℕ) → Marks seen.old xs → IsOnce xs
        → result ≡ None → Marks seen.new (xs ++ filter is_block numbers.now) }
{
    for i in 0..numbers.len() {
        if !mark(seen, numbers[i]) {
            return Some(i);
        }
    }
    None
}

/// A block that is named a second time, and the place of that.
#[derive(Clone, Copy)]
pub struct Repeat {
    pub block: u32,
    pub second: Naming,
}

/// The first naming of a block that was named before.
fn first_repeat<D: Device>(
    device: &mut D,
    layout: &Layout,
    seen: &mut [bool],
) -> Result<Option<Repeat>, Fault>
    requires layout { IsLayout (D.contents device.old) layout.now }
    requires numbers { HasGoodNumbers (D.contents device.old) }
    requires length { length seen.old ≡ 8192 }
    requires blank { Marks seen.old [] }
    ensures repeat { IfOk result (λ found. MatchOption found
        (NamesOnce (D.contents device.old))
        (λ r. IsRepeat (D.contents device.old) r.block r.second)) }
    ensures device { OnlyReads D.contents D.failures (faults_after result) device.old device.new }
{
    for i in 1..layout.sizes.ninodes {
        let numbers = numbers_at(device, layout, i)?;
        let numbers = numbers.as_slice();
        if let Some(place) = mark_all(seen, numbers) {
            let second = Naming { inode: i, place };
            return Ok(Some(Repeat {
                block: numbers[place],
                second,
            }));
        }
    }
    Ok(None)
}

/// The place at which an inode below `end` names this block.
fn naming_below<D: Device>(
    device: &mut D,
    layout: &Layout,
    b: u32,
    end: u32,
) -> Result<Option<Naming>, Fault>
    requires layout { IsLayout (D.contents device.old) layout.now }
    requires numbers { HasGoodNumbers (D.contents device.old) }
    requires low { 1 ≤ end }
    requires high { end < layout.now.sizes.ninodes }
    ensures naming { IfOk result (λ found. MatchOption found
        (All (λ c. c ≢ b) (gathered (named_by (D.contents device.old)) (end - 1)))
        (λ n. (1 ≤ n.inode) × (n.inode < end) × Names (D.contents device.old) n b)) }
    ensures device { OnlyReads D.contents D.failures (faults_after result) device.old device.new }
{
    for i in 1..end {
        let numbers = numbers_at(device, layout, i)?;
        if let Some(place) = place_of(numbers.as_slice(), b) {
            return Ok(Some(Naming { inode: i, place }));
        }
    }
    Ok(None)
}

/// The place at which the block that is named a second time was named before.
fn first_naming<D: Device>(
    device: &mut D,
    layout: &Layout,
    b: u32,
    second: Naming,
) -> Result<Naming, Fault>
    requires layout { IsLayout (D.contents device.old) layout.now }
    requires numbers { HasGoodNumbers (D.contents device.old) }
    requires repeat { IsRepeat (D.contents device.old) b second }
    ensures naming { IfOk result (λ first. (1 ≤ first.inode) × Precedes first second × Names (D.contents device.old) first b) }
    ensures device { OnlyReads D.contents D.failures (faults_after result) device.old device.new }
{
    let below = naming_below(device, layout, b, second.inode)?;
    if let Some(first) = below {
        return Ok(first);
    }
    let numbers = numbers_at(device, layout, second.inode)?;
    let before = &numbers.as_slice()[..second.place];
    match place_of(before, b) {
        Some(place) => Ok(Naming {
            inode: second.inode,
            place,
        }),
        // it is named before, and not by an inode below
        None => Ok(second),
    }
}

/// The first block that is named twice, and both places.
pub fn find_shared<D: Device>(
    alloc: Global,
    device: &mut D,
    layout: &Layout,
) -> Result<Option<Place>, SearchFault>
    requires layout { IsLayout (D.contents device.old) layout.now }
    requires numbers { HasGoodNumbers (D.contents device.old) }
    ensures shared { IfOk result (λ found. MatchOption found
        (NamesOnce (D.contents device.old))
        (IsSharedPlace (D.contents device.old))) }
    ensures device { OnlyReads D.contents D.failures (faults_with result) device.old device.new }
{
    let mut seen = vec![in alloc; false; BITS_PER_BLOCK]?;
    let repeat = first_repeat(device, layout, &mut seen)?;
    let Some(repeat) = repeat else {
        return Ok(None);
    };
    let first = first_naming(device, layout, repeat.block, repeat.second)?;
    Ok(Some(Place::Shared {
        block: repeat.block,
        first,
        second: repeat.second,
    }))
}
