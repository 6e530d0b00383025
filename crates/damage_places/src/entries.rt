//! The slots of a live directory.
ghost use Rattle.std.specs.Prelude.{◌≡◌, ◌≢◌, ◌∷◌, [], ◌<◌, ◌≤◌, ◌↔◌, ℕ, true, false, List, length, slice_index_or, All, Some, None, IfOk, IsTrue};
ghost use Rattle.std.specs.Option.{MatchOption};
ghost use Rattle.image_tree.specs.Vocabulary.{faults_after};
ghost use Rattle.damage_places.specs.Vocabulary.{AreGoodSlots, IsLayout, OnlyReads, IsDotDot, HasGoodNumbers, Used, dot, is_node, slot_number, slot_numbers};
ghost use Rattle.damage_places.specs.Checks.{Passes};
ghost use Rattle.damage_places.specs.Places.{AreEntries, HasDots, IsFaultOf, IsFormFault, IsNumberFault, IsSlotFault};
ghost use Rattle.damage_places.specs.Reads.{faults_with};
ghost use Rattle.damage_places.specs.declared.place.Check.TheVariants as checks;

use crate::names::name_fault;
use crate::place::InodeFault;
use crate::search_fault::SearchFault;
use crate::slots::{slot_number, slots_at};
use block_device::{Device, Fault};
use fs_layout::Dirent;
use image_tree::{Layout, is_free, is_live_directory, load_inode};
use std::alloc::Global;

/// The name of a directory in itself, and that of its parent.
const DOT: [u8; 1] = *b".";

const DOTDOT: [u8; 2] = *b"..";

fn is_dot(slot: &Option<Dirent>, i: u16) -> bool
    ensures { IsTrue result ↔ (slot.now ≡ Some (Used i dot)) }
{
    match slot {
        Some(Dirent::Used { number, name }) => *number == i && name.as_bytes() == DOT.as_slice(),
        _ => false,
    }
}

fn is_dotdot(slot: &Option<Dirent>) -> bool
    ensures { IsTrue result ↔ IsDotDot slot.now }
{
    match slot {
        Some(Dirent::Used { name, .. }) => name.as_bytes() == DOTDOT.as_slice(),
        _ => false,
    }
}

fn has_dot(slots: &[Option<Dirent>], i: u16) -> bool
    ensures { IsTrue result ↔ (slice_index_or slots.now 0 None ≡ Some (Used i dot)) }
{
    !slots.is_empty() && is_dot(&slots[0], i)
}

fn has_dotdot(slots: &[Option<Dirent>]) -> bool
    ensures { IsTrue result ↔ IsDotDot (slice_index_or slots.now 1 None) }
{
    slots.len() > 1 && is_dotdot(&slots[1])
}

/// The first slot whose bytes are no entry.
fn first_no_entry(slots: &[Option<Dirent>]) -> Option<usize>
    ensures { MatchOption result (AreEntries slots.now)
        (λ s. (s < length slots.now) × (slice_index_or slots.now s None ≡ None)
        × ((j : ℕ) → j < s → slice_index_or slots.now j None ≢ None)) }
{
    for s in 0..slots.len() {
        if slots[s].is_none() {
            return Some(s);
        }
    }
    None
}

/// What is wrong with the form of the slots of directory i.
fn form_fault(i: u16, slots: &[Option<Dirent>]) -> Option<InodeFault>
    ensures { MatchOption result (HasDots i slots.now × AreEntries slots.now) (IsFormFault i slots.now) }
{
    if !has_dot(slots, i) {
        return Some(InodeFault::NoDot);
    }
    if !has_dotdot(slots) {
        return Some(InodeFault::NoDotDot);
    }
    match first_no_entry(slots) {
        Some(slot) => Some(InodeFault::NoEntry { slot }),
        None => None,
    }
}

fn is_node_number<D: Device>(device: &mut D, layout: &Layout, n: u16) -> Result<bool, Fault>
    requires layout { IsLayout (D.contents device.old) layout.now }
    ensures node { IfOk result (λ node. node ≡ is_node (D.contents device.old) n) }
    ensures device { OnlyReads D.contents D.failures (faults_after result) device.old device.new }
{
    let n = u32::from(n);
    if n == 0 || layout.sizes.ninodes <= n {
        return Ok(false);
    }
    let inode = load_inode(device, layout, n)?;
    Ok(!is_free(&inode))
}

/// The number in a slot, if it isn't that of a node.
fn nodeless<D: Device>(
    device: &mut D,
    layout: &Layout,
    slot: &Option<Dirent>,
) -> Result<Option<u16>, Fault>
    requires layout { IsLayout (D.contents device.old) layout.now }
    ensures number { IfOk result (λ found. MatchOption found
        (All (λ n. is_node (D.contents device.old) n ≡ true) (slot_number slot.now))
        (λ n. (slot_number slot.now ≡ n ∷ []) × (is_node (D.contents device.old) n ≡ false))) }
    ensures device { OnlyReads D.contents D.failures (faults_after result) device.old device.new }
{
    let Some(n) = slot_number(slot) else {
        return Ok(None);
    };
    let is_node = is_node_number(device, layout, n)?;
    if is_node {
        return Ok(None);
    }
    Ok(Some(n))
}

/// The first slot with the number of no node.
fn number_fault<D: Device>(
    device: &mut D,
    layout: &Layout,
    slots: &[Option<Dirent>],
) -> Result<Option<InodeFault>, Fault>
    requires layout { IsLayout (D.contents device.old) layout.now }
    ensures fault { IfOk result (λ found. MatchOption found
        (All (λ n. is_node (D.contents device.old) n ≡ true) (slot_numbers slots.now))
        (IsNumberFault (is_node (D.contents device.old)) slots.now)) }
    ensures device { OnlyReads D.contents D.failures (faults_after result) device.old device.new }
{
    for s in 0..slots.len() {
        let found = nodeless(device, layout, &slots[s])?;
        if let Some(number) = found {
            return Ok(Some(InodeFault::NoNode { slot: s, number }));
        }
    }
    Ok(None)
}

/// What is wrong with these slots of directory i.
fn list_fault<D: Device>(
    alloc: Global,
    device: &mut D,
    layout: &Layout,
    i: u16,
    slots: &[Option<Dirent>],
) -> Result<Option<InodeFault>, SearchFault>
    requires layout { IsLayout (D.contents device.old) layout.now }
    ensures fault { IfOk result (λ found. MatchOption found
        (AreGoodSlots (is_node (D.contents device.old)) i slots.now)
        (IsSlotFault (is_node (D.contents device.old)) i slots.now)) }
    ensures device { OnlyReads D.contents D.failures (faults_with result) device.old device.new }
{
    if let Some(fault) = form_fault(i, slots) {
        return Ok(Some(fault));
    }
    let fault = number_fault(device, layout, slots)?;
    if let Some(fault) = fault {
        return Ok(Some(fault));
    }
    let fault = name_fault(alloc, slots)?;
    Ok(fault)
}

/// What is wrong with the slots of inode i, if it is a live directory.
pub fn slot_fault<D: Device>(
    alloc: Global,
    device: &mut D,
    layout: &Layout,
    i: u32,
) -> Result<Option<InodeFault>, SearchFault>
    requires layout { IsLayout (D.contents device.old) layout.now }
    requires numbers { HasGoodNumbers (D.contents device.old) }
    requires low { 1 ≤ i }
    requires bound { i < layout.now.sizes.ninodes }
    ensures fault { IfOk result (λ found. MatchOption found
        (Passes layout.now.version (D.contents device.old) checks.Slots i)
        (IsFaultOf layout.now.version (D.contents device.old) i checks.Slots)) }
    ensures device { OnlyReads D.contents D.failures (faults_with result) device.old device.new }
{
    let inode = load_inode(device, layout, i)?;
    if !is_live_directory(&inode) {
        return Ok(None);
    }
    let slots = slots_at(alloc, device, layout, i)?;
    let fault = list_fault(alloc, device, layout, i as u16, slots.as_slice())?;
    Ok(fault)
}
