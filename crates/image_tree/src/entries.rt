//! That live directories have good slots.
ghost use Rattle.std.specs.Prelude.{◌≡◌, ◌≢◌, ◌+◌, ◌<◌, ◌≤◌, ◌↔◌, ℕ, Bool, true, false, List, length, slice_index_or, IfOk, IfErr, Option, Some, None, IsTrue};
ghost use Rattle.std.specs.List.{All};
ghost use Rattle.image_tree.specs.Vocabulary.{option_to_list, ComesByCalls, Used};
ghost use Rattle.image_tree.specs.Inodes.{is_live_directory, is_node};
ghost use Rattle.image_tree.specs.Links.{slot_number, slot_numbers, slots_in};
ghost use Rattle.image_tree.specs.Checks.{AreGoodSlots, HasGoodNumbers, HasGoodSlots, IsDotDot, dot};
ghost use Rattle.image_tree.specs.Damage.{JudgesFault, faults_with};
ghost use Rattle.image_tree.specs.Layout.{IsLayout};
ghost use Rattle.image_tree.specs.Marks.{IsNodeTable};
ghost use Rattle.image_tree.specs.Reads.{OnlyReads};

use crate::disk::{Layout, load_inode};
use crate::fault::MountFault;
use crate::inodes::{is_free, is_live_directory};
use crate::names::are_names_once;
use crate::rows::push;
use crate::slots::slots_at;
use block_device::Device;
use fs_layout::Dirent;
use std::alloc::{AllocError, Global};

/// The name of a directory in itself, and that of its parent.
const DOT: [u8; 1] = *b".";

const DOTDOT: [u8; 2] = *b"..";

/// The number in a slot, if it is used.
pub fn slot_number(slot: &Option<Dirent>) -> Option<u16>
    ensures { option_to_list result ≡ slot_number slot.now }
{
    match slot {
        Some(Dirent::Used { number, .. }) => Some(*number),
        _ => None,
    }
}

fn is_dot(slot: &Option<Dirent>, i: u16) -> bool
    ensures { IsTrue result ↔ (slot.now ≡ Some (Used i dot)) }
{
    match slot {
        Some(Dirent::Used { number, name }) => *number == i && name.as_bytes() == DOT.as_slice(),
        _ => false,
    }
}

fn is_dotdot(slot: &Option<Dirent>) -> bool
    ensures { IsTrue result ↔ IsDotDot slot.now }
{
    match slot {
        Some(Dirent::Used { name, .. }) => name.as_bytes() == DOTDOT.as_slice(),
        _ => false,
    }
}

fn has_dots(i: u16, slots: &[Option<Dirent>]) -> bool
    ensures { IsTrue result
        ↔ ((slice_index_or slots.now 0 None ≡ Some (Used i dot)) × IsDotDot (slice_index_or slots.now 1 None)) }
{
    if slots.len() < 2 {
        return false;
    }
    is_dot(&slots[0], i) && is_dotdot(&slots[1])
}

fn are_entries(slots: &[Option<Dirent>]) -> bool
    ensures { IsTrue result ↔ All (λ slot. slot ≢ None) slots.now }
{
    for s in 0..slots.len() {
        if slots[s].is_none() {
            return false;
        }
    }
    true
}

fn names_node(slot: &Option<Dirent>, nodes: &[bool]) -> bool
    ensures { IsTrue result
        ↔ All (λ n. slice_index_or nodes.now n false ≡ true) (slot_number slot.now) }
{
    match slot_number(slot) {
        Some(n) => (n as usize) < nodes.len() && nodes[n as usize],
        None => true,
    }
}

fn name_nodes(slots: &[Option<Dirent>], nodes: &[bool]) -> bool
    ensures { IsTrue result
        ↔ All (λ n. slice_index_or nodes.now n false ≡ true) (slot_numbers slots.now) }
{
    for s in 0..slots.len() {
        if !names_node(&slots[s], nodes) {
            return false;
        }
    }
    true
}

/// Whether these are good slots of directory i.
fn are_good_slots(
    alloc: Global,
    i: u16,
    slots: &[Option<Dirent>],
    nodes: &[bool],
) -> Result<bool, AllocError>
    ensures { IfOk result (λ good. IsTrue good
        ↔ AreGoodSlots (λ n. slice_index_or nodes.now n false) i slots.now) }
{
    if !has_dots(i, slots) || !are_entries(slots) || !name_nodes(slots, nodes) {
        return Ok(false);
    }
    let once = are_names_once(alloc, slots)?;
    Ok(once)
}

/// Which inodes are nodes.
fn node_table<D: Device>(
    alloc: Global,
    device: &mut D,
    layout: &Layout,
) -> Result<Vec<bool>, MountFault>
    requires layout { IsLayout (D.contents device.old) layout.now }
    ensures table { IfOk result (λ nodes. IsNodeTable (D.contents device.old) nodes.items) }
    ensures err { IfErr result (JudgesFault layout.now.version (D.contents device.old)) }
    ensures device { OnlyReads D.contents D.failures (faults_with result) device.old device.new }
    ensures calls { ComesByCalls D.Called device.old device.new }
{
    let mut nodes = Vec::new(alloc);
    push(&mut nodes, false)?;
    for i in 1..layout.sizes.ninodes {
        let inode = load_inode(device, layout, i)?;
        push(&mut nodes, !is_free(&inode))?;
    }
    Ok(nodes)
}

/// Whether each live directory has good slots.
pub fn has_good_slots<D: Device>(
    alloc: Global,
    device: &mut D,
    layout: &Layout,
) -> Result<bool, MountFault>
    requires layout { IsLayout (D.contents device.old) layout.now }
    requires numbers { HasGoodNumbers (D.contents device.old) }
    ensures good { IfOk result (λ good. IsTrue good ↔ HasGoodSlots layout.now.version (D.contents device.old)) }
    ensures err { IfErr result (JudgesFault layout.now.version (D.contents device.old)) }
    ensures device { OnlyReads D.contents D.failures (faults_with result) device.old device.new }
    ensures calls { ComesByCalls D.Called device.old device.new }
{
    let nodes = node_table(alloc, device, layout)?;
    for i in 1..layout.sizes.ninodes {
        let good = has_good_slots_at(alloc, device, layout, i, nodes.as_slice())?;
        if !good {
            return Ok(false);
        }
    }
    Ok(true)
}

/// Whether inode i has good slots, if it is a live directory.
fn has_good_slots_at<D: Device>(
    alloc: Global,
    device: &mut D,
    layout: &Layout,
    i: u32,
    nodes: &[bool],
) -> Result<bool, MountFault>
    requires layout { IsLayout (D.contents device.old) layout.now }
    requires low { 1 ≤ i }
    requires bound { i < layout.now.sizes.ninodes }
    requires numbers { HasGoodNumbers (D.contents device.old) }
    requires table { IsNodeTable (D.contents device.old) nodes.now }
    ensures good { IfOk result (λ good. IsTrue good
        ↔ (is_live_directory (D.contents device.old) i ≡ true
        → AreGoodSlots (is_node (D.contents device.old)) i (slots_in layout.now.version (D.contents device.old) i))) }
    ensures err { IfErr result (JudgesFault layout.now.version (D.contents device.old)) }
    ensures device { OnlyReads D.contents D.failures (faults_with result) device.old device.new }
    ensures calls { ComesByCalls D.Called device.old device.new }
{
    let inode = load_inode(device, layout, i)?;
    if !is_live_directory(&inode) {
        return Ok(true);
    }
    let slots = slots_at(alloc, device, layout, i)?;
    let good = are_good_slots(alloc, i as u16, slots.as_slice(), nodes)?;
    Ok(good)
}
