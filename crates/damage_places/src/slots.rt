//! The slots of directories.
ghost use Rattle.std.specs.Prelude.{◌≡◌, ◌≢◌, ◌<◌, ◌≤◌, ◌/◌, ◌%◌, ℕ, IfOk, All};
ghost use Rattle.image_tree.specs.Vocabulary.{faults_after, option_to_list};
ghost use Rattle.damage_places.specs.Vocabulary.{IsLayout, OnlyReads, IsData, HasGoodNumbers, block_number, dirent_at, dirents_per_block_of, numbers_of, recovered, sizes_of, slot_number, slots_in, slots_of};
ghost use Rattle.damage_places.specs.Reads.{faults_with};

use crate::rows::push;
use crate::search_fault::SearchFault;
use block_device::{Device, Fault};
use fs_layout::widths::BLOCK_LEN;
use fs_layout::{Dinode, Dirent, read_dirent};
use image_tree::{Layout, block_number, is_live_directory, load, load_inode, numbers_at};
use std::alloc::Global;

/// The number in a slot, if it is used.
pub fn slot_number(slot: &Option<Dirent>) -> Option<u16>
    ensures { option_to_list result ≡ slot_number slot.now }
{
    match slot {
        Some(Dirent::Used { number, .. }) => Some(*number),
        _ => None,
    }
}

/// Slot s of a directory with these block numbers.
fn load_slot<D: Device>(
    device: &mut D,
    layout: &Layout,
    numbers: &[u32],
    s: usize,
) -> Result<Option<Dirent>, Fault>
    requires layout { IsLayout (D.contents device.old) layout.now }
    requires good { All (λ b. b ≢ 0 → IsData (sizes_of (D.contents device.old)) b) numbers.now }
    requires bound { s < 4294967296 }
    ensures slot { IfOk result (λ slot. slot ≡ dirent_at layout.now.version (s % dirents_per_block_of layout.now.version)
        (recovered (D.contents device.old) (block_number numbers.now (s / dirents_per_block_of layout.now.version)))) }
    ensures device { OnlyReads D.contents D.failures (faults_after result) device.old device.new }
{
    let mut block = [0; BLOCK_LEN];
    let slots = layout.version.dirents_per_block();
    let b = block_number(numbers, s / slots);
    load(device, layout, b, &mut block)?;
    Ok(read_dirent(layout.version, &block, s % slots))
}

/// All slots of a directory with these block numbers.
pub fn load_slots<D: Device>(
    alloc: Global,
    device: &mut D,
    layout: &Layout,
    inode: &Dinode,
    numbers: &[u32],
) -> Result<Vec<Option<Dirent>>, SearchFault>
    requires layout { IsLayout (D.contents device.old) layout.now }
    requires numbers { numbers.now ≡ numbers_of (D.contents device.old) inode.now }
    requires good { All (λ b. b ≢ 0 → IsData (sizes_of (D.contents device.old)) b) numbers.now }
    ensures slots { IfOk result (λ slots. slots.items ≡ slots_of layout.now.version (D.contents device.old) inode.now) }
    ensures device { OnlyReads D.contents D.failures (faults_with result) device.old device.new }
{
    let mut slots = Vec::new(alloc);
    for s in 0..inode.size as usize / layout.version.dirent_len() {
        let slot = load_slot(device, layout, numbers, s)?;
        push(&mut slots, slot)?;
    }
    Ok(slots)
}

/// The slots of inode i, if it is a live directory, else none.
pub fn slots_at<D: Device>(
    alloc: Global,
    device: &mut D,
    layout: &Layout,
    i: u32,
) -> Result<Vec<Option<Dirent>>, SearchFault>
    requires layout { IsLayout (D.contents device.old) layout.now }
    requires low { 1 ≤ i }
    requires bound { i < layout.now.sizes.ninodes }
    requires numbers { HasGoodNumbers (D.contents device.old) }
    ensures slots { IfOk result (λ slots. slots.items ≡ slots_in layout.now.version (D.contents device.old) i) }
    ensures device { OnlyReads D.contents D.failures (faults_with result) device.old device.new }
{
    let inode = load_inode(device, layout, i)?;
    if !is_live_directory(&inode) {
        return Ok(Vec::new(alloc));
    }
    let numbers = numbers_at(device, layout, i)?;
    let slots = load_slots(alloc, device, layout, &inode, numbers.as_slice())?;
    Ok(slots)
}
