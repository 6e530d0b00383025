//! The size of a node.
ghost use Rattle.std.specs.Prelude.{◌≡◌, ◌≢◌, ◌*◌, ◌<◌, ◌≤◌, ◌↔◌, ℕ, true, List, IfOk, IsTrue};
ghost use Rattle.std.specs.Option.{MatchOption};
ghost use Rattle.damage_places.specs.Vocabulary.{IsLayout, OnlyReads, IsFittingSize, HasGoodNumbers, block_len, block_number, largest_size, is_directory, is_live};
ghost use Rattle.damage_places.specs.Checks.{Passes};
ghost use Rattle.damage_places.specs.Places.{IsFaultOf, IsMisfit, IsHole};
ghost use Rattle.damage_places.specs.Reads.{faults_with};
ghost use Rattle.damage_places.specs.declared.place.Check.TheVariants as checks;

use crate::numbers::load_numbers;
use crate::place::InodeFault;
use crate::search_fault::SearchFault;
use block_device::Device;
use fs_layout::Dinode;
use fs_layout::widths::BLOCK_LEN;
use image_tree::{Layout, block_number, is_free, is_live_directory, load_inode};
use image_versions::Version;
use image_versions::widths::LARGEST_SIZE;

/// Why the size isn't one that a node of this inode's kind can have.
fn misfit(version: Version, inode: &Dinode) -> Option<InodeFault>
    ensures { MatchOption result (IsFittingSize version inode.now) (IsMisfit version inode.now) }
{
    let size = inode.size as usize;
    if size > LARGEST_SIZE {
        return Some(InodeFault::TooLarge { size: inode.size });
    }
    let is_whole = version.new_directory_size() <= size && size % version.dirent_len() == 0;
    if is_live_directory(inode) && !is_whole {
        return Some(InodeFault::PartSlots { size: inode.size });
    }
    None
}

/// The first block inside the size that isn't there.
fn first_hole(numbers: &[u32], size: u32) -> Option<usize>
    requires { size ≤ LARGEST_SIZE }
    ensures { MatchOption result
        ((k : ℕ) → block_len * k < size → block_number numbers.now k ≢ 0)
        (IsHole numbers.now size) }
{
    for k in 0..(size as usize).div_ceil(BLOCK_LEN) {
        if block_number(numbers, k) == 0 {
            return Some(k);
        }
    }
    None
}

/// What is wrong with the size of inode i.
pub fn size_fault<D: Device>(
    device: &mut D,
    layout: &Layout,
    i: u32,
) -> Result<Option<InodeFault>, SearchFault>
    requires layout { IsLayout (D.contents device.old) layout.now }
    requires numbers { HasGoodNumbers (D.contents device.old) }
    requires low { 1 ≤ i }
    requires bound { i < layout.now.sizes.ninodes }
    ensures fault { IfOk result (λ found. MatchOption found
        (Passes layout.now.version (D.contents device.old) checks.Sizes i)
        (IsFaultOf layout.now.version (D.contents device.old) i checks.Sizes)) }
    ensures device { OnlyReads D.contents D.failures (faults_with result) device.old device.new }
{
    let inode = load_inode(device, layout, i)?;
    if is_free(&inode) {
        return Ok(None);
    }
    if let Some(fault) = misfit(layout.version, &inode) {
        return Ok(Some(fault));
    }
    let numbers = load_numbers(device, layout, &inode)?;
    match first_hole(numbers.as_slice(), inode.size) {
        Some(block) => Ok(Some(InodeFault::Hole {
            block,
            size: inode.size,
        })),
        None => Ok(None),
    }
}
