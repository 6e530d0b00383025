//! That nodes have sizes that their blocks can hold.
ghost use Rattle.std.specs.Prelude.{◌≡◌, ◌≢◌, ◌+◌, ◌*◌, ◌<◌, ◌≤◌, ◌^◌, ◌↔◌, ℕ, Bool, true, length, IfOk, IsTrue};
ghost use Rattle.image_tree.specs.Vocabulary.{faults_after, ComesByCalls, block_len};
ghost use Rattle.image_tree.specs.Checks.{HasGoodNumbers, HasGoodSizes, IsFittingSize, IsGoodSize};
ghost use Rattle.image_tree.specs.Inodes.{block_number, inode_of, is_node};
ghost use Rattle.image_tree.specs.Layout.{IsLayout};
ghost use Rattle.image_tree.specs.Reads.{OnlyReads};

use crate::disk::{Layout, load_inode};
use crate::inodes::{is_free, is_live_directory};
use crate::numbers::load_numbers;
use block_device::{Device, Fault};
use fs_layout::Dinode;
use fs_layout::widths::BLOCK_LEN;
use image_versions::Version;
use image_versions::widths::{DIRECT, LARGEST_SIZE};

/// The number of block k among the numbers of an inode: 0 if there is none.
pub fn block_number(numbers: &[u32], k: usize) -> u32
    requires { k < 2 ^ 32 }
    ensures { result ≡ block_number numbers.now k }
{
    let place = if k < DIRECT { k } else { k + 1 };
    if place < numbers.len() {
        numbers[place]
    } else {
        0
    }
}

/// Whether each block inside the size is there.
fn has_blocks(numbers: &[u32], size: u32) -> bool
    requires { size ≤ LARGEST_SIZE }
    ensures { IsTrue result ↔ ((k : ℕ) → block_len * k < size → block_number numbers.now k ≢ 0) }
{
    for k in 0..(size as usize).div_ceil(BLOCK_LEN) {
        if block_number(numbers, k) == 0 {
            return false;
        }
    }
    true
}

/// Whether the size is one that a node of this inode's kind can have.
fn is_fitting(version: Version, inode: &Dinode) -> bool
    ensures { IsTrue result ↔ IsFittingSize version inode.now }
{
    let size = inode.size as usize;
    size <= LARGEST_SIZE
        && (!is_live_directory(inode)
            || (version.new_directory_size() <= size && size % version.dirent_len() == 0))
}

fn has_good_size<D: Device>(device: &mut D, layout: &Layout, i: u32) -> Result<bool, Fault>
    requires layout { IsLayout (D.contents device.old) layout.now }
    requires low { 1 ≤ i }
    requires bound { i < layout.now.sizes.ninodes }
    requires numbers { HasGoodNumbers (D.contents device.old) }
    ensures good { IfOk result (λ good. IsTrue good
        ↔ (is_node (D.contents device.old) i ≡ true
        → IsGoodSize layout.now.version (D.contents device.old) (inode_of (D.contents device.old) i))) }
    ensures device { OnlyReads D.contents D.failures (faults_after result) device.old device.new }
    ensures calls { ComesByCalls D.Called device.old device.new }
{
    let inode = load_inode(device, layout, i)?;
    if is_free(&inode) {
        return Ok(true);
    }
    if !is_fitting(layout.version, &inode) {
        return Ok(false);
    }
    let numbers = load_numbers(device, layout, &inode)?;
    Ok(has_blocks(numbers.as_slice(), inode.size))
}

/// Whether each node's size is within the limit, has its blocks, and for a live directory is a number of slots.
pub fn has_good_sizes<D: Device>(device: &mut D, layout: &Layout) -> Result<bool, Fault>
    requires layout { IsLayout (D.contents device.old) layout.now }
    requires numbers { HasGoodNumbers (D.contents device.old) }
    ensures good { IfOk result (λ good. IsTrue good ↔ HasGoodSizes layout.now.version (D.contents device.old)) }
    ensures device { OnlyReads D.contents D.failures (faults_after result) device.old device.new }
    ensures calls { ComesByCalls D.Called device.old device.new }
{
    for i in 1..layout.sizes.ninodes {
        let good = has_good_size(device, layout, i)?;
        if !good {
            return Ok(false);
        }
    }
    Ok(true)
}
