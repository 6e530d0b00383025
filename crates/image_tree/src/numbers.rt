//! The block numbers that inodes name.
ghost use Rattle.std.specs.Prelude.{◌≡◌, ◌≢◌, ◌<◌, ◌≤◌, ◌++◌, ◌+◌, ◌∷◌, ◌↔◌, [], ℕ, Bool, List, length, filter, slice_index, IfOk, IfErr, All, IsTrue};
ghost use Rattle.image_tree.specs.Vocabulary.{faults_after, ComesByCalls, sizes_of};
ghost use Rattle.image_tree.specs.Checks.{IsData, HasGoodNumbers, NamesOnce};
ghost use Rattle.image_tree.specs.Inodes.{direct, numbers_of, numbers_by, is_block};
ghost use Rattle.image_tree.specs.Damage.{JudgesFault, faults_with};
ghost use Rattle.image_tree.specs.Layout.{IsLayout};
ghost use Rattle.image_tree.specs.Marks.{Marks};
ghost use Rattle.image_tree.specs.Lists.{IsOnce};
ghost use Rattle.image_tree.specs.Reads.{OnlyReads};

use crate::disk::{Layout, load, load_inode};
use crate::fault::MountFault;
use crate::inodes::is_free;
use crate::limits::NUMBERS;
use arrayvec::ArrayVec;
use block_device::{Device, Fault};
use fs_layout::widths::BLOCK_LEN;
use fs_layout::{Dinode, Super, read_numbers};
use image_versions::widths::DIRECT;
use std::alloc::Global;

fn is_good(sizes: &Super, b: u32) -> bool
    ensures { IsTrue result ↔ (b ≢ 0 → IsData sizes.now b) }
{
    b == 0 || (sizes.bmapstart < b && b < sizes.size)
}

fn are_good(sizes: &Super, numbers: &[u32]) -> bool
    ensures { IsTrue result ↔ All (λ b. b ≢ 0 → IsData sizes.now b) numbers.now }
{
    for i in 0..numbers.len() {
        if !is_good(sizes, numbers[i]) {
            return false;
        }
    }
    true
}

/// The numbers in an inode, and those in its indirect block.
pub fn load_numbers<D: Device>(
    device: &mut D,
    layout: &Layout,
    inode: &Dinode,
) -> Result<ArrayVec<u32, NUMBERS>, Fault>
    requires layout { IsLayout (D.contents device.old) layout.now }
    requires bound { slice_index inode.now.addrs direct < length (D.contents device.old) }
    ensures numbers { IfOk result (λ v. v.items ≡ numbers_of (D.contents device.old) inode.now) }
    ensures device { OnlyReads D.contents D.failures (faults_after result) device.old device.new }
    ensures calls { ComesByCalls D.Called device.old device.new }
{
    let mut numbers = ArrayVec::new();
    append(&mut numbers, &inode.addrs);
    let indirect = inode.addrs[DIRECT];
    if indirect == 0 {
        return Ok(numbers);
    }
    let mut block = [0; BLOCK_LEN];
    load(device, layout, indirect, &mut block)?;
    append(&mut numbers, &read_numbers(&block));
    Ok(numbers)
}

fn append(numbers: &mut ArrayVec<u32, NUMBERS>, more: &[u32])
    requires { length numbers.old.items + length more.now ≤ 269 }
    ensures { numbers.new.items ≡ numbers.old.items ++ more.now }
{
    numbers.try_extend_from_slice(more).unwrap();
}

/// Whether each number that inode i names is a data block's.
fn has_good<D: Device>(device: &mut D, layout: &Layout, i: u32) -> Result<bool, Fault>
    requires layout { IsLayout (D.contents device.old) layout.now }
    requires bound { i < layout.now.sizes.ninodes }
    ensures good { IfOk result (λ good. IsTrue good
        ↔ All (λ b. b ≢ 0 → IsData (sizes_of (D.contents device.old)) b) (numbers_by (D.contents device.old) i)) }
    ensures device { OnlyReads D.contents D.failures (faults_after result) device.old device.new }
    ensures calls { ComesByCalls D.Called device.old device.new }
{
    let inode = load_inode(device, layout, i)?;
    if is_free(&inode) {
        return Ok(true);
    }
    if !are_good(&layout.sizes, &inode.addrs) {
        return Ok(false);
    }
    let numbers = load_numbers(device, layout, &inode)?;
    Ok(are_good(&layout.sizes, numbers.as_slice()))
}

/// Whether each number that an inode names is a data block's.
pub fn has_good_numbers<D: Device>(device: &mut D, layout: &Layout) -> Result<bool, Fault>
    requires layout { IsLayout (D.contents device.old) layout.now }
    ensures good { IfOk result (λ good. IsTrue good ↔ HasGoodNumbers (D.contents device.old)) }
    ensures device { OnlyReads D.contents D.failures (faults_after result) device.old device.new }
    ensures calls { ComesByCalls D.Called device.old device.new }
{
    for i in 1..layout.sizes.ninodes {
        let good = has_good(device, layout, i)?;
        if !good {
            return Ok(false);
        }
    }
    Ok(true)
}

/// The numbers in inode i, if it is in use.
pub fn numbers_at<D: Device>(
    device: &mut D,
    layout: &Layout,
    i: u32,
) -> Result<ArrayVec<u32, NUMBERS>, Fault>
    requires layout { IsLayout (D.contents device.old) layout.now }
    requires low { 1 ≤ i }
    requires bound { i < layout.now.sizes.ninodes }
    requires good { HasGoodNumbers (D.contents device.old) }
    ensures numbers { IfOk result (λ v. v.items ≡ numbers_by (D.contents device.old) i) }
    ensures small { IfOk result (λ v. All (λ b. b < 8192) v.items) }
    ensures device { OnlyReads D.contents D.failures (faults_after result) device.old device.new }
    ensures calls { ComesByCalls D.Called device.old device.new }
{
    let inode = load_inode(device, layout, i)?;
    if is_free(&inode) {
        return Ok(ArrayVec::new());
    }
    let numbers = load_numbers(device, layout, &inode)?;
    Ok(numbers)
}
