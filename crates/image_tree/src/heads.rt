//! The superblock and the log's head.
ghost use Rattle.std.specs.Prelude.{◌≡◌, ◌≢◌, ◌<◌, ◌≤◌, ◌↔◌, length, All, Err, IfOk, IsFalse, IsTrue};
ghost use Rattle.fs_layout.specs.Recovered.{version_in};
ghost use Rattle.image_tree.specs.Vocabulary.{faults_after, ComesByCalls, sizes_of};
ghost use Rattle.image_tree.specs.Checks.{IsGoodSuper, HasSuper};
ghost use Rattle.image_tree.specs.Damage.{JudgesWith, UpToShort, UpToSize, faults_with};
ghost use Rattle.image_tree.specs.Layout.{IsLayout};
ghost use Rattle.image_tree.specs.Lists.{IsOnce};
ghost use Rattle.image_tree.specs.Reads.{OnlyReads};
ghost use Rattle.image_tree.specs.Versions.{SupersTellVersions};

use crate::disk::Layout;
use crate::fault::{Damage, MountFault};
use crate::limits::{FEWEST_INODES, FIRST_LOG_BLOCK, MOST_INODES, SHORTEST_LOG, SUPER_BLOCK};
use block_device::{Device, Fault};
use fs_layout::widths::{BLOCK_LEN, INODES_PER_BLOCK};
use fs_layout::{Super, read_log_head, read_super, read_version};
use image_versions::Version;
use image_versions::widths::MOST_DISK_BLOCKS;

fn is_good(s: &Super) -> bool
    ensures { IsTrue result ↔ IsGoodSuper s.now }
{
    s.size <= MOST_DISK_BLOCKS
        && s.ninodes >= FEWEST_INODES
        && s.ninodes <= MOST_INODES
        && s.logstart >= FIRST_LOG_BLOCK
        && s.nlog >= SHORTEST_LOG
        && u64::from(s.logstart) + u64::from(s.nlog) <= u64::from(s.inodestart)
        && u64::from(s.inodestart) + u64::from(s.ninodes).div_ceil(INODES_PER_BLOCK as u64)
            <= u64::from(s.bmapstart)
        && s.bmapstart < s.size
}

fn find_super<D: Device>(device: &mut D, version: Version) -> Result<Super, MountFault>
    requires { UpToShort (D.contents device.old) }
    ensures judges { JudgesWith version (λ s. (s ≡ sizes_of (D.contents device.old)) × HasSuper version (D.contents device.old))
        (D.contents device.old) result }
    ensures memory { result ≢ Err MountFault.NoMemory }
    ensures device { OnlyReads D.contents D.failures (faults_with result) device.old device.new }
    ensures calls { ComesByCalls D.Called device.old device.new }
{
    let mut block = [0; BLOCK_LEN];
    device.read(SUPER_BLOCK, &mut block)?;
    let Some(sizes) = read_super(version, &block) else {
        return Err(MountFault::Damaged(Damage::BadSuper));
    };
    if !is_good(&sizes) {
        return Err(MountFault::Damaged(Damage::BadSuper));
    }
    Ok(sizes)
}

fn has_repeat(numbers: &[u32]) -> bool
    ensures { IsFalse result ↔ IsOnce numbers.now }
{
    for i in 0..numbers.len() {
        if numbers[..i].contains(&numbers[i]) {
            return true;
        }
    }
    false
}

fn are_between(numbers: &[u32], low: u32, high: u32) -> bool
    ensures { IsTrue result ↔ All (λ b. (low ≤ b) × (b < high)) numbers.now }
{
    for b in numbers {
        if *b < low || high <= *b {
            return false;
        }
    }
    true
}

/// What the log holds, and so the whole layout, of a disk with this superblock.
fn find_log<D: Device>(device: &mut D, version: Version, sizes: Super) -> Result<Layout, MountFault>
    requires sizes { sizes ≡ sizes_of (D.contents device.old) }
    requires passed { UpToSize version (D.contents device.old) }
    ensures judges { JudgesWith version (λ layout. IsLayout (D.contents device.old) layout × (layout.version ≡ version))
        (D.contents device.old) result }
    ensures memory { result ≢ Err MountFault.NoMemory }
    ensures device { OnlyReads D.contents D.failures (faults_with result) device.old device.new }
    ensures calls { ComesByCalls D.Called device.old device.new }
{
    let mut block = [0; BLOCK_LEN];
    device.read(sizes.logstart, &mut block)?;
    let Some(head) = read_log_head(&block) else {
        return Err(MountFault::Damaged(Damage::BadLog));
    };
    let blocks = head.blocks.as_slice();
    if blocks.len() >= sizes.nlog as usize {
        return Err(MountFault::Damaged(Damage::BadLog));
    }
    if !are_between(blocks, sizes.inodestart, sizes.size) {
        return Err(MountFault::Damaged(Damage::BadLog));
    }
    if has_repeat(blocks) {
        return Err(MountFault::Damaged(Damage::BadLog));
    }
    Ok(Layout {
        version,
        sizes,
        head,
    })
}

/// Finds the parts of an image of this version: its superblock, and the blocks that its log holds. An error is the
/// first damage of these two, or the device's. It takes no memory (xv6: `readsb`, `read_head`).
pub fn find_layout<D: Device>(device: &mut D, version: Version) -> Result<Layout, MountFault>
    ensures judges { JudgesWith version (λ layout. IsLayout (D.contents device.old) layout × (layout.version ≡ version))
        (D.contents device.old) result }
    ensures memory { result ≢ Err MountFault.NoMemory }
    ensures device { OnlyReads D.contents D.failures (faults_with result) device.old device.new }
    ensures calls { ComesByCalls D.Called device.old device.new }
{
    let blocks = device.blocks();
    if blocks <= SUPER_BLOCK {
        return Err(MountFault::Damaged(Damage::TooShort));
    }
    let sizes = find_super(device, version)?;
    if blocks < sizes.size {
        return Err(MountFault::Damaged(Damage::TooShort));
    }
    find_log(device, version, sizes)
}

/// The version whose magic number an image begins with, and the first if it is none's: its examination says whether
/// it is an image. A disk without a superblock is not read.
#[tactic(auto, using(block_device::specs::CallLaws::by_calls), unfolding(fs_layout::specs::Recovered::sizes_of))]
pub fn find_version<D: Device>(device: &mut D) -> Result<Version, Fault>
    ensures version { IfOk result (λ version. version ≡ version_in (D.contents device.old)) }
    ensures device { OnlyReads D.contents D.failures (faults_after result) device.old device.new }
    ensures calls { ComesByCalls D.Called device.old device.new }
{
    if device.blocks() <= SUPER_BLOCK {
        return Ok(Version::One);
    }
    let mut block = [0; BLOCK_LEN];
    device.read(SUPER_BLOCK, &mut block)?;
    Ok(read_version(&block).unwrap_or(Version::One))
}

/// The version that is found is that of the image. The function does nothing: it carries the law.
pub fn supers_tell_versions()
    ensures { SupersTellVersions }
{}
