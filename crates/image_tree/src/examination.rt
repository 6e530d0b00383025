//! The examination of an image.
ghost use Rattle.std.specs.Prelude.{◌≡◌, List, ℕ};
ghost use Rattle.image_tree.specs.Vocabulary.{ComesByCalls};
ghost use Rattle.image_tree.specs.Damage.{IsWellFormed, JudgesWith, UpToOnce, UpToSlots, faults_with};
ghost use Rattle.image_tree.specs.Layout.{IsLayout};
ghost use Rattle.image_tree.specs.Shape.{shape_of};
ghost use Rattle.image_tree.specs.Reads.{OnlyReads};

use crate::counts::has_good_counts;
use crate::disk::Layout;
use crate::entries::has_good_slots;
use crate::fault::{Damage, MountFault};
use crate::heads::find_layout;
use crate::links::find_links;
use crate::marks::has_marks;
use crate::numbers::has_good_numbers;
use crate::once::names_once;
use crate::one_tree::is_one_tree;
use crate::shape::{Shape, find_shape};
use crate::sizes::has_good_sizes;
use crate::types::{has_good_types, has_root};
use block_device::Device;
use image_versions::Version;
use std::alloc::Global;

/// The checks of what inodes say alone, and of the blocks that they name.
fn examine_blocks<D: Device>(
    alloc: Global,
    device: &mut D,
    version: Version,
) -> Result<Layout, MountFault>
    ensures judges { JudgesWith version
        (λ layout. IsLayout (D.contents device.old) layout × (layout.version ≡ version) × UpToOnce version (D.contents device.old))
        (D.contents device.old) result }
    ensures device { OnlyReads D.contents D.failures (faults_with result) device.old device.new }
    ensures calls { ComesByCalls D.Called device.old device.new }
{
    let layout = find_layout(device, version)?;
    if !has_good_types(device, &layout)? {
        return Err(MountFault::Damaged(Damage::BadType));
    }
    if !has_root(device, &layout)? {
        return Err(MountFault::Damaged(Damage::NoRoot));
    }
    if !has_good_numbers(device, &layout)? {
        return Err(MountFault::Damaged(Damage::BlockRange));
    }
    if !names_once(alloc, device, &layout)? {
        return Err(MountFault::Damaged(Damage::BlockShared));
    }
    Ok(layout)
}

/// The checks up to those of the slots of directories.
fn examine_slots<D: Device>(
    alloc: Global,
    device: &mut D,
    version: Version,
) -> Result<Layout, MountFault>
    ensures judges { JudgesWith version
        (λ layout. IsLayout (D.contents device.old) layout × (layout.version ≡ version) × UpToSlots version (D.contents device.old))
        (D.contents device.old) result }
    ensures device { OnlyReads D.contents D.failures (faults_with result) device.old device.new }
    ensures calls { ComesByCalls D.Called device.old device.new }
{
    let layout = examine_blocks(alloc, device, version)?;
    if !has_marks(device, &layout)? {
        return Err(MountFault::Damaged(Damage::BlockUnmarked));
    }
    if !has_good_sizes(device, &layout)? {
        return Err(MountFault::Damaged(Damage::BadSize));
    }
    if !has_good_slots(alloc, device, &layout)? {
        return Err(MountFault::Damaged(Damage::BadEntry));
    }
    Ok(layout)
}

/// All checks, in their order. If none fails the answer is the places of the image's parts. Else it is the first
/// damage; or that memory was refused, or the device failed.
pub fn examine_layout<D: Device>(
    alloc: Global,
    device: &mut D,
    version: Version,
) -> Result<Layout, MountFault>
    ensures judges { JudgesWith version
        (λ layout. IsLayout (D.contents device.old) layout × (layout.version ≡ version) × IsWellFormed version (D.contents device.old))
        (D.contents device.old) result }
    ensures device { OnlyReads D.contents D.failures (faults_with result) device.old device.new }
    ensures calls { ComesByCalls D.Called device.old device.new }
{
    let layout = examine_slots(alloc, device, version)?;
    let links = find_links(alloc, device, &layout)?;
    if !is_one_tree(alloc, &links)? {
        return Err(MountFault::Damaged(Damage::NotATree));
    }
    if !has_good_counts(device, &layout, &links)? {
        return Err(MountFault::Damaged(Damage::LinkCount));
    }
    Ok(layout)
}

/// Examines an image of this version as recovery would leave it, and only reads. A damage is the first check that
/// fails, in the order of `Damage`. If memory is refused or the device fails, the examination ends there.
pub fn examine<D: Device>(
    alloc: Global,
    device: &mut D,
    version: Version,
) -> Result<Shape, MountFault>
    ensures judges { JudgesWith version
        (λ shape. IsWellFormed version (D.contents device.old) × (shape ≡ shape_of (D.contents device.old)))
        (D.contents device.old) result }
    ensures device { OnlyReads D.contents D.failures (faults_with result) device.old device.new }
    ensures calls { ComesByCalls D.Called device.old device.new }
{
    let layout = examine_layout(alloc, device, version)?;
    let shape = find_shape(device, &layout)?;
    Ok(shape)
}
