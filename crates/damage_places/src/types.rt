//! The type of an inode.
ghost use Rattle.std.specs.Prelude.{◌≡◌, ◌<◌, ◌≤◌, ℕ, IfOk};
ghost use Rattle.std.specs.Option.{MatchOption};
ghost use Rattle.damage_places.specs.Vocabulary.{IsLayout, OnlyReads, HasRoot};
ghost use Rattle.damage_places.specs.Checks.{Passes};
ghost use Rattle.damage_places.specs.Places.{IsFaultOf, IsRootPlace};
ghost use Rattle.damage_places.specs.Reads.{faults_with};
ghost use Rattle.damage_places.specs.declared.place.Check.TheVariants as checks;

use crate::place::{InodeFault, Place};
use crate::search_fault::SearchFault;
use block_device::Device;
use image_tree::{Layout, load_inode};

/// The types of inodes.
const KIND_FREE: i16 = 0;

const KIND_DIRECTORY: i16 = 1;

const KIND_DEVICE: i16 = 3;

/// The inode of the root.
const ROOT: u32 = 1;

/// What is wrong with the type of inode i.
pub fn type_fault<D: Device>(
    device: &mut D,
    layout: &Layout,
    i: u32,
) -> Result<Option<InodeFault>, SearchFault>
    requires layout { IsLayout (D.contents device.old) layout.now }
    requires bound { i < layout.now.sizes.ninodes }
    ensures fault { IfOk result (λ found. MatchOption found
        (Passes layout.now.version (D.contents device.old) checks.Types i)
        (IsFaultOf layout.now.version (D.contents device.old) i checks.Types)) }
    ensures device { OnlyReads D.contents D.failures (faults_with result) device.old device.new }
{
    let inode = load_inode(device, layout, i)?;
    let is_type = KIND_FREE <= inode.kind && inode.kind <= KIND_DEVICE;
    if is_type && (inode.kind == KIND_FREE || 0 <= inode.nlink) {
        return Ok(None);
    }
    Ok(Some(InodeFault::Type {
        kind: inode.kind,
        links: inode.nlink,
    }))
}

/// That inode 1 is no live directory, if so.
pub fn find_root<D: Device>(device: &mut D, layout: &Layout) -> Result<Option<Place>, SearchFault>
    requires { IsLayout (D.contents device.old) layout.now }
    ensures root { IfOk result (λ found. MatchOption found
        (HasRoot (D.contents device.old))
        (IsRootPlace (D.contents device.old))) }
    ensures device { OnlyReads D.contents D.failures (faults_with result) device.old device.new }
{
    let root = load_inode(device, layout, ROOT)?;
    if root.kind == KIND_DIRECTORY && 0 < root.nlink {
        return Ok(None);
    }
    Ok(Some(Place::Root {
        kind: root.kind,
        links: root.nlink,
    }))
}
