//! The types of inodes, and the root.
ghost use Rattle.std.specs.Prelude.{◌↔◌, ◌<◌, IsTrue, IfOk};
ghost use Rattle.image_tree.specs.Vocabulary.{faults_after, ComesByCalls};
ghost use Rattle.image_tree.specs.Checks.{IsGoodType, HasGoodTypes, HasRoot};
ghost use Rattle.image_tree.specs.Layout.{IsLayout};
ghost use Rattle.image_tree.specs.Reads.{OnlyReads};

use crate::disk::{Layout, load_inode};
use crate::limits::{KIND_DEVICE, KIND_DIRECTORY, KIND_FREE, ROOT};
use block_device::{Device, Fault};
use fs_layout::Dinode;

fn has_good_type(inode: &Dinode) -> bool
    ensures { IsTrue result ↔ IsGoodType inode.now }
{
    KIND_FREE <= inode.kind
        && inode.kind <= KIND_DEVICE
        && (inode.kind == KIND_FREE || 0 <= inode.nlink)
}

/// Whether each inode's type is one, and no node's count is negative.
pub fn has_good_types<D: Device>(device: &mut D, layout: &Layout) -> Result<bool, Fault>
    requires layout { IsLayout (D.contents device.old) layout.now }
    ensures good { IfOk result (λ good. IsTrue good ↔ HasGoodTypes (D.contents device.old)) }
    ensures device { OnlyReads D.contents D.failures (faults_after result) device.old device.new }
    ensures calls { ComesByCalls D.Called device.old device.new }
{
    for i in 1..layout.sizes.ninodes {
        let inode = load_inode(device, layout, i)?;
        if !has_good_type(&inode) {
            return Ok(false);
        }
    }
    Ok(true)
}

/// Whether inode 1 is a live directory.
pub fn has_root<D: Device>(device: &mut D, layout: &Layout) -> Result<bool, Fault>
    requires layout { IsLayout (D.contents device.old) layout.now }
    ensures good { IfOk result (λ good. IsTrue good ↔ HasRoot (D.contents device.old)) }
    ensures device { OnlyReads D.contents D.failures (faults_after result) device.old device.new }
    ensures calls { ComesByCalls D.Called device.old device.new }
{
    let root = load_inode(device, layout, ROOT)?;
    Ok(root.kind == KIND_DIRECTORY && 0 < root.nlink)
}
