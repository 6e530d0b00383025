//! Two blocks put in one transaction of an empty log: copies into the log, its head, the blocks' homes, and the head cleared.
ghost use Rattle.std.specs.Prelude.{◌≡◌, ◌⊎◌, ◌+◌, ◌<◌, ◌≤◌, ◌∷◌, List, ℕ, [], OnOk, slice_set};
ghost use Rattle.image_tree.specs.Vocabulary.{block_at, faults_after, ComesByCalls, logged, recovered, sizes_of, IsOutsideLog};
ghost use Rattle.image_tree.specs.Damage.{IsWellFormed};
ghost use Rattle.image_tree.specs.Layout.{IsLayout};
ghost use Rattle.image_tree.specs.Views.{IsViewOf};
ghost use Rattle.image_tree.specs.Freeing.{IsPut};

use crate::disk::Layout;
use crate::recover;
use block_device::{Device, Fault};
use fs_layout::widths::{BLOCK_LEN, Block};
use fs_layout::write_log_head;
use image_versions::Version;

/// Puts the bitmap and a block of inodes in one transaction.
pub fn put_both<D: Device>(
    device: &mut D,
    layout: &Layout,
    home: u32,
    bitmap: &Block,
    inodes: &Block,
) -> Result<(), Fault>
    requires layout { IsLayout (D.contents device.old) layout.now }
    requires empty { logged (D.contents device.old) ≡ [] }
    requires low { layout.now.sizes.inodestart ≤ home }
    requires high { home < layout.now.sizes.bmapstart }
    requires well { (disk : List (List ℕ)) → IsPut layout.now.version (D.contents device.old) disk home bitmap.now inodes.now
        → IsWellFormed layout.now.version disk }
    ensures faults { D.failures device.new ≡ faults_after result (D.failures device.old) }
    ensures calls { ComesByCalls D.Called device.old device.new }
    ensures either { IsViewOf layout.now.version (D.contents device.old) (D.contents device.new)
        ⊎ IsPut layout.now.version (D.contents device.old) (D.contents device.new) home bitmap.now inodes.now }
    ensures put { OnOk result (IsPut layout.now.version (D.contents device.old) (D.contents device.new) home bitmap.now inodes.now) }
    ensures empty { OnOk result (logged (D.contents device.new) ≡ []) }
{
    log_both(device, layout, bitmap, inodes)?;
    write_head(device, layout, home)?;
    install(device, layout.version)
}

/// Copies both into the log, whose head names none of them yet.
fn log_both<D: Device>(
    device: &mut D,
    layout: &Layout,
    bitmap: &Block,
    inodes: &Block,
) -> Result<(), Fault>
    requires layout { IsLayout (D.contents device.old) layout.now }
    requires empty { logged (D.contents device.old) ≡ [] }
    ensures faults { D.failures device.new ≡ faults_after result (D.failures device.old) }
    ensures calls { ComesByCalls D.Called device.old device.new }
    ensures view { IsViewOf layout.now.version (D.contents device.old) (D.contents device.new) }
    ensures layout { IsLayout (D.contents device.new) layout.now }
    ensures empty { logged (D.contents device.new) ≡ [] }
    ensures first { OnOk result (block_at (D.contents device.new) (layout.now.sizes.logstart + 1) ≡ bitmap.now) }
    ensures second { OnOk result (block_at (D.contents device.new) (layout.now.sizes.logstart + 2) ≡ inodes.now) }
{
    log_copy(device, layout, layout.sizes.logstart + 1, bitmap)?;
    log_copy(device, layout, layout.sizes.logstart + 2, inodes)
}

fn log_copy<D: Device>(
    device: &mut D,
    layout: &Layout,
    place: u32,
    block: &Block,
) -> Result<(), Fault>
    requires layout { IsLayout (D.contents device.old) layout.now }
    requires empty { logged (D.contents device.old) ≡ [] }
    requires low { layout.now.sizes.logstart < place }
    requires high { place ≤ layout.now.sizes.logstart + 2 }
    ensures faults { D.failures device.new ≡ faults_after result (D.failures device.old) }
    ensures calls { ComesByCalls D.Called device.old device.new }
    ensures view { IsViewOf layout.now.version (D.contents device.old) (D.contents device.new) }
    ensures layout { IsLayout (D.contents device.new) layout.now }
    ensures empty { logged (D.contents device.new) ≡ [] }
    ensures ok { OnOk result (D.contents device.new ≡ slice_set (D.contents device.old) place block.now) }
{
    device.write(place, block)
}

/// Names both in the log's head, so that recovery would take them home.
fn write_head<D: Device>(device: &mut D, layout: &Layout, home: u32) -> Result<(), Fault>
    requires layout { IsLayout (D.contents device.old) layout.now }
    requires empty { logged (D.contents device.old) ≡ [] }
    requires low { layout.now.sizes.inodestart ≤ home }
    requires high { home < layout.now.sizes.bmapstart }
    ensures faults { D.failures device.new ≡ faults_after result (D.failures device.old) }
    ensures calls { ComesByCalls D.Called device.old device.new }
    ensures either { (D.contents device.new ≡ D.contents device.old)
        ⊎ IsPut layout.now.version (D.contents device.old) (D.contents device.new) home
        (block_at (D.contents device.old) (layout.now.sizes.logstart + 1))
        (block_at (D.contents device.old) (layout.now.sizes.logstart + 2)) }
    ensures put { OnOk result (IsPut layout.now.version (D.contents device.old) (D.contents device.new) home
        (block_at (D.contents device.old) (layout.now.sizes.logstart + 1))
        (block_at (D.contents device.old) (layout.now.sizes.logstart + 2))) }
{
    let mut head = [0; BLOCK_LEN];
    write_log_head(&mut head, &[layout.sizes.bmapstart, home]);
    device.write(layout.sizes.logstart, &head)
}

/// Does the rest of the transaction, which is what recovery does.
pub fn install<D: Device>(device: &mut D, version: Version) -> Result<(), Fault>
    requires { IsWellFormed version (D.contents device.old) }
    ensures faults { D.failures device.new ≡ faults_after result (D.failures device.old) }
    ensures calls { ComesByCalls D.Called device.old device.new }
    ensures view { IsViewOf version (D.contents device.old) (D.contents device.new) }
    ensures empty { OnOk result (logged (D.contents device.new) ≡ []) }
    ensures home { OnOk result ((b : ℕ) → IsOutsideLog (sizes_of (D.contents device.old)) b
        → block_at (D.contents device.new) b ≡ recovered (D.contents device.old) b) }
{
    match recover(device, version) {
        Ok(()) => Ok(()),
        Err(_fault) => Err(Fault),
    }
}
