//! Whether directories fit into those of another version.
ghost use Rattle.std.specs.Prelude.{◌≡◌, ◌↔◌, ◌≤◌, ◌<◌, ◌/◌, ℕ, true, IfOk, IsTrue};
ghost use Rattle.image_tree.specs.Layout.{IsLayout};
ghost use Rattle.image_tree.specs.Vocabulary.{faults_after};
ghost use Rattle.migration.specs.Vocabulary.{ComesByCalls, OnlyReads, dirent_len_of, inode_of, is_live_directory, most_slots_of};
ghost use Rattle.migration.specs.Refusals.{HasGoodDirectories};

use block_device::{Device, Fault};
use image_tree::{Layout, is_live_directory, load_inode};
use image_versions::Version;

// Whether inode i is no live directory, or has no more slots than one may.
fn has_good_directory<D: Device>(
    old: &mut D,
    layout: &Layout,
    version: Version,
    i: u32,
) -> Result<bool, Fault>
    requires layout { IsLayout (D.contents old.old) layout.now }
    requires low { 1 ≤ i }
    requires bound { i < layout.now.sizes.ninodes }
    ensures good { IfOk result (λ good. IsTrue good
        ↔ (is_live_directory (D.contents old.old) i ≡ true
        → (inode_of (D.contents old.old) i).size / dirent_len_of layout.now.version ≤ most_slots_of version)) }
    ensures device { OnlyReads D.contents D.failures (faults_after result) old.old old.new }
    ensures calls { ComesByCalls D.Called old.old old.new }
{
    let inode = load_inode(old, layout, i)?;
    if !is_live_directory(&inode) {
        return Ok(true);
    }
    Ok(inode.size as usize / layout.version.dirent_len() <= version.most_slots())
}

/// Whether no live directory has more slots than one of this version may.
pub fn has_good_directories<D: Device>(
    old: &mut D,
    layout: &Layout,
    version: Version,
) -> Result<bool, Fault>
    requires layout { IsLayout (D.contents old.old) layout.now }
    ensures good { IfOk result (λ good. IsTrue good ↔ HasGoodDirectories layout.now.version version (D.contents old.old)) }
    ensures device { OnlyReads D.contents D.failures (faults_after result) old.old old.new }
    ensures calls { ComesByCalls D.Called old.old old.new }
{
    for i in 1..layout.sizes.ninodes {
        let good = has_good_directory(old, layout, version, i)?;
        if !good {
            return Ok(false);
        }
    }
    Ok(true)
}
