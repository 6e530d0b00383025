//! That counts are how often nodes are named.
ghost use Rattle.std.specs.Prelude.{◌≡◌, ◌+◌, ◌<◌, ◌≤◌, ◌↔◌, ℕ, true, min, IfOk, IsTrue};
ghost use Rattle.image_tree.specs.Vocabulary.{faults_after, ComesByCalls};
ghost use Rattle.image_tree.specs.Inodes.{inode_of, is_node};
ghost use Rattle.image_tree.specs.Links.{children_of, further_names_of, names_of};
ghost use Rattle.image_tree.specs.Checks.{HasGoodCounts, IsGoodCount};
ghost use Rattle.image_tree.specs.Layout.{IsLayout};
ghost use Rattle.image_tree.specs.Marks.{IsLinks};
ghost use Rattle.image_tree.specs.Reads.{OnlyReads};

use crate::disk::{Layout, load_inode};
use crate::inodes::{is_directory, is_free, is_live};
use crate::links::Links;
use block_device::{Device, Fault};
use fs_layout::Dinode;

/// Whether an inode has the right count, if tables that stop at the greatest u16 say these counts.
fn is_good_count(inode: &Dinode, names: u16, further: u16, children: u16) -> bool
    ensures { (n f k : ℕ) → names ≡ min n 65535 → further ≡ min f 65535 → children ≡ min k 65535
        → IsTrue result ↔ IsGoodCount inode.now n f k }
{
    let count = i32::from(inode.nlink);
    if !is_directory(inode) {
        return count == i32::from(names);
    }
    if is_live(inode) {
        return count == 1 + i32::from(children);
    }
    further == 0
}

/// Whether inode i has the right count, if it is a node.
fn has_good_count<D: Device>(
    device: &mut D,
    layout: &Layout,
    links: &Links,
    i: u32,
) -> Result<bool, Fault>
    requires layout { IsLayout (D.contents device.old) layout.now }
    requires links { IsLinks layout.now.version (D.contents device.old) links.now }
    requires low { 1 ≤ i }
    requires bound { i < layout.now.sizes.ninodes }
    ensures good { IfOk result (λ good. IsTrue good
        ↔ (is_node (D.contents device.old) i ≡ true
        → IsGoodCount (inode_of (D.contents device.old) i) (names_of layout.now.version (D.contents device.old) i)
        (further_names_of layout.now.version (D.contents device.old) i) (children_of layout.now.version (D.contents device.old) i))) }
    ensures device { OnlyReads D.contents D.failures (faults_after result) device.old device.new }
    ensures calls { ComesByCalls D.Called device.old device.new }
{
    let inode = load_inode(device, layout, i)?;
    if is_free(&inode) {
        return Ok(true);
    }
    let place = i as usize;
    Ok(is_good_count(
        &inode,
        links.names[place],
        links.further[place],
        links.children[place],
    ))
}

/// Whether each node has the right count.
pub fn has_good_counts<D: Device>(
    device: &mut D,
    layout: &Layout,
    links: &Links,
) -> Result<bool, Fault>
    requires layout { IsLayout (D.contents device.old) layout.now }
    requires links { IsLinks layout.now.version (D.contents device.old) links.now }
    ensures good { IfOk result (λ good. IsTrue good ↔ HasGoodCounts layout.now.version (D.contents device.old)) }
    ensures device { OnlyReads D.contents D.failures (faults_after result) device.old device.new }
    ensures calls { ComesByCalls D.Called device.old device.new }
{
    for i in 1..layout.sizes.ninodes {
        let good = has_good_count(device, layout, links, i)?;
        if !good {
            return Ok(false);
        }
    }
    Ok(true)
}
