//! How much a new image has.
ghost use Rattle.std.specs.Prelude.{◌≡◌, ◌↔◌, ◌≤◌, ◌*◌, ◌^◌, ◌<◌, ◌+◌, length, map, All, IfOk, IsTrue};
ghost use Rattle.image_tree.specs.Layout.{IsLayout};
ghost use Rattle.image_tree.specs.Vocabulary.{faults_after};
ghost use Rattle.migration.specs.Vocabulary.{ComesByCalls, IsWellFormed, OnlyReads, largest_size};
ghost use Rattle.migration.specs.Nodes.{node_of, Node};
ghost use Rattle.migration.specs.Image.{used_by};
ghost use Rattle.migration.specs.Refusals.{HasGoodSizes, root_blocks};
ghost use Rattle.migration.specs.Parts.{HaveContents};

use crate::node::NewNode;
use block_device::{Device, Fault};
use image_tree::{Layout, load_inode};
use image_versions::Version;
use image_versions::widths::MOST_DISK_BLOCKS;
use mkfs::{data_start, node_blocks};

/// The inode of the root.
const ROOT: u32 = 1;

// How many blocks the root has in this version, its indirect block among them.
fn root_blocks<D: Device>(old: &mut D, layout: &Layout, version: Version) -> Result<usize, Fault>
    requires layout { IsLayout (D.contents old.old) layout.now }
    requires well { IsWellFormed layout.now.version (D.contents old.old) }
    ensures blocks { IfOk result (λ n. n ≡ root_blocks layout.now.version version (D.contents old.old)) }
    ensures few { IfOk result (λ n. n < 2 ^ 16) }
    ensures device { OnlyReads D.contents D.failures (faults_after result) old.old old.new }
    ensures calls { ComesByCalls D.Called old.old old.new }
{
    let root = load_inode(old, layout, ROOT)?;
    let slots = root.size as usize / layout.version.dirent_len();
    Ok(node_blocks(version.dirent_len() * slots))
}

/// Whether the size is within its limits.
pub fn has_good_sizes<D: Device>(
    old: &mut D,
    layout: &Layout,
    version: Version,
    size: u32,
) -> Result<bool, Fault>
    requires layout { IsLayout (D.contents old.old) layout.now }
    requires well { IsWellFormed layout.now.version (D.contents old.old) }
    ensures good { IfOk result (λ good. IsTrue good ↔ HasGoodSizes layout.now.version version size (D.contents old.old)) }
    ensures device { OnlyReads D.contents D.failures (faults_after result) old.old old.new }
    ensures calls { ComesByCalls D.Called old.old old.new }
{
    let root = root_blocks(old, layout, version)?;
    let first = data_start(layout.sizes.ninodes) as usize;
    Ok(size <= MOST_DISK_BLOCKS && first + root <= size as usize)
}

/// The first block that no node has, if the nodes' blocks begin at `first`.
pub fn used_blocks(first: u32, nodes: &[NewNode]) -> usize
    requires first { first < 2 ^ 16 }
    requires contents { HaveContents (map node_of nodes.now) }
    ensures { result ≡ used_by first (map node_of nodes.now) }
{
    let mut blocks = first as usize;
    for node in nodes {
        let content = node.content.as_slice();
        blocks += node_blocks(content.len());
    }
    blocks
}
