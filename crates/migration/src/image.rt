//! The image's bytes.
ghost use Rattle.std.specs.Prelude.{◌≡◌, ◌≤◌, ◌+◌, ◌++◌, ◌^◌, ◌<◌, length, map, IfOk, OnOk};
ghost use Rattle.migration.specs.Vocabulary.{data_start, most_disk_blocks};
ghost use Rattle.migration.specs.Nodes.{node_of};
ghost use Rattle.migration.specs.Image.{image_with, inode_table, used_by};
ghost use Rattle.migration.specs.Parts.{HaveContents};

use crate::node::NewNode;
use crate::parts::{push_data, push_inodes};
use crate::sizes::used_blocks;
use fs_layout::widths::{BLOCK_LEN, INODE_LEN, INODES_PER_BLOCK};
use image_versions::Version;
use mkfs::{data_start, push_bitmap, push_front, push_many};
use std::alloc::{AllocError, Global};

// Appends the inode blocks.
fn push_table(image: &mut Vec<u8>, ninodes: u32, nodes: &[NewNode]) -> Result<(), AllocError>
    requires contents { HaveContents (map node_of nodes.now) }
    requires ninodes { 1 + length nodes.now ≡ ninodes }
    ensures { OnOk result (image.new.items ≡ image.old.items ++ inode_table ninodes (data_start ninodes) (map node_of nodes.now)) }
{
    let inodes = (ninodes as usize / INODES_PER_BLOCK + 1) * INODES_PER_BLOCK;
    push_many(image, INODE_LEN, 0)?;
    push_inodes(image, data_start(ninodes), nodes)?;
    push_many(image, INODE_LEN * (inodes - (1 + nodes.len())), 0)
}

// Appends all parts.
fn push_parts(
    image: &mut Vec<u8>,
    version: Version,
    size: u32,
    ninodes: u32,
    nodes: &[NewNode],
) -> Result<(), AllocError>
    requires contents { HaveContents (map node_of nodes.now) }
    requires size { size ≤ most_disk_blocks }
    requires ninodes { 1 + length nodes.now ≡ ninodes }
    requires blocks { used_by (data_start ninodes) (map node_of nodes.now) ≤ size }
    ensures { OnOk result (image.new.items ≡ image.old.items ++ image_with version size ninodes (map node_of nodes.now)) }
{
    let first = data_start(ninodes);
    let used = used_blocks(first, nodes);
    push_front(image, version, size, ninodes)?;
    push_table(image, ninodes, nodes)?;
    push_bitmap(image, used)?;
    push_data(image, first, nodes)?;
    push_many(image, BLOCK_LEN * (size as usize - used), 0)
}

/// The bytes of an image with these nodes.
pub fn image_bytes(
    alloc: Global,
    version: Version,
    size: u32,
    ninodes: u32,
    nodes: &[NewNode],
) -> Result<Vec<u8>, AllocError>
    requires contents { HaveContents (map node_of nodes.now) }
    requires size { size ≤ most_disk_blocks }
    requires ninodes { 1 + length nodes.now ≡ ninodes }
    requires blocks { used_by (data_start ninodes) (map node_of nodes.now) ≤ size }
    ensures { IfOk result (λ bytes. bytes.items ≡ image_with version size ninodes (map node_of nodes.now)) }
{
    let mut image = Vec::with_capacity(alloc, size as usize * BLOCK_LEN)?;
    push_parts(&mut image, version, size, ninodes, nodes)?;
    Ok(image)
}
