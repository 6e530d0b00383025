//! Making an image.
ghost use Rattle.std.specs.Prelude.{◌≡◌, ◌^◌, ◌<◌, ◌≤◌, ◌+◌, ◌*◌, ◌/◌, ◌%◌, ◌++◌, ℕ, List, [], drop, length, slice_index_or, take, All, IfOk, OnOk, MatchResult};
ghost use Rattle.mkfs.specs.Vocabulary.{blocks_of, block_at, dinode_at, Dinode, logged, recovered, sizes_of, largest_size, most_disk_blocks, One, Version};
ghost use Rattle.mkfs.specs.Layout.{bitmap_start, data_start, inode_start, super_for};
ghost use Rattle.mkfs.specs.Image.{bitmap, blocks_before, blocks_of_node, contents_of, data_from, front, image_of, image_with, inode_table, inodes_from, names_of, node_bytes, nodes_with, root_content, used_by, Node};
ghost use Rattle.mkfs.specs.Made.{IsMade};
ghost use Rattle.mkfs.specs.Refusals.{CanBeMade, HasGoodFiles, HasInodes, IsFirstRefusal};
ghost use Rattle.mkfs.specs.Widths.{most_inodes};

use crate::appends::push_many;
use crate::judges::{has_good_files, has_good_names, has_good_sizes};
use crate::layout::{data_start, node_blocks, root_size, super_for, used_blocks};
use crate::new_file::NewFile;
use crate::nodes::{push_file_inodes, push_files, root_content};
use crate::parts::{push_bitmap, push_content, push_inode, push_super};
use crate::refused::MakeRefused;
use crate::widths::{DIRECTORY, LOG_BLOCKS};
use block_device::MemoryDisk;
use fs_layout::widths::{BLOCK_LEN, INODE_LEN, INODES_PER_BLOCK};
use image_versions::Version;
use std::alloc::{AllocError, Global};

// Appends the inode blocks.
fn push_table(
    image: &mut Vec<u8>,
    ninodes: u32,
    root: &[u8],
    files: &[NewFile],
) -> Result<(), AllocError>
    requires ninodes { ninodes ≤ most_inodes }
    requires root { length root.now ≤ largest_size }
    requires each { All (λ content. length content ≤ largest_size) (contents_of files.now) }
    requires few { length files.now < 2 ^ 16 }
    requires inodes { HasInodes ninodes (contents_of files.now) }
    ensures { OnOk result (image.new.items ≡ image.old.items
        ++ inode_table ninodes (data_start ninodes) (nodes_with root.now (contents_of files.now))) }
{
    let first = data_start(ninodes);
    let inodes = (ninodes as usize / INODES_PER_BLOCK + 1) * INODES_PER_BLOCK;
    push_many(image, INODE_LEN, 0)?;
    push_inode(image, DIRECTORY, first, root.len())?;
    push_file_inodes(image, first + node_blocks(root.len()) as u32, files)?;
    push_many(image, INODE_LEN * (inodes - (2 + files.len())), 0)
}

// Appends the nodes' blocks.
fn push_data(
    image: &mut Vec<u8>,
    first: u32,
    root: &[u8],
    files: &[NewFile],
) -> Result<(), AllocError>
    requires first { first < 2 ^ 15 }
    requires root { length root.now ≤ largest_size }
    requires each { All (λ content. length content ≤ largest_size) (contents_of files.now) }
    requires few { length files.now < 2 ^ 16 }
    ensures { OnOk result (image.new.items ≡ image.old.items
        ++ data_from first (nodes_with root.now (contents_of files.now))) }
{
    push_content(image, first, root)?;
    push_files(image, first + node_blocks(root.len()) as u32, files)
}

/// Appends boot block, superblock and log.
pub fn push_front(
    image: &mut Vec<u8>,
    version: Version,
    size: u32,
    ninodes: u32,
) -> Result<(), AllocError>
    requires { data_start ninodes ≤ size }
    ensures { OnOk result (image.new.items ≡ image.old.items ++ front version size ninodes) }
{
    push_many(image, BLOCK_LEN, 0)?;
    push_super(image, &super_for(version, size, ninodes))?;
    push_many(image, BLOCK_LEN * LOG_BLOCKS as usize, 0)
}

// Appends all parts.
fn push_parts(
    image: &mut Vec<u8>,
    version: Version,
    size: u32,
    ninodes: u32,
    root: &[u8],
    files: &[NewFile],
) -> Result<(), AllocError>
    requires size { size ≤ most_disk_blocks }
    requires ninodes { ninodes ≤ most_inodes }
    requires root { length root.now ≤ largest_size }
    requires each { All (λ content. length content ≤ largest_size) (contents_of files.now) }
    requires few { length files.now < 2 ^ 16 }
    requires inodes { HasInodes ninodes (contents_of files.now) }
    requires blocks { used_by (data_start ninodes) (nodes_with root.now (contents_of files.now)) ≤ size }
    ensures { OnOk result (image.new.items ≡ image.old.items
        ++ image_with version size ninodes (nodes_with root.now (contents_of files.now))) }
{
    let first = data_start(ninodes);
    let used = used_blocks(first, root.len(), files);
    push_front(image, version, size, ninodes)?;
    push_table(image, ninodes, root, files)?;
    push_bitmap(image, used)?;
    push_data(image, first, root, files)?;
    push_many(image, BLOCK_LEN * (size as usize - used), 0)
}

// The image's bytes.
fn image_bytes(
    alloc: Global,
    version: Version,
    size: u32,
    ninodes: u32,
    files: &[NewFile],
) -> Result<Vec<u8>, AllocError>
    requires { CanBeMade version size ninodes (names_of files.now) (contents_of files.now) }
    ensures { IfOk result (λ bytes. IsMade version size ninodes (names_of files.now) (contents_of files.now) bytes.items) }
{
    let root = root_content(alloc, version, files)?;
    let mut image = Vec::with_capacity(alloc, size as usize * BLOCK_LEN)?;
    push_parts(&mut image, version, size, ninodes, root.as_slice(), files)?;
    Ok(image)
}

/// Makes an image of this version, of `size` blocks with `ninodes` inodes, the first unused. Its root has these files
/// in this order: their names and contents. No check of an image of the version fails on it. A refusal is the first
/// that holds, in the order of `MakeRefused`.
pub fn make_as(
    alloc: Global,
    version: Version,
    size: u32,
    ninodes: u32,
    files: &[NewFile],
) -> Result<MemoryDisk, MakeRefused>
    ensures { MatchResult result
        (IsMade version size ninodes (names_of files.now) (contents_of files.now))
        (IsFirstRefusal version size ninodes (names_of files.now) (contents_of files.now)) }
{
    if !has_good_sizes(version, size, ninodes, files.len()) {
        return Err(MakeRefused::BadSizes);
    }
    match has_good_names(alloc, version, files) {
        Ok(true) => {}
        Ok(false) => return Err(MakeRefused::BadName),
        Err(_) => return Err(MakeRefused::NoMemory),
    }
    if !has_good_files(version, files) {
        return Err(MakeRefused::FileTooBig);
    }
    if 1 + files.len() > ninodes as usize - 1 {
        return Err(MakeRefused::NoInodes);
    }
    if used_blocks(data_start(ninodes), root_size(version, files.len()), files) > size as usize {
        return Err(MakeRefused::NoBlocks);
    }
    match image_bytes(alloc, version, size, ninodes, files) {
        Ok(bytes) => Ok(MemoryDisk::new(bytes)),
        Err(_) => Err(MakeRefused::NoMemory),
    }
}

/// Makes an image of version 1, as `make_as` does.
pub fn make(
    alloc: Global,
    size: u32,
    ninodes: u32,
    files: &[NewFile],
) -> Result<MemoryDisk, MakeRefused>
    ensures { MatchResult result
        (IsMade One size ninodes (names_of files.now) (contents_of files.now))
        (IsFirstRefusal One size ninodes (names_of files.now) (contents_of files.now)) }
{
    make_as(alloc, Version::One, size, ninodes, files)
}

/// What an image that can be made holds in front: as many blocks as asked for, the superblock, and an empty log. So
/// recovery leaves each block as it is.
pub fn made_front()
    ensures size { (v : Version) (size ninodes : ℕ) (names contents : List (List ℕ)) → length names ≡ length contents
        → CanBeMade v size ninodes names contents
        → length (blocks_of (image_of v size ninodes names contents)) ≡ size }
    ensures superblock { (v : Version) (size ninodes : ℕ) (names contents : List (List ℕ)) → length names ≡ length contents
        → CanBeMade v size ninodes names contents
        → sizes_of (blocks_of (image_of v size ninodes names contents)) ≡ super_for v size ninodes }
    ensures log { (v : Version) (size ninodes : ℕ) (names contents : List (List ℕ)) → length names ≡ length contents
        → CanBeMade v size ninodes names contents
        → logged (blocks_of (image_of v size ninodes names contents)) ≡ [] }
    ensures recovered { (v : Version) (size ninodes b : ℕ) (names contents : List (List ℕ)) → length names ≡ length contents
        → CanBeMade v size ninodes names contents
        → recovered (blocks_of (image_of v size ninodes names contents)) b ≡ block_at (blocks_of (image_of v size ninodes names contents)) b }
{}

/// The inodes of an image that can be made, at their places: the first is inode 1, the root.
pub fn made_inodes()
    ensures { (v : Version) (size ninodes i : ℕ) (names contents : List (List ℕ)) (d : Dinode) → length names ≡ length contents
        → CanBeMade v size ninodes names contents
        → i ≤ length contents → dinode_at ((i + 1) % 16)
        (block_at (blocks_of (image_of v size ninodes names contents)) (inode_start + (i + 1) / 16))
        ≡ slice_index_or (inodes_from (data_start ninodes) (nodes_with (root_content v names) contents)) i d }
{}

/// The bitmap of an image that can be made, and each node's blocks: they begin after those of the nodes before it.
/// Node 0 of the list is the root.
pub fn made_blocks()
    ensures bitmap { (v : Version) (size ninodes : ℕ) (names contents : List (List ℕ)) → length names ≡ length contents
        → CanBeMade v size ninodes names contents
        → block_at (blocks_of (image_of v size ninodes names contents)) (bitmap_start ninodes)
        ≡ bitmap (used_by (data_start ninodes) (nodes_with (root_content v names) contents)) }
    ensures nodes { (v : Version) (size ninodes i : ℕ) (names contents : List (List ℕ)) (d : Node) → length names ≡ length contents
        → CanBeMade v size ninodes names contents
        → i ≤ length contents
        → let nodes = nodes_with (root_content v names) contents in let first = data_start ninodes + blocks_before i nodes in
        take (1024 * blocks_of_node (slice_index_or nodes i d)) (drop (1024 * first) (image_of v size ninodes names contents))
        ≡ node_bytes first (slice_index_or nodes i d).content }
{}
