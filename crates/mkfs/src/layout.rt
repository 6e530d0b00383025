//! The places of an image's parts.
ghost use Rattle.std.specs.Prelude.{◌≡◌, ◌+◌, ◌*◌, ◌^◌, ◌<◌, ◌≤◌, length, All};
ghost use Rattle.mkfs.specs.Vocabulary.{blocks_for, largest_size};
ghost use Rattle.mkfs.specs.Layout.{bitmap_start, data_start, file_blocks, node_blocks, root_size, super_for};
ghost use Rattle.mkfs.specs.Image.{contents_of};
ghost use Rattle.mkfs.specs.Widths.{most_node_blocks};

use crate::new_file::NewFile;
use crate::widths::{INODE_START, LOG_BLOCKS, LOG_START};
use fs_layout::Super;
use fs_layout::widths::{BLOCK_LEN, INODES_PER_BLOCK};
use image_versions::Version;
use image_versions::widths::DIRECT;

/// How many blocks hold `size` bytes.
pub fn blocks_for(size: usize) -> usize
    requires { size < 2 ^ 32 }
    ensures { result ≡ blocks_for size }
{
    (size + BLOCK_LEN - 1) / BLOCK_LEN
}

/// How many blocks a node of `size` bytes takes.
pub fn node_blocks(size: usize) -> usize
    requires { size < 2 ^ 32 }
    ensures value { result ≡ node_blocks size }
    ensures few { size ≤ largest_size → result ≤ most_node_blocks }
{
    let blocks = blocks_for(size);
    if blocks > DIRECT { blocks + 1 } else { blocks }
}

/// The first block of the data.
pub fn data_start(ninodes: u32) -> u32
    ensures { result ≡ data_start ninodes }
{
    INODE_START + ninodes / INODES_PER_BLOCK as u32 + 2
}

/// The superblock of an image of this version that has room for its parts.
pub fn super_for(version: Version, size: u32, ninodes: u32) -> Super
    requires { data_start ninodes ≤ size }
    ensures { result ≡ super_for version size ninodes }
{
    let data = data_start(ninodes);
    Super {
        version,
        size,
        nblocks: size - data,
        ninodes,
        nlog: LOG_BLOCKS,
        logstart: LOG_START,
        inodestart: INODE_START,
        bmapstart: data - 1,
    }
}

/// How many blocks the files take.
pub fn file_blocks(files: &[NewFile]) -> usize
    requires each { All (λ content. length content ≤ largest_size) (contents_of files.now) }
    requires few { length files.now < 2 ^ 32 }
    ensures value { result ≡ file_blocks (contents_of files.now) }
    ensures few { result ≤ most_node_blocks * length files.now }
{
    let mut blocks = 0;
    for file in files {
        let content = file.content.as_slice();
        blocks += node_blocks(content.len());
    }
    blocks
}

/// The bytes of the root of this version that names `files` files.
pub fn root_size(version: Version, files: usize) -> usize
    requires { files < 2 ^ 24 }
    ensures { result ≡ root_size version files }
{
    BLOCK_LEN * blocks_for(version.dirent_len() * (2 + files))
}

/// How many blocks are used in all, if the data begins at `first` and the root has `root` bytes.
pub fn used_blocks(first: u32, root: usize, files: &[NewFile]) -> usize
    requires root { root ≤ largest_size }
    requires each { All (λ content. length content ≤ largest_size) (contents_of files.now) }
    requires few { length files.now < 2 ^ 32 }
    ensures { result ≡ first + node_blocks root + file_blocks (contents_of files.now) }
{
    first as usize + node_blocks(root) + file_blocks(files)
}
