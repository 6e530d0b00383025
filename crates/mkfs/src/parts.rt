//! The parts of an image.
ghost use Rattle.std.specs.Prelude.{◌≡◌, ◌≢◌, ◌+◌, ◌-◌, ◌^◌, ◌<◌, ◌≤◌, ◌++◌, ℕ, List, length, drop, min, OnOk};
ghost use Rattle.mkfs.specs.Vocabulary.{range_with_len, spell_super, spell_dinode, spell_dirent, spell_numbers, IsName, addresses, block_len, numbers_per_block, Used, largest_size, most_disk_blocks};
ghost use Rattle.mkfs.specs.Image.{bitmap, inode_for, node_bytes, padded};

use crate::appends::{push_many, push_whole};
use crate::layout::{blocks_for, node_blocks};
use crate::widths::{BITS, DIRECT_LEN};
use fs_layout::widths::{ADDRESSES, BLOCK_LEN, INODE_LEN, NUMBERS_PER_BLOCK};
use fs_layout::{
    Dinode, Dirent, Name, Super, write_dinode, write_dirent, write_numbers, write_super,
};
use image_versions::Version;
use image_versions::widths::DIRECT;
use std::alloc::AllocError;

/// Appends the superblock's block.
pub fn push_super(image: &mut Vec<u8>, superblock: &Super) -> Result<(), AllocError>
    ensures { OnOk result (image.new.items ≡ image.old.items ++ padded block_len (spell_super superblock.now)) }
{
    let mut block = [0; BLOCK_LEN];
    write_super(&mut block, superblock);
    image.extend_from_slice(&block)
}

/// Appends a directory's entry.
pub fn push_entry(
    content: &mut Vec<u8>,
    version: Version,
    number: u16,
    name: &[u8],
) -> Result<(), AllocError>
    requires number { number ≢ 0 }
    requires name { IsName version name.now }
    ensures { OnOk result (content.new.items ≡ content.old.items ++ spell_dirent version (Used number name.now)) }
{
    let name = Name::new(version, name).unwrap();
    let mut block = [0; BLOCK_LEN];
    write_dirent(version, &mut block, 0, &Dirent::Used { number, name });
    content.extend_from_slice(&block[..version.dirent_len()])
}

/// Appends a bitmap in which the bits of the first `used` blocks are set.
pub fn push_bitmap(image: &mut Vec<u8>, used: usize) -> Result<(), AllocError>
    requires { used ≤ most_disk_blocks }
    ensures { OnOk result (image.new.items ≡ image.old.items ++ bitmap used) }
{
    let full = used / BITS;
    push_many(image, full, u8::MAX)?;
    image.extend_from_slice(&[(1 << (used % BITS)) - 1])?;
    push_many(image, BLOCK_LEN - 1 - full, 0)
}

// Puts numbers that rise one by one in the first places.
fn set_rising(numbers: &mut [u32], first: u32, count: usize)
    requires fits { first + count < 2 ^ 32 }
    requires room { count ≤ length numbers.old }
    ensures { numbers.new ≡ range_with_len first count ++ drop count numbers.old }
{
    for k in 0..count {
        numbers[k] = first + k as u32;
    }
}

/// The numbers in the inode of a node whose blocks lie side by side.
pub fn addresses(first: u32, count: usize) -> [u32; ADDRESSES]
    requires { first + count < 2 ^ 32 }
    ensures { result ≡ padded addresses (range_with_len first (min count addresses)) }
{
    let mut numbers = [0; ADDRESSES];
    set_rising(&mut numbers, first, count.min(ADDRESSES));
    numbers
}

// The inode of a node of `size` bytes whose blocks begin at `first`.
fn inode_for(kind: i16, first: u32, size: usize) -> Dinode
    requires size { size ≤ largest_size }
    requires first { first < 2 ^ 31 }
    ensures { (content : List ℕ) → length content ≡ size → result ≡ inode_for first (record { kind = kind; content = content }) }
{
    Dinode {
        kind,
        major: 0,
        minor: 0,
        nlink: 1,
        size: size as u32,
        addrs: addresses(first, node_blocks(size)),
    }
}

/// Appends the inode of a node of `size` bytes whose blocks begin at `first`.
pub fn push_inode(image: &mut Vec<u8>, kind: i16, first: u32, size: usize) -> Result<(), AllocError>
    requires size { size ≤ largest_size }
    requires first { first < 2 ^ 31 }
    ensures { (content : List ℕ) → length content ≡ size
        → OnOk result (image.new.items ≡ image.old.items ++ spell_dinode (inode_for first (record { kind = kind; content = content }))) }
{
    let inode = inode_for(kind, first, size);
    let mut block = [0; BLOCK_LEN];
    write_dinode(&mut block, 0, &inode);
    image.extend_from_slice(&block[..INODE_LEN])
}

// Appends a block with numbers that rise one by one.
fn push_numbers(image: &mut Vec<u8>, first: u32, count: usize) -> Result<(), AllocError>
    requires fits { first + count < 2 ^ 32 }
    requires room { count ≤ numbers_per_block }
    ensures { OnOk result (image.new.items ≡ image.old.items ++ spell_numbers (padded numbers_per_block (range_with_len first count))) }
{
    let mut numbers = [0; NUMBERS_PER_BLOCK];
    set_rising(&mut numbers, first, count);
    let mut block = [0; BLOCK_LEN];
    write_numbers(&mut block, &numbers);
    image.extend_from_slice(&block)
}

/// Appends a node's blocks, of which the first will be block `first`.
pub fn push_content(image: &mut Vec<u8>, first: u32, content: &[u8]) -> Result<(), AllocError>
    requires size { length content.now ≤ largest_size }
    requires first { first < 2 ^ 31 }
    ensures { OnOk result (image.new.items ≡ image.old.items ++ node_bytes first content.now) }
{
    if content.len() <= DIRECT_LEN {
        return push_whole(image, content);
    }
    let (front, rest) = content.split_at(DIRECT_LEN);
    push_whole(image, front)?;
    let numbers = blocks_for(content.len()) - DIRECT;
    push_numbers(image, first + ADDRESSES as u32, numbers)?;
    push_whole(image, rest)
}
