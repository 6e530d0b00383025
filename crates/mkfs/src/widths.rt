//! The places of the parts of an image, and how much fits: the tables of docs/FORMATS.md. What a version has of its
//! own, and what other crates must know as well, is in `image_versions`.

use image_versions::widths::{BLOCK_LEN, DIRECT};

/// The first block of the log.
pub const LOG_START: u32 = 2;

/// How many blocks the log has, its head among them.
pub const LOG_BLOCKS: u32 = 31;

/// The first block of the inodes.
pub const INODE_START: u32 = 33;

/// The bytes in the blocks that an inode names directly.
pub const DIRECT_LEN: usize = DIRECT * BLOCK_LEN;

/// The most inodes: an entry has 16 bits for the number of one.
pub const MOST_INODES: u32 = 65_535;

/// The root's inode.
pub const ROOT: u16 = 1;

/// The first file's inode.
pub const FIRST_FILE: u16 = 2;

/// The type in a directory's inode.
pub const DIRECTORY: i16 = 1;

/// The type in a file's inode.
pub const FILE: i16 = 2;

/// How many bits a byte has.
pub const BITS: usize = 8;
