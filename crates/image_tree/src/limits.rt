//! The limits that an image of any version keeps, beside those of `image_versions`.
use image_versions::widths::{ADDRESSES, NUMBERS_PER_BLOCK};

/// The block of the superblock.
pub const SUPER_BLOCK: u32 = 1;

/// The fewest inodes: inode 0, which is none, and the root.
pub const FEWEST_INODES: u32 = 2;

/// The most inodes, so that a u16 numbers them.
pub const MOST_INODES: u32 = 65_535;

/// The first block that the log can have: the one after the superblock.
pub const FIRST_LOG_BLOCK: u32 = 2;

/// The shortest log: its head, and room for one transaction.
pub const SHORTEST_LOG: u32 = 11;

/// The inode of the root.
pub const ROOT: u32 = 1;

/// How many block numbers an inode can have, in itself and in its indirect block.
pub const NUMBERS: usize = ADDRESSES + NUMBERS_PER_BLOCK;

/// The types of inodes.
pub const KIND_FREE: i16 = 0;

pub const KIND_DIRECTORY: i16 = 1;

pub const KIND_FILE: i16 = 2;

pub const KIND_DEVICE: i16 = 3;
