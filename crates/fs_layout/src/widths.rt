//! The widths and the places of the parts of a block: the tables of docs/FORMATS.md. Widths and places are in bytes
//! if nothing else is said. What a version has of its own is in `image_versions`.

/// A block of the disk.
pub const BLOCK_LEN: usize = image_versions::widths::BLOCK_LEN;

/// A block's bytes.
pub type Block = [u8; BLOCK_LEN];

/// A block number.
pub const NUMBER_LEN: usize = 4;

/// How many numbers an indirect block has.
pub const NUMBERS_PER_BLOCK: usize = image_versions::widths::NUMBERS_PER_BLOCK;

/// How many bits a bitmap block has.
pub const BITS_PER_BLOCK: usize = 8192;

/// A superblock: its magic number and seven fields, each a u32. Each place below is one of block 1.
pub const SUPER_LEN: usize = 32;

/// The place of the magic number.
pub const SUPER_MAGIC_AT: usize = 0;

/// The place of the disk's size, which is in blocks.
pub const SUPER_SIZE_AT: usize = 4;

/// The place of the number of data blocks.
pub const SUPER_NBLOCKS_AT: usize = 8;

/// The place of the number of inodes.
pub const SUPER_NINODES_AT: usize = 12;

/// The place of the number of the log's blocks, its head among them.
pub const SUPER_NLOG_AT: usize = 16;

/// The place of the number of the log's first block.
pub const SUPER_LOGSTART_AT: usize = 20;

/// The place of the number of the first inode block.
pub const SUPER_INODESTART_AT: usize = 24;

/// The place of the number of the bitmap block.
pub const SUPER_BMAPSTART_AT: usize = 28;

/// An inode. Its kind, an i16, is at its start; each place below counts from there.
pub const INODE_LEN: usize = 64;

/// How many inodes a block has.
pub const INODES_PER_BLOCK: usize = 16;

/// How many block numbers an inode has: 12 direct ones and that of an indirect block.
pub const ADDRESSES: usize = image_versions::widths::ADDRESSES;

/// The place of the major number of a device, an i16.
pub const INODE_MAJOR_AT: usize = 2;

/// The place of the minor number of a device, an i16.
pub const INODE_MINOR_AT: usize = 4;

/// The place of the count of names, an i16.
pub const INODE_NLINK_AT: usize = 6;

/// The place of the size in bytes, a u32.
pub const INODE_SIZE_AT: usize = 8;

/// The place of the 13 block numbers, each a u32.
pub const INODE_ADDRESSES_AT: usize = 12;

/// The place of the name in a directory entry, after the inode's number.
pub const DIRENT_NAME_AT: usize = image_versions::widths::ENTRY_NUMBER_LEN;

/// How many blocks a log's head can name.
pub const LOG_HEAD_LEN: usize = 255;

/// The place in a log's head of the count of blocks that it names, a u32.
pub const LOG_HEAD_COUNT_AT: usize = 0;

/// The place in it of their numbers, each a u32.
pub const LOG_HEAD_NUMBERS_AT: usize = 4;
