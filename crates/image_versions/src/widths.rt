//! What all versions share.

/// The bytes of a block.
pub const BLOCK_LEN: usize = 1024;

/// The most blocks that a disk can have, so that one bitmap block has the bits of all.
pub const MOST_DISK_BLOCKS: u32 = 8191;

/// How many block numbers are in the inode itself; the indirect block's number comes after them.
pub const DIRECT: usize = 12;

/// How many block numbers an indirect block has.
pub const NUMBERS_PER_BLOCK: usize = 256;

/// How many block numbers an inode has: the direct ones and that of the indirect block.
pub const ADDRESSES: usize = DIRECT + 1;

/// The most blocks of a node's content.
pub const MOST_CONTENT_BLOCKS: usize = DIRECT + NUMBERS_PER_BLOCK;

/// The greatest size of a node, in bytes.
pub const LARGEST_SIZE: usize = MOST_CONTENT_BLOCKS * BLOCK_LEN;

/// The bytes of the inode's number in a directory's entry, before the name.
pub const ENTRY_NUMBER_LEN: usize = 2;

/// The bytes of the longest name of any version.
pub const LONGEST_NAME: usize = crate::two::NAME_LEN;

/// The bytes of the longest entry of any version.
pub const LONGEST_DIRENT_LEN: usize = ENTRY_NUMBER_LEN + LONGEST_NAME;
