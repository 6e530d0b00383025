//! Version 2: longer names.
use crate::widths::{BLOCK_LEN, ENTRY_NUMBER_LEN, MOST_CONTENT_BLOCKS};

/// The number that a superblock begins with.
pub const MAGIC: u32 = 0x1020_3042;

/// The bytes of a name at most, and of the field that holds one.
pub const NAME_LEN: usize = 30;

/// The bytes of a directory's entry.
pub const DIRENT_LEN: usize = ENTRY_NUMBER_LEN + NAME_LEN;

/// How many entries a block has.
pub const DIRENTS_PER_BLOCK: usize = BLOCK_LEN / DIRENT_LEN;

/// The most entries of a directory.
pub const MOST_SLOTS: usize = MOST_CONTENT_BLOCKS * DIRENTS_PER_BLOCK;
