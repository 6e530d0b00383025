//! The numbers of the tables.

/// How many inodes there may be in memory.
pub const MEMORY_INODES: usize = 50;

/// How many references a call keeps to its end at most: one for each element of two paths.
pub const MOST_LISTED: usize = 128;

/// How many files may be open.
pub const OPEN_FILES: usize = 100;

/// How many descriptors a hart has.
pub const DESCRIPTORS: usize = 16;

/// The inode of the root, every hart's directory at first.
pub const ROOT: u32 = 1;

/// The type of a device.
pub(crate) const DEVICE: i16 = 3;

/// The count of references to an inode when the last one is dropped.
pub(crate) const LAST_REFERENCE: u32 = 1;
