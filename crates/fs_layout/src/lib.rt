//! The records of a disk, in blocks of 1024 bytes. They are the superblock, the inode, the directory entry, the head
//! of the log, the numbers of an indirect block and the bits of a bitmap. Nothing here allocates.
//!
//! What is read of a block is exactly the record that its bytes are, or that they are none. What is written reads
//! back, and changes nothing else.
#![tactic(auto)]

mod bitmap;
mod bytes;
mod entry;
mod indirect;
mod inode;
mod log_head;
mod name;
mod recovered;
mod superblock;
pub mod widths;

pub use crate::bitmap::{bit, clear_bit, set_bit};
pub use crate::entry::{Dirent, dirent_spelling, read_dirent, write_dirent};
pub use crate::indirect::{
    numbers_spelling, read_number, read_numbers, write_number, write_numbers,
};
pub use crate::inode::{Dinode, dinode_spelling, read_dinode, write_dinode};
pub use crate::log_head::{LogHead, log_head_spelling, read_log_head, write_log_head};
pub use crate::name::{Name, names_have_room};
pub use crate::recovered::recovered_blocks;
pub use crate::superblock::{Super, read_super, read_version, super_spelling, write_super};
