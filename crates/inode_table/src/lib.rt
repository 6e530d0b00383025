//! Inodes loaded from their blocks and stored into them, locked, and new ones taken (xv6's `ilock`, `iupdate` and `ialloc` of fs.c).
//!
//! `specs/Programs` and `specs/NewInodes` say what is done, operation by operation; `LoadInode`, `StoreInode`, `StoreRecord`, `LockInode`
//! and `NewInode` do it, with what a hart has in hand.
#![tactic(auto)]

mod held;
pub mod laws;
mod locking_inodes;
mod new_inode;
mod place;
mod storing_inodes;

pub use crate::held::{record_at, unload_at};
pub use crate::locking_inodes::{LoadInode, LockInode, load_held};
pub use crate::new_inode::{Looking, Made, NewInode, as_new, free_numbers};
pub use crate::storing_inodes::{StoreInode, StoreRecord};
