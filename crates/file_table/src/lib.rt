//! Open files locked by their descriptors (what xv6's `fileread`, `filewrite` and `filestat` of file.c begin with).
//!
//! `LockFile` and `LockOpen` lock the inode of an open file, and load it if it isn't loaded. The table of open
//! files itself is fs_machine's.
#![tactic(auto)]

mod lock_file;
mod lock_open;

pub use crate::lock_file::{FileLocked, HeldFile, LockFile};
pub use crate::lock_open::LockOpen;
