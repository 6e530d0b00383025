//! The content of an inode: its blocks found, read, written and given back (xv6's `bmap`, `readi`, `writei` and
//! `itrunc` of fs.c).
//!
//! `specs/Programs`, `specs/Writing` and `specs/Freeing` say what is done, operation by operation; `FetchBlock`,
//! `Locate`, `ReadPart`, `WritePart`, `Truncate` and `FreeInode` do it. The first four get the inode's record, and
//! `ReadPart` and `WritePart` also the memory that they read into or write from. They use the places for buffers and
//! change nothing else in hand. `Truncate` and `FreeInode` get the seat of the inode's lock, and change its record in
//! hand too.
#![tactic(auto)]

mod addresses;
mod begun;
mod fetch_block;
mod free_inode;
pub mod laws;
mod locate;
mod numbers;
mod place;
mod read_part;
mod truncate;
mod write_part;

pub use crate::addresses::{Address, DIRECT, MOST_BLOCKS, address_of};
pub use crate::begun::Begun;
pub use crate::fetch_block::FetchBlock;
pub use crate::free_inode::FreeInode;
pub use crate::locate::{Locate, Located, Stage};
pub use crate::numbers::{next_listed, next_own};
pub use crate::read_part::{ReadPart, Reading};
pub use crate::truncate::{Emptying, Truncate};
pub use crate::write_part::{WritePart, Writing, Written};
