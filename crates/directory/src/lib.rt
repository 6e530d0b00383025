//! The names of a directory (xv6's `dirlookup`, `dirlink` and `isdirempty` of fs.c and sysfile.c).
//!
//! `specs/Programs` and `specs/Entering` say what is done, operation by operation; `Search`, `Enter`, `Clear` and
//! `Fill` do it. A block has 64 slots, or 32 in version 2, and they are compared in their places, in the buffer. What is
//! found is the first slot of a name, the first free one, or the first used one from a place on. What has no link, or
//! is no directory, finds nothing and is not touched.
//!
//! A directory in memory has an index of the used slots of its first blocks, which `specs/Indexes` describes. A
//! search looks there first, and then at the blocks after those. Each block that it looks at is indexed if it is the
//! next one and has room.
#![tactic(auto)]

mod clear;
mod enter;
mod fill;
mod found;
mod index;
pub mod laws;
mod search;
mod seat;
mod slots;

pub use crate::clear::{Clear, Slot};
pub use crate::enter::{Enter, Entered, Entering, Placing, Room, entry_bytes};
pub use crate::fill::{Fill, Filled};
pub use crate::found::{Found, Sought, block_count, found_in, is_directory, is_live_directory};
pub use crate::search::{Blocks, Search};
pub use crate::seat::clear_in_index;
pub use crate::slots::{first_free, first_named, first_used, number_at};
