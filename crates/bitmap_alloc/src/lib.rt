//! Blocks taken and given back, by the bits of the bitmap block (xv6's `balloc` and `bfree` of fs.c).
//!
//! `specs/Programs` says what is done, operation by operation; `TakeBlock` and `FreeBlock` are parts that do it.
//! The block that is taken is the first one below the disk's size whose bit is clear, in the step that sets it. The
//! answer is none only if no such bit is clear, and then nothing is recorded.
#![tactic(auto)]

mod bits;
mod free_block;
pub mod laws;
mod search;
mod take_block;

pub use crate::bits::{clear, set};
pub use crate::free_block::FreeBlock;
pub use crate::search::first_clear;
pub use crate::take_block::TakeBlock;
