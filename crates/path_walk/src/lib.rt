//! Walks along paths over whole inodes (xv6's `skipelem` and `namex` of fs.c), and what calls over whole inodes ask and hear.
//!
//! A control says what it asks next, and goes on with what it hears. `Walk` leads along a path's elements, which are
//! places in the path's bytes. It leads to what the path names or to its parent (`Goal`). The inodes that must be
//! freed after the call are on its list.
#![tactic(auto)]

mod asks;
mod elements;
mod numbers;
mod walk;

pub use crate::asks::{
    Ask, Claimed, Entered, Face, Heard, InodeType, Joined, Loan, Locked, Mark, Query, Sight, Wrote,
};
pub use crate::elements::{Element, is_absolute, next_element};
pub use crate::numbers::{MOST_LISTED, Numbers};
pub use crate::walk::{Goal, Lost, Next, Walk, Walked, face_or, is_directory, is_live, stopped};
