//! The call of a hart under way (xv6's sysfile.c and what it calls of fs.c). It is any of the eleven, over whole
//! inodes, run below part by part. `laws` says what calls find in hand: each operation leaves there what the next
//! ones ask.
#![tactic(auto)]

mod laws;
mod place;

pub use laws::{calls_find_what_they_ask, calls_run_by_parts};
pub use place::CallPlace;
pub use plain_tree::{Answer, Call, Reply};
