//! Sleep locks: a slot keeps a value, or has given it to a guard.
//!
//! xv6 locks a buffer or an inode by a lock that its holder may keep while it waits for the disk. The xv6 book
//! describes these in chapter "Locking". Here the value itself leaves its slot for a guard, so that only the guard's
//! holder can reach it. A guard can't be let go: it is put back, or ended after its slot has ended.
#![tactic(auto)]

mod row;
mod slot;

pub use row::{RetiredSlots, Slots};
pub use slot::{Guard, Retired, Slot};
