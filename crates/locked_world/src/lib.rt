//! The world of eight harts as it is kept under a lock, with the list of the events that made it.
//!
//! `Locked` changes by one event at a time, and is a run of its stored list at every moment. A `Receipt` is a reply
//! that one of its steps gave. A `Closed` is its list once it has ended, with the disk that it left. It takes no lock
//! itself.
//! A start or a step is stored with its outcome, in at most three bytes beside calls and replies, or nothing changes; a step that waits
//! isn't stored.
#![tactic(auto)]

mod closed;
mod handing;
mod lent;
mod locked;
mod note;
mod story;

pub use crate::closed::Closed;
pub use crate::handing::{filled, is_handed_back, is_same};
pub use crate::lent::{CameRef, EventRef, Iter};
pub use crate::locked::{Begun, Halt, Locked, LockedOutcome, NotStarted, Receipt, Share};
pub use hart_core::StartRefused;
