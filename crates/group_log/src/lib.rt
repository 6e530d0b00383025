//! The log: transactions that are committed as a group (the xv6 book, chapter "File system", "Logging layer").
//!
//! A call that changes the disk joins a transaction, records the buffers that it changed, and leaves. The last to
//! leave commits what all of them recorded. It copies the blocks into the log, writes the log's head with their
//! numbers, copies the blocks home, and clears the head. Wherever that stops, recovery finds the whole group on the
//! disk or none of it.
#![tactic(auto)]

mod commit;
mod copies;
mod crash;
mod limits;
mod log;
mod marks;
mod members;
mod phase;
mod txn;

pub use commit::Progress;
pub use crash::{
    calls_keep_whole, logs_stop_at_a_cut, marks_tell_stops, moves_compose, stops_at_a_cut,
};
pub use limits::{BLOCKS_OF_A_TRANSACTION, MOST_LOGGED};
pub use log::{AfterLeave, Log};
pub use marks::Marks;
pub use phase::Phase;
pub use txn::{RetiredLog, Txn};
