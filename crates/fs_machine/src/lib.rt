//! The one state that all harts share, each kind of step on it as one operation, and what each hart owns of it.
//!
//! `specs/Steps` says what each operation makes of the state, `specs/Premises` when it may be made and when it may
//! wait. A function of `Core` is one operation. Of the state `Tables` has the inodes in memory with their locks and
//! references, the open files, and for each hart its descriptors and its current directory.
//!
//! `Hand` has all that a hart holds between two operations, and `Hand::perform` makes one. A `Control` has none of it: it says which
//! operation is next, and how it goes on after the answer. `Machine::step` is proved once for every control.
#![tactic(auto)]

mod control;
mod descriptors;
mod desk;
mod desks;
mod entries;
mod fetch;
mod files;
mod finish;
mod giving;
mod hand;
mod inodes;
mod kind;
pub mod laws;
mod limits;
mod listed;
mod name_index;
mod op;
mod perform;
mod perform_blocks;
mod queue;
mod retired;
mod shared;
mod slots;
mod tables;

pub use control::{Control, Machine, Part, Routine};
pub use desk::Desk;
pub use entries::{Dropped, Entry, Inode, Reference};
pub use fetch::{Fetch, Fetched};
pub use files::{FilePlace, NewFile, OpenFile, Refused, Want};
pub use finish::Finish;
pub use hand::{Hand, InodePlace, Place};
pub use inodes::{Claim, LockedFile};
pub use kind::Kind;
pub use limits::{DESCRIPTORS, MEMORY_INODES, MOST_LISTED, OPEN_FILES, ROOT};
pub use listed::Listed;
pub use name_index::{INDEXED_SLOTS, IndexedSlot, NameIndex};
pub use op::{Answer, Op, Performed};
pub use queue::Queue;
pub use retired::RetiredCore;
pub use shared::{Core, JoinedToWrite};
pub use slots::{Doubled, Given, Shut};
pub use tables::Tables;
