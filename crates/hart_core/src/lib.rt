//! The file system: eight harts at once over all that they share.
//!
//! `World` is mounted on a disk, and has a call of each hart under way. Each event is a start or a step of one hart,
//! and makes of it what the calls' programs on the blocks make (the crate calls_on_blocks). Nothing is asked of the
//! caller, because what a world keeps shows that each operation may be made when it is made.
//! `run` makes a list of events, and says which list of tree steps explains them and how much of it the disk holds; `trace` says what
//! events show of calls.
#![tactic(auto)]

mod calls;
mod events;
mod harts;
mod in_place;
mod marks;
mod mount;
mod outcome;
mod runs;
mod starts;
mod traces;
mod world;

pub use crate::events::{Came, Event, Run};
pub use crate::outcome::{Outcome, Stop};
pub use crate::runs::{Observer, run, run_noted};
pub use crate::starts::{StartRefused, find_fault};
pub use crate::traces::trace;
pub use crate::world::World;
