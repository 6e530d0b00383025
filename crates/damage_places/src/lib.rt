//! The place of an image's damage: the first, in the order of its checks, at which one of them fails.
#![tactic(auto)]

mod counts;
mod entries;
mod finding;
mod heads;
mod inodes;
mod links;
mod marks;
mod memory;
mod names;
mod numbers;
mod once;
mod place;
mod repeats;
mod rows;
mod search_fault;
mod sizes;
mod slots;
mod tallies;
mod text;
mod tree;
mod types;

pub use crate::finding::{find_place, places_are_damage};
pub use crate::memory::find_place_in;
pub use crate::place::{Check, InodeFault, LogFault, Naming, Place, SuperRule};
pub use crate::search_fault::SearchFault;
