//! Lists of tree steps that explain what several harts were answered.
//!
//! `Kept` is the tree kept beside a run, with the list of its steps, which grows as calls tell of themselves.
//! `replays` shows that a list explains a trace, by making its steps once more. `find_history` searches if no such
//! list was kept, and finds one whenever there is one. So it answers of any trace, also of another file system's,
//! whether the replies are those of calls that act in steps on one tree. It says that there is none only if no list
//! explains the trace. It gives up if memory is refused, or if a node must be made in a table of more than 65,536
//! numbers.
#![tactic(auto)]

mod ends;
mod explore;
mod follow;
mod kept;
mod next;
mod paths;
mod place;
mod position;
mod replay;
mod reply;
mod sees;
mod stand;
mod standing;

pub use crate::explore::{Hint, find_history, hints_of};
pub use crate::kept::Kept;
pub use crate::paths::{any_climbs, any_full};
pub use crate::replay::replays;
