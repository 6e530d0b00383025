//! The history of a run handed out: a list of tree steps that explains what a list of events showed of calls.
//! Else it gives the image's first damage; or that some step found no room, or that the path of a call climbs.
//! The events are run to that end; or they were noted as they were made.
#![tactic(auto)]

mod climbs;
mod history;
mod keep;
mod play;
mod refused;

pub use crate::history::{any_runs_agree, explain, explain_noted};
pub use crate::keep::Keeper;
pub use crate::refused::ExplainRefused;
