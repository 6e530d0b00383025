//! Scripts that are run by threads: one for each hart, which makes the calls of its lines by itself.
#![tactic(auto)]

mod asked;
mod fault;
mod run;
mod starts;
mod tell;
mod work;

pub use crate::fault::{ThreadsFault, status};
pub use crate::run::run_threads;
