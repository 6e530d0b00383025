//! The console: scripts of calls on a file system with eight harts, and what they print.
//!
//! The events that a script makes of a `World` are those that its lines say, each line once and in order, up to a
//! call that is stopped. Their outcomes are printed. With a bad line nothing happens. Lines that are typed at a
//! prompt do the same, one by one, and only a bad one does nothing.
#![tactic(auto)]

mod commands;
mod doing;
mod events;
mod fault;
mod flow;
mod history;
mod lines;
mod mount;
mod notes;
mod numbers;
mod plan;
mod prompt;
mod queues;
mod run;
mod session;
mod state;
mod tell;
mod verb;

pub use crate::fault::{ConsoleFault, status};
pub use crate::lines::{Course, call_of, course_in, course_of};
pub use crate::notes::{Notes, What, what_of, what_of_step};
pub use crate::prompt::{HELP, prompt_on, run_prompt};
pub use crate::queues::Queues;
pub use crate::run::{LONGEST_SCRIPT, finish_on, image_disk, read_script, run_on, run_script};
pub use crate::session::{Session, hart_in};
pub use crate::tell::write_refused;
pub use crate::verb::Verb;
