//! The plain tree. It says what the files and directories are to a caller. It says what each call does to them in
//! steps, each of which happens at one moment. It also says when a list of such steps explains the replies that
//! several harts got.
#![tactic(auto)]

mod act;
mod answer;
mod answer_of;
mod apply;
mod belongs;
mod bytes;
mod call;
mod change;
mod explains;
mod fresh;
pub mod handed;
pub mod laws;
mod leads;
mod look;
mod named;
mod node;
mod one_end;
pub mod paths;
mod place;
mod progress;
mod refusal;
mod refused;
pub mod reply;
pub mod rows;
mod settle;
mod slots;
mod step;
mod trace;
mod tree;
mod widths;
mod written;

pub use crate::answer::{Answer, Cause, Full, NodeType, Reply, Stat};
pub use crate::bytes::Bytes;
pub use crate::call::Call;
pub use crate::explains::check;
pub use crate::look::Found;
pub use crate::node::{Node, NodeKind, Slot, Slots};
pub use crate::one_end::{chains_to_one, steps_to_one};
pub use crate::refused::{ApplyRefused, NoMemory};
pub use crate::step::{Action, StepAnswer, TreeStep};
pub use crate::trace::{Calls, Placed, Trace, TracedCall};
pub use crate::tree::{Hart, Hold, OpenFile, OpenFileEntry, Tree};
pub use crate::widths::HARTS;
