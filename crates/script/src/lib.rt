//! Scripts of the console: what their lines say (docs/SCRIPT.md has the grammar), and the lines that answer them.
//!
//! The answer of a script is what its lines say, in order, each with its number. If a line says nothing, the answer
//! is the number of the first such line, with why. A line that is typed at a prompt is read alone. The command line,
//! the lines of replies and of a history's entries, and the last of many events are here too.
#![tactic(auto)]

mod asked;
mod call;
mod calls;
mod command;
mod command_line;
mod digits;
mod entries;
mod fault;
mod laws;
mod line;
mod mode;
mod reason;
mod replies;
mod tail;
mod text;
mod words;

pub use crate::asked::{Asked, asked_in};
pub use crate::call::CallLine;
pub use crate::command::{BadLine, Command, Front, ScriptFault, ScriptLine};
pub use crate::command_line::{
    EXPLAIN, IMAGE, LAST, PROMPT, SAVE, SCHEDULE, THREADS, TIMELINE, has_prompt, has_threads,
    mode_of, options,
};
pub use crate::entries::write_entry;
pub use crate::laws::{lines_are_read, prompts_run_scripts};
pub use crate::mode::{Mode, Schedule};
pub use crate::reason::{Reason, Shown};
pub use crate::replies::{write_numbered, write_reply, write_shape, write_waits};
pub use crate::tail::{Tail, tails_hold_the_last};
pub use crate::text::{parse, parse_front};
