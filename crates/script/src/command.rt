//! The commands of a script.
use crate::call::CallLine;
use crate::reason::Reason;
use fs_machine::Kind;

/// What a line of a script says. A hart is any u8, even one that there isn't.
#[derive(Debug, PartialEq, Drop)]
pub enum Command {
    /// The call is started.
    Start { hart: u8, call: CallLine },
    /// The call is started, and the hart steps until it ends.
    Do { hart: u8, call: CallLine },
    /// `steps` steps of a hart.
    Step { hart: u8, steps: u32 },
    /// Steps of a hart until its call has made `steps` steps of this kind.
    Upto { hart: u8, kind: Kind, steps: u32 },
    /// Steps of a hart until its call ends.
    End { hart: u8 },
    /// Steps of all harts in turn.
    All,
}

/// A line of a script that is a command, and which line it is, counted from 1.
#[derive(Debug, PartialEq, Drop)]
pub struct ScriptLine {
    pub number: u64,
    pub command: Command,
}

/// Why a line says nothing, and which line it is, counted from 1.
#[derive(Debug, PartialEq, Drop)]
pub struct BadLine {
    pub number: u64,
    pub why: Reason,
}

/// The commands of a script up to its first line that says nothing, and that line, if there is one.
#[derive(Debug, PartialEq, Drop)]
pub struct Front {
    pub lines: Vec<ScriptLine>,
    pub bad: Option<BadLine>,
}

/// Why a script isn't run: its first line that is no command, counted from 1, with why; or want of memory.
#[derive(Debug, PartialEq, Drop)]
pub enum ScriptFault {
    Line(u64, Reason),
    Memory,
}
