//! A call as a script says it.
ghost use Rattle.std.specs.Prelude.{◌≡◌};
ghost use Rattle.script.specs.Said.{answer_word, call_said};

/// A call as a line of a script says it. A read and a fill say how many bytes, and not which.
#[derive(Debug, PartialEq, Drop)]
pub enum CallLine {
    Open { path: Vec<u8>, flags: u32 },
    Read { fd: u32, count: u32 },
    Write { fd: u32, bytes: Vec<u8> },
    /// A write of `count` bytes `x`.
    Fill { fd: u32, count: u32 },
    Link { old: Vec<u8>, new: Vec<u8> },
    Unlink { path: Vec<u8> },
    Mkdir { path: Vec<u8> },
    Chdir { path: Vec<u8> },
    Dup { fd: u32 },
    Fstat { fd: u32 },
    Close { fd: u32 },
    Inherit { child: u8 },
}

impl CallLine {
    /// The word that answers begin with, after the hart. A fill is a write.
    pub fn name(&self) -> &'static str
        ensures { result.now ≡ answer_word (call_said self.now) }
    {
        match self {
            CallLine::Open { .. } => "open",
            CallLine::Read { .. } => "read",
            CallLine::Write { .. } | CallLine::Fill { .. } => "write",
            CallLine::Link { .. } => "link",
            CallLine::Unlink { .. } => "unlink",
            CallLine::Mkdir { .. } => "mkdir",
            CallLine::Chdir { .. } => "chdir",
            CallLine::Dup { .. } => "dup",
            CallLine::Fstat { .. } => "fstat",
            CallLine::Close { .. } => "close",
            CallLine::Inherit { .. } => "inherit",
        }
    }
}
