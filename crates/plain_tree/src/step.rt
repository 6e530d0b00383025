//! The steps of a tree, each of which happens at one moment.
ghost use Rattle.std.specs.Prelude.{◌≡◌};
ghost use Rattle.plain_tree.specs.Steps.{path_of};

use crate::answer::{Cause, Full, Stat};
use crate::bytes::Bytes;

/// What a step does. Most calls are one step; `open` that empties, `write` and `link` are several.
#[derive(Clone, Drop)]
pub enum Action {
    Open { path: Bytes, flags: u32 },
    /// Empties the file that was opened before.
    Truncate { fd: u32 },
    Read { fd: u32, count: usize },
    /// Writes one piece.
    WritePart { fd: u32, bytes: Bytes },
    /// Finds the node that a link will name, and holds it. It is in its place if the hart holds nothing raised.
    Find { old: Bytes },
    /// Raises the count of what is held.
    Bump,
    /// Enters the new name of what is held, and lets go of it.
    Enter { new: Bytes },
    /// Takes the raise back, and lets go of what was held.
    Unbump,
    Unlink { path: Bytes },
    Mkdir { path: Bytes },
    Chdir { path: Bytes },
    Dup { fd: u32 },
    Close { fd: u32 },
    Fstat { fd: u32 },
    Inherit { child: u8 },
}

impl Action {
    /// The path that it follows; empty if it follows none.
    pub fn path(&self) -> &[u8]
        ensures { result.now ≡ path_of self.now }
    {
        match self {
            Action::Open { path, .. } => path.as_slice(),
            Action::Find { old } => old.as_slice(),
            Action::Enter { new } => new.as_slice(),
            Action::Unlink { path } => path.as_slice(),
            Action::Mkdir { path } => path.as_slice(),
            Action::Chdir { path } => path.as_slice(),
            _ => &[],
        }
    }
}

/// A step of a hart. `new` is the number of the node that the step makes, and means nothing if it makes none.
#[derive(Clone, Drop)]
pub struct TreeStep {
    pub hart: u8,
    pub new: u16,
    pub action: Action,
}

/// What a step answers.
#[derive(Clone, PartialEq, Drop)]
pub enum StepAnswer {
    /// The descriptor, the id of the new open file, and whether a file was opened (only a file is emptied).
    Opened { fd: u32, id: usize, is_file: bool },
    /// The bytes read.
    Bytes { bytes: Bytes },
    Stat { stat: Stat },
    Fd { fd: u32 },
    Done,
    Failed { cause: Cause },
    Full { full: Full },
}
