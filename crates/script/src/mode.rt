//! How a console runs.

/// In which order the lines of a script are run.
#[derive(Clone, Copy, PartialEq, Eq, Debug, Default)]
pub enum Schedule {
    /// One after the other.
    #[default]
    Listed,
    /// Each hart starts the calls of its lines by itself, and harts take turns.
    Round,
}

/// How the console runs.
#[derive(Clone, Copy, PartialEq, Eq, Debug, Default)]
pub struct Mode {
    /// In which order the lines are run.
    pub schedule: Schedule,
    /// How many of the last events are printed.
    pub last: u32,
    /// All events are printed, each in its hart's column.
    pub timeline: bool,
    /// A list of tree steps is printed that explains the answers.
    pub explain: bool,
    /// The image is examined, and no script is read.
    pub check: bool,
}
