//! How far a call is: how many of its steps acted, and what the last of them answered.
ghost use Rattle.std.specs.Prelude.{◌≡◌, ◌+◌, ◌<◌};
ghost use Rattle.plain_tree.specs.Explains.{acts_of};
ghost use Rattle.plain_tree.specs.Progress.{progress_of, said};

use crate::step::StepAnswer;
use crate::trace::Placed;

/// What the last step said to the one after it.
#[derive(Clone, Copy)]
pub(crate) enum Last {
    /// No step acted.
    Nothing,
    Done,
    Failed,
    /// A file was opened.
    File { fd: u32 },
    Other,
}

#[derive(Clone, Copy)]
pub(crate) struct Progress {
    pub(crate) count: usize,
    pub(crate) last: Last,
}

/// No step acted.
pub(crate) const START: Progress = Progress {
    count: 0,
    last: Last::Nothing,
};

fn said(answer: &StepAnswer) -> Last
    ensures { result ≡ said answer.now }
{
    match answer {
        StepAnswer::Opened { fd, is_file, .. } if *is_file => Last::File { fd: *fd },
        StepAnswer::Done => Last::Done,
        StepAnswer::Failed { .. } => Last::Failed,
        _ => Last::Other,
    }
}

/// How far it is after one step more.
pub(crate) fn after(progress: Progress, answer: &StepAnswer) -> Progress
    requires { progress.count < usize.MAX }
    ensures { result ≡ record { count = progress.count + 1; last = said answer.now } }
{
    Progress {
        count: progress.count + 1,
        last: said(answer),
    }
}

/// How far the list has the call at place `id`.
pub(crate) fn progress_in(id: usize, list: &[Placed]) -> Progress
    ensures { result ≡ progress_of (acts_of id list.now) }
{
    let mut progress = START;
    for placed in list {
        if placed.call == id {
            progress = after(progress, &placed.answer);
        }
    }
    progress
}
