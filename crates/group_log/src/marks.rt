//! How much of a history a stop leaves.
ghost use Rattle.std.specs.Prelude.{◌≡◌, ◌+◌, ◌<◌, ◌^◌, if◌then◌else◌};
ghost use Rattle.group_log.specs.Stories.{after_leave, after_write};

use crate::commit::Progress;
use crate::log::AfterLeave;

/// Counts of the events of a machine over a log. `begun` counts up to the last leave that began a commit. `cut`
/// counts up to the leave that began the commit of the last group whose head was written. If the write of a group's
/// head failed, `doubt` counts up to the leave that began that group's commit. `begun` and `cut` are 0 if there was
/// none.
///
/// Recovery makes what was seen after the first `cut` events. If there is a `doubt`, it may instead be after the
/// first `doubt`.
#[derive(Debug, Clone, Copy, PartialEq, Eq)]
pub struct Marks {
    pub begun: u64,
    pub cut: u64,
    pub doubt: Option<u64>,
}

impl Marks {
    /// After a leave that had `events` events before it.
    pub fn after_leave(self, events: u64, left: AfterLeave) -> Marks
        requires { events + 1 < 2 ^ 64 }
        ensures { result ≡ after_leave events left self }
    {
        match left {
            AfterLeave::Free => self,
            AfterLeave::Commits => Marks {
                begun: events + 1,
                cut: self.cut,
                doubt: self.doubt,
            },
        }
    }

    /// After a commit's step. `at_point`: the step's write was that of the group's head, as the log said before the
    /// step.
    pub fn after_write(self, at_point: bool, progress: Progress) -> Marks
        ensures { result ≡ after_write at_point progress self }
    {
        match progress {
            Progress::Waits => self,
            Progress::Wrote => self.with_cut(at_point),
            Progress::Ended => self.with_cut(at_point),
            Progress::Failed => Marks {
                begun: self.begun,
                cut: self.cut,
                doubt: if at_point {
                    Some(self.begun)
                } else {
                    self.doubt
                },
            },
        }
    }

    fn with_cut(self, at_point: bool) -> Marks
        ensures { result ≡ record self { cut = if at_point then self.begun else self.cut } }
    {
        Marks {
            begun: self.begun,
            cut: if at_point { self.begun } else { self.cut },
            doubt: self.doubt,
        }
    }
}
