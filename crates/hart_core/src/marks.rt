//! How much of a run a stop leaves.
ghost use Rattle.std.specs.Prelude.{◌≡◌};
ghost use Rattle.hart_core.specs.Vocabulary.{is_open, no_marks, marks_told};
ghost use Rattle.hart_core.specs.Stops.{last_of, doubt_of};

use group_log::{Marks, Phase, Progress};

/// The marks before the first event.
pub fn no_marks() -> Marks
    ensures { result ≡ no_marks }
{
    Marks {
        begun: 0,
        cut: 0,
        doubt: None,
    }
}

// Whether no commit is under way, and none has failed.
fn is_open(phase: Phase) -> bool
    ensures { result ≡ is_open phase }
{
    match phase {
        Phase::Open => true,
        Phase::Staging(_) => false,
        Phase::Installing(_) => false,
        Phase::Halted => false,
    }
}

/// After `count` events. The last one found the commit in phase `before`, at the write of the group's head or not,
/// and left it in phase `after`.
pub fn note(marks: Marks, count: u64, before: Phase, at_point: bool, after: Phase) -> Marks
    ensures { result ≡ marks_told count before at_point after marks }
{
    match after {
        Phase::Open => marks,
        Phase::Staging(_) => if is_open(before) {
            Marks {
                begun: count,
                cut: marks.cut,
                doubt: marks.doubt,
            }
        } else {
            marks
        },
        Phase::Installing(_) => marks.after_write(at_point, Progress::Wrote),
        Phase::Halted => marks.after_write(at_point, Progress::Failed),
    }
}

/// The number of the last of `count` events.
pub fn last_of(count: u64) -> Option<u64>
    ensures { result ≡ last_of count }
{
    if count == 0 { None } else { Some(count - 1) }
}

/// The same of a doubt, if there is one.
pub fn doubt_of(doubt: Option<u64>) -> Option<u64>
    ensures { result ≡ doubt_of doubt }
{
    match doubt {
        None => None,
        Some(count) => last_of(count),
    }
}
