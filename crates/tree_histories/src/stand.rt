//! How far a call has come in a list.
ghost use Rattle.std.specs.Prelude.{◌≡◌, ◌<◌, None};
ghost use Rattle.tree_histories.specs.Vocabulary.{cause_of};
ghost use Rattle.tree_histories.specs.Stands.{after, opened_file, start, was_done, was_failed};

use plain_tree::{Cause, StepAnswer};

/// How many steps of a call acted, what the last of them said to the one after it, and the first cause.
#[derive(Clone, Copy)]
pub(crate) struct Stand {
    pub(crate) count: usize,
    /// The last one was done.
    pub(crate) done: bool,
    /// The last one was refused.
    pub(crate) failed: bool,
    /// The last one opened a file, under this descriptor.
    pub(crate) file: Option<u32>,
    /// The first cause with which a step was refused.
    pub(crate) cause: Option<Cause>,
}

/// No step acted.
pub(crate) const START: Stand = Stand {
    count: 0,
    done: false,
    failed: false,
    file: None,
    cause: None,
};

fn cause_of(answer: &StepAnswer) -> Option<Cause>
    ensures { result ≡ cause_of answer.now }
{
    match answer {
        StepAnswer::Failed { cause } => Some(*cause),
        _ => None,
    }
}

fn was_done(answer: &StepAnswer) -> bool
    ensures { result ≡ was_done answer.now }
{
    matches!(answer, StepAnswer::Done)
}

fn was_failed(answer: &StepAnswer) -> bool
    ensures { result ≡ was_failed answer.now }
{
    matches!(answer, StepAnswer::Failed { .. })
}

fn opened_file(answer: &StepAnswer) -> Option<u32>
    ensures { result ≡ opened_file answer.now }
{
    match answer {
        StepAnswer::Opened { fd, is_file, .. } if *is_file => Some(*fd),
        _ => None,
    }
}

/// How far it is after one step more.
pub(crate) fn after(stand: Stand, answer: &StepAnswer) -> Stand
    requires { stand.count < usize.MAX }
    ensures { result ≡ after stand answer.now }
{
    Stand {
        count: stand.count + 1,
        done: was_done(answer),
        failed: was_failed(answer),
        file: opened_file(answer),
        cause: match stand.cause {
            Some(cause) => Some(cause),
            None => cause_of(answer),
        },
    }
}
