//! What a hart's call has done so far.
ghost use Rattle.std.specs.Prelude.{◌≡◌};
ghost use Rattle.console.specs.Sessions.{begun, count_of, done_after, is_joined, locks_of, stepped, with_step, with_wait};

use crate::numbers::{KINDS, kind_place};
use crate::verb::Verb;
use fs_machine::Kind;
use hart_core::{Came, Outcome};

/// Which call a hart has under way, and how many of its steps of each kind have run.
#[derive(Clone, Copy, PartialEq, Eq, Debug)]
pub struct Doing {
    pub verb: Verb,
    ran: [u32; KINDS],
    /// The kind of the last step that ran.
    pub last: Option<Kind>,
    /// Whether the step that was tried after that waited.
    pub waits: bool,
}

impl Doing {
    // Of a call that was started, and has made no step.
    fn begun(verb: Verb) -> Doing
        ensures { result ≡ begun verb }
    {
        Doing {
            verb,
            ran: [0; KINDS],
            last: None,
            waits: false,
        }
    }

    /// How many steps of this kind have run, up to the greatest u32.
    pub fn count(&self, kind: Kind) -> u32
        ensures { result ≡ count_of kind self.now }
    {
        self.ran[kind_place(kind)]
    }

    /// How many inodes' locks it has: those that it has taken, less those that it has given up.
    pub fn locks(&self) -> u32
        ensures { result ≡ locks_of self.now }
    {
        self.count(Kind::Lock)
            .saturating_sub(self.count(Kind::Unlock))
    }

    /// Whether it is in a transaction: it has joined one, and not left it.
    pub fn is_joined(&self) -> bool
        ensures { result ≡ is_joined self.now }
    {
        self.count(Kind::Leave) < self.count(Kind::Join)
    }

    fn with_step(self, kind: Kind) -> Doing
        ensures { result ≡ with_step kind self }
    {
        let mut ran = self.ran;
        let place = kind_place(kind);
        ran[place] = ran[place].saturating_add(1);
        Doing {
            verb: self.verb,
            ran,
            last: Some(kind),
            waits: false,
        }
    }

    fn with_wait(self) -> Doing
        ensures { result ≡ with_wait self }
    {
        let ran = self.ran;
        Doing {
            verb: self.verb,
            ran,
            last: self.last,
            waits: true,
        }
    }
}

/// What a hart does after an event of its own, of this call, with this outcome.
pub fn done_after(verb: Verb, came: &Came, doing: Option<Doing>) -> Option<Doing>
    ensures { result ≡ done_after verb came.now doing }
{
    match came {
        Came::Started => Some(Doing::begun(verb)),
        Came::Refused(_) => doing,
        Came::Stepped(outcome) => stepped(outcome, doing?),
    }
}

// What a call that has done this does after a step.
fn stepped(outcome: &Outcome, doing: Doing) -> Option<Doing>
    ensures { result ≡ stepped outcome.now (Some doing) }
{
    match outcome {
        Outcome::Ran(kind) => Some(doing.with_step(*kind)),
        Outcome::Done(_) => None,
        Outcome::Waits => Some(doing.with_wait()),
        Outcome::Idle | Outcome::Stopped(_) => Some(doing),
    }
}
