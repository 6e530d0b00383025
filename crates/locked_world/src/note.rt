//! What is kept of an event.
ghost use Rattle.std.specs.Prelude.{◌≡◌, ◌↔◌, true, IsTrue};
ghost use Rattle.locked_world.specs.Stories.{is_start, is_reply};

use fs_machine::Kind;
use hart_core::{StartRefused, Stop};
use plain_tree::Reply;

// The outcome of an event. The call of a start, and a reply, are in lists of their own.
#[derive(Clone, Copy)]
pub(crate) enum What {
    Started,
    Refused(StartRefused),
    Idle,
    Ran(Kind),
    Done,
    Stopped(Stop),
}

// An event of this hart.
#[derive(Clone, Copy)]
pub(crate) struct Note {
    pub hart: u8,
    pub what: What,
}

const MOST_BYTES: usize = 3;

const _: () = prove!(size_of::<Note>() <= MOST_BYTES);

// A reply to this hart.
#[derive(Drop)]
pub(crate) struct Given {
    pub hart: u8,
    pub reply: Reply,
}

impl What {
    pub fn is_start(self) -> bool
        ensures { result ≡ is_start self }
    {
        matches!(self, What::Started | What::Refused(_))
    }

    pub fn is_reply(self) -> bool
        ensures { result ≡ is_reply self }
    {
        matches!(self, What::Done)
    }
}
