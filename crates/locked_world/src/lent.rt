//! The stored list, read in place.
ghost use Rattle.std.specs.Prelude.{◌≡◌};
ghost use Rattle.std.specs.Iterator.{YieldsFirstBy, item_count};
ghost use Rattle.locked_world.specs.Lent.{owned, owned_came, owned_event};
ghost use Rattle.locked_world.specs.Stories.{came_at, event_noted, first, is_reply, noted_pairs, past, starts};

use crate::note::{Given, Note, What};
use fs_machine::Kind;
use hart_core::{StartRefused, Stop};
use plain_tree::{Call, Reply};
use std::iter::FusedIterator;
use std::marker::Model;

/// A stored event, with its call lent.
#[derive(Clone, Copy)]
pub enum EventRef<'a> {
    /// The hart was asked to start this call.
    Start { hart: u8, call: &'a Call },
    /// The hart's call was asked to make one step.
    Step { hart: u8 },
}

/// The outcome of a stored event, with its reply lent. A step that waits isn't stored.
#[derive(Clone, Copy)]
pub enum CameRef<'a> {
    /// The call was started.
    Started,
    /// The call wasn't started, and nothing changed.
    Refused(StartRefused),
    /// The hart had no call.
    Idle,
    /// One operation of this kind ran, and the call went on.
    Ran(Kind),
    /// The call's last operation ran.
    Done(&'a Reply),
    /// The call neither ran nor waited.
    Stopped(Stop),
}

/// The stored events in their order, each with its outcome. It takes no memory. A contract sees those that are left.
#[derive(Drop)]
pub struct Iter<'a> {
    notes: &'a [Note],
    calls: &'a [Call],
    replies: &'a [Given],
}

impl<'a> Model for Iter<'a> {
    ghost use Rattle.std.specs.Prelude.{List};
    ghost use Rattle.hart_core.specs.declared.events.Event.{Event};
    ghost use Rattle.hart_core.specs.declared.events.Came.{Came};
    ghost use Rattle.locked_world.specs.Stories.{noted_pairs};

    ghost Value = { List (Event × Came) };

    ghost view = { λ s. noted_pairs s.notes.now s.calls.now s.replies.now };
}

impl<'a> Iter<'a> {
    // Of these notes, with the calls of their starts and with their replies.
    pub(crate) fn new(notes: &'a [Note], calls: &'a [Call], replies: &'a [Given]) -> Iter<'a>
        ensures { result ≡ noted_pairs notes.now calls.now replies.now }
    {
        Iter {
            notes,
            calls,
            replies,
        }
    }
}

impl<'a> Iterator for Iter<'a> {
    type Item = (EventRef<'a>, CameRef<'a>);

    ghost next_gives = { YieldsFirstBy owned (λ left. left) };

    ghost remaining = { item_count (λ left. left) };

    fn next(&mut self) -> Option<(EventRef<'a>, CameRef<'a>)> {
        let (note, notes) = self.notes.split_first()?;
        let (event, calls) = event_lent(*note, self.calls);
        let (came, replies) = came_lent(note.what, self.replies);
        self.notes = notes;
        self.calls = calls;
        self.replies = replies;
        Some((event, came))
    }
}

impl<'a> FusedIterator for Iter<'a> {}

// The event of a note, and the calls that are left for the notes after it.
fn event_lent<'a>(note: Note, calls: &'a [Call]) -> (EventRef<'a>, &'a [Call])
    ensures event { owned_event result.0 ≡ event_noted note (first (starts note) calls.now) }
    ensures left { result.1.now ≡ past (starts note) calls.now }
{
    let hart = note.hart;
    if !note.what.is_start() {
        return (EventRef::Step { hart }, calls);
    }
    match calls.split_first() {
        None => (EventRef::Step { hart }, calls),
        Some((call, left)) => (EventRef::Start { hart, call }, left),
    }
}

// The outcome that a note says its event had, and the replies that are left for the notes after it.
fn came_lent<'a>(what: What, replies: &'a [Given]) -> (CameRef<'a>, &'a [Given])
    ensures came { owned_came result.0 ≡ came_at what (first (is_reply what) replies.now) }
    ensures left { result.1.now ≡ past (is_reply what) replies.now }
{
    match what {
        What::Started => (CameRef::Started, replies),
        What::Refused(why) => (CameRef::Refused(why), replies),
        What::Idle => (CameRef::Idle, replies),
        What::Ran(kind) => (CameRef::Ran(kind), replies),
        What::Done => match replies.split_first() {
            None => (CameRef::Idle, replies),
            Some((given, left)) => (CameRef::Done(&given.reply), left),
        },
        What::Stopped(why) => (CameRef::Stopped(why), replies),
    }
}
