//! What is noted of events.
ghost use Rattle.std.specs.Prelude.{◌≡◌, IfOk, OnOk, option_map};
ghost use Rattle.hart_core.specs.declared.events.Event.TheVariants.{Step};
ghost use Rattle.console.specs.Notes.{copy_for, no_notes, run_in, rows_in, what_of, what_of_step, with_kept, with_note, with_row};

use crate::verb::Verb;
use circular_buffer::Iter;
use fs_machine::Kind;
use hart_core::{Came, Event, Outcome, StartRefused, Stop};
use plain_tree::Answer;
use script::{Mode, Tail};
use std::alloc::{AllocError, Global};
use std::marker::Model;

/// The outcome of an event.
#[derive(Clone, Copy, PartialEq, Eq, Debug)]
pub enum What {
    Start(Verb),
    Refused(StartRefused),
    Ran(Kind),
    Waits,
    Done(Answer),
    Stopped(Stop),
}

/// An event of a hart, and its number, from 0.
#[derive(Clone, Copy, PartialEq, Eq, Debug)]
pub struct Note {
    pub number: u64,
    pub hart: u8,
    pub what: What,
}

/// What is noted of an event of a call with this word. A step without a call is no event.
pub fn what_of(verb: Verb, came: &Came) -> Option<What>
    ensures { result ≡ what_of verb came.now }
{
    match came {
        Came::Started => Some(What::Start(verb)),
        Came::Refused(why) => Some(What::Refused(*why)),
        Came::Stepped(outcome) => what_of_step(outcome),
    }
}

/// What is noted of a step.
pub fn what_of_step(outcome: &Outcome) -> Option<What>
    ensures { result ≡ what_of_step outcome.now }
{
    match outcome {
        Outcome::Idle => None,
        Outcome::Waits => Some(What::Waits),
        Outcome::Ran(kind) => Some(What::Ran(*kind)),
        Outcome::Done(reply) => Some(What::Done(reply.answer)),
        Outcome::Stopped(stop) => Some(What::Stopped(*stop)),
    }
}

/// Events in their order, and the outcome of each.
#[derive(Drop)]
pub struct Kept {
    events: Vec<Event>,
    outcomes: Vec<Came>,
}

impl Model for Kept {
    ghost use Rattle.console.specs.Notes.{KeptRun};

    ghost Value = { KeptRun };

    ghost view = { λ k. record { events = k.events.items; outcomes = k.outcomes.items } };
}

/// What is noted of the last events, and how many there were; of all, if a timeline is wanted; and the whole run, if
/// it is wanted.
#[derive(Drop)]
pub struct Notes {
    tail: Tail<Note>,
    timeline: Option<Vec<Note>>,
    count: u64,
    kept: Option<Kept>,
}

impl Model for Notes {
    ghost use Rattle.console.specs.Notes.{NotesOf};

    ghost Value = { NotesOf };

    ghost use Rattle.std.specs.Prelude.{option_map};

    ghost view = { λ n. record {
      tail = n.tail;
      timeline = option_map (λ v. v.items) n.timeline;
      count = n.count;
      kept = n.kept;
    } };
}

// Puts a note after those of the timeline.
fn add_row(timeline: &mut Option<Vec<Note>>, note: Note) -> Result<(), AllocError>
    ensures { OnOk result (option_map (λ v. v.items) timeline.new ≡ with_row (option_map (λ v. v.items) timeline.old) note) }
{
    if let Some(notes) = timeline {
        notes.push(note)?;
    }
    Ok(())
}

// Puts an event, of which there is a copy, and its outcome after those that are kept.
fn keep(kept: &mut Option<Kept>, copy: Option<Event>, came: Came) -> Result<(), AllocError>
    ensures { OnOk result (kept.new ≡ with_kept kept.old copy came) }
{
    if let (Some(run), Some(event)) = (kept, copy) {
        run.events.push(event)?;
        run.outcomes.push(came)?;
    }
    Ok(())
}

impl Notes {
    /// Of no event, with room for the last ones that the mode asks for. If it asks for a history, the whole run is
    /// kept too.
    pub fn new(alloc: Global, mode: Mode) -> Result<Notes, AllocError>
        ensures { IfOk result (λ n. n ≡ no_notes mode) }
    {
        let timeline = if mode.timeline {
            Some(Vec::new(alloc))
        } else {
            None
        };
        let kept = if mode.explain {
            Some(Kept {
                events: Vec::new(alloc),
                outcomes: Vec::new(alloc),
            })
        } else {
            None
        };
        Ok(Notes {
            tail: Tail::new(alloc, mode.last)?,
            timeline,
            count: 0,
            kept,
        })
    }

    /// A copy of an event, if events are kept.
    pub fn copy_of(&self, event: &Event) -> Result<Option<Event>, AllocError>
        ensures { IfOk result (λ copy. copy ≡ copy_for self.now.kept event.now) }
    {
        match &self.kept {
            Some(_) => Ok(Some(event.clone()?)),
            None => Ok(None),
        }
    }

    /// The step of a hart, if events are kept.
    pub fn step_of(&self, hart: u8) -> Option<Event>
        ensures { result ≡ copy_for self.now.kept (Step hart) }
    {
        match &self.kept {
            Some(_) => Some(Event::Step { hart }),
            None => None,
        }
    }

    /// Notes an event of a hart, and keeps this copy, with the event's outcome, if events are kept. There is no room
    /// for more than a u64 can count.
    pub fn note(
        &mut self,
        hart: u8,
        what: What,
        copy: Option<Event>,
        came: Came,
    ) -> Result<(), AllocError>
        ensures { OnOk result (self.new ≡ with_note self.old hart what copy came) }
    {
        let number = self.count;
        let Some(count) = number.checked_add(1) else {
            return Err(AllocError);
        };
        let note = Note { number, hart, what };
        add_row(&mut self.timeline, note)?;
        keep(&mut self.kept, copy, came)?;
        self.tail.note(note)?;
        self.count = count;
        Ok(())
    }

    /// The events that are kept, in their order.
    pub fn kept_events(&self) -> &[Event]
        ensures { result.now ≡ (run_in self.now.kept).events }
    {
        match &self.kept {
            Some(run) => run.events.as_slice(),
            None => &[],
        }
    }

    /// The outcomes of the events that are kept.
    pub fn kept_outcomes(&self) -> &[Came]
        ensures { result.now ≡ (run_in self.now.kept).outcomes }
    {
        match &self.kept {
            Some(run) => run.outcomes.as_slice(),
            None => &[],
        }
    }

    /// All events, the oldest first, if a timeline is wanted.
    pub fn timeline(&self) -> &[Note]
        ensures { result.now ≡ rows_in self.now.timeline }
    {
        match &self.timeline {
            Some(notes) => notes.as_slice(),
            None => &[],
        }
    }

    /// The last events, the oldest first.
    pub fn events(&self) -> Iter<'_, Note>
        ensures { result ≡ self.now.tail.events }
    {
        self.tail.events()
    }
}
