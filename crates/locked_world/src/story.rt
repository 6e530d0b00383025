//! The events that have been, and their outcomes, in little memory.
ghost use Rattle.std.specs.Prelude.{◌≡◌, ◌≢◌, ◌<◌, ◌^◌, ◌++◌, ◌∷◌, [], ℕ, Some, None, IfOk, IfNone, IfSome, MatchOption, length, map, slice_get, vec_len, vec_capacity, false};
ghost use Rattle.hart_core.specs.declared.events.Came.TheVariants as came;
ghost use Rattle.hart_core.specs.declared.events.Event.TheVariants as event;
ghost use Rattle.hart_core.specs.declared.outcome.Outcome.TheVariants as outcome;
ghost use Rattle.hart_core.specs.Runs.{all_shown};
ghost use Rattle.locked_world.specs.Kept.{replies_in};
ghost use Rattle.locked_world.specs.declared.note.What.TheVariants as what;
ghost use Rattle.locked_world.specs.Stories.{came_at, event_at, noted_events, noted_outcomes, given_to, is_reply, is_start, reply_to, HasRoom};

use crate::handing::{copied, is_same};
use crate::lent::Iter;
use crate::note::{Given, Note, What};
use fs_machine::Kind;
use hart_core::{Came, Event, Outcome, StartRefused, Stop};
use plain_tree::{Call, Reply};
use std::alloc::{AllocError, Global};
use std::marker::Model;

/// The events that have been, and the outcome of each: a note of three bytes each, and the calls and the replies in
/// lists of their own. A contract sees the two lists, and how much room there is for more.
#[derive(Drop)]
pub(crate) struct Story {
    notes: Vec<Note>,
    // Of each start its call.
    calls: Vec<Call>,
    replies: Vec<Given>,
}

impl Model for Story {
    ghost use Rattle.std.specs.Prelude.{◌-◌, vec_len, vec_capacity};
    ghost use Rattle.locked_world.specs.Stories.{StoryOf, IsNoted, noted_events, noted_outcomes};

    ghost Value = { StoryOf };

    ghost view = { λ s. record {
      events = noted_events s.notes.items s.calls.items;
      outcomes = noted_outcomes s.notes.items s.replies.items;
      notes_left = vec_capacity s.notes - vec_len s.notes;
      calls_left = vec_capacity s.calls - vec_len s.calls;
      replies_left = vec_capacity s.replies - vec_len s.replies;
    } };

    ghost invariant = { λ s. IsNoted s.notes.items s.calls.items s.replies.items };
}

// Room for one more.
fn make_room<T>(list: &mut Vec<T>) -> Result<(), AllocError>
    ensures items { list.new.items ≡ list.old.items }
    ensures room { IfOk result (λ _. vec_len list.new < vec_capacity list.new) }
{
    if list.len() < list.capacity() {
        return Ok(());
    }
    list.reserve(1)
}

impl Story {
    /// Of no events.
    pub fn new(alloc: Global) -> Story
        ensures { (result.events ≡ []) × (result.outcomes ≡ []) }
    {
        Story {
            notes: Vec::new(alloc),
            calls: Vec::new(alloc),
            replies: Vec::new(alloc),
        }
    }

    /// Room for one event more, whatever its outcome.
    #[inline(always)]
    pub fn make_room(&mut self) -> Result<(), AllocError>
        ensures same { (self.new.events ≡ self.old.events) × (self.new.outcomes ≡ self.old.outcomes) }
        ensures room { IfOk result (λ _. HasRoom self.new) }
        ensures few { length self.new.events < 2 ^ 63 }
    {
        make_room(&mut self.notes)?;
        make_room(&mut self.calls)?;
        make_room(&mut self.replies)
    }

    // An event that is no start, and gave no reply.
    fn note(&mut self, hart: u8, what: What)
        requires room { HasRoom self.old }
        requires plain { (is_start what ≡ false) × (is_reply what ≡ false) }
        ensures events { self.new.events ≡ self.old.events ++ event.Step hart ∷ [] }
        ensures outcomes { self.new.outcomes ≡ self.old.outcomes ++ came_at what None ∷ [] }
    {
        self.notes.push_reserved(Note { hart, what });
    }

    pub fn idle(&mut self, hart: u8)
        requires room { HasRoom self.old }
        ensures events { self.new.events ≡ self.old.events ++ event.Step hart ∷ [] }
        ensures outcomes { self.new.outcomes ≡ self.old.outcomes ++ came.Stepped outcome.Idle ∷ [] }
    {
        self.note(hart, What::Idle);
    }

    pub fn ran(&mut self, hart: u8, kind: Kind)
        requires room { HasRoom self.old }
        ensures events { self.new.events ≡ self.old.events ++ event.Step hart ∷ [] }
        ensures outcomes { self.new.outcomes ≡ self.old.outcomes ++ came.Stepped (outcome.Ran kind) ∷ [] }
    {
        self.note(hart, What::Ran(kind));
    }

    pub fn stopped(&mut self, hart: u8, why: Stop)
        requires room { HasRoom self.old }
        ensures events { self.new.events ≡ self.old.events ++ event.Step hart ∷ [] }
        ensures outcomes { self.new.outcomes ≡ self.old.outcomes ++ came.Stepped (outcome.Stopped why) ∷ [] }
    {
        self.note(hart, What::Stopped(why));
    }

    pub fn done(&mut self, hart: u8, reply: Reply)
        requires room { HasRoom self.old }
        ensures events { self.new.events ≡ self.old.events ++ event.Step hart ∷ [] }
        ensures outcomes { self.new.outcomes ≡ self.old.outcomes ++ came.Stepped (outcome.Done reply) ∷ [] }
    {
        self.notes.push_reserved(Note {
            hart,
            what: What::Done,
        });
        self.replies.push_reserved(Given { hart, reply });
    }

    pub fn started(&mut self, hart: u8, call: Call)
        requires room { HasRoom self.old }
        ensures events { self.new.events ≡ self.old.events ++ event.Start hart call ∷ [] }
        ensures outcomes { self.new.outcomes ≡ self.old.outcomes ++ came.Started ∷ [] }
    {
        self.notes.push_reserved(Note {
            hart,
            what: What::Started,
        });
        self.calls.push_reserved(call);
    }

    pub fn refused(&mut self, hart: u8, call: Call, why: StartRefused)
        requires room { HasRoom self.old }
        ensures events { self.new.events ≡ self.old.events ++ event.Start hart call ∷ [] }
        ensures outcomes { self.new.outcomes ≡ self.old.outcomes ++ came.Refused why ∷ [] }
    {
        self.notes.push_reserved(Note {
            hart,
            what: What::Refused(why),
        });
        self.calls.push_reserved(call);
    }

    /// The events in their order, each with its outcome; calls and replies are lent.
    pub fn iter(&self) -> Iter<'_>
        ensures events { map (λ p. p.0) result ≡ self.now.events }
        ensures outcomes { map (λ p. p.1) result ≡ self.now.outcomes }
    {
        Iter::new(&self.notes, &self.calls, &self.replies)
    }

    /// Copies of the events, in their order.
    pub fn events(&self, alloc: Global) -> Result<Vec<Event>, AllocError>
        ensures { IfOk result (λ events. events.items ≡ self.now.events) }
    {
        events_told(alloc, &self.notes, &self.calls)
    }

    /// Copies of their outcomes.
    pub fn outcomes(&self, alloc: Global) -> Result<Vec<Came>, AllocError>
        ensures { IfOk result (λ outcomes. outcomes.items ≡ self.now.outcomes) }
    {
        outcomes_told(alloc, &self.notes, &self.replies)
    }

    /// The first place, from 0, at which these are not the hart's replies. A missing one differs.
    pub fn difference(&self, hart: u8, replies: &[Reply]) -> Option<u64>
        ensures none { IfNone result (replies.now ≡ replies_in hart (all_shown self.now.events self.now.outcomes)) }
        ensures some { IfSome result
            (λ k. slice_get replies.now k ≢ slice_get (replies_in hart (all_shown self.now.events self.now.outcomes)) k) }
    {
        difference(&self.replies, hart, replies)
    }
}

// The start of the call at this place, with a copy of it.
fn start_told(hart: u8, calls: &[Call], place: usize) -> Result<Event, AllocError>
    ensures { IfOk result (λ e. e ≡ event_at hart (slice_get calls.now place)) }
{
    match calls.get(place) {
        None => Ok(Event::Step { hart }),
        Some(call) => Ok(Event::Start {
            hart,
            call: copied(call)?,
        }),
    }
}

fn events_told(alloc: Global, notes: &[Note], calls: &[Call]) -> Result<Vec<Event>, AllocError>
    ensures { IfOk result (λ events. events.items ≡ noted_events notes.now calls.now) }
{
    let mut events = Vec::with_capacity(alloc, notes.len())?;
    let mut place = 0;
    for i in 0..notes.len() {
        let Note { hart, what } = notes[i];
        if what.is_start() {
            events.push(start_told(hart, calls, place)?)?;
            place += 1;
        } else {
            events.push(Event::Step { hart })?;
        }
    }
    Ok(events)
}

// The reply at this place, copied.
fn reply_told(replies: &[Given], place: usize) -> Result<Came, AllocError>
    ensures { IfOk result (λ c. c ≡ came_at what.Done (slice_get replies.now place)) }
{
    match replies.get(place) {
        None => Ok(Came::Stepped(Outcome::Idle)),
        Some(given) => {
            let reply = Reply {
                answer: given.reply.answer,
                call: copied(&given.reply.call)?,
            };
            Ok(Came::Stepped(Outcome::Done(reply)))
        }
    }
}

// What a note says alone.
fn came_told(what: What) -> Came
    ensures { result ≡ came_at what None }
{
    match what {
        What::Started => Came::Started,
        What::Refused(why) => Came::Refused(why),
        What::Idle => Came::Stepped(Outcome::Idle),
        What::Ran(kind) => Came::Stepped(Outcome::Ran(kind)),
        What::Done => Came::Stepped(Outcome::Idle),
        What::Stopped(why) => Came::Stepped(Outcome::Stopped(why)),
    }
}

fn outcomes_told(alloc: Global, notes: &[Note], replies: &[Given]) -> Result<Vec<Came>, AllocError>
    ensures { IfOk result (λ outcomes. outcomes.items ≡ noted_outcomes notes.now replies.now) }
{
    let mut outcomes = Vec::with_capacity(alloc, notes.len())?;
    let mut place = 0;
    for i in 0..notes.len() {
        let what = notes[i].what;
        if what.is_reply() {
            outcomes.push(reply_told(replies, place)?)?;
            place += 1;
        } else {
            outcomes.push(came_told(what))?;
        }
    }
    Ok(outcomes)
}

// The reply, if it is to this hart.
fn reply_for(hart: u8, given: &Given) -> Option<&Reply>
    ensures { MatchOption result (reply_to hart given.now ≡ []) (λ r. reply_to hart given.now ≡ r.now ∷ []) }
{
    if given.hart == hart {
        Some(&given.reply)
    } else {
        None
    }
}

// The first place at which these are not the replies to the hart.
fn difference(given: &[Given], hart: u8, replies: &[Reply]) -> Option<u64>
    ensures none { IfNone result (replies.now ≡ given_to hart given.now) }
    ensures some { IfSome result (λ k. slice_get replies.now k ≢ slice_get (given_to hart given.now) k) }
{
    let mut seen = 0;
    for i in 0..given.len() {
        if let Some(reply) = reply_for(hart, &given[i]) {
            if seen >= replies.len() || !is_same(&replies[seen], reply) {
                return Some(seen as u64);
            }
            seen += 1;
        }
    }
    if seen < replies.len() {
        return Some(seen as u64);
    }
    None
}
