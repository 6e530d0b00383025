//! What is printed of a run that has ended.
ghost use Rattle.std.specs.Prelude.{◌≡◌, Some, IfOk, OnOk};
ghost use Rattle.console_threads.specs.Vocabulary.{Appends, no_notes, with_what, hart_in};
ghost use Rattle.console_threads.specs.Told.{hart_text, harts_text, line_for, line_of, noted_in, what_in};
ghost use Rattle.console_threads.specs.Worked.{eight_harts};

use console::{Notes, Verb, What, hart_in, what_of, what_of_step, write_refused};
use hart_core::{Came, Event, Outcome};
use plain_tree::{Call, Reply};
use script::{Mode, write_reply};
use std::alloc::{AllocError, Global};
use std::io;
use std::io::Write;

/// The harts, in the order in which they are printed.
const ALL_HARTS: [u8; 8] = [0, 1, 2, 3, 4, 5, 6, 7];

/// The lines of each hart, one hart after the other.
pub fn write_harts<W: Write>(out: &mut W, events: &[Event], outcomes: &[Came]) -> io::Result<()>
    ensures { OnOk result (Appends (W.contents out.old) (W.contents out.new) (harts_text events.now outcomes.now eight_harts)) }
{
    for hart in &ALL_HARTS {
        write_hart(out, *hart, events, outcomes)?;
    }
    Ok(())
}

// The lines of one hart, in the order of the list.
fn write_hart<W: Write>(
    out: &mut W,
    hart: u8,
    events: &[Event],
    outcomes: &[Came],
) -> io::Result<()>
    ensures { OnOk result (Appends (W.contents out.old) (W.contents out.new) (hart_text hart events.now outcomes.now)) }
{
    for i in 0..events.len().min(outcomes.len()) {
        write_for(out, hart, &events[i], &outcomes[i])?;
    }
    Ok(())
}

// The line of an event, if it is one of this hart.
fn write_for<W: Write>(out: &mut W, hart: u8, event: &Event, came: &Came) -> io::Result<()>
    ensures { OnOk result (Appends (W.contents out.old) (W.contents out.new) (line_for hart event.now came.now)) }
{
    if hart_in(event) == hart {
        write_line(out, event, came)
    } else {
        Ok(())
    }
}

// The line of an event, if it has one: a refused start, or a reply.
fn write_line<W: Write>(out: &mut W, event: &Event, came: &Came) -> io::Result<()>
    ensures { OnOk result (Appends (W.contents out.old) (W.contents out.new) (line_of event.now came.now)) }
{
    match (event, came) {
        (Event::Start { hart, call }, Came::Refused(why)) => {
            write_refused(out, *hart, Verb::of(call).word(), *why)
        }
        (Event::Step { hart }, Came::Stepped(Outcome::Done(reply))) => {
            write_reply(out, *hart, Verb::of(&reply.call).word(), reply)
        }
        _ => Ok(()),
    }
}

/// What is noted of these events.
pub fn notes_of(
    alloc: Global,
    mode: Mode,
    events: &[Event],
    outcomes: &[Came],
) -> Result<Notes, AllocError>
    ensures { IfOk result (λ n. n ≡ noted_in (no_notes mode) events.now outcomes.now) }
{
    let mut notes = Notes::new(alloc, mode)?;
    for i in 0..events.len().min(outcomes.len()) {
        note_event(&mut notes, &events[i], &outcomes[i])?;
    }
    Ok(notes)
}

fn note_event(notes: &mut Notes, event: &Event, came: &Came) -> Result<(), AllocError>
    ensures { OnOk result
        (notes.new ≡ with_what notes.old (hart_in event.now) (what_in event.now came.now) (Some event.now) came.now) }
{
    if let Some(what) = what_in(event, came) {
        let copy = notes.copy_of(event)?;
        let came = copied_came(came)?;
        notes.note(hart_in(event), what, copy, came)?;
    }
    Ok(())
}

fn copied_came(came: &Came) -> Result<Came, AllocError>
    ensures { IfOk result (λ c. c ≡ came.now) }
{
    match came {
        Came::Started => Ok(Came::Started),
        Came::Refused(why) => Ok(Came::Refused(*why)),
        Came::Stepped(outcome) => Ok(Came::Stepped(copied_outcome(outcome)?)),
    }
}

fn copied_outcome(outcome: &Outcome) -> Result<Outcome, AllocError>
    ensures { IfOk result (λ o. o ≡ outcome.now) }
{
    match outcome {
        Outcome::Idle => Ok(Outcome::Idle),
        Outcome::Waits => Ok(Outcome::Waits),
        Outcome::Ran(kind) => Ok(Outcome::Ran(*kind)),
        Outcome::Done(reply) => Ok(Outcome::Done(copied_reply(reply)?)),
        Outcome::Stopped(stop) => Ok(Outcome::Stopped(*stop)),
    }
}

fn copied_reply(reply: &Reply) -> Result<Reply, AllocError>
    ensures { IfOk result (λ r. r ≡ reply.now) }
{
    Ok(Reply {
        answer: reply.answer,
        call: copied_call(&reply.call)?,
    })
}

fn copied_call(call: &Call) -> Result<Call, AllocError>
    ensures { IfOk result (λ c. c ≡ call.now) }
{
    call.clone()
}

// What is noted of an event. A hart's step has the word of no call.
fn what_in(event: &Event, came: &Came) -> Option<What>
    ensures { result ≡ what_in event.now came.now }
{
    match (event, came) {
        (Event::Start { hart: _, call }, came) => what_of(Verb::of(call), came),
        (Event::Step { hart: _ }, Came::Stepped(outcome)) => what_of_step(outcome),
        (Event::Step { hart: _ }, _) => None,
    }
}
