//! The outcome of an event, printed and noted.
ghost use Rattle.std.specs.Prelude.{◌≡◌, OnOk};
ghost use Rattle.console.specs.Vocabulary.{Appends, told_line};
ghost use Rattle.console.specs.Behaviours.{IfTold};
ghost use Rattle.console.specs.Commands.{IsPassed, flow_of, flow_of_step};
ghost use Rattle.console.specs.Notes.{what_of, with_what};
ghost use Rattle.console.specs.Told.{refused_text, step_told, stopped_text, told_of};

use crate::fault::ConsoleFault;
use crate::flow::Flow;
use crate::notes::{Notes, what_of};
use crate::numbers::{start_name, start_number, stop_name, stop_number};
use crate::verb::Verb;
use hart_core::{Came, Event, Outcome, StartRefused, Stop};
use script::{write_numbered, write_reply};
use std::io;
use std::io::Write;

/// Prints the line of an event of this hart, of a call with this word, if it has one, and notes it, with its copy. A
/// stop is a fault.
pub fn tell<W: Write>(
    hart: u8,
    verb: Verb,
    came: Came,
    copy: Option<Event>,
    notes: &mut Notes,
    out: &mut W,
) -> Result<Flow, ConsoleFault>
    ensures passed { IsPassed came result }
    ensures prints { IfTold result (Appends (W.contents out.old) (W.contents out.new) (told_of hart verb came)) }
    ensures notes { IfTold result (notes.new ≡ with_what notes.old hart (what_of verb came) copy came) }
{
    write_came(out, hart, verb, &came).map_err(ConsoleFault::Write)?;
    let flow = flow_of(&came);
    if let Some(what) = what_of(verb, &came) {
        notes.note(hart, what, copy, came)?;
    }
    flow
}

// The line of an event, if it has one.
fn write_came<W: Write>(out: &mut W, hart: u8, verb: Verb, came: &Came) -> io::Result<()>
    ensures { OnOk result (Appends (W.contents out.old) (W.contents out.new) (told_of hart verb came.now)) }
{
    match came {
        Came::Started => Ok(()),
        Came::Refused(why) => write_refused(out, hart, verb.word(), *why),
        Came::Stepped(outcome) => write_outcome(out, hart, verb, outcome),
    }
}

fn write_outcome<W: Write>(out: &mut W, hart: u8, verb: Verb, outcome: &Outcome) -> io::Result<()>
    ensures { OnOk result (Appends (W.contents out.old) (W.contents out.new) (step_told hart verb outcome.now)) }
{
    match outcome {
        Outcome::Done(reply) => write_reply(out, hart, verb.word(), reply),
        Outcome::Stopped(stop) => write_stopped(out, hart, verb.word(), *stop),
        Outcome::Idle | Outcome::Waits | Outcome::Ran(_) => Ok(()),
    }
}

/// The line of a call that wasn't started.
pub fn write_refused<W: Write>(
    out: &mut W,
    hart: u8,
    name: &str,
    refused: StartRefused,
) -> io::Result<()>
    ensures { OnOk result (Appends (W.contents out.old) (W.contents out.new) (told_line hart name.now (refused_text refused))) }
{
    write_numbered(
        out,
        hart,
        name,
        "refused",
        start_number(refused),
        start_name(refused),
    )
}

// The line of a call that was stopped.
fn write_stopped<W: Write>(out: &mut W, hart: u8, name: &str, stop: Stop) -> io::Result<()>
    ensures { OnOk result (Appends (W.contents out.old) (W.contents out.new) (told_line hart name.now (stopped_text stop))) }
{
    write_numbered(
        out,
        hart,
        name,
        "stopped",
        stop_number(stop),
        stop_name(stop),
    )
}

fn flow_of(came: &Came) -> Result<Flow, ConsoleFault>
    ensures { result ≡ flow_of came.now }
{
    match came {
        Came::Started | Came::Refused(_) => Ok(Flow::Moves),
        Came::Stepped(outcome) => flow_of_step(outcome),
    }
}

fn flow_of_step(outcome: &Outcome) -> Result<Flow, ConsoleFault>
    ensures { result ≡ flow_of_step outcome.now }
{
    match outcome {
        Outcome::Idle => Ok(Flow::Rests),
        Outcome::Waits => Ok(Flow::Waits),
        Outcome::Ran(_) | Outcome::Done(_) => Ok(Flow::Moves),
        Outcome::Stopped(stop) => Err(ConsoleFault::Stopped(*stop)),
    }
}
