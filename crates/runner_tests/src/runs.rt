//! What runs leave, and whether it is the same.
use hart_core::{Came, Event, Outcome};
use locked_world::Closed;
use std::alloc::Global;
use std::process::Abort;
use std::sync::ledger::Ledger;

/// The events of a run, their outcomes, and the bytes of the disk then.
#[derive(Drop)]
pub struct LeftRun {
    pub events: Vec<Event>,
    pub outcomes: Vec<Came>,
    pub bytes: Vec<u8>,
}

/// What a kernel that was closed leaves.
pub fn left_by<L: Ledger>(rt: &impl Abort, alloc: Global, closed: Closed<L>) -> LeftRun {
    let events = closed.events(alloc).expect(rt, "error");
    let outcomes = closed.outcomes(alloc).expect(rt, "error");
    let bytes = closed.into_disk().into_bytes();
    LeftRun {
        events,
        outcomes,
        bytes,
    }
}

fn is_same_event(one: &Event, other: &Event) -> bool {
    match (one, other) {
        (
            Event::Start { hart, call },
            Event::Start {
                hart: also,
                call: wanted,
            },
        ) => hart == also && call == wanted,
        (Event::Step { hart }, Event::Step { hart: also }) => hart == also,
        _ => false,
    }
}

fn is_same_outcome(one: &Outcome, other: &Outcome) -> bool {
    match (one, other) {
        (Outcome::Idle, Outcome::Idle) => true,
        (Outcome::Waits, Outcome::Waits) => true,
        (Outcome::Ran(a), Outcome::Ran(b)) => a == b,
        (Outcome::Done(a), Outcome::Done(b)) => a.answer == b.answer && a.call == b.call,
        (Outcome::Stopped(a), Outcome::Stopped(b)) => a == b,
        _ => false,
    }
}

fn is_same_came(one: &Came, other: &Came) -> bool {
    match (one, other) {
        (Came::Started, Came::Started) => true,
        (Came::Refused(a), Came::Refused(b)) => a == b,
        (Came::Stepped(a), Came::Stepped(b)) => is_same_outcome(a, b),
        _ => false,
    }
}

fn are_same_events(one: &[Event], other: &[Event]) -> bool {
    for (event, wanted) in one.iter().zip(other.iter()) {
        if !is_same_event(event, wanted) {
            return false;
        }
    }
    one.len() == other.len()
}

fn are_same_outcomes(one: &[Came], other: &[Came]) -> bool {
    for (came, wanted) in one.iter().zip(other.iter()) {
        if !is_same_came(came, wanted) {
            return false;
        }
    }
    one.len() == other.len()
}

/// Whether two runs have the same events with the same outcomes, and leave the same disk.
pub fn are_same(one: &LeftRun, other: &LeftRun) -> bool {
    are_same_events(one.events.as_slice(), other.events.as_slice())
        && are_same_outcomes(one.outcomes.as_slice(), other.outcomes.as_slice())
        && one.bytes.as_slice() == other.bytes.as_slice()
}
