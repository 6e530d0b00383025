//! What a list of events shows of calls.
ghost use Rattle.std.specs.Prelude.{◌≡◌, ◌∷◌, ◌++◌, [], None, IfOk, OnOk, map};
ghost use Rattle.hart_core.specs.Vocabulary.{is_some, ends_at, noted};
ghost use Rattle.hart_core.specs.Runs.{shown, shown_outcome, trace_in};
ghost use Rattle.hart_core.specs.Unfinished.{AreUnfinished};

use crate::events::{Came, Event};
use crate::outcome::Outcome;
use plain_tree::{Call, Calls, NoMemory, Reply, Trace, TracedCall};
use std::alloc::{AllocError, Global};

// The hart's call that isn't finished ends with this reply. Whether it is finished then.
fn finish(call: &mut TracedCall, hart: u8, reply: &Reply, now: u64) -> Result<bool, AllocError>
    ensures call { OnOk result (call.new ≡ ends_at hart reply.now now call.old) }
    ensures finished { IfOk result (λ b. b ≡ is_some call.new.finished) }
{
    if call.hart == hart && call.finished.is_none() {
        let reply = Reply {
            answer: reply.answer,
            call: reply.call.clone()?,
        };
        call.finished = Some((now, reply));
    }
    Ok(call.finished.is_some())
}

// The hart's calls that aren't finished end with this reply.
fn finish_all(
    calls: &mut Vec<TracedCall>,
    unfinished: &mut Vec<usize>,
    hart: u8,
    reply: &Reply,
    now: u64,
) -> Result<(), AllocError>
    requires { AreUnfinished unfinished.old.items calls.old.items }
    ensures calls { OnOk result (calls.new.items ≡ map (ends_at hart reply.now now) calls.old.items) }
    ensures unfinished { OnOk result (AreUnfinished unfinished.new.items calls.new.items) }
{
    let mut kept = 0;
    while kept < unfinished.len() {
        let place = unfinished[kept];
        if finish(&mut calls[place], hart, reply, now)? {
            unfinished.remove(kept);
        } else {
            kept += 1;
        }
    }
    Ok(())
}

// A call that the hart has started.
fn begin(
    calls: &mut Vec<TracedCall>,
    unfinished: &mut Vec<usize>,
    hart: u8,
    call: &Call,
    now: u64,
) -> Result<(), NoMemory>
    requires { AreUnfinished unfinished.old.items calls.old.items }
    ensures calls { OnOk result
        (calls.new.items ≡ calls.old.items ++ record { hart = hart; start = now; call = call.now; finished = None } ∷ []) }
    ensures unfinished { OnOk result (AreUnfinished unfinished.new.items calls.new.items) }
{
    let call = call.clone()?;
    unfinished.push(calls.len())?;
    calls.push(TracedCall {
        hart,
        start: now,
        call,
        finished: None,
    })?;
    Ok(())
}

// What a step of the hart with this outcome shows of the calls.
fn note_step(
    calls: &mut Vec<TracedCall>,
    unfinished: &mut Vec<usize>,
    hart: u8,
    outcome: &Outcome,
    now: u64,
) -> Result<(), NoMemory>
    requires { AreUnfinished unfinished.old.items calls.old.items }
    ensures calls { OnOk result
        (calls.new.items ≡ (noted (record { calls = calls.old.items; events = now }) (shown_outcome hart outcome.now)).calls) }
    ensures unfinished { OnOk result (AreUnfinished unfinished.new.items calls.new.items) }
{
    match outcome {
        Outcome::Done(reply) => finish_all(calls, unfinished, hart, reply, now)?,
        Outcome::Idle => {}
        Outcome::Waits => {}
        Outcome::Ran(_) => {}
        Outcome::Stopped(_) => {}
    }
    Ok(())
}

// What an event with its outcome shows of the calls.
fn note(
    calls: &mut Vec<TracedCall>,
    unfinished: &mut Vec<usize>,
    event: &Event,
    came: &Came,
    now: u64,
) -> Result<(), NoMemory>
    requires { AreUnfinished unfinished.old.items calls.old.items }
    ensures calls { OnOk result
        (calls.new.items ≡ (noted (record { calls = calls.old.items; events = now }) (shown event.now came.now)).calls) }
    ensures unfinished { OnOk result (AreUnfinished unfinished.new.items calls.new.items) }
{
    match event {
        Event::Start { hart, call } => match came {
            Came::Started => begin(calls, unfinished, *hart, call, now),
            Came::Refused(_) => Ok(()),
            Came::Stepped(_) => Ok(()),
        },
        Event::Step { hart } => match came {
            Came::Stepped(outcome) => note_step(calls, unfinished, *hart, outcome, now),
            Came::Started => Ok(()),
            Came::Refused(_) => Ok(()),
        },
    }
}

/// What a run of these events with these outcomes showed of calls. For each accepted start it has the hart, its
/// number and the call. Once the call was finished, it has the number of the event that gave its reply, and the
/// reply. Refused starts are no calls. Of lists of different lengths it is the trace of the events that the shorter
/// one counts.
pub fn trace(alloc: Global, events: &[Event], outcomes: &[Came]) -> Result<Trace, NoMemory>
    ensures { IfOk result (λ t. t ≡ trace_in events.now outcomes.now) }
{
    let length = events.len().min(outcomes.len());
    let mut calls = Vec::new(alloc);
    let mut unfinished = Vec::new(alloc);
    for place in 0..length {
        note(
            &mut calls,
            &mut unfinished,
            &events[place],
            &outcomes[place],
            place as u64,
        )?;
    }
    Ok(Trace {
        calls: Calls::new(calls),
        events: length as u64,
    })
}
