//! Lists of events: what they show of calls, and a list of tree steps that explains it.
use crate::histories::explains;
use crate::images::{Image, SMALL, counts, disk_of, tree_in};
use crate::lists::{Made, RunEnd, mounted, play, ran, run_over, traced};
use crate::memory::push;
use crate::rows::Ask::{Chdir, Close, Dup, Fill, Fstat, Inherit, Link, Open, Read, Unlink, Write};
use crate::rows::Line::{Do, End, Start, Upto};
use crate::rows::Says::{Done, Failed, Idle, Refused};
use crate::rows::{Ask, LONG, READ, READ_AND_WRITE, TRUNCATE, call, owned};
use fs_machine::Kind;
use hart_core::{Came, Event, Outcome, Run, StartRefused};
use image_versions::Version;
use plain_tree::{
    Action, Answer, Call, Cause, Placed, Reply, StepAnswer, Trace, TracedCall, TreeStep,
};
use std::alloc::Global;
use std::process::Abort;
use tree_histories::find_history;

// A hart's step at an event, of a call of the trace.
fn placed(event: u64, call: usize, hart: u8, action: Action, answer: StepAnswer) -> Placed {
    Placed {
        event,
        call,
        step: TreeStep {
            hart,
            new: 0,
            action,
        },
        answer,
    }
}

fn failed(cause: Cause) -> StepAnswer {
    StepAnswer::Failed { cause }
}

// The event that gave a call's reply.
fn end_of(call: &TracedCall) -> Option<u64> {
    match &call.finished {
        Some((event, _)) => Some(*event),
        None => None,
    }
}

// The event that gave the reply of a call of the trace; 0 if there is none.
fn last_of(trace: &Trace, call: usize) -> u64 {
    match trace.calls.as_slice().get(call) {
        Some(call) => end_of(call).unwrap_or(0),
        None => 0,
    }
}

/// Two harts' events are made in their order: two calls are finished, one is under way, and two starts are refused.
/// The steps' list explains that, and doesn't if one of them comes after its reply.
#[test]
fn events_come_in_order(rt: HostRuntime) {
    let alloc = rt.alloc();
    let bad = Cause::BadDescriptor;
    let lines = [
        Start(0, Fstat(3)),
        Do(1, Open(&LONG, READ), Refused(StartRefused::PathTooLong)),
        Start(7, Dup(16)),
        Do(0, Dup(0), Refused(StartRefused::Busy)),
        End(7, Failed(bad)),
        End(7, Idle),
        End(0, Failed(bad)),
        Start(0, Dup(0)),
    ];
    let mut disk = disk_of(&rt, alloc, SMALL);
    let base = tree_in(&rt, alloc, &mut disk);
    let (made, _disk) = play(&rt, alloc, disk, &lines);
    let trace = traced(&rt, alloc, &made);
    assert!(rt; trace.events == 8 && trace.calls.as_slice().len() == 3);
    let calls = [(0, 0, Some(6)), (7, 2, Some(4)), (0, 7, None)];
    for (call, wanted) in trace.calls.as_slice().iter().zip(calls) {
        assert!(rt; (call.hart, call.start, end_of(call)) == wanted);
    }
    let mut list = [
        placed(4, 1, 7, Action::Dup { fd: 16 }, failed(bad)),
        placed(6, 0, 0, Action::Fstat { fd: 3 }, failed(bad)),
    ];
    assert!(rt; explains(&rt, alloc, Version::One, &base, &trace, &list));
    list[0].event = 5;
    assert!(rt; !explains(&rt, alloc, Version::One, &base, &trace, &list));
}

/// A run goes on from the end of another, in the middle of a call.
#[test]
fn a_run_goes_on(rt: HostRuntime) {
    let alloc = rt.alloc();
    let row = [Do(2, Dup(1), Failed(Cause::BadDescriptor))];
    let (made, disk) = play(&rt, alloc, disk_of(&rt, alloc, SMALL), &row);
    let (begin, rest) = made
        .events
        .as_slice()
        .split_at_checked(1)
        .expect(&rt, "there is no event");
    let Run {
        world,
        outcomes: one,
        cut: _,
        doubt: _,
    } = ran(&rt, alloc, mounted(&rt, alloc, disk), begin);
    let Run {
        world,
        outcomes: other,
        cut: _,
        doubt: _,
    } = ran(&rt, alloc, world, rest);
    let _disk = world.unmount();
    let (one, other) = (one.as_slice(), other.as_slice());
    assert!(rt; one.len() == 1 && other.len().saturating_add(1) == made.outcomes.len());
    assert!(rt; matches!(other.last(), Some(Came::Stepped(Outcome::Done(_)))));
}

const MANY: usize = 20_000;

// A hart asks many times for a second descriptor of a file that isn't open.
fn many_calls(rt: &impl Abort, alloc: Global) -> Made {
    let mut events = Vec::new(alloc);
    let mut outcomes = Vec::new(alloc);
    for _ in 0..MANY {
        let (call, back) = (Call::Dup { fd: 0 }, Call::Dup { fd: 0 });
        let reply = Reply {
            answer: Answer::Failed(Cause::BadDescriptor),
            call: back,
        };
        push(rt, &mut events, Event::Start { hart: 0, call });
        push(rt, &mut outcomes, Came::Started);
        push(rt, &mut events, Event::Step { hart: 0 });
        push(rt, &mut outcomes, Came::Stepped(Outcome::Done(reply)));
    }
    Made { events, outcomes }
}

/// Many calls are traced, and their history is found, in a time that grows as their number does.
#[test]
fn many_calls_are_explained(rt: HostRuntime) {
    let alloc = rt.alloc();
    let base = tree_in(&rt, alloc, &mut disk_of(&rt, alloc, SMALL));
    let trace = traced(&rt, alloc, &many_calls(&rt, alloc));
    let mut calls = trace.calls.as_slice().iter();
    assert!(rt; calls.len() == MANY);
    assert!(rt; calls.all(|call| end_of(call) == call.start.checked_add(1)));
    let found = find_history(alloc, Version::One, &base, &trace, &[]).expect(&rt, "error");
    let list = found.expect(&rt, "nothing explains it");
    assert!(rt; list.len() == MANY);
}

/// A step after the unlinks explains a walk that finds the directory that it has reached removed, and no step before
/// them does.
#[test]
fn a_lost_walk_is_explained(rt: HostRuntime) {
    let alloc = rt.alloc();
    let lines = [
        Start(0, Open(b"/d/e/f", READ)),
        Upto(0, Kind::Unlock, 2),
        Do(1, Unlink(b"/d/e/f"), Done),
        Do(1, Unlink(b"/d/e"), Done),
        End(0, Failed(Cause::NoEntry)),
    ];
    let mut disk = disk_of(&rt, alloc, Image::Tree);
    let base = tree_in(&rt, alloc, &mut disk);
    let (made, _disk) = play(&rt, alloc, disk, &lines);
    let trace = traced(&rt, alloc, &made);
    let open = Action::Open {
        path: owned(&rt, alloc, b"/d/e/f"),
        flags: READ,
    };
    let file = Action::Unlink {
        path: owned(&rt, alloc, b"/d/e/f"),
    };
    let directory = Action::Unlink {
        path: owned(&rt, alloc, b"/d/e"),
    };
    let mut list = [
        placed(last_of(&trace, 1), 1, 1, file, StepAnswer::Done),
        placed(last_of(&trace, 2), 2, 1, directory, StepAnswer::Done),
        placed(last_of(&trace, 0), 0, 0, open, failed(Cause::NoEntry)),
    ];
    assert!(rt; explains(&rt, alloc, Version::One, &base, &trace, &list));
    list[2].event = 20;
    list.rotate_right(1);
    assert!(rt; !explains(&rt, alloc, Version::One, &base, &trace, &list));
}

// What is called at random.
const ASKS: &[Ask<'static>] = &[
    Open(b"/d/e/f", READ_AND_WRITE),
    Open(b"/d/g", READ_AND_WRITE),
    Open(b"../d/e/.", READ),
    Open(b"/h", TRUNCATE),
    Link(b"/d/e/f", b"/d/g"),
    Link(b"/d/g", b"/h"),
    Link(b"/h", b"/d/e/f"),
    Unlink(b"/d/e/f"),
    Unlink(b"/d/g"),
    Unlink(b"/h"),
    Unlink(b"/d/e"),
    Chdir(b"/d/e"),
    Chdir(b"/"),
    Read(0, 100),
    Write(0, b"hello"),
    Write(1, &LONG),
    Fill(0, 0, 5000),
    Dup(0),
    Fstat(1),
    Close(0),
    Close(1),
    Inherit(1),
    Inherit(4),
];

// A number that looks as if drawn, and isn't 0, after another that isn't.
fn next(number: u32) -> u32 {
    let number = number ^ (number << 13);
    let number = number ^ (number >> 17);
    number ^ (number << 5)
}

// Starts of calls and steps of eight harts, drawn.
fn drawn_events(rt: &impl Abort, alloc: Global) -> Vec<Event> {
    let mut events = Vec::new(alloc);
    let mut number = 1u32;
    for _ in 0..100_000 {
        number = next(number);
        let hart = (number % 8) as u8;
        if number >> 29 == 0 {
            let ask = &ASKS[(number >> 8) as usize % ASKS.len()];
            let call = call(rt, alloc, ask);
            push(rt, &mut events, Event::Start { hart, call });
        } else {
            push(rt, &mut events, Event::Step { hart });
        }
    }
    events
}

/// Eight harts start calls and step at random, 100,000 events; each call ends, and the image is well formed.
#[test]
fn eight_harts_at_random(rt: HostRuntime) {
    let alloc = rt.alloc();
    let mut events = drawn_events(&rt, alloc);
    for turn in 0..40_000u32 {
        let hart = (turn % 8) as u8;
        push(&rt, &mut events, Event::Step { hart });
    }
    let disk = disk_of(&rt, alloc, Image::Tree);
    let RunEnd {
        device,
        outcomes,
        cut: _,
        doubt: _,
    } = run_over(&rt, alloc, disk, events.as_slice());
    let _counts = counts(&rt, alloc, device);
    let trace = traced(&rt, alloc, &Made { events, outcomes });
    let mut calls = trace.calls.as_slice().iter();
    assert!(rt; trace.events == 140_000 && calls.len() > 1000);
    assert!(rt; calls.all(|call| call.finished.is_some()));
}
