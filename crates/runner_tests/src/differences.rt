//! What a closed kernel holds, and which replies it distinguishes from those of its list.
ghost use Rattle.std.specs.Prelude.{◌≡◌};

use crate::kernels::{
    all_of, called, closed, copied, first_two, image_with_f, mkdir, no_kernel, open, push, read,
};
use crate::runs::left_by;
use hart_core::trace;
use hart_runner::{Kernel, NoGate, Seat};
use locked_world::{Closed, is_same};
use plain_tree::{Answer, Call, Cause, Reply, TracedCall};
use std::alloc::Global;
use std::marker::Brand;
use std::process::Abort;
use std::sync::Wait;
use std::sync::ledger::{Blank, Ledger};

// The kernel's disk passes this number of calls, which is more than it needs.
const FUSE: u64 = 1_000_000;

// The first entry of the root.
const DOT: [u8; 16] = *b"\x01\0.\0\0\0\0\0\0\0\0\0\0\0\0\0";

const UNREAD: [u8; 16] = [9; 16];

// A reply that a hart is said to have got, by the place of one of the run's replies.
#[derive(Clone, Copy)]
enum Said {
    // that reply
    Had(usize),
    // its call with another answer
    Answered(usize),
    // its answer with another call handed back
    HandedBack(usize),
}

// A hart, the replies that it is said to have got, and the first place at which that isn't so.
type Row = (u8, &'static [Said], Option<u64>);

// Of the run's replies the first three are those of hart 0, and the fourth is that of hart 1.
const ROWS: [Row; 18] = [
    (0, &[Said::Had(0), Said::Had(1), Said::Had(2)], None),
    (1, &[Said::Had(3)], None),
    (2, &[], None),
    (0, &[Said::Had(0), Said::Had(1)], Some(2)),
    (0, &[Said::Had(0), Said::Had(2)], Some(1)),
    (0, &[Said::Had(1), Said::Had(2)], Some(0)),
    (0, &[], Some(0)),
    (1, &[], Some(0)),
    (
        0,
        &[Said::Had(0), Said::Had(1), Said::Had(2), Said::Had(2)],
        Some(3),
    ),
    (2, &[Said::Had(3)], Some(0)),
    (0, &[Said::Had(1), Said::Had(0), Said::Had(2)], Some(0)),
    (0, &[Said::Had(0), Said::Had(2), Said::Had(1)], Some(1)),
    (1, &[Said::Had(0)], Some(0)),
    (0, &[Said::Had(0), Said::Had(3), Said::Had(2)], Some(1)),
    (0, &[Said::Answered(0), Said::Had(1), Said::Had(2)], Some(0)),
    (0, &[Said::Had(0), Said::Had(1), Said::Answered(2)], Some(2)),
    (
        0,
        &[Said::Had(0), Said::HandedBack(1), Said::Had(2)],
        Some(1),
    ),
    (
        0,
        &[Said::Had(0), Said::Had(1), Said::HandedBack(2)],
        Some(2),
    ),
];

// The calls of hart 0 in their order, and that of hart 1.
#[derive(Drop)]
struct Calls {
    file: Call,
    root: Call,
    entry: Call,
    directory: Call,
}

// The calls, of which one reads over these bytes.
fn calls_over(rt: &impl Abort, alloc: Global, buf: &[u8; 16]) -> Calls {
    Calls {
        file: open(rt, alloc, b"/f"),
        root: open(rt, alloc, b"/"),
        entry: read(rt, alloc, 1, buf),
        directory: mkdir(rt, alloc, b"/a"),
    }
}

// What the calls are answered.
fn replies(rt: &impl Abort, alloc: Global) -> Vec<Reply> {
    let Calls {
        file,
        root,
        entry,
        directory,
    } = calls_over(rt, alloc, &DOT);
    let rows = [
        (Answer::Fd(0), file),
        (Answer::Fd(1), root),
        (Answer::Count(16), entry),
        (Answer::Done, directory),
    ];
    let mut replies = Vec::new(alloc);
    for (answer, call) in rows {
        push(rt, &mut replies, Reply { answer, call });
    }
    replies
}

// What one of these replies is said to have been.
fn say(rt: &impl Abort, alloc: Global, replies: &[Reply], said: Said) -> Option<Reply> {
    let (place, is_answered, is_handed_back) = match said {
        Said::Had(place) => (place, true, true),
        Said::Answered(place) => (place, false, true),
        Said::HandedBack(place) => (place, true, false),
    };
    let reply = replies.get(place)?;
    let answer = if is_answered {
        reply.answer
    } else {
        Answer::Failed(Cause::NoEntry)
    };
    let call = if is_handed_back {
        reply.call.clone().expect(rt, "error")
    } else {
        read(rt, alloc, 1, &UNREAD)
    };
    Some(Reply { answer, call })
}

fn say_all(rt: &impl Abort, alloc: Global, replies: &[Reply], row: &[Said]) -> Vec<Reply> {
    let mut all = Vec::new(alloc);
    for said in row {
        if let Some(reply) = say(rt, alloc, replies, *said) {
            push(rt, &mut all, reply);
        }
    }
    all
}

// Harts 0 and 1 make the calls.
fn make_calls<L: Ledger, R: Wait + Abort>(
    rt: &R,
    kernel: Kernel<L, NoGate>,
    seats: [Seat<L>; 8],
    calls: Calls,
) -> Closed<L>
    requires { L.parts ≡ 8 }
{
    let (a, b, others) = first_two(seats);
    let Calls {
        file,
        root,
        entry,
        directory,
    } = calls;
    let (a, _) = called(rt, &kernel, a, file);
    let (a, _) = called(rt, &kernel, a, root);
    let (a, _) = called(rt, &kernel, a, entry);
    let (b, _) = called(rt, &kernel, b, directory);
    closed(rt, kernel, all_of(a, b, others))
}

fn close_on<L: Ledger, R: Wait + Abort>(
    rt: &R,
    alloc: Global,
    blank: Blank,
    image: Vec<u8>,
    calls: Calls,
) -> Closed<L>
    requires name { blank.name ≡ L.name }
    requires parts { blank.parts ≡ L.parts }
    requires eight { blank.parts ≡ 8 }
{
    match Kernel::<L, NoGate>::open(alloc, blank, image, FUSE, NoGate) {
        Ok(opened) => {
            let (kernel, seats) = opened;
            make_calls(rt, kernel, seats, calls)
        }
        Err(fault) => no_kernel(rt, fault),
    }
}

fn is_answered(call: &TracedCall, reply: &Reply) -> bool {
    match &call.finished {
        Some((_, told)) => is_same(told, reply),
        None => false,
    }
}

// The events and outcomes show the calls with these replies.
fn shows<L: Ledger>(rt: &impl Abort, alloc: Global, closed: Closed<L>, replies: &[Reply]) {
    let left = left_by(rt, alloc, closed);
    let trace = trace(alloc, left.events.as_slice(), left.outcomes.as_slice()).expect(rt, "error");
    let calls = trace.calls.as_slice();
    assert!(rt; calls.len() == replies.len());
    for (call, reply) in calls.iter().zip(replies.iter()) {
        assert!(rt; is_answered(call, reply));
    }
}

// Each row differs at the place that it names.
fn differs<L: Ledger>(rt: &impl Abort, alloc: Global, closed: &Closed<L>, replies: &[Reply]) {
    for (number, (hart, row, wanted)) in ROWS.iter().enumerate() {
        let all = say_all(rt, alloc, replies, *row);
        let place = closed.difference(*hart, all.as_slice());
        assert!(rt; place == *wanted, "row {number}");
    }
}

fn look_into<L: Ledger, R: Wait + Abort>(
    rt: &R,
    alloc: Global,
    blank: Blank,
    image: &[u8],
    replies: &[Reply],
)
    requires name { blank.name ≡ L.name }
    requires parts { blank.parts ≡ L.parts }
    requires eight { blank.parts ≡ 8 }
{
    let (copy, calls) = (copied(rt, alloc, image), calls_over(rt, alloc, &UNREAD));
    let closed = close_on::<L, R>(rt, alloc, blank, copy, calls);
    assert!(rt; closed.image() == image && closed.fuse() == FUSE);
    differs(rt, alloc, &closed, replies);
    shows(rt, alloc, closed, replies);
}

/// A closed kernel has the image and the fuse that it was opened with, and its events show the calls with their
/// replies. It finds the first place at which other replies are not a hart's. There one is missing, is too many, is
/// another's, or has another answer or call.
#[test]
fn replies_differ(rt: HostRuntime) {
    let alloc = rt.alloc();
    let (image, wanted) = (image_with_f(&rt, alloc), replies(&rt, alloc));
    look_into::<Brand, HostRuntime>(
        &rt,
        alloc,
        Blank::new(8),
        image.as_slice(),
        wanted.as_slice(),
    );
}
