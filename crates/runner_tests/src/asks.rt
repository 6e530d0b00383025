//! What harts call at work in one directory: rows with the answers that they may have.
use crate::kernels::{bytes, copied, push};
use crate::runs::LeftRun;
use hart_core::{Came, Event, Outcome};
use plain_tree::{Answer, Bytes, Call, Cause, Reply};
use std::alloc::Global;
use std::process::Abort;

// To write; the file may be made.
const CREATE: u32 = 0x201;

/// How many bytes a hart writes.
const WRITTEN: usize = 3;

// What a buffer has if nothing was read.
const UNREAD: u8 = u8::MAX;

/// A name in the root. Each hart has two of its own; it begins with another one of the four that all share than its neighbour.
#[derive(Clone, Copy)]
pub enum Name {
    Mine,
    Other,
    Shared(u8),
}

/// A call of a hart's work.
#[derive(Clone, Copy)]
pub enum Ask {
    Open(Name, u32),
    /// Of the hart's digit.
    Write(u32),
    Read(u32),
    Mkdir(Name),
    /// A further name of the hart's own file.
    Link(Name),
    Unlink(Name),
    Close(u32),
}

/// A call, and the two answers that it may have: of a shared name other harts decide which.
pub type Row = (Ask, Answer, Answer);

const MADE: Answer = Answer::Done;

const GONE: Answer = Answer::Failed(Cause::NoEntry);

const THERE: Answer = Answer::Failed(Cause::Exists);

/// A file of the hart's own with some of the shared names.
pub const FILES: [Row; 17] = [
    (Ask::Open(Name::Mine, CREATE), Answer::Fd(0), Answer::Fd(0)),
    (Ask::Write(0), Answer::Count(3), Answer::Count(3)),
    (Ask::Link(Name::Other), MADE, MADE),
    (Ask::Link(Name::Shared(0)), MADE, THERE),
    (Ask::Link(Name::Shared(1)), MADE, THERE),
    (Ask::Unlink(Name::Shared(2)), MADE, GONE),
    (Ask::Open(Name::Other, 0), Answer::Fd(1), Answer::Fd(1)),
    (Ask::Link(Name::Shared(2)), MADE, THERE),
    (Ask::Link(Name::Shared(3)), MADE, THERE),
    (Ask::Unlink(Name::Shared(0)), MADE, GONE),
    (Ask::Read(1), Answer::Count(3), Answer::Count(3)),
    (Ask::Unlink(Name::Shared(1)), MADE, GONE),
    (Ask::Unlink(Name::Mine), MADE, MADE),
    (Ask::Unlink(Name::Shared(3)), MADE, GONE),
    (Ask::Unlink(Name::Other), MADE, MADE),
    (Ask::Close(0), MADE, MADE),
    (Ask::Close(1), MADE, MADE),
];

/// Directories, one of the hart's own and others under shared names, beside a file.
pub const DIRECTORIES: [Row; 17] = [
    (Ask::Mkdir(Name::Mine), MADE, MADE),
    (Ask::Mkdir(Name::Shared(0)), MADE, THERE),
    (Ask::Open(Name::Other, CREATE), Answer::Fd(0), Answer::Fd(0)),
    (Ask::Mkdir(Name::Shared(1)), MADE, THERE),
    (Ask::Unlink(Name::Shared(2)), MADE, GONE),
    (Ask::Write(0), Answer::Count(3), Answer::Count(3)),
    (Ask::Mkdir(Name::Mine), THERE, THERE),
    (Ask::Unlink(Name::Shared(0)), MADE, GONE),
    (Ask::Open(Name::Other, 0), Answer::Fd(1), Answer::Fd(1)),
    (Ask::Mkdir(Name::Shared(3)), MADE, THERE),
    (Ask::Read(1), Answer::Count(3), Answer::Count(3)),
    (Ask::Unlink(Name::Shared(1)), MADE, GONE),
    (Ask::Close(0), MADE, MADE),
    (Ask::Unlink(Name::Other), MADE, MADE),
    (Ask::Unlink(Name::Shared(3)), MADE, GONE),
    (Ask::Unlink(Name::Mine), MADE, MADE),
    (Ask::Close(1), MADE, MADE),
];

/// What removes the remaining shared names.
pub const SWEEP: [Row; 4] = [
    (Ask::Unlink(Name::Shared(0)), MADE, GONE),
    (Ask::Unlink(Name::Shared(1)), MADE, GONE),
    (Ask::Unlink(Name::Shared(2)), MADE, GONE),
    (Ask::Unlink(Name::Shared(3)), MADE, GONE),
];

fn path(rt: &impl Abort, alloc: Global, hart: u8, name: Name) -> Bytes {
    let (letter, number) = match name {
        Name::Mine => (b'n', hart & 7),
        Name::Other => (b'm', hart & 7),
        Name::Shared(number) => (b's', hart.wrapping_add(number) & 3),
    };
    bytes(rt, alloc, &[b'/', letter, b'0' | number])
}

/// A hart's call.
pub fn call_of(rt: &impl Abort, alloc: Global, hart: u8, ask: Ask) -> Call {
    match ask {
        Ask::Open(name, flags) => Call::Open {
            path: path(rt, alloc, hart, name),
            flags,
        },
        Ask::Write(fd) => Call::Write {
            fd,
            bytes: bytes(rt, alloc, &[hart; WRITTEN]),
        },
        Ask::Read(fd) => Call::Read {
            fd,
            buf: bytes(rt, alloc, &[UNREAD; 4]),
        },
        Ask::Mkdir(name) => Call::Mkdir {
            path: path(rt, alloc, hart, name),
        },
        Ask::Link(name) => Call::Link {
            old: path(rt, alloc, hart, Name::Mine),
            new: path(rt, alloc, hart, name),
        },
        Ask::Unlink(name) => Call::Unlink {
            path: path(rt, alloc, hart, name),
        },
        Ask::Close(fd) => Call::Close { fd },
    }
}

/// What a hart calls by these rows, in their order.
pub fn calls_of(rt: &impl Abort, alloc: Global, hart: u8, rows: &[Row]) -> Vec<Call> {
    let mut calls = Vec::new(alloc);
    for (ask, _, _) in rows {
        push(rt, &mut calls, call_of(rt, alloc, hart, *ask));
    }
    calls
}

// Whether a call is handed back as it may be: a read with what the hart has written.
fn is_handed_back(hart: u8, call: &Call) -> bool {
    match call {
        Call::Read { fd: _, buf } => buf.as_slice() == [hart, hart, hart, UNREAD].as_slice(),
        _ => true,
    }
}

/// The rows of each hart.
#[derive(Drop)]
pub struct Rounds {
    harts: [Vec<Row>; 8],
}

impl Rounds {
    /// The same rows for each hart.
    pub fn new(rt: &impl Abort, alloc: Global, rows: &[Row]) -> Rounds {
        let harts = [
            copied(rt, alloc, rows),
            copied(rt, alloc, rows),
            copied(rt, alloc, rows),
            copied(rt, alloc, rows),
            copied(rt, alloc, rows),
            copied(rt, alloc, rows),
            copied(rt, alloc, rows),
            copied(rt, alloc, rows),
        ];
        Rounds { harts }
    }

    /// Further rows for a hart.
    pub fn add(&mut self, rt: &impl Abort, hart: u8, rows: &[Row]) {
        if let Some(all) = self.harts.get_mut(usize::from(hart)) {
            all.extend_from_slice(rows).expect(rt, "error");
        }
    }

    /// A hart's rows, in their order.
    pub fn rows(&self, hart: u8) -> &[Row] {
        match self.harts.get(usize::from(hart)) {
            Some(rows) => rows.as_slice(),
            None => &[],
        }
    }

    /// The calls of each hart.
    pub fn calls(&self, rt: &impl Abort, alloc: Global) -> [Vec<Call>; 8] {
        [
            calls_of(rt, alloc, 0, self.rows(0)),
            calls_of(rt, alloc, 1, self.rows(1)),
            calls_of(rt, alloc, 2, self.rows(2)),
            calls_of(rt, alloc, 3, self.rows(3)),
            calls_of(rt, alloc, 4, self.rows(4)),
            calls_of(rt, alloc, 5, self.rows(5)),
            calls_of(rt, alloc, 6, self.rows(6)),
            calls_of(rt, alloc, 7, self.rows(7)),
        ]
    }

    // Whether a hart's reply is one that its row may have; `place` is the number of replies before it.
    fn is_good(&self, hart: u8, place: usize, reply: &Reply) -> bool {
        match self.rows(hart).get(place) {
            Some((_, one, other)) => {
                (reply.answer == *one || reply.answer == *other)
                    && is_handed_back(hart, &reply.call)
            }
            None => false,
        }
    }

    /// How many replies of a run are replies that their rows may have.
    pub fn count_good(&self, run: &LeftRun) -> u32 {
        let mut places = [0usize; 8];
        let mut good: u32 = 0;
        for (event, came) in run.events.iter().zip(run.outcomes.iter()) {
            if let (Event::Step { hart }, Came::Stepped(Outcome::Done(reply))) = (event, came) {
                let at = usize::from(*hart & 7);
                if self.is_good(*hart, places[at], reply) {
                    good = good.saturating_add(1);
                }
                places[at] = places[at].saturating_add(1);
            }
        }
        good
    }
}
