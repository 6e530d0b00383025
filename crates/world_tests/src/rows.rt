//! Rows: what harts do, line by line, and the outcome of each line.
use crate::images::Image;
use crate::memory::{copied, push};
use fs_machine::Kind;
use hart_core::{Came, Outcome, StartRefused};
use plain_tree::{Answer, Bytes, Call, Cause, Full, NodeType, Reply, Stat};
use std::alloc::Global;
use std::process::Abort;

pub const READ: u32 = 0;

pub const WRITE: u32 = 1;

pub const READ_AND_WRITE: u32 = 2;

pub const CREATE: u32 = 0x200;

pub const TRUNCATE: u32 = 0x400;

/// A path that is too long by one byte.
pub const LONG: [u8; 128] = [b'a'; 128];

/// The longest path.
pub const LONGEST: [u8; 127] = [b'a'; 127];

/// A call, with its paths or bytes as a row has them.
#[derive(Drop)]
pub enum Ask<'a> {
    Open(&'a [u8], u32),
    /// A read into this many bytes of memory.
    Read(u32, usize),
    Write(u32, &'a [u8]),
    /// A write of the pattern's bytes: from this place on, and this number of them.
    Fill(u32, usize, usize),
    Link(&'a [u8], &'a [u8]),
    Unlink(&'a [u8]),
    Mkdir(&'a [u8]),
    Chdir(&'a [u8]),
    Dup(u32),
    Fstat(u32),
    Close(u32),
    Inherit(u8),
}

/// The outcome of a line.
#[derive(Drop)]
pub enum Says<'a> {
    Fd(u32),
    Count(u32),
    /// A read of these bytes.
    Bytes(&'a [u8]),
    /// A read of the pattern's bytes: from this place on, and this number of them.
    Pattern(usize, u32),
    /// The number, kind, links and size of an inode.
    State(u16, NodeType, u16, u64),
    Done,
    Failed(Cause),
    NoRoom(Full),
    Started,
    Refused(StartRefused),
    Waits,
    Idle,
    Ran(Kind),
}

/// What a hart does, and the outcome.
#[derive(Drop)]
pub enum Line<'a> {
    /// A call from its start to its end, or to a wait.
    Do(u8, Ask<'a>, Says<'a>),
    /// A call is started.
    Start(u8, Ask<'a>),
    /// Steps, until this number of this kind have run.
    Upto(u8, Kind, u32),
    /// Steps to the call's end, or to a wait.
    End(u8, Says<'a>),
    /// Steps of the harts from 0 on in turn, until the call of each has ended.
    All(&'a [Says<'a>]),
    /// A call of hart 0. Before each of its steps hart 1 makes one of these calls, in turn. The number says how many
    /// of them come before the call starts. At the end hart 1 makes all of them once more.
    Between(&'a Ask<'a>, &'a [Ask<'a>], usize),
}

/// An image, lines, and what is on the disk then: nodes with a name, nodes without one, and blocks of contents.
pub type Row = (Image, &'static [Line<'static>], (u32, u32, u32));

// The byte at a place of the pattern.
fn byte_at(place: usize) -> u8 {
    (place % 251) as u8
}

fn pattern(rt: &impl Abort, alloc: Global, from: usize, count: usize) -> Bytes {
    let mut bytes = Vec::new(alloc);
    for i in 0..count {
        push(rt, &mut bytes, byte_at(from.saturating_add(i)));
    }
    Bytes::new(bytes)
}

/// Bytes of their own.
pub fn owned(rt: &impl Abort, alloc: Global, bytes: &[u8]) -> Bytes {
    Bytes::new(copied(rt, alloc, bytes))
}

/// The call, with paths and bytes of its own.
pub fn call(rt: &impl Abort, alloc: Global, ask: &Ask) -> Call {
    match ask {
        Ask::Open(path, flags) => Call::Open {
            path: owned(rt, alloc, *path),
            flags: *flags,
        },
        Ask::Read(fd, count) => Call::Read {
            fd: *fd,
            buf: pattern(rt, alloc, 1, *count),
        },
        Ask::Write(fd, written) => Call::Write {
            fd: *fd,
            bytes: owned(rt, alloc, *written),
        },
        Ask::Fill(fd, from, count) => Call::Write {
            fd: *fd,
            bytes: pattern(rt, alloc, *from, *count),
        },
        Ask::Link(old, new) => Call::Link {
            old: owned(rt, alloc, *old),
            new: owned(rt, alloc, *new),
        },
        Ask::Unlink(path) => Call::Unlink {
            path: owned(rt, alloc, *path),
        },
        Ask::Mkdir(path) => Call::Mkdir {
            path: owned(rt, alloc, *path),
        },
        Ask::Chdir(path) => Call::Chdir {
            path: owned(rt, alloc, *path),
        },
        Ask::Dup(fd) => Call::Dup { fd: *fd },
        Ask::Fstat(fd) => Call::Fstat { fd: *fd },
        Ask::Close(fd) => Call::Close { fd: *fd },
        Ask::Inherit(child) => Call::Inherit { child: *child },
    }
}

// Whether a read's memory begins with `count` of the pattern's bytes, from a place on.
fn has_pattern(call: &Call, from: usize, count: u32) -> bool {
    let Call::Read { fd: _, buf } = call else {
        return false;
    };
    let read = buf.as_slice();
    for i in 0..count as usize {
        if read.get(i) != Some(&byte_at(from.saturating_add(i))) {
            return false;
        }
    }
    true
}

fn has_bytes(call: &Call, bytes: &[u8]) -> bool {
    match call {
        Call::Read { fd: _, buf } => buf.as_slice().starts_with(bytes),
        _ => false,
    }
}

fn is_answer(reply: &Reply, says: &Says) -> bool {
    let answer = reply.answer;
    match says {
        Says::Fd(fd) => answer == Answer::Fd(*fd),
        Says::Count(count) => answer == Answer::Count(*count),
        Says::Bytes(bytes) => {
            answer == Answer::Count(bytes.len().min(u32::MAX as usize) as u32)
                && has_bytes(&reply.call, *bytes)
        }
        Says::Pattern(from, count) => {
            answer == Answer::Count(*count) && has_pattern(&reply.call, *from, *count)
        }
        Says::State(inode, kind, nlink, size) => {
            answer
                == Answer::Stat(Stat {
                    device: 1,
                    inode: *inode,
                    kind: *kind,
                    nlink: *nlink,
                    size: *size,
                })
        }
        Says::Done => answer == Answer::Done,
        Says::Failed(cause) => answer == Answer::Failed(*cause),
        Says::NoRoom(full) => answer == Answer::Full(*full),
        _ => false,
    }
}

fn is_outcome(outcome: &Outcome, says: &Says) -> bool {
    match outcome {
        Outcome::Done(reply) => is_answer(reply, says),
        Outcome::Ran(ran) => matches!(says, Says::Ran(kind) if kind == ran),
        Outcome::Waits => matches!(says, Says::Waits),
        Outcome::Idle => matches!(says, Says::Idle),
        Outcome::Stopped(_) => false,
    }
}

/// Whether an event had the outcome that a row names.
pub fn is_told(came: &Came, says: &Says) -> bool {
    match came {
        Came::Started => matches!(says, Says::Started),
        Came::Refused(why) => matches!(says, Says::Refused(refused) if refused == why),
        Came::Stepped(outcome) => is_outcome(outcome, says),
    }
}
