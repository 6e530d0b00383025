//! A hart's calls, each between two steps of a call of another one.
use crate::histories::history_of;
use crate::images::{Image, counts, disk_of};
use crate::lists::{holds, play, traced};
use crate::rows::Ask::{Close, Fill, Link, Mkdir, Open, Read, Unlink, Write};
use crate::rows::Line::{Between, Do};
use crate::rows::Says::{Count, Done, Fd};
use crate::rows::{Ask, CREATE, READ, READ_AND_WRITE, TRUNCATE, WRITE};
use std::alloc::Global;
use std::process::Abort;

// A call of hart 0, calls of hart 1 in turn, and what is on the disk then. These are nodes with a name, nodes without
// one, and blocks of contents.
type Meeting = (Ask<'static>, &'static [Ask<'static>], (u32, u32, u32));

// An inode is taken, and blocks, and given back.
const TAKES_AND_GIVES: &[Ask<'static>] = &[
    Open(b"/y", CREATE | WRITE),
    Fill(0, 0, 2100),
    Unlink(b"/y"),
    Close(0),
];

const READS: &[Ask<'static>] = &[Open(b"/f", READ), Read(0, 4000), Close(0)];

const EMPTIES: &[Ask<'static>] = &[Open(b"/f", TRUNCATE), Read(0, 10), Close(0)];

const WRITES: &[Ask<'static>] = &[Open(b"/f", WRITE), Write(0, b"hello"), Close(0)];

const MAKES_ANEW: &[Ask<'static>] = &[Unlink(b"/d/x"), Open(b"/d/x", CREATE), Close(0)];

const REMOVES_AND_MAKES: &[Ask<'static>] = &[Unlink(b"/d"), Mkdir(b"/d")];

const CLEARS_AND_MAKES: &[Ask<'static>] = &[
    Unlink(b"/d/x"),
    Unlink(b"/d"),
    Mkdir(b"/d"),
    Mkdir(b"/d/x"),
];

const LINKS: &[Ask<'static>] = &[Link(b"/f", b"/h"), Unlink(b"/h")];

const RENAMES: &[Ask<'static>] = &[
    Link(b"/f", b"/h"),
    Unlink(b"/f"),
    Link(b"/h", b"/f"),
    Unlink(b"/h"),
];

// Of other files, and then of the same ones.
const MEETINGS: &[Meeting] = &[
    (Fill(0, 7, 3500), TAKES_AND_GIVES, (3, 1, 8)),
    (Open(b"/d/x", CREATE), TAKES_AND_GIVES, (4, 1, 5)),
    (Mkdir(b"/d/x"), TAKES_AND_GIVES, (4, 1, 6)),
    (Open(b"/f", TRUNCATE), TAKES_AND_GIVES, (3, 1, 4)),
    (Unlink(b"/d"), TAKES_AND_GIVES, (2, 1, 4)),
    (Close(1), TAKES_AND_GIVES, (3, 0, 3)),
    (Fill(0, 7, 3500), READS, (3, 1, 8)),
    (Fill(0, 7, 3500), EMPTIES, (3, 1, 4)),
    (Read(0, 10), WRITES, (3, 1, 5)),
    (Unlink(b"/f"), READS, (2, 2, 5)),
    (Unlink(b"/f"), LINKS, (2, 2, 5)),
    (Link(b"/f", b"/d/g"), RENAMES, (3, 1, 5)),
    (Open(b"/d/x", CREATE), MAKES_ANEW, (4, 2, 5)),
    (Unlink(b"/d/x"), MAKES_ANEW, (4, 1, 5)),
    (Unlink(b"/d"), REMOVES_AND_MAKES, (3, 1, 5)),
    (Mkdir(b"/d"), REMOVES_AND_MAKES, (3, 1, 5)),
    (Mkdir(b"/d/x"), CLEARS_AND_MAKES, (4, 1, 6)),
    (Unlink(b"/d/x"), CLEARS_AND_MAKES, (4, 1, 6)),
];

// One list of tree steps explains all replies, and the image is in order, if the first `first` calls of hart 1 come
// before.
fn meets(rt: &impl Abort, alloc: Global, meeting: &Meeting, first: usize) {
    let (call, calls, left) = meeting;
    let lines = [
        Do(0, Open(b"/f", READ_AND_WRITE), Fd(0)),
        Do(0, Mkdir(b"/d"), Done),
        Do(0, Open(b"/g", CREATE | WRITE), Fd(1)),
        Do(0, Fill(1, 0, 1100), Count(1100)),
        Do(0, Unlink(b"/g"), Done),
        Between(call, *calls, first),
    ];
    let image = Image::WithFile(60, b"A");
    let mut old = disk_of(rt, alloc, image);
    let (made, disk) = play(rt, alloc, disk_of(rt, alloc, image), &lines);
    let trace = traced(rt, alloc, &made);
    let _list = history_of(rt, alloc, &mut old, &trace);
    let counts = counts(rt, alloc, disk);
    holds(rt, counts == *left, "with calls before:", first);
}

/// Whatever another hart does between two steps of a call, each has its own blocks and inodes, and all replies are those of one history.
#[test]
fn calls_come_between_steps(rt: HostRuntime) {
    for meeting in MEETINGS {
        for first in 0..meeting.1.len() {
            meets(&rt, rt.alloc(), meeting, first);
        }
    }
}
