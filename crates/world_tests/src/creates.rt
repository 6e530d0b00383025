//! New files and directories.
use crate::images::{Image, SMALL, disk_of};
use crate::lists::{are_run, play};
use crate::rows::Ask::{Chdir, Close, Dup, Fstat, Mkdir, Open, Read, Unlink, Write};
use crate::rows::Line::{All, Do, Start};
use crate::rows::Says::{Bytes, Count, Done, Failed, Fd, NoRoom, State};
use crate::rows::{CREATE, Line, READ, READ_AND_WRITE, Row, TRUNCATE, WRITE};
use plain_tree::{Cause, Full, NodeType};
use std::ops::Range;

const ROWS: &[Row] = &[
    // An open makes a file, and mkdir a directory, which has "." and ".." and gives its parent a link. Another hart
    // finds both at once.
    (
        Image::Tree,
        &[
            Do(0, Open(b"/d/x", CREATE | READ_AND_WRITE), Fd(0)),
            Do(0, Fstat(0), State(7, NodeType::File, 1, 0)),
            Do(0, Write(0, b"hello"), Count(5)),
            Do(1, Open(b"d//x", CREATE), Fd(0)),
            Do(1, Read(0, 8), Bytes(b"hello")),
            Do(2, Mkdir(b"/d/y"), Done),
            Do(1, Chdir(b"/d/y"), Done),
            Do(1, Open(b"", READ), Fd(1)),
            Do(1, Fstat(1), State(8, NodeType::Directory, 1, 32)),
            Do(
                1,
                Read(1, 64),
                Bytes(b"\x08\0.\0\0\0\0\0\0\0\0\0\0\0\0\0\x02\0..\0\0\0\0\0\0\0\0\0\0\0\0"),
            ),
            Do(1, Open(b"..", READ), Fd(2)),
            Do(1, Fstat(2), State(2, NodeType::Directory, 3, 80)),
            Do(1, Open(b"a name of 15 by", CREATE | WRITE), Fd(3)),
            Do(0, Open(b"/d/y/a name of 15 b", TRUNCATE), Fd(1)),
            Do(0, Fstat(1), State(9, NodeType::File, 1, 0)),
        ],
        (9, 0, 6),
    ),
    // A file that is there is opened, and emptied if the open empties, but no directory is. Nothing is made if there
    // is no directory, or in one that was removed, and no directory is made under a name that is there.
    (
        Image::Tree,
        &[
            Do(0, Open(b"/d/e", CREATE), Failed(Cause::IsDirectory)),
            Do(0, Open(b"/d/e/..", CREATE), Failed(Cause::IsDirectory)),
            Do(0, Open(b"/u", CREATE), Failed(Cause::NoDriver)),
            Do(0, Open(b"/t", CREATE), Fd(0)),
            Do(0, Open(b"/d/e/f", CREATE | TRUNCATE), Fd(1)),
            Do(0, Fstat(1), State(4, NodeType::File, 1, 0)),
            Do(0, Open(b"/x/f", CREATE), Failed(Cause::NoEntry)),
            Do(0, Open(b"/d/e/f/x", CREATE), Failed(Cause::NoEntry)),
            Do(0, Open(b"/", CREATE), Failed(Cause::NoEntry)),
            Do(0, Mkdir(b""), Failed(Cause::NoEntry)),
            Do(0, Mkdir(b"/x/f"), Failed(Cause::NoEntry)),
            Do(0, Mkdir(b"/d/e/f"), Failed(Cause::Exists)),
            Do(0, Mkdir(b"/d/."), Failed(Cause::Exists)),
            Do(1, Chdir(b"/d/e"), Done),
            Do(1, Unlink(b"f"), Done),
            Do(0, Unlink(b"/d/e"), Done),
            Do(1, Open(b"x", CREATE), Failed(Cause::NoEntry)),
            Do(1, Mkdir(b"x"), Failed(Cause::NoEntry)),
            Do(1, Chdir(b"/"), Done),
            Do(0, Close(1), Done),
        ],
        (4, 0, 2),
    ),
    // Two harts make one name, step by step in turn: the first of them makes it. An open of the other finds the file, a mkdir is refused.
    (
        Image::Tree,
        &[
            Start(0, Mkdir(b"/d/x")),
            Start(1, Mkdir(b"/d/x")),
            All(&[Done, Failed(Cause::Exists)]),
            Start(0, Open(b"/d/y", CREATE)),
            Start(1, Open(b"/d/y", CREATE)),
            All(&[Fd(0), Fd(0)]),
            Do(0, Fstat(0), State(8, NodeType::File, 1, 0)),
            Do(1, Fstat(0), State(8, NodeType::File, 1, 0)),
        ],
        (8, 0, 5),
    ),
    // In a directory without a free slot nothing is made.
    (
        Image::Crowded,
        &[
            Do(0, Open(b"/x", CREATE), NoRoom(Full::Directory)),
            Do(0, Mkdir(b"/x"), NoRoom(Full::Directory)),
            Do(0, Mkdir(b"/d/x"), Done),
        ],
        (4, 0, 539),
    ),
    // A file that an open has made stays if no descriptor is left for it.
    (
        SMALL,
        &[
            Do(0, Open(b"/", READ), Fd(0)),
            Do(0, Dup(0), Fd(1)),
            Do(0, Dup(0), Fd(2)),
            Do(0, Dup(0), Fd(3)),
            Do(0, Dup(0), Fd(4)),
            Do(0, Dup(0), Fd(5)),
            Do(0, Dup(0), Fd(6)),
            Do(0, Dup(0), Fd(7)),
            Do(0, Dup(0), Fd(8)),
            Do(0, Dup(0), Fd(9)),
            Do(0, Dup(0), Fd(10)),
            Do(0, Dup(0), Fd(11)),
            Do(0, Dup(0), Fd(12)),
            Do(0, Dup(0), Fd(13)),
            Do(0, Dup(0), Fd(14)),
            Do(0, Dup(0), Fd(15)),
            Do(0, Open(b"/x", CREATE), NoRoom(Full::Descriptors)),
            Do(1, Open(b"/x", READ), Fd(0)),
            Do(1, Fstat(0), State(2, NodeType::File, 1, 0)),
        ],
        (2, 0, 1),
    ),
];

// Inodes 5 and 6 of the image with a tree: an empty file, and a directory with one block.
const INODES: Range<usize> = 34_112..34_240;

const MADE: &[u8] = b"\x02\0\0\0\0\0\x01\0\0\0\0\0\0\0\0\0\0\0\0\0\0\0\0\0\0\0\0\0\0\0\0\0\
    \0\0\0\0\0\0\0\0\0\0\0\0\0\0\0\0\0\0\0\0\0\0\0\0\0\0\0\0\0\0\0\0\
    \x01\0\0\0\0\0\x01\0\x20\0\0\0\x33\0\0\0\0\0\0\0\0\0\0\0\0\0\0\0\0\0\0\0\
    \0\0\0\0\0\0\0\0\0\0\0\0\0\0\0\0\0\0\0\0\0\0\0\0\0\0\0\0\0\0\0\0";

/// A directory and a file that take the inodes of removed devices have nothing of these, not even the device numbers.
#[test]
fn new_inodes_have_no_device_numbers(rt: HostRuntime) {
    const LINES: &[Line] = &[
        Do(0, Unlink(b"/u"), Done),
        Do(0, Mkdir(b"/d/y"), Done),
        Do(0, Unlink(b"/t"), Done),
        Do(0, Open(b"/x", CREATE), Fd(0)),
    ];
    let disk = disk_of(&rt, rt.alloc(), Image::Tree);
    let (_made, disk) = play(&rt, rt.alloc(), disk, LINES);
    assert!(rt; disk.into_bytes().as_slice().get(INODES) == Some(MADE));
}

/// Each row has the results that it names, and is run again by its events.
#[test]
fn rows_are_run(rt: HostRuntime) {
    are_run(&rt, rt.alloc(), ROWS);
}
