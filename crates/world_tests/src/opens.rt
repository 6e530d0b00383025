//! Opens, changes of directory, and calls on descriptors.
use crate::images::{Image, SMALL};
use crate::lists::are_run;
use crate::rows::Ask::{Chdir, Close, Dup, Fstat, Link, Mkdir, Open, Read, Unlink, Write};
use crate::rows::Line::{All, Do, End, Start, Upto};
use crate::rows::Says::{Bytes, Count, Done, Failed, Fd, Idle, Refused, State, Waits};
use crate::rows::{LONG, LONGEST, READ, READ_AND_WRITE, Row, TRUNCATE, WRITE};
use fs_machine::Kind;
use hart_core::StartRefused;
use plain_tree::{Cause, NodeType};

const ROWS: &[Row] = &[
    // On a fresh image the root opens, by its name and by an empty path. It gives its state and is read, and it has
    // no parent.
    (
        SMALL,
        &[
            Do(0, Open(b"", READ), Fd(0)),
            Do(0, Open(b"/", READ), Fd(1)),
            Do(0, Fstat(0), State(1, NodeType::Directory, 1, 1024)),
            Do(0, Fstat(1), State(1, NodeType::Directory, 1, 1024)),
            Do(0, Dup(1), Fd(2)),
            Do(
                0,
                Read(2, 32),
                Bytes(b"\x01\0.\0\0\0\0\0\0\0\0\0\0\0\0\0\x01\0..\0\0\0\0\0\0\0\0\0\0\0\0"),
            ),
            Do(0, Read(1, 1), Bytes(b"\0")),
            Do(0, Unlink(b"/"), Failed(Cause::NoEntry)),
        ],
        (1, 0, 1),
    ),
    // Paths lead through directories, their parents and themselves, from the root or from the hart's directory.
    (
        Image::Tree,
        &[
            Do(0, Open(b"/d/e/f", READ), Fd(0)),
            Do(0, Fstat(0), State(4, NodeType::File, 1, 1)),
            Do(0, Open(b"//d/./e/../e//f", READ_AND_WRITE), Fd(1)),
            Do(0, Fstat(1), State(4, NodeType::File, 1, 1)),
            Do(0, Open(b"../d/e/", READ), Fd(2)),
            Do(0, Fstat(2), State(3, NodeType::Directory, 1, 48)),
            Do(0, Chdir(b"d/e"), Done),
            Do(0, Open(b"f", READ), Fd(3)),
            Do(0, Fstat(3), State(4, NodeType::File, 1, 1)),
            Do(0, Open(b"..", READ), Fd(4)),
            Do(0, Fstat(4), State(2, NodeType::Directory, 2, 48)),
            Do(1, Open(b"f", READ), Failed(Cause::NoEntry)),
        ],
        (6, 0, 4),
    ),
    // A name that isn't there isn't opened, nor a directory for writing, nor a device without a driver; and only a
    // directory becomes a hart's.
    (
        Image::Tree,
        &[
            Do(0, Open(b"/d/x", READ), Failed(Cause::NoEntry)),
            Do(0, Open(b"/d/x/f", READ), Failed(Cause::NoEntry)),
            Do(0, Open(b"/d/e/f/x", READ), Failed(Cause::NoEntry)),
            Do(0, Open(&LONGEST, READ), Failed(Cause::NoEntry)),
            Do(0, Open(b"/d", WRITE), Failed(Cause::IsDirectory)),
            Do(0, Open(b"/d", TRUNCATE), Failed(Cause::IsDirectory)),
            Do(0, Open(b"/u", READ), Failed(Cause::NoDriver)),
            Do(0, Chdir(b"/d/x"), Failed(Cause::NoEntry)),
            Do(0, Chdir(b"/d/e/f"), Failed(Cause::NotDirectory)),
            Do(0, Open(b"d", READ), Fd(0)),
        ],
        (6, 0, 4),
    ),
    // A start is refused if there is no such hart, or if the hart has a call. It is refused if a path is too long or
    // has a zero byte, and if too much would be read.
    (
        SMALL,
        &[
            Do(8, Open(&LONG, READ), Refused(StartRefused::NoSuchHart)),
            Do(1, Open(&LONG, READ), Refused(StartRefused::PathTooLong)),
            Do(1, Chdir(b"/a\0b"), Refused(StartRefused::ZeroInPath)),
            Do(1, Unlink(&LONG), Refused(StartRefused::PathTooLong)),
            Do(1, Link(&LONG, b"/\0"), Refused(StartRefused::PathTooLong)),
            Do(1, Link(b"/a", b"/\0"), Refused(StartRefused::ZeroInPath)),
            Do(1, Read(0, 524_289), Refused(StartRefused::TooLong)),
            Do(1, Mkdir(b"/\0"), Refused(StartRefused::ZeroInPath)),
            Start(1, Open(b"/", READ)),
            Do(1, Open(&LONG, READ), Refused(StartRefused::Busy)),
            End(0, Idle),
            End(8, Idle),
            End(1, Fd(0)),
            End(1, Idle),
        ],
        (1, 0, 1),
    ),
    // A call on a descriptor that isn't open is refused. So is a read by a descriptor that isn't open to read, and of
    // a device.
    (
        Image::Tree,
        &[
            Do(0, Fstat(3), Failed(Cause::BadDescriptor)),
            Do(7, Dup(16), Failed(Cause::BadDescriptor)),
            Do(3, Close(4_294_967_295), Failed(Cause::BadDescriptor)),
            Do(5, Read(15, 524_288), Failed(Cause::BadDescriptor)),
            Do(5, Write(0, b"x"), Failed(Cause::BadDescriptor)),
            Do(0, Open(b"/d/e/f", WRITE), Fd(0)),
            Do(0, Read(0, 1), Failed(Cause::BadMode)),
            Do(0, Open(b"/t", READ_AND_WRITE), Fd(1)),
            Do(0, Fstat(1), State(5, NodeType::Device, 1, 0)),
            Do(0, Read(1, 1), Failed(Cause::NoDriver)),
            Do(0, Write(1, b"x"), Failed(Cause::NoDriver)),
            Do(0, Close(0), Done),
            Do(0, Close(0), Failed(Cause::BadDescriptor)),
        ],
        (6, 0, 4),
    ),
    // An open that empties a file gives its block back, and all who have it open see that.
    (
        Image::Tree,
        &[
            Do(0, Open(b"/d/e/f", READ), Fd(0)),
            Do(1, Open(b"/d/e/f", TRUNCATE), Fd(0)),
            Do(0, Fstat(0), State(4, NodeType::File, 1, 0)),
            Do(0, Read(0, 1), Count(0)),
        ],
        (6, 0, 3),
    ),
    // Each open reserves ten blocks of the log: of 29 two, of 30 three may be under way; the next one waits.
    (
        Image::ShortLog,
        &[
            Start(0, Open(b"/", READ)),
            Start(1, Open(b"/", READ)),
            Start(2, Open(b"/", READ)),
            Upto(0, Kind::Join, 1),
            Upto(1, Kind::Join, 1),
            End(2, Waits),
        ],
        (1, 0, 1),
    ),
    (
        SMALL,
        &[
            Start(0, Open(b"/", READ)),
            Start(1, Open(b"/", READ)),
            Start(2, Open(b"/", READ)),
            Start(3, Open(b"/", READ)),
            Upto(0, Kind::Join, 1),
            Upto(1, Kind::Join, 1),
            Upto(2, Kind::Join, 1),
            End(3, Waits),
            End(1, Fd(0)),
            End(3, Fd(0)),
        ],
        (1, 0, 1),
    ),
    // A read waits for an inode's lock, and goes on after the other one. Two opens of one file, step by step in turn,
    // both succeed.
    (
        Image::WithFile(400, b"hello"),
        &[
            Start(0, Open(b"/f", READ)),
            Start(1, Open(b"/f", READ)),
            All(&[Fd(0), Fd(0)]),
            Start(0, Read(0, 3)),
            Upto(0, Kind::Lock, 1),
            Do(1, Read(0, 9), Waits),
            End(0, Bytes(b"hel")),
            End(1, Bytes(b"hello")),
        ],
        (2, 0, 2),
    ),
    // A walk is lost if the directory that it has reached is removed.
    (
        Image::Tree,
        &[
            Start(0, Open(b"/d/e/f", READ)),
            Upto(0, Kind::Unlock, 2),
            Do(1, Unlink(b"/d/e/f"), Done),
            Do(1, Unlink(b"/d/e"), Done),
            End(0, Failed(Cause::NoEntry)),
        ],
        (4, 0, 2),
    ),
    // A path that climbs is resolved although it names nothing at any one moment.
    (
        Image::Tree,
        &[
            Do(0, Chdir(b"/d/e"), Done),
            Do(1, Link(b"/d/e/f", b"/g"), Done),
            Do(1, Unlink(b"/d/e/f"), Done),
            Start(0, Open(b"../c", READ)),
            Upto(0, Kind::Unlock, 1),
            Do(1, Unlink(b"/d/e"), Done),
            Do(1, Link(b"/g", b"/d/c"), Done),
            End(0, Fd(0)),
        ],
        (5, 1, 4),
    ),
];

/// Each row has the results that it names, and is run again by its events.
#[test]
fn rows_are_run(rt: HostRuntime) {
    are_run(&rt, rt.alloc(), ROWS);
}
