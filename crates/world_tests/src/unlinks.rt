//! Unlinks of names in directories.
use crate::images::Image;
use crate::lists::are_run;
use crate::rows::Ask::{Chdir, Close, Fstat, Open, Read, Unlink};
use crate::rows::Line::{All, Do, Start};
use crate::rows::Says::{Bytes, Done, Failed, Fd, State};
use crate::rows::{LONGEST, READ, Row};
use plain_tree::{Cause, NodeType};

const ROWS: &[Row] = &[
    // A file goes with its name, and then each directory that has no entry left; its parent has a link fewer.
    (
        Image::Tree,
        &[
            Do(0, Unlink(b"/d/e/f"), Done),
            Do(0, Open(b"/d/e/f", READ), Failed(Cause::NoEntry)),
            Do(0, Unlink(b"d//e/"), Done),
            Do(0, Open(b"/d/e", READ), Failed(Cause::NoEntry)),
            Do(0, Open(b"/d", READ), Fd(0)),
            Do(0, Fstat(0), State(2, NodeType::Directory, 1, 48)),
            Do(0, Close(0), Done),
            Do(1, Unlink(b"/d/./../d"), Done),
            Do(0, Open(b"/", READ), Fd(0)),
            Do(0, Fstat(0), State(1, NodeType::Directory, 1, 1024)),
        ],
        (3, 0, 1),
    ),
    // A name that isn't there isn't unlinked, nor a dot, nor a directory with entries; and all stays as it was.
    (
        Image::Tree,
        &[
            Do(0, Unlink(b""), Failed(Cause::NoEntry)),
            Do(0, Unlink(b"/"), Failed(Cause::NoEntry)),
            Do(0, Unlink(b"/d/x"), Failed(Cause::NoEntry)),
            Do(0, Unlink(b"/x/f"), Failed(Cause::NoEntry)),
            Do(0, Unlink(b"/d/e/f/x"), Failed(Cause::NoEntry)),
            Do(0, Unlink(b"/d/e/f/."), Failed(Cause::NoEntry)),
            Do(0, Unlink(&LONGEST), Failed(Cause::NoEntry)),
            Do(0, Unlink(b"/."), Failed(Cause::DotName)),
            Do(0, Unlink(b".."), Failed(Cause::DotName)),
            Do(0, Unlink(b"/d/e/.."), Failed(Cause::DotName)),
            Do(0, Unlink(b"/d"), Failed(Cause::NotEmpty)),
            Do(0, Unlink(b"/d/e"), Failed(Cause::NotEmpty)),
            Do(0, Open(b"/d/e/f", READ), Fd(0)),
            Do(0, Fstat(0), State(4, NodeType::File, 1, 1)),
        ],
        (6, 0, 4),
    ),
    // A file that is open lives on without a name until it is closed; if the world ends before that, it stays on the
    // disk.
    (
        Image::Tree,
        &[
            Do(0, Open(b"/d/e/f", READ), Fd(0)),
            Do(1, Unlink(b"/d/e/f"), Done),
            Do(1, Unlink(b"/d/e/f"), Failed(Cause::NoEntry)),
            Do(0, Fstat(0), State(4, NodeType::File, 0, 1)),
            Do(0, Read(0, 2), Bytes(b"A")),
        ],
        (5, 1, 4),
    ),
    (
        Image::Tree,
        &[
            Do(0, Open(b"/d/e/f", READ), Fd(0)),
            Do(1, Unlink(b"/d/e/f"), Done),
            Do(0, Close(0), Done),
        ],
        (5, 0, 3),
    ),
    // In a directory that was removed nothing is found, not even its dots; a hart that is in it has it until it goes
    // elsewhere.
    (
        Image::Tree,
        &[
            Do(1, Chdir(b"/d/e"), Done),
            Do(1, Unlink(b"f"), Done),
            Do(0, Unlink(b"/d/e"), Done),
            Do(1, Unlink(b"f"), Failed(Cause::NoEntry)),
            Do(1, Unlink(b"."), Failed(Cause::NoEntry)),
            Do(1, Unlink(b"../e"), Failed(Cause::NoEntry)),
            Do(1, Open(b".", READ), Failed(Cause::NoEntry)),
            Do(1, Open(b"", READ), Fd(0)),
            Do(1, Fstat(0), State(3, NodeType::Directory, 0, 48)),
            Do(
                1,
                Read(0, 32),
                Bytes(b"\x03\0.\0\0\0\0\0\0\0\0\0\0\0\0\0\x02\0..\0\0\0\0\0\0\0\0\0\0\0\0"),
            ),
            Do(1, Read(0, 48), Bytes(&[0; 16])),
            Do(1, Close(0), Done),
            Do(1, Chdir(b"/d"), Done),
        ],
        (4, 0, 2),
    ),
    // Two harts unlink one name, step by step in turn: it goes once, and the hart that comes later finds it missing.
    (
        Image::Tree,
        &[
            Start(0, Unlink(b"/d/e/f")),
            Start(1, Unlink(b"/d/e/f")),
            All(&[Done, Failed(Cause::NoEntry)]),
        ],
        (5, 0, 3),
    ),
];

/// Each row has the results that it names, and is run again by its events.
#[test]
fn rows_are_run(rt: HostRuntime) {
    are_run(&rt, rt.alloc(), ROWS);
}
