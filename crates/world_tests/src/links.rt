//! Links of files under other names.
use crate::images::Image;
use crate::lists::are_run;
use crate::rows::Ask::{Chdir, Fstat, Link, Open, Read, Unlink};
use crate::rows::Line::{All, Do, End, Start, Upto};
use crate::rows::Says::{Bytes, Done, Failed, Fd, NoRoom, State};
use crate::rows::{READ, READ_AND_WRITE, Row};
use fs_machine::Kind;
use plain_tree::{Cause, Full, NodeType};

const ROWS: &[Row] = &[
    // A file gets another name: it opens by both, and has two links. The directory of the new name is as large as
    // before if a slot was free, and else has one slot more.
    (
        Image::Tree,
        &[
            Do(0, Link(b"/d/e/f", b"/g"), Done),
            Do(0, Open(b"/g", READ), Fd(0)),
            Do(1, Open(b"/d/e/f", READ_AND_WRITE), Fd(0)),
            Do(0, Fstat(0), State(4, NodeType::File, 2, 1)),
            Do(0, Link(b"g", b"d/e/../h"), Done),
            Do(1, Fstat(0), State(4, NodeType::File, 3, 1)),
            Do(0, Open(b"/", READ), Fd(1)),
            Do(0, Fstat(1), State(1, NodeType::Directory, 2, 1024)),
            Do(0, Open(b"/d", READ), Fd(2)),
            Do(0, Fstat(2), State(2, NodeType::Directory, 2, 64)),
        ],
        (6, 0, 4),
    ),
    // No directory is linked, no name is linked that is there, and none if there is no directory; the file still has
    // its one link.
    (
        Image::Tree,
        &[
            Do(0, Link(b"/d", b"/x"), Failed(Cause::IsDirectory)),
            Do(0, Link(b"/", b"/x"), Failed(Cause::IsDirectory)),
            Do(0, Link(b"/d/e/..", b"/d/x"), Failed(Cause::IsDirectory)),
            Do(0, Link(b"/d/x", b"/x"), Failed(Cause::NoEntry)),
            Do(0, Link(b"/d/e/f/x", b"/x"), Failed(Cause::NoEntry)),
            Do(0, Link(b"/d/e/f", b"/d"), Failed(Cause::Exists)),
            Do(0, Link(b"/d/e/f", b"/d/e/f"), Failed(Cause::Exists)),
            Do(0, Link(b"/d/e/f", b"/d/e/.."), Failed(Cause::Exists)),
            Do(0, Link(b"/d/e/f", b"/x/y"), Failed(Cause::NoEntry)),
            Do(0, Link(b"/d/e/f", b"/d/e/f/x"), Failed(Cause::NoEntry)),
            Do(0, Link(b"/d/e/f", b"/"), Failed(Cause::NoEntry)),
            Do(0, Link(b"/d/e/f", b""), Failed(Cause::NoEntry)),
            Do(0, Open(b"/d/e/f", READ), Fd(0)),
            Do(0, Fstat(0), State(4, NodeType::File, 1, 1)),
        ],
        (6, 0, 4),
    ),
    // The name that a link names may go meanwhile; and another hart sees the count raised until the link has found its name there.
    (
        Image::Tree,
        &[
            Start(0, Link(b"/d/e/f", b"/g")),
            Upto(0, Kind::Unlock, 4),
            Do(1, Unlink(b"/d/e/f"), Done),
            End(0, Done),
            Do(0, Open(b"/g", READ), Fd(0)),
            Do(0, Fstat(0), State(4, NodeType::File, 1, 1)),
            Do(0, Read(0, 9), Bytes(b"A")),
        ],
        (6, 0, 4),
    ),
    (
        Image::Tree,
        &[
            Do(1, Open(b"/d/e/f", READ), Fd(0)),
            Start(0, Link(b"/d/e/f", b"/t")),
            Upto(0, Kind::Unlock, 4),
            Do(1, Fstat(0), State(4, NodeType::File, 2, 1)),
            End(0, Failed(Cause::Exists)),
            Do(1, Fstat(0), State(4, NodeType::File, 1, 1)),
        ],
        (6, 0, 4),
    ),
    // In a directory that was removed, even meanwhile, nothing is linked.
    (
        Image::Tree,
        &[
            Do(1, Chdir(b"/d/e"), Done),
            Do(0, Link(b"/d/e/f", b"/g"), Done),
            Do(0, Unlink(b"/d/e/f"), Done),
            Start(1, Link(b"/g", b"x")),
            Upto(1, Kind::Unlock, 1),
            Do(0, Unlink(b"/d/e"), Done),
            End(1, Failed(Cause::NoEntry)),
            Do(1, Link(b"/g", b"f"), Failed(Cause::NoEntry)),
            Do(0, Open(b"/g", READ), Fd(0)),
            Do(0, Fstat(0), State(4, NodeType::File, 1, 1)),
        ],
        (5, 1, 4),
    ),
    // Two harts give one file the same name, step by step in turn: the first of them does it.
    (
        Image::Tree,
        &[
            Start(0, Link(b"/d/e/f", b"/d/g")),
            Start(1, Link(b"/d/e/f", b"/d/g")),
            All(&[Done, Failed(Cause::Exists)]),
            Do(0, Open(b"/d/g", READ), Fd(0)),
            Do(0, Fstat(0), State(4, NodeType::File, 2, 1)),
        ],
        (6, 0, 4),
    ),
    // A file has at most 32,767 names, and a directory 17,152 slots: a link that finds none lowers the file's count again.
    (
        Image::Crowded,
        &[
            Do(0, Open(b"/aaad", READ), Fd(0)),
            Do(0, Fstat(0), State(3, NodeType::File, 32_767, 0)),
            Do(0, Link(b"/aaad", b"/d/x"), Failed(Cause::TooManyLinks)),
            Do(0, Unlink(b"/d/aaad"), Done),
            Do(0, Link(b"/aaad", b"/x"), NoRoom(Full::Directory)),
            Do(0, Fstat(0), State(3, NodeType::File, 32_766, 0)),
            Do(0, Link(b"/aaad", b"/d/x"), Done),
            Do(0, Fstat(0), State(3, NodeType::File, 32_767, 0)),
        ],
        (3, 0, 538),
    ),
];

/// Each row has the results that it names, and is run again by its events.
#[test]
fn rows_are_run(rt: HostRuntime) {
    are_run(&rt, rt.alloc(), ROWS);
}
