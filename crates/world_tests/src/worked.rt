//! Worked rows, over which each call of the device fails in turn.
use crate::images::{Image, SMALL, SMALL_OF_VERSION_2, counts, disk_of};
use crate::lists::{Made, holds, play};
use crate::rows::Ask::{
    Chdir, Close, Dup, Fill, Fstat, Inherit, Link, Mkdir, Open, Read, Unlink, Write,
};
use crate::rows::Line::{Do, End, Start, Upto};
use crate::rows::Says::{Bytes, Count, Done, Failed, Fd, NoRoom, Refused, State};
use crate::rows::{CREATE, LONG, LONGEST, Line, READ, READ_AND_WRITE, Row, TRUNCATE, WRITE};
use crate::stops::{calls_of_mount, stop};
use block_device::Fused;
use fs_machine::Kind;
use hart_core::StartRefused;
use plain_tree::{Cause, Full, NodeType};
use std::alloc::Global;
use std::process::Abort;

const DOTS: &[u8] = b"\x01\0.\0\0\0\0\0\0\0\0\0\0\0\0\0\x01\0..\0\0\0\0\0\0\0\0\0\0\0\0";

const REMOVED_DOTS: &[u8] = b"\x02\0.\0\0\0\0\0\0\0\0\0\0\0\0\0\x01\0..\0\0\0\0\0\0\0\0\0\0\0\0";

/// A directory is made, opened, and counted in its parent.
pub const DIRECTORY_IS_MADE: &[Line] = &[
    Do(0, Mkdir(b"/a"), Done),
    Do(0, Open(b"/a", READ), Fd(0)),
    Do(0, Fstat(0), State(2, NodeType::Directory, 1, 32)),
    Do(0, Open(b"/", READ), Fd(1)),
    Do(0, Fstat(1), State(1, NodeType::Directory, 2, 1024)),
];

/// The same on an image of version 2, in which names that begin with the same fourteen bytes are two.
pub const DIRECTORY_OF_VERSION_2_IS_MADE: &[Line] = &[
    Do(0, Mkdir(b"/abcdefghijklmno"), Done),
    Do(0, Open(b"/abcdefghijklmnp", READ), Failed(Cause::NoEntry)),
    Do(0, Open(b"/abcdefghijklmno", READ), Fd(0)),
    Do(0, Fstat(0), State(2, NodeType::Directory, 1, 64)),
    Do(0, Open(b"/", READ), Fd(1)),
    Do(0, Fstat(1), State(1, NodeType::Directory, 2, 1024)),
];

/// A write of two pieces is seen piece by piece.
pub const TWO_PIECES: &[Line] = &[
    Do(0, Open(b"/f", CREATE | WRITE), Fd(0)),
    Do(1, Open(b"/f", READ), Fd(0)),
    Start(0, Fill(0, 0, 3073)),
    Upto(0, Kind::Leave, 1),
    Do(1, Fstat(0), State(2, NodeType::File, 1, 3072)),
    End(0, Count(3073)),
    Do(1, Fstat(0), State(2, NodeType::File, 1, 3073)),
];

/// Another open empties the file under the offset.
pub const EMPTIED: &[Line] = &[
    Do(0, Open(b"/f", CREATE | READ_AND_WRITE), Fd(0)),
    Do(0, Fill(0, 0, 100), Count(100)),
    Do(1, Open(b"/f", TRUNCATE), Fd(0)),
    Do(0, Read(0, 10), Count(0)),
    Do(0, Write(0, b"A"), Failed(Cause::BadOffset)),
    Do(0, Fill(0, 0, 0), Count(0)),
];

/// A walk looks into a directory that was removed under it.
pub const WALK_IS_LOST: &[Line] = &[
    Do(1, Mkdir(b"/d"), Done),
    Do(1, Open(b"/d/f", CREATE), Fd(0)),
    Do(1, Close(0), Done),
    Start(0, Open(b"/d/f", READ)),
    Upto(0, Kind::Unlock, 1),
    Do(1, Unlink(b"/d/f"), Done),
    Do(1, Unlink(b"/d"), Done),
    End(0, Failed(Cause::NoEntry)),
];

/// A link's old name goes before the new one is there.
pub const LINKED_AND_UNLINKED: &[Line] = &[
    Do(1, Open(b"/f", CREATE | WRITE), Fd(0)),
    Do(1, Write(0, b"A"), Count(1)),
    Start(0, Link(b"/f", b"/g")),
    Upto(0, Kind::Unlock, 2),
    Do(1, Unlink(b"/f"), Done),
    End(0, Done),
    Do(0, Open(b"/g", READ), Fd(0)),
    Do(0, Fstat(0), State(2, NodeType::File, 1, 1)),
    Do(0, Read(0, 9), Bytes(b"A")),
];

/// A link that is refused has counted for a while.
pub const RAISED_AND_LOWERED: &[Line] = &[
    Do(1, Open(b"/f", CREATE), Fd(0)),
    Do(1, Open(b"/g", CREATE), Fd(1)),
    Start(0, Link(b"/f", b"/g")),
    Upto(0, Kind::Unlock, 2),
    Do(1, Fstat(0), State(2, NodeType::File, 2, 0)),
    End(0, Failed(Cause::Exists)),
    Do(1, Fstat(0), State(2, NodeType::File, 1, 0)),
];

/// A write to a new file: its second commit has eight writes.
pub const NEW_FILE_IS_WRITTEN: &[Line] = &[
    Do(0, Open(b"/f", CREATE | WRITE), Fd(0)),
    Do(0, Write(0, b"A"), Count(1)),
];

const ROWS: &[Row] = &[
    (
        SMALL,
        &[
            Do(0, Open(b"/", READ), Fd(0)),
            Do(0, Fstat(0), State(1, NodeType::Directory, 1, 1024)),
            Do(0, Read(0, 32), Bytes(DOTS)),
        ],
        (1, 0, 1),
    ),
    (SMALL, DIRECTORY_IS_MADE, (2, 0, 2)),
    (
        SMALL_OF_VERSION_2,
        DIRECTORY_OF_VERSION_2_IS_MADE,
        (2, 0, 2),
    ),
    (
        SMALL,
        &[
            Do(0, Open(b"", READ), Fd(0)),
            Do(0, Open(b"/", READ), Fd(1)),
            Do(0, Unlink(b"/"), Failed(Cause::NoEntry)),
            Do(0, Mkdir(b"/"), Failed(Cause::NoEntry)),
        ],
        (1, 0, 1),
    ),
    // A name is cut to fourteen bytes.
    (
        SMALL,
        &[
            Do(0, Open(b"/abcdefghijklmn", CREATE), Fd(0)),
            Do(0, Open(b"/abcdefghijklmnopqrst", CREATE), Fd(1)),
            Do(0, Fstat(0), State(2, NodeType::File, 1, 0)),
            Do(0, Fstat(1), State(2, NodeType::File, 1, 0)),
        ],
        (2, 0, 1),
    ),
    (SMALL, TWO_PIECES, (2, 0, 5)),
    (SMALL, EMPTIED, (2, 0, 1)),
    (SMALL, WALK_IS_LOST, (1, 0, 1)),
    (SMALL_OF_VERSION_2, WALK_IS_LOST, (1, 0, 1)),
    // The same, if others of these names are there by then.
    (
        SMALL,
        &[
            Do(1, Mkdir(b"/d"), Done),
            Do(1, Open(b"/d/f", CREATE), Fd(0)),
            Do(1, Close(0), Done),
            Start(0, Open(b"/d/f", READ)),
            Upto(0, Kind::Unlock, 1),
            Do(1, Unlink(b"/d/f"), Done),
            Do(1, Unlink(b"/d"), Done),
            Do(1, Mkdir(b"/d"), Done),
            Do(1, Open(b"/d/f", CREATE), Fd(0)),
            Do(1, Fstat(0), State(4, NodeType::File, 1, 0)),
            End(0, Failed(Cause::NoEntry)),
            Do(1, Open(b"/d", READ), Fd(1)),
            Do(1, Fstat(1), State(3, NodeType::Directory, 1, 48)),
        ],
        (3, 0, 2),
    ),
    // A removed directory finds nothing, and is read.
    (
        SMALL,
        &[
            Do(0, Mkdir(b"/d"), Done),
            Do(0, Chdir(b"/d"), Done),
            Do(1, Unlink(b"/d"), Done),
            Do(0, Open(b"x", CREATE), Failed(Cause::NoEntry)),
            Do(0, Open(b".", READ), Failed(Cause::NoEntry)),
            Do(0, Open(b"", READ), Fd(0)),
            Do(0, Read(0, 48), Bytes(REMOVED_DOTS)),
        ],
        (1, 1, 2),
    ),
    (SMALL, LINKED_AND_UNLINKED, (2, 0, 2)),
    (SMALL_OF_VERSION_2, LINKED_AND_UNLINKED, (2, 0, 2)),
    (SMALL, RAISED_AND_LOWERED, (3, 0, 1)),
    (SMALL_OF_VERSION_2, RAISED_AND_LOWERED, (3, 0, 1)),
    // A child reads on from the offset that its parent has read to.
    (
        SMALL,
        &[
            Do(0, Open(b"/", READ), Fd(0)),
            Do(0, Inherit(1), Done),
            Start(0, Read(0, 16)),
            Upto(0, Kind::Unlock, 1),
            Do(1, Read(0, 16), Bytes(b"\x01\0..\0\0\0\0\0\0\0\0\0\0\0\0")),
            End(0, Bytes(b"\x01\0.\0\0\0\0\0\0\0\0\0\0\0\0\0")),
        ],
        (1, 0, 1),
    ),
    // A path that climbs finds a node that it led to at no one moment.
    (
        SMALL,
        &[
            Do(0, Mkdir(b"/a"), Done),
            Do(0, Mkdir(b"/a/b"), Done),
            Do(0, Chdir(b"/a/b"), Done),
            Start(0, Open(b"../c", READ)),
            Upto(0, Kind::Unlock, 1),
            Do(1, Unlink(b"/a/b"), Done),
            Do(1, Open(b"/a/c", CREATE), Fd(0)),
            End(0, Fd(0)),
        ],
        (3, 1, 3),
    ),
    // No descriptor is left.
    (
        SMALL,
        &[
            Do(0, Open(b"/", READ), Fd(0)),
            Do(0, Open(b"/", READ), Fd(1)),
            Do(0, Open(b"/", READ), Fd(2)),
            Do(0, Open(b"/", READ), Fd(3)),
            Do(0, Open(b"/", READ), Fd(4)),
            Do(0, Open(b"/", READ), Fd(5)),
            Do(0, Open(b"/", READ), Fd(6)),
            Do(0, Open(b"/", READ), Fd(7)),
            Do(0, Open(b"/", READ), Fd(8)),
            Do(0, Open(b"/", READ), Fd(9)),
            Do(0, Open(b"/", READ), Fd(10)),
            Do(0, Open(b"/", READ), Fd(11)),
            Do(0, Open(b"/", READ), Fd(12)),
            Do(0, Open(b"/", READ), Fd(13)),
            Do(0, Open(b"/", READ), Fd(14)),
            Do(0, Open(b"/", READ), Fd(15)),
            Do(0, Open(b"/", READ), NoRoom(Full::Descriptors)),
        ],
        (1, 0, 1),
    ),
    // No block is left.
    (
        SMALL,
        &[
            Do(0, Open(b"/f", CREATE | WRITE), Fd(0)),
            Do(0, Fill(0, 0, 23_552), NoRoom(Full::Blocks)),
            Do(0, Fstat(0), State(2, NodeType::File, 1, 22_528)),
        ],
        (2, 0, 24),
    ),
    (SMALL, NEW_FILE_IS_WRITTEN, (2, 0, 2)),
    (SMALL_OF_VERSION_2, NEW_FILE_IS_WRITTEN, (2, 0, 2)),
    // A file without a name is there as long as it is open.
    (
        SMALL,
        &[
            Do(0, Open(b"/f", CREATE), Fd(0)),
            Do(0, Unlink(b"/f"), Done),
            Do(0, Unlink(b"/f"), Failed(Cause::NoEntry)),
            Do(0, Fstat(0), State(2, NodeType::File, 0, 0)),
            Do(0, Unlink(b"/."), Failed(Cause::DotName)),
        ],
        (1, 1, 1),
    ),
    // Starts are refused.
    (
        SMALL,
        &[
            Do(0, Open(&LONG, READ), Refused(StartRefused::PathTooLong)),
            Do(0, Open(&LONGEST, READ), Failed(Cause::NoEntry)),
            Start(0, Open(b"/", READ)),
            Do(0, Dup(0), Refused(StartRefused::Busy)),
            End(0, Fd(0)),
        ],
        (1, 0, 1),
    ),
    // A bit of all.
    (
        Image::Tree,
        &[
            Do(0, Open(b"/d/e/f", READ_AND_WRITE), Fd(0)),
            Do(0, Write(0, b"hello"), Count(5)),
            Do(0, Open(b"/d/e/n", CREATE), Fd(1)),
            Do(0, Close(1), Done),
            Do(0, Unlink(b"/d/e/n"), Done),
            Do(0, Link(b"/d/e/f", b"/d/g"), Done),
            Do(0, Unlink(b"/d/e/f"), Done),
            Do(0, Chdir(b"/d/e"), Done),
            Do(0, Unlink(b"/d/e"), Done),
            Do(0, Chdir(b"/"), Done),
            Do(0, Inherit(1), Done),
            Do(0, Open(b"/d/g", TRUNCATE), Fd(1)),
            Do(0, Unlink(b"/d/g"), Done),
            Do(0, Close(1), Done),
            Do(0, Close(0), Done),
            Do(1, Fstat(0), State(4, NodeType::File, 0, 0)),
        ],
        (4, 1, 2),
    ),
];

// How many calls of the device a list of events makes after those of the mount. Each of them fails in turn, and that
// step is stopped, and each later one. The disk is in order then.
fn count_stops(rt: &impl Abort, alloc: Global, image: Image, made: &Made) -> u64 {
    let first = calls_of_mount(rt, alloc, disk_of(rt, alloc, image));
    for more in 0..1000 {
        let calls = first.saturating_add(more);
        let device = Fused::new(disk_of(rt, alloc, image), calls);
        let (device, stop) = stop(rt, alloc, device, made);
        let _counts = counts(rt, alloc, device.into_disk());
        if stop.event.is_none() {
            return more;
        }
    }
    panic!(rt; "the device is called more than a thousand times")
}

/// Each row has the results that it names. Over its list each call of the device fails in turn, until there is none
/// that fails.
#[test]
fn each_call_of_the_device_fails(rt: HostRuntime) {
    for (number, (image, row, left)) in ROWS.iter().enumerate() {
        let disk = disk_of(&rt, rt.alloc(), *image);
        let (made, disk) = play(&rt, rt.alloc(), disk, *row);
        let is_left = counts(&rt, rt.alloc(), disk) == *left;
        let stops = count_stops(&rt, rt.alloc(), *image, &made);
        holds(&rt, is_left && stops > 0, "row", number);
    }
}
