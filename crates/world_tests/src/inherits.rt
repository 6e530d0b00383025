//! Inherits: a child gets the caller's descriptors and directory, and starts nothing until it has them.
use crate::images::{Image, SMALL};
use crate::lists::are_run;
use crate::rows::Ask::{Chdir, Close, Dup, Inherit, Open, Read};
use crate::rows::Line::{Do, End, Start, Upto};
use crate::rows::Says::{Bytes, Done, Fd, Idle, Refused};
use crate::rows::{READ, Row};
use fs_machine::Kind;
use hart_core::StartRefused;

const ROWS: &[Row] = &[
    // The child has the caller's descriptors and its directory, and both read on from one offset, whichever reply comes first.
    (
        Image::Tree,
        &[
            Do(0, Open(b"/", READ), Fd(0)),
            Do(0, Dup(0), Fd(1)),
            Do(0, Chdir(b"/d"), Done),
            Do(0, Inherit(1), Done),
            Start(0, Read(0, 16)),
            Upto(0, Kind::Unlock, 1),
            Do(1, Read(0, 16), Bytes(b"\x01\0..\0\0\0\0\0\0\0\0\0\0\0\0")),
            End(0, Bytes(b"\x01\0.\0\0\0\0\0\0\0\0\0\0\0\0\0")),
            Do(0, Read(0, 16), Bytes(b"\x02\0d\0\0\0\0\0\0\0\0\0\0\0\0\0")),
            Do(1, Dup(1), Fd(2)),
            Do(1, Open(b"e/f", READ), Fd(3)),
            Do(0, Close(0), Done),
            Do(1, Dup(0), Fd(4)),
        ],
        (6, 0, 4),
    ),
    // From the start of an inherit to its reply the child starts nothing, and is nobody else's child; then it does.
    (
        SMALL,
        &[
            Do(0, Open(b"/", READ), Fd(0)),
            Start(0, Inherit(1)),
            Do(1, Dup(0), Refused(StartRefused::Busy)),
            Upto(0, Kind::Slot, 1),
            Do(1, Dup(0), Refused(StartRefused::Busy)),
            Do(1, Inherit(2), Refused(StartRefused::Busy)),
            Do(2, Inherit(1), Refused(StartRefused::Busy)),
            Do(2, Inherit(0), Refused(StartRefused::Busy)),
            End(1, Idle),
            Upto(0, Kind::Leave, 1),
            Do(1, Dup(0), Refused(StartRefused::Busy)),
            End(0, Done),
            Do(1, Dup(0), Fd(1)),
            Do(0, Inherit(2), Done),
            Do(2, Dup(0), Fd(1)),
        ],
        (1, 0, 1),
    ),
    // A child is another hart of the eight, without a call and without descriptors.
    (
        SMALL,
        &[
            Do(3, Open(b"/", READ), Fd(0)),
            Do(0, Inherit(3), Refused(StartRefused::NotEmptyHart)),
            Do(0, Inherit(0), Refused(StartRefused::Busy)),
            Do(3, Inherit(3), Refused(StartRefused::Busy)),
            Do(0, Inherit(8), Refused(StartRefused::NoSuchHart)),
            Do(0, Inherit(255), Refused(StartRefused::NoSuchHart)),
            Do(8, Inherit(0), Refused(StartRefused::NoSuchHart)),
            Do(3, Close(0), Done),
            Do(0, Inherit(3), Done),
        ],
        (1, 0, 1),
    ),
];

/// Each row has the results that it names, and is run again by its events.
#[test]
fn rows_are_run(rt: HostRuntime) {
    are_run(&rt, rt.alloc(), ROWS);
}
