//! Writes to a file in the root.
use crate::images::{Image, counts, disk_of};
use crate::lists::{are_run, holds, play};
use crate::memory::push;
use crate::rows::Ask::{Fill, Fstat, Open, Read, Write};
use crate::rows::Line::{Do, End, Start, Upto};
use crate::rows::Says::{Bytes, Count, Failed, Fd, NoRoom, Pattern, Refused, State};
use crate::rows::{Line, READ, READ_AND_WRITE, Row, TRUNCATE, WRITE};
use fs_machine::Kind;
use hart_core::StartRefused;
use plain_tree::{Cause, Full, NodeType};
use std::alloc::Global;
use std::process::Abort;

const ROWS: &[Row] = &[
    // No file has more than 274,432 bytes: a piece that would end past them is refused, and those before it stay.
    (
        Image::WithFile(400, b""),
        &[
            Do(0, Open(b"/f", WRITE), Fd(0)),
            Do(0, Fill(0, 0, 274_433), Failed(Cause::TooBig)),
            Do(0, Fstat(0), State(2, NodeType::File, 1, 273_408)),
            Do(0, Fill(0, 0, 1024), Count(1024)),
            Do(0, Fstat(0), State(2, NodeType::File, 1, 274_432)),
            Do(0, Write(0, b"x"), Failed(Cause::TooBig)),
            Do(0, Fstat(0), State(2, NodeType::File, 1, 274_432)),
        ],
        (2, 0, 270),
    ),
    // A write by a descriptor that isn't open to write is refused, even one of no bytes. So is one past the end of a
    // file that was emptied meanwhile. Nothing else is tested with no bytes.
    (
        Image::WithFile(400, b"A"),
        &[
            Do(0, Open(b"/f", READ_AND_WRITE), Fd(0)),
            Do(0, Open(b"/f", READ), Fd(1)),
            Do(0, Open(b"/", READ), Fd(2)),
            Do(0, Write(1, b"x"), Failed(Cause::BadMode)),
            Do(0, Write(1, b""), Failed(Cause::BadMode)),
            Do(0, Write(2, b"x"), Failed(Cause::BadMode)),
            Do(0, Write(3, b""), Failed(Cause::BadDescriptor)),
            Do(0, Fill(0, 0, 524_289), Refused(StartRefused::TooLong)),
            Do(0, Fstat(0), State(2, NodeType::File, 1, 1)),
            Do(0, Fill(0, 0, 100), Count(100)),
            Do(1, Open(b"/f", TRUNCATE), Fd(0)),
            Do(0, Read(0, 10), Count(0)),
            Do(0, Write(0, b"A"), Failed(Cause::BadOffset)),
            Do(0, Write(0, b""), Count(0)),
            Do(0, Fstat(0), State(2, NodeType::File, 1, 0)),
        ],
        (2, 0, 1),
    ),
    // With 23 blocks free a file gets 22 and an indirect block. The write answers that there is no more room, the
    // bytes before the missing block are written, and the image is in order.
    (
        Image::WithFile(60, b""),
        &[
            Do(0, Open(b"/f", READ_AND_WRITE), Fd(0)),
            Do(1, Open(b"/f", READ), Fd(0)),
            Do(0, Fill(0, 0, 23_552), NoRoom(Full::Blocks)),
            Do(0, Fstat(0), State(2, NodeType::File, 1, 22_528)),
            Do(0, Write(0, b"x"), NoRoom(Full::Blocks)),
            Do(0, Fstat(0), State(2, NodeType::File, 1, 22_528)),
            Do(1, Read(0, 30_000), Pattern(0, 22_528)),
        ],
        (2, 0, 24),
    ),
    // A write of 3073 bytes goes in two pieces, each in a transaction of its own: between them another hart sees the first alone.
    (
        Image::WithFile(60, b""),
        &[
            Do(0, Open(b"/f", WRITE), Fd(0)),
            Do(1, Open(b"/f", READ), Fd(0)),
            Start(0, Fill(0, 0, 3073)),
            Upto(0, Kind::Join, 1),
            Do(1, Fstat(0), State(2, NodeType::File, 1, 0)),
            Upto(0, Kind::Leave, 1),
            Do(1, Fstat(0), State(2, NodeType::File, 1, 3072)),
            End(0, Count(3073)),
            Do(1, Fstat(0), State(2, NodeType::File, 1, 3073)),
        ],
        (2, 0, 5),
    ),
    // One of 3072 bytes goes in one.
    (
        Image::WithFile(60, b""),
        &[
            Do(0, Open(b"/f", WRITE), Fd(0)),
            Do(1, Open(b"/f", READ), Fd(0)),
            Start(0, Fill(0, 0, 3072)),
            Upto(0, Kind::Join, 1),
            Do(1, Fstat(0), State(2, NodeType::File, 1, 0)),
            Upto(0, Kind::Leave, 1),
            Do(1, Fstat(0), State(2, NodeType::File, 1, 3072)),
            End(0, Count(3072)),
            Do(1, Fstat(0), State(2, NodeType::File, 1, 3072)),
        ],
        (2, 0, 4),
    ),
    // What one hart writes another one reads.
    (
        Image::WithFile(60, b"A"),
        &[
            Do(0, Open(b"/f", READ_AND_WRITE), Fd(0)),
            Do(1, Open(b"/f", READ), Fd(0)),
            Do(0, Write(0, b"hello"), Count(5)),
            Do(1, Read(0, 8), Bytes(b"hello")),
            Do(1, Read(0, 8), Count(0)),
            Do(0, Write(0, b"!"), Count(1)),
            Do(1, Read(0, 8), Bytes(b"!")),
        ],
        (2, 0, 2),
    ),
];

/// Each row has the results that it names, and is run again by its events.
#[test]
fn rows_are_run(rt: HostRuntime) {
    are_run(&rt, rt.alloc(), ROWS);
}

// The lines of a content of `size` bytes: one hart writes it in pieces, and another hart reads it in others.
fn lines_of(
    rt: &impl Abort,
    alloc: Global,
    size: usize,
    written: usize,
    read: usize,
) -> Vec<Line<'static>> {
    let mut lines = Vec::new(alloc);
    push(rt, &mut lines, Do(0, Open(b"/f", WRITE), Fd(0)));
    push(rt, &mut lines, Do(1, Open(b"/f", READ), Fd(0)));
    for piece in 0..size.div_ceil(written.max(1)) {
        let from = piece.saturating_mul(written);
        let count = written.min(size.saturating_sub(from));
        push(
            rt,
            &mut lines,
            Do(0, Fill(0, from, count), Count(told(count))),
        );
    }
    for piece in 0..size.div_ceil(read.max(1)) {
        let from = piece.saturating_mul(read);
        let count = told(read.min(size.saturating_sub(from)));
        push(rt, &mut lines, Do(1, Read(0, read), Pattern(from, count)));
    }
    push(rt, &mut lines, Do(1, Read(0, read), Count(0)));
    let state = State(2, NodeType::File, 1, size as u64);
    push(rt, &mut lines, Do(0, Fstat(0), state));
    lines
}

// A count as a reply says it.
fn told(count: usize) -> u32 {
    count.min(u32::MAX as usize) as u32
}

/// Contents of sizes at which a block or the indirect block begins or ends, written in pieces, and read back in others.
#[test]
fn contents_have_all_sizes(rt: HostRuntime) {
    // The size, the length of a piece written, that of one read, and the blocks of the root and the file.
    let sizes: [(usize, usize, usize, u32); 12] = [
        (0, 1, 1, 1),
        (1, 1, 2, 2),
        (1023, 1000, 3, 2),
        (1024, 1, 1024, 2),
        (1025, 1023, 1000, 3),
        (12_287, 3073, 4096, 13),
        (12_288, 5000, 511, 13),
        (12_289, 12_288, 1025, 15),
        (13_312, 1024, 7, 15),
        (274_431, 3072, 4097, 270),
        (274_432, 274_432, 999, 270),
        (274_432, 1021, 274_432, 270),
    ];
    for (size, written, read, blocks) in sizes {
        let lines = lines_of(&rt, rt.alloc(), size, written, read);
        let disk = disk_of(&rt, rt.alloc(), Image::WithFile(400, b""));
        let (_made, disk) = play(&rt, rt.alloc(), disk, lines.as_slice());
        let counts = counts(&rt, rt.alloc(), disk);
        holds(&rt, counts == (2, 0, blocks), "of", size);
    }
}
