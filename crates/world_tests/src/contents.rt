//! Contents read from each place of a block on, and changed in place.
use crate::images::{Image, counts, disk_of};
use crate::lists::{holds, play};
use crate::memory::push;
use crate::rows::Ask::{Close, Fill, Fstat, Open, Read};
use crate::rows::Line::Do;
use crate::rows::Says::{Count, Done, Fd, Pattern, State};
use crate::rows::{READ, READ_AND_WRITE, WRITE};
use block_device::MemoryDisk;
use plain_tree::NodeType;
use std::alloc::Global;
use std::process::Abort;

/// Twelve blocks and a byte are read from each place of the first block on, up to past the blocks whose numbers are
/// in the inode.
#[test]
fn contents_are_read_from_each_place(rt: HostRuntime) {
    let mut lines = Vec::new(rt.alloc());
    push(&rt, &mut lines, Do(0, Open(b"/f", WRITE), Fd(0)));
    push(&rt, &mut lines, Do(0, Fill(0, 0, 13_313), Count(13_313)));
    for from in 0..1025u32 {
        let place = from as usize;
        let end = place.saturating_add(12_289);
        let rest = Pattern(end, 1024u32.saturating_sub(from));
        push(&rt, &mut lines, Do(1, Open(b"/f", READ), Fd(0)));
        push(&rt, &mut lines, Do(1, Read(0, place), Pattern(0, from)));
        push(
            &rt,
            &mut lines,
            Do(1, Read(0, 12_289), Pattern(place, 12_289)),
        );
        push(&rt, &mut lines, Do(1, Read(0, 2000), rest));
        push(&rt, &mut lines, Do(1, Close(0), Done));
    }
    let disk = disk_of(&rt, rt.alloc(), Image::WithFile(60, b""));
    let (_made, disk) = play(&rt, rt.alloc(), disk, lines.as_slice());
    assert!(rt; counts(&rt, rt.alloc(), disk) == (2, 0, 16));
}

/// Bytes that are written within a content, or over its end, are there afterwards. Those before and after them stay,
/// even after another mount.
#[test]
fn bytes_are_changed_in_place(rt: HostRuntime) {
    // The size, the place at which the write begins, how many bytes it has, and the blocks of the root and the file
    // then.
    let rows: [(u32, u32, u32, u32); 16] = [
        (0, 0, 1, 2),
        (1, 0, 1, 2),
        (1, 1, 1022, 2),
        (1023, 1000, 24, 2),
        (1024, 0, 1024, 2),
        (1024, 1023, 2, 3),
        (1025, 1024, 1, 3),
        (3000, 1, 2046, 4),
        (3000, 511, 3073, 5),
        (12_287, 1024, 11_264, 13),
        (12_288, 12_287, 2, 15),
        (12_289, 11_000, 1288, 15),
        (20_000, 12_288, 1024, 22),
        (274_431, 274_430, 2, 270),
        (274_432, 3, 274_428, 270),
        (274_432, 12_287, 3073, 270),
    ];
    for (size, from, count, blocks) in rows {
        let disk = disk_of(&rt, rt.alloc(), Image::WithFile(400, b""));
        let disk = change_in_place(&rt, rt.alloc(), disk, (size, from, count));
        let counts = counts(&rt, rt.alloc(), disk);
        holds(&rt, counts == (2, 0, blocks), "of", size as usize);
    }
}

// In a file of the row's size the row's bytes are written from its place on, and all are read, before and after
// another mount. Gives the disk then.
fn change_in_place(
    rt: &impl Abort,
    alloc: Global,
    disk: MemoryDisk,
    row: (u32, u32, u32),
) -> MemoryDisk {
    let (size, from, count) = row;
    let (place, written) = (from as usize, count as usize);
    let end = from.saturating_add(count);
    let whole = size.max(end);
    let rest = whole.saturating_sub(end);
    let lines = [
        Do(0, Open(b"/f", WRITE), Fd(0)),
        Do(0, Fill(0, 0, size as usize), Count(size)),
        Do(1, Open(b"/f", READ_AND_WRITE), Fd(0)),
        Do(1, Read(0, place), Pattern(0, from)),
        Do(1, Fill(0, 100, written), Count(count)),
        Do(1, Read(0, 300_000), Pattern(end as usize, rest)),
        Do(0, Fstat(0), State(2, NodeType::File, 1, u64::from(whole))),
    ];
    let (_made, disk) = play(rt, alloc, disk, &lines);
    let again = [
        Do(2, Open(b"/f", READ), Fd(0)),
        Do(2, Read(0, place), Pattern(0, from)),
        Do(2, Read(0, written), Pattern(100, count)),
        Do(2, Read(0, 300_000), Pattern(end as usize, rest)),
    ];
    let (_made, disk) = play(rt, alloc, disk, &again);
    disk
}
