//! Stops at each failure of the device, and what a mount refuses.
use crate::images::{Image, SMALL, disk_of, tree_in};
use crate::lists::{Group, Made, RunEnd, groups_in, holds, play, run_over, stopped_at};
use crate::memory::copied;
use crate::rows::Ask::{Fstat, Open, Read, Unlink, Write};
use crate::rows::Line::{Do, Start, Upto};
use crate::rows::Says::{Bytes, Count, Done, Fd, State};
use crate::rows::{CREATE, Line, READ, TRUNCATE, WRITE};
use crate::trees::is_same_tree;
use block_device::{BLOCK_LEN, Device, Fused, MemoryDisk, Once};
use fs_machine::Kind;
use hart_core::World;
use image_tree::{Damage, MountFault, examine};
use image_versions::Version;
use plain_tree::NodeType;
use std::alloc::Global;
use std::process::Abort;

// Mounts a disk that passes `calls` calls: the disk then, and whether it was mounted.
fn try_mount(rt: &impl Abort, alloc: Global, disk: MemoryDisk, calls: u64) -> (MemoryDisk, bool) {
    match World::mount(alloc, Fused::new(disk, calls)) {
        Ok(world) => (world.unmount().into_disk(), true),
        Err((failed, MountFault::DeviceFault)) => (failed.into_disk(), false),
        Err((_, fault)) => panic!(rt; "error: {fault:?}"),
    }
}

/// The least number of calls with which a disk is mounted. With fewer it is handed back.
pub fn calls_of_mount(rt: &impl Abort, alloc: Global, disk: MemoryDisk) -> u64 {
    let mut disk = disk;
    let mut calls = 0u64;
    let mut step = 65_536u64;
    for _ in 0..16 {
        step /= 2;
        let more = calls.saturating_add(step);
        let (after, is_mounted) = try_mount(rt, alloc, disk, more);
        if !is_mounted {
            calls = more;
        }
        disk = after;
    }
    calls.saturating_add(1)
}

/// The event of a run in which the device failed, and the run's cut and doubt.
#[derive(Clone, Copy)]
pub struct Stopped {
    pub event: Option<u64>,
    cut: Option<u64>,
    doubt: Option<u64>,
}

/// Runs a list of events over a device that fails.
pub fn stop<D: Device + Drop>(
    rt: &impl Abort,
    alloc: Global,
    device: D,
    made: &Made,
) -> (D, Stopped) {
    let RunEnd {
        device,
        outcomes,
        cut,
        doubt,
    } = run_over(rt, alloc, device, made.events.as_slice());
    let event = stopped_at(rt, made, outcomes.as_slice());
    (device, Stopped { event, cut, doubt })
}

// How many nodes have a count of 0.
fn orphans_in(rt: &impl Abort, alloc: Global, disk: &mut MemoryDisk) -> u32 {
    match examine(alloc, disk, Version::One) {
        Ok(shape) => shape.orphans,
        Err(fault) => panic!(rt; "error: {fault:?}"),
    }
}

// The first block in which two images differ.
fn changed(old: &[u8], new: &[u8]) -> Option<usize> {
    for i in 0..old.len() {
        if new.get(i) != Some(&old[i]) {
            return Some(i / BLOCK_LEN);
        }
    }
    None
}

// Mounted again, the file `/f` has the letter A, or nothing.
fn reads_f(rt: &impl Abort, alloc: Global, disk: MemoryDisk, has_letter: bool) {
    let size = if has_letter { 1 } else { 0 };
    let after = [
        Do(0, Open(b"/f", READ), Fd(0)),
        Do(0, Fstat(0), State(2, NodeType::File, 1, size as u64)),
        Do(0, Read(0, 9), Bytes(&b"A"[..size])),
    ];
    let _played = play(rt, alloc, disk, &after);
}

fn copy_of(rt: &impl Abort, alloc: Global, image: &[u8]) -> MemoryDisk {
    MemoryDisk::new(copied(rt, alloc, image))
}

// What a stopped commit leaves: nothing of its group up to the head, and all of it from then on. The group is in
// doubt if the head's write failed.
fn is_left(group: &Group, number: usize, stop: Stopped) -> bool {
    let leave = Some(group.leave);
    let cut = if number > group.copies() { leave } else { None };
    let doubt = if number == group.copies() {
        leave
    } else {
        None
    };
    stop.event == group.writes.get(number).copied() && stop.cut == cut && stop.doubt == doubt
}

// A row over an image, what it made, and its one commit. From the commit's head on the file has the letter A if the
// row writes that, and else nothing.
#[derive(Drop)]
struct Commit<'a> {
    image: &'a [u8],
    made: &'a Made,
    group: &'a Group,
    is_written: bool,
}

// One write of a commit fails alone, done or not, and the device works again then. The file has what was written if
// the head was written, even if the head's write is the one that failed, and was done.
fn fails_once(rt: &impl Abort, alloc: Global, commit: &Commit, calls: u64, number: usize) {
    let head = commit.group.copies();
    for is_done in [false, true] {
        let device = Once::new(copy_of(rt, alloc, commit.image), calls, is_done);
        let (device, stop) = stop(rt, alloc, device, commit.made);
        holds(rt, is_left(commit.group, number, stop), "write", number);
        let is_stored = number > head || number == head && is_done;
        reads_f(
            rt,
            alloc,
            device.into_disk(),
            is_stored == commit.is_written,
        );
    }
}

// Stops a row at each of its calls of the device in turn, and has each write of its commit fail alone. The commit writes these blocks.
fn stops_at_each(rt: &impl Abort, alloc: Global, commit: &Commit, writes: &[usize]) {
    let (image, group) = (commit.image, commit.group);
    let first = calls_of_mount(rt, alloc, copy_of(rt, alloc, image));
    let mut old = copied(rt, alloc, image);
    let mut written = 0usize;
    for more in 0..100 {
        let calls = first.saturating_add(more);
        let device = Fused::new(copy_of(rt, alloc, image), calls);
        let (device, stop) = stop(rt, alloc, device, commit.made);
        let new = device.into_disk().into_bytes();
        if let Some(block) = changed(old.as_slice(), new.as_slice()) {
            holds(rt, writes.get(written) == Some(&block), "block", block);
            written = written.saturating_add(1);
        }
        let disk = copy_of(rt, alloc, new.as_slice());
        reads_f(
            rt,
            alloc,
            disk,
            (written > group.copies()) == commit.is_written,
        );
        if stop.event.is_none() {
            holds(rt, written == writes.len(), "written", written);
            return;
        }
        if stop.event == group.writes.get(written).copied() {
            holds(rt, is_left(group, written, stop), "write", written);
            fails_once(rt, alloc, commit, calls, written);
        }
        old = new;
    }
    panic!(rt; "the device is called more than a hundred times")
}

// Stops a row over an image, which makes one commit. That writes these blocks: copies in the log, the head, the blocks at home, and the
// head again.
fn commits(
    rt: &impl Abort,
    alloc: Global,
    image: &[u8],
    row: &[Line],
    writes: &[usize],
    is_written: bool,
) {
    let (made, _disk) = play(rt, alloc, copy_of(rt, alloc, image), row);
    let groups = groups_in(rt, alloc, made.outcomes.as_slice());
    let group = groups.last().expect(rt, "there is no commit");
    assert!(rt; groups.len() == 1 && group.writes.len() == writes.len());
    let commit = Commit {
        image,
        made: &made,
        group,
        is_written,
    };
    stops_at_each(rt, alloc, &commit, writes);
}

/// The commit of a write to a new file writes the log's copies of the bitmap, the file's block and its inode, then
/// the header. Then it writes these blocks at home, and the header again. That of an open that empties a file does so
/// with the bitmap and the inode. Stopped before the first header the disk has the old file, and from then on the new
/// one.
#[test]
fn a_commit_goes_by_the_log(rt: HostRuntime) {
    let alloc = rt.alloc();
    let new = [Do(0, Open(b"/f", CREATE), Fd(0))];
    let disk = disk_of(&rt, alloc, Image::Made(Version::One, 60, 200));
    let (_made, disk) = play(&rt, alloc, disk, &new);
    let image = disk.into_bytes();
    let write = [
        Do(0, Open(b"/f", WRITE), Fd(0)),
        Do(0, Write(0, b"A"), Count(1)),
    ];
    let writes = [3, 4, 5, 2, 46, 48, 33, 2];
    commits(&rt, alloc, image.as_slice(), &write, &writes, true);
    let image = disk_of(&rt, alloc, Image::WithFile(60, b"A")).into_bytes();
    let empty = [Do(0, Open(b"/f", TRUNCATE), Fd(0))];
    let writes = [3, 4, 2, 35, 33, 2];
    commits(&rt, alloc, image.as_slice(), &empty, &writes, false);
}

/// A mount that recovers three blocks is stopped at each call of the device in turn, even in the middle of a write.
/// Each time the tree is the same, up to the first mount that isn't stopped.
#[test]
fn a_recovery_is_stopped(rt: HostRuntime) {
    let alloc = rt.alloc();
    let row = [
        Do(0, Open(b"/f", WRITE), Fd(0)),
        Start(0, Write(0, b"A")),
        Upto(0, Kind::Commit, 4),
    ];
    let disk = disk_of(&rt, alloc, Image::WithFile(60, b""));
    let (_made, disk) = play(&rt, alloc, disk, &row);
    let image = disk.into_bytes();
    assert!(rt; image.get(2 * BLOCK_LEN) == Some(&3));
    let tree = tree_in(&rt, alloc, &mut copy_of(&rt, alloc, image.as_slice()));
    for calls in 0..1000 {
        let disk = copy_of(&rt, alloc, image.as_slice());
        let (mut disk, is_mounted) = try_mount(&rt, alloc, disk, calls);
        let found = tree_in(&rt, alloc, &mut disk);
        holds(&rt, is_same_tree(&found, &tree), "calls:", calls as usize);
        if is_mounted {
            assert!(rt; calls > 9);
            return reads_f(&rt, alloc, disk, true);
        }
    }
    panic!(rt; "the device is called more than a thousand times")
}

/// Three files are removed while they are open. Each call of the device that a mount then makes fails in turn. The
/// disk has its tree all the same, and is mounted again, without a node of count 0.
#[test]
fn mounts_that_free_three_nodes_are_stopped(rt: HostRuntime) {
    let alloc = rt.alloc();
    let row = [
        Do(0, Open(b"/a", CREATE | WRITE), Fd(0)),
        Do(0, Write(0, b"A"), Count(1)),
        Do(0, Open(b"/b", CREATE), Fd(1)),
        Do(0, Open(b"/c", CREATE), Fd(2)),
        Do(0, Open(b"/f", CREATE | WRITE), Fd(3)),
        Do(0, Write(3, b"A"), Count(1)),
        Do(0, Unlink(b"/a"), Done),
        Do(0, Unlink(b"/b"), Done),
        Do(0, Unlink(b"/c"), Done),
    ];
    let (_made, disk) = play(&rt, alloc, disk_of(&rt, alloc, SMALL), &row);
    let image = disk.into_bytes();
    let tree = tree_in(&rt, alloc, &mut copy_of(&rt, alloc, image.as_slice()));
    for calls in 0..1000 {
        let disk = copy_of(&rt, alloc, image.as_slice());
        let (disk, is_first) = try_mount(&rt, alloc, disk, calls);
        let (mut disk, is_mounted) = try_mount(&rt, alloc, disk, u64::MAX);
        holds(&rt, is_mounted, "calls:", calls as usize);
        let found = tree_in(&rt, alloc, &mut disk);
        holds(&rt, is_same_tree(&found, &tree), "calls:", calls as usize);
        holds(
            &rt,
            orphans_in(&rt, alloc, &mut disk) == 0,
            "calls:",
            calls as usize,
        );
        if is_first {
            return;
        }
    }
    panic!(rt; "the device is called more than a thousand times")
}

/// A damaged image isn't mounted, and is handed back.
#[test]
fn damaged_images_are_refused(rt: HostRuntime) {
    let image = vec![in rt.alloc(); 1u8; 1500].expect(&rt, "error");
    match World::mount(rt.alloc(), MemoryDisk::new(image)) {
        Ok(world) => {
            let _disk = world.unmount();
            panic!(rt; "it is mounted")
        }
        Err((disk, fault)) => {
            assert!(rt; fault == MountFault::Damaged(Damage::TooShort));
            assert!(rt; disk.into_bytes().len() == 1500);
        }
    }
}
