//! A log over disks in memory: who waits, what a commit writes, and what a recovery makes of a fault.
ghost use Rattle.std.specs.Prelude.{◌≡◌, [], IfOk};
ghost use Rattle.group_log.specs.Vocabulary.{logged};
ghost use Rattle.group_log.specs.Soundness.{IsPlaced};
ghost use Rattle.mkfs.specs.Vocabulary.{blocks_of};
ghost use Rattle.block_device.specs.BlockLaws.{blocks_of-whole};
ghost use Rattle.block_device.specs.Fuse.{IsFusedCall};

use crate::images::fresh;
use crate::told::holds;
use arrayvec::ArrayVec;
use block_device::{BLOCK_LEN, Device, Fault, Fused, MemoryDisk};
use buffer_cache::{BUFFERS_OF_A_HART, Buffers, Cache, Got, HARTS};
use fs_layout::{Super, write_super};
use group_log::{AfterLeave, Log, Marks, Phase, Progress, Txn};
use image_tree::{MountFault, find_layout, recover, supers_tell_versions};
use image_versions::Version;
use std::alloc::{AllocError, Global};
use std::process::Abort;
use std::test::Fail;

// The places of the fresh image's parts, with fewer data blocks.
const FRESH: Super = Super {
    version: Version::One,
    size: 64,
    nblocks: 17,
    ninodes: 200,
    nlog: 31,
    logstart: 2,
    inodestart: 33,
    bmapstart: 46,
};

const BLOCKS: usize = 64;

// A disk of zeros with such a superblock.
fn disk(rt: &impl Abort, alloc: Global, sizes: &Super) -> Result<MemoryDisk, AllocError> {
    let mut disk = MemoryDisk::new(vec![in alloc; 0u8; BLOCKS * BLOCK_LEN]?);
    let mut block = [0; BLOCK_LEN];
    write_super(&mut block, sizes);
    assert!(rt; 1 < disk.blocks());
    assert!(rt; disk.write(1, &block) == Ok(()));
    Ok(disk)
}

// A disk that keeps the numbers of the blocks that were written, in order. For each write of the log's head it keeps
// how many blocks the head names.
#[derive(Drop)]
struct Watched {
    disk: Fused,
    writes: ArrayVec<u32, 64>,
    named: ArrayVec<u8, 64>,
}

impl Device for Watched {
    ghost contents = { λ d. blocks_of d.disk.bytes };

    ghost failures = { λ d. d.disk.faults };

    ghost Called = { λ old new. IsFusedCall old.disk new.disk };

    ghost whole = { λ d. blocks_of-whole d.disk.bytes };

    fn blocks(&self) -> u32 {
        self.disk.blocks()
    }

    fn faults(&self) -> u64 {
        self.disk.faults()
    }

    fn read(&mut self, b: u32, to: &mut [u8; BLOCK_LEN]) -> Result<(), Fault> {
        self.disk.read(b, to)
    }

    fn write(&mut self, b: u32, from: &[u8; BLOCK_LEN]) -> Result<(), Fault> {
        self.disk.write(b, from)?;
        if !self.writes.is_full() {
            self.writes.push(b);
        }
        if b == FRESH.logstart && !self.named.is_full() {
            self.named.push(from[0]);
        }
        Ok(())
    }
}

// The places of a disk's parts, after it was recovered.
fn recovered<D: Device>(device: &mut D) -> Result<Super, MountFault>
    ensures place { IfOk result (λ sizes. IsPlaced (D.contents device.new) sizes) }
    ensures empty { IfOk result (λ _. logged (D.contents device.new) ≡ []) }
{
    recover(device, Version::One)?;
    let layout = find_layout(device, Version::One)?;
    supers_tell_versions();
    let _ = device.blocks();
    Ok(layout.sizes)
}

// A log over fresh buffers, on a disk that was recovered. An error is of the buffers.
fn open<D: Device + Drop>(rt: &impl Abort, alloc: Global, device: D) -> Result<Log<D>, AllocError> {
    let mut device = device;
    let buffers = Buffers::new(alloc)?;
    let sizes = recovered(&mut device).expect(rt, "the disk is good");
    Ok(Log::new(Cache::new(buffers, device), sizes))
}

fn join<D: Device>(rt: &impl Abort, log: &mut Log<D>, hart: u8) -> Option<Txn> {
    assert!(rt; hart < HARTS && log.is_idle(hart));
    log.join(hart)
}

fn waits<D: Device>(rt: &impl Abort, log: &mut Log<D>, hart: u8) {
    match join(rt, log, hart) {
        None => {}
        Some(_txn) => panic!(rt; "there is no room"),
    }
}

fn leave<D: Device>(rt: &impl Abort, log: &mut Log<D>, txn: Txn) -> AfterLeave {
    assert!(rt; log.is_member(&txn) && log.phase() != Phase::Halted);
    log.leave(txn)
}

// Fills a block with this byte, and records it. An error is the device's.
fn change<D: Device>(
    rt: &impl Abort,
    log: &mut Log<D>,
    txn: &mut Txn,
    b: u32,
    byte: u8,
) -> Result<(), Fault> {
    let hart = txn.hart();
    assert!(rt; hart < HARTS && log.held_by(hart) < BUFFERS_OF_A_HART && log.is_home(b));
    match log.get(hart, b) {
        Got::Waits => panic!(rt; "nothing is out"),
        Got::Held(mut guard) => {
            if !guard.value().is_valid() {
                if log.fill(&mut guard).is_err() {
                    log.release(guard);
                    return Err(Fault);
                }
            }
            *guard.value_mut().bytes_mut() = [byte; BLOCK_LEN];
            assert!(rt; log.is_member(txn) && log.has_room(txn) && log.is_home(b));
            assert!(rt; log.phase() != Phase::Halted);
            log.record(txn, guard);
            Ok(())
        }
    }
}

// One step of a commit.
fn step<D: Device>(rt: &impl Abort, log: &mut Log<D>, hart: u8) -> Progress {
    assert!(rt; hart < HARTS && log.held_by(hart) < BUFFERS_OF_A_HART);
    assert!(rt; log.phase() != Phase::Open && log.phase() != Phase::Halted);
    log.commit_step(hart)
}

// Makes the commit's steps to its end or to a fault, and counts the writes.
fn commit<D: Device>(rt: &impl Abort, log: &mut Log<D>, hart: u8) -> (u64, Progress) {
    for made in 0..100u64 {
        match step(rt, log, hart) {
            Progress::Wrote => {}
            Progress::Ended => return (made + 1, Progress::Ended),
            Progress::Failed => return (made, Progress::Failed),
            Progress::Waits => return (made, Progress::Waits),
        }
    }
    panic!(rt; "a commit has an end")
}

/// On a fresh image a transaction records block 48, block 46 and block 48 once more. The commit writes their two
/// copies, and the head, which names two blocks. Then it writes both at home in the order in which they were first
/// recorded, and the empty head.
#[test]
fn a_commit_writes_in_order(rt: HostRuntime) -> Result<(), Fail> {
    let disk = Watched {
        disk: Fused::new(fresh(rt.alloc())?, u64::MAX),
        writes: ArrayVec::new(),
        named: ArrayVec::new(),
    };
    let mut log = open(&rt, rt.alloc(), disk)?;
    let mut txn = join(&rt, &mut log, 0).expect(&rt, "there is room");
    for (b, byte) in [(48, 1), (46, 2), (48, 3)] {
        assert!(rt; change(&rt, &mut log, &mut txn, b, byte) == Ok(()));
    }
    assert!(rt; log.is_recorded(46) && log.is_recorded(48) && !log.is_recorded(47));
    assert!(rt; log.is_home(46) && !log.is_home(1) && !log.is_home(32) && !log.is_home(2000));
    assert!(rt; leave(&rt, &mut log, txn) == AfterLeave::Commits);
    assert!(rt; commit(&rt, &mut log, 0) == (6, Progress::Ended));
    assert!(rt; !log.is_recorded(46));
    let (_ended, _slots, disk) = log.retire();
    let Watched {
        disk,
        writes,
        named,
    } = disk;
    assert!(rt; writes.as_slice() == [3, 4, 2, 48, 46, 2].as_slice());
    assert!(rt; named.as_slice() == [2, 0].as_slice());
    let bytes = disk.into_disk().into_bytes();
    for (b, byte) in [(46usize, 2), (48, 3), (3, 3), (4, 2), (2, 0)] {
        holds(
            &rt,
            bytes.get(b * BLOCK_LEN).copied() == Some(byte),
            "block",
            b,
        );
    }
    Ok(())
}

#[test]
fn a_join_waits_for_room(rt: HostRuntime) -> Result<(), Fail> {
    for (nlog, third) in [(31, true), (30, false)] {
        let sizes = Super { nlog, ..FRESH };
        let mut log = open(&rt, rt.alloc(), disk(&rt, rt.alloc(), &sizes)?)?;
        let first = join(&rt, &mut log, 0).expect(&rt, "there is room");
        let second = join(&rt, &mut log, 1).expect(&rt, "there is room");
        match join(&rt, &mut log, 2) {
            Some(txn) => {
                assert!(rt; third);
                waits(&rt, &mut log, 3);
                assert!(rt; leave(&rt, &mut log, txn) == AfterLeave::Free);
            }
            None => assert!(rt; !third),
        }
        assert!(rt; leave(&rt, &mut log, first) == AfterLeave::Free);
        assert!(rt; leave(&rt, &mut log, second) == AfterLeave::Free);
        let _ = log.retire();
    }
    Ok(())
}

#[test]
fn a_join_counts_what_was_recorded(rt: HostRuntime) -> Result<(), Fail> {
    let mut log = open(&rt, rt.alloc(), disk(&rt, rt.alloc(), &FRESH)?)?;
    let mut first = join(&rt, &mut log, 0).expect(&rt, "there is room");
    for b in 47..57 {
        assert!(rt; change(&rt, &mut log, &mut first, b, 1) == Ok(()));
    }
    assert!(rt; log.is_member(&first) && !log.has_room(&first));
    let mut second = join(&rt, &mut log, 1).expect(&rt, "ten are recorded, and one is in");
    assert!(rt; change(&rt, &mut log, &mut second, 57, 1) == Ok(()));
    assert!(rt; leave(&rt, &mut log, first) == AfterLeave::Free);
    waits(&rt, &mut log, 2);
    assert!(rt; leave(&rt, &mut log, second) == AfterLeave::Commits);
    waits(&rt, &mut log, 2);
    assert!(rt; commit(&rt, &mut log, 1) == (24, Progress::Ended));
    let again = join(&rt, &mut log, 2).expect(&rt, "nothing is recorded");
    assert!(rt; leave(&rt, &mut log, again) == AfterLeave::Free);
    let _ = log.retire();
    Ok(())
}

// Four calls read the superblock and the head, and three the blocks. Then the device fails at each write of the
// commit in turn: three copies, the head, three copies home, the empty head. After a recovery all is there or
// nothing.
#[test]
fn a_group_is_there_whole_or_not_at_all(rt: HostRuntime) -> Result<(), Fail> {
    for writes in 0..9u64 {
        let disk = Fused::new(disk(&rt, rt.alloc(), &FRESH)?, 7 + writes);
        let mut log = open(&rt, rt.alloc(), disk)?;
        let mut txn = join(&rt, &mut log, 7).expect(&rt, "there is room");
        for b in 48..51 {
            assert!(rt; change(&rt, &mut log, &mut txn, b, 9) == Ok(()));
        }
        assert!(rt; leave(&rt, &mut log, txn) == AfterLeave::Commits);
        let want = if writes < 8 {
            Progress::Failed
        } else {
            Progress::Ended
        };
        let made = if writes < 8 { writes } else { 8 };
        assert!(rt; commit(&rt, &mut log, 7) == (made, want));
        if writes < 8 {
            waits(&rt, &mut log, 0);
        }
        let (_ended, _slots, disk) = log.retire();
        let mut disk = disk.into_disk();
        assert!(rt; recover(&mut disk, Version::One) == Ok(()));
        let bytes = disk.into_bytes();
        let byte = if writes < 4 { 0 } else { 9 };
        for b in 48..51 {
            holds(
                &rt,
                bytes.get(b * BLOCK_LEN).copied() == Some(byte),
                "after writes",
                writes,
            );
        }
    }
    Ok(())
}

// The first commit begins with event 9, of ten, and ends. The second begins with event 19, and the device fails at
// each of its four writes in turn. These are a copy, the head, the copy home, the empty head. Before that there were
// nine calls: four read the superblock and the head, one block 48, and four are the first commit's writes.
#[test]
fn marks_say_which_commit_stands(rt: HostRuntime) -> Result<(), Fail> {
    for (writes, cut, doubt) in [
        (0u8, 10, None),
        (1, 10, Some(20)),
        (2, 20, None),
        (3, 20, None),
        (4, 20, None),
    ] {
        let disk = Fused::new(disk(&rt, rt.alloc(), &FRESH)?, 9 + u64::from(writes));
        let mut log = open(&rt, rt.alloc(), disk)?;
        let mut marks = Marks {
            begun: 0,
            cut: 0,
            doubt: None,
        };
        for before in [9u8, 19] {
            let mut txn = join(&rt, &mut log, 5).expect(&rt, "there is room");
            assert!(rt; change(&rt, &mut log, &mut txn, 48, before) == Ok(()));
            marks = marks.after_leave(u64::from(before), leave(&rt, &mut log, txn));
            assert!(rt; marks.begun == u64::from(before) + 1);
            for _ in 0..4 {
                if log.phase() != Phase::Halted {
                    let at_point = log.is_at_point();
                    marks = marks.after_write(at_point, step(&rt, &mut log, 5));
                }
            }
        }
        assert!(rt; (marks.begun, marks.cut, marks.doubt) == (20, cut, doubt));
        let (_ended, _slots, disk) = log.retire();
        let mut disk = disk.into_disk();
        assert!(rt; recover(&mut disk, Version::One) == Ok(()));
        let byte = if writes < 2 { 9 } else { 19 };
        holds(
            &rt,
            disk.into_bytes().get(48 * BLOCK_LEN).copied() == Some(byte),
            "after writes",
            writes,
        );
    }
    Ok(())
}

#[test]
fn harts_join_and_leave_for_a_hundred_commits(rt: HostRuntime) -> Result<(), Fail> {
    let mut log = open(&rt, rt.alloc(), disk(&rt, rt.alloc(), &FRESH)?)?;
    for round in 0..100u8 {
        let (one, other) = (round % HARTS, (round + 1) % HARTS);
        let mut first = join(&rt, &mut log, one).expect(&rt, "there is room");
        let mut second = join(&rt, &mut log, other).expect(&rt, "there is room");
        assert!(rt; change(&rt, &mut log, &mut first, 48 + (round % 5) as u32, round) == Ok(()));
        assert!(rt; leave(&rt, &mut log, first) == AfterLeave::Free);
        assert!(rt; change(&rt, &mut log, &mut second, 53 + (round % 5) as u32, round) == Ok(()));
        assert!(rt; leave(&rt, &mut log, second) == AfterLeave::Commits);
        assert!(rt; commit(&rt, &mut log, other) == (6, Progress::Ended));
    }
    let (_ended, _slots, disk) = log.retire();
    let bytes = disk.into_bytes();
    for n in 0..5u8 {
        for b in [48 + n as usize, 53 + n as usize] {
            holds(
                &rt,
                bytes.get(b * BLOCK_LEN).copied() == Some(95 + n),
                "block",
                b,
            );
        }
    }
    Ok(())
}

#[test]
fn a_log_ends_at_any_moment(rt: HostRuntime) -> Result<(), Fail> {
    let mut log = open(&rt, rt.alloc(), disk(&rt, rt.alloc(), &FRESH)?)?;
    let mut txn = join(&rt, &mut log, 3).expect(&rt, "there is room");
    assert!(rt; change(&rt, &mut log, &mut txn, 48, 1) == Ok(()));
    assert!(rt; log.held_by(3) < BUFFERS_OF_A_HART && log.is_outside(48));
    match log.get(3, 48) {
        Got::Waits => panic!(rt; "nothing is out"),
        Got::Held(guard) => {
            let (ended, slots, disk) = log.retire();
            assert!(rt; (guard.number() as usize) < slots.count());
            guard.retire_in_row(&slots);
            txn.retire(&ended);
            assert!(rt; disk.into_bytes().get(48 * BLOCK_LEN).copied() == Some(0));
        }
    }
    Ok(())
}
