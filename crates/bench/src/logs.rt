//! Transactions over a disk in memory.
ghost use Rattle.std.specs.Prelude.{◌≡◌, ◌≢◌, [], IfOk, IsTrue};
ghost use Rattle.block_device.specs.Blocks.{blocks_of};
ghost use Rattle.group_log.specs.Vocabulary.{logged};
ghost use Rattle.fs_machine.specs.Vocabulary.{HasRoom, IsMember, IsHome};
ghost use Rattle.group_log.specs.Soundness.{IsPlaced};
ghost use Rattle.group_log.specs.declared.phase.Phase.TheVariants.{Halted};

use crate::workload::WorkloadError;
use block_device::{BLOCK_LEN, Device, MemoryDisk};
use buffer_cache::{BUFFERS_OF_A_HART, Buffers, Cache, Got};
use fs_layout::Super;
use group_log::{AfterLeave, Log, Phase, Progress, Txn};
use image_tree::{find_layout, recover, supers_tell_versions};
use image_versions::Version;
use mkfs::make;
use std::alloc::Global;

const COMMITS: u32 = 100_000;

const RECORDS: u32 = 300_000;

// Of three blocks each time.
const RECORDED: u32 = 900_000;

const HART: u8 = 1;

const DISK_BLOCKS: u32 = 2000;

const INODES: u32 = 200;

// The blocks that each transaction changes. None of them holds anything of a fresh image.
const CHANGED: [u32; 3] = [100, 200, 300];

// A commit's writes: each block into the log, the head, each block home, the empty head.
const WRITES: u32 = 8;

/// Transactions of three blocks, committed one after another: one operation is a transaction with its commit.
pub fn commit_three_blocks(alloc: Global) -> Result<u64, WorkloadError> {
    let disk = make(alloc, DISK_BLOCKS, INODES, &[]).map_err(|_| WorkloadError::Wrong)?;
    let (sizes, disk) = recovered(disk)?;
    let log = Log::new(Cache::new(Buffers::new(alloc)?, disk), sizes);
    ended(commit_often(log)?, COMMITS)
}

/// Three cached blocks got, changed and recorded in one transaction, over and over: one operation is that of one block.
pub fn record_cached(alloc: Global) -> Result<u64, WorkloadError> {
    let disk = make(alloc, DISK_BLOCKS, INODES, &[]).map_err(|_| WorkloadError::Wrong)?;
    let (sizes, disk) = recovered(disk)?;
    let log = Log::new(Cache::new(Buffers::new(alloc)?, disk), sizes);
    let log = transact(log, byte_of(COMMITS - 1), RECORDS)?;
    let (_ended, _slots, disk) = log.retire();
    ended(disk, RECORDED)
}

// The number of operations, if the disk then has what the last transaction wrote.
fn ended(disk: MemoryDisk, operations: u32) -> Result<u64, WorkloadError> {
    let mut disk = disk;
    recover(&mut disk, Version::One).map_err(|_| WorkloadError::Wrong)?;
    if has_last_bytes(disk) {
        Ok(u64::from(operations))
    } else {
        Err(WorkloadError::Wrong)
    }
}

// A disk whose log is empty, and the places of its parts.
fn recovered(disk: MemoryDisk) -> Result<(Super, MemoryDisk), WorkloadError>
    ensures place { IfOk result (λ (sizes, disk). IsPlaced (blocks_of disk) sizes) }
    ensures empty { IfOk result (λ (_, disk). logged (blocks_of disk) ≡ []) }
{
    let mut disk = disk;
    recover(&mut disk, Version::One).map_err(|_| WorkloadError::Wrong)?;
    let Ok(layout) = find_layout(&mut disk, Version::One) else {
        return Err(WorkloadError::Wrong);
    };
    supers_tell_versions();
    let _ = disk.blocks();
    Ok((layout.sizes, disk))
}

// Makes the transactions, and gives the disk.
fn commit_often(log: Log<MemoryDisk>) -> Result<MemoryDisk, WorkloadError> {
    let mut log = log;
    for number in 0..COMMITS {
        log = transact(log, byte_of(number), 1)?;
    }
    let (_ended, _slots, disk) = log.retire();
    Ok(disk)
}

// What a transaction writes at the start of its blocks.
fn byte_of(number: u32) -> u8 {
    (number % 251) as u8
}

// One transaction, which changes each block `times` times, with its commit. After an error the log has ended.
fn transact(log: Log<MemoryDisk>, byte: u8, times: u32) -> Result<Log<MemoryDisk>, WorkloadError> {
    let mut log = log;
    let joined = if log.is_idle(HART) {
        log.join(HART)
    } else {
        None
    };
    let Some(mut txn) = joined else {
        let _ = log.retire();
        return Err(WorkloadError::Wrong);
    };
    let changed = change_all(&mut log, &mut txn, byte, times);
    if !changed || !log.is_member(&txn) || log.phase() == Phase::Halted {
        let (ended, _slots, _disk) = log.retire();
        txn.retire(&ended);
        return Err(WorkloadError::Wrong);
    }
    if log.leave(txn) == AfterLeave::Commits && commit(&mut log) {
        return Ok(log);
    }
    let _ = log.retire();
    Err(WorkloadError::Wrong)
}

// Changes each block `times` times. It says whether it could.
fn change_all<D: Device>(log: &mut Log<D>, txn: &mut Txn, byte: u8, times: u32) -> bool {
    let mut changed = true;
    for _ in 0..times {
        for b in CHANGED {
            changed &= change(log, txn, b, byte);
        }
    }
    changed
}

// Writes a byte at the start of a block, and records it. It says whether it could.
fn change<D: Device>(log: &mut Log<D>, txn: &mut Txn, b: u32, byte: u8) -> bool {
    if !may_record(log, txn, b) || BUFFERS_OF_A_HART <= log.held_by(HART) {
        return false;
    }
    match log.get(HART, b) {
        Got::Waits => false,
        Got::Held(mut guard) => {
            if !guard.value().is_valid() && log.fill(&mut guard).is_err() {
                log.release(guard);
                return false;
            }
            guard.value_mut().bytes_mut()[0] = byte;
            log.record(txn, guard);
            true
        }
    }
}

// Whether a transaction may record a block.
fn may_record<D: Device>(log: &Log<D>, txn: &Txn, b: u32) -> bool
    ensures member { IsTrue result → IsMember log.now.members txn.now }
    ensures running { IsTrue result → log.now.phase ≢ Halted }
    ensures home { IsTrue result → IsHome (D.contents log.now.cache.device) log.now.sizes b }
    ensures room { IsTrue result → HasRoom log.now.members txn.now }
{
    log.is_member(txn) && log.phase() != Phase::Halted && log.is_home(b) && log.has_room(txn)
}

// Makes the commit's steps. It says whether they ended.
fn commit<D: Device>(log: &mut Log<D>) -> bool {
    for _ in 0..WRITES {
        let phase = log.phase();
        if phase == Phase::Open
            || phase == Phase::Halted
            || BUFFERS_OF_A_HART <= log.held_by(HART)
        {
            return false;
        }
        match log.commit_step(HART) {
            Progress::Wrote => {}
            Progress::Ended => return true,
            Progress::Waits => return false,
            Progress::Failed => return false,
        }
    }
    false
}

// Whether the changed blocks have what the last transaction wrote.
fn has_last_bytes(disk: MemoryDisk) -> bool {
    let bytes = disk.into_bytes();
    let byte = byte_of(COMMITS - 1);
    CHANGED.iter().all(|b| bytes.get(*b as usize * BLOCK_LEN).copied() == Some(byte))
}
