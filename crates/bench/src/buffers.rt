//! Buffers over a disk in memory.
ghost use Rattle.std.specs.Prelude.{◌≡◌, ◌<◌, IfOk, IfSome, length};
ghost use Rattle.fs_machine.specs.Vocabulary.{IsHeld};
ghost use Rattle.group_log.specs.Vocabulary.{seen};
ghost use Rattle.bench.specs.InHand.{HasNone, HasOne};

use crate::workload::WorkloadError;
use block_device::{BLOCK_LEN, Device, MemoryDisk};
use buffer_cache::{BUFFERS, Buffer, Buffers, Cache, Got};
use sleep_lock::Guard;
use std::alloc::Global;

const ROUNDS: u32 = 20_000;

const HART: u8 = 1;

/// Each cached block got and given back, the least recent one each time: one operation is both.
pub fn get_and_release(alloc: Global) -> Result<u64, WorkloadError> {
    let mut cache = full(alloc)?;
    let mut count = 0u64;
    let mut sum = 0u64;
    for _ in 0..ROUNDS {
        for b in 0..BUFFERS as u32 {
            sum = sum.wrapping_add(touch(&mut cache, b));
            count = count.wrapping_add(1);
        }
    }
    let _ = cache.retire();
    if sum == count {
        Ok(count)
    } else {
        Err(WorkloadError::Wrong)
    }
}

/// The block that was given back last got and given back again: one operation is both.
pub fn get_most_recent(alloc: Global) -> Result<u64, WorkloadError> {
    let mut cache = full(alloc)?;
    let rounds = ROUNDS * BUFFERS as u32;
    let mut sum = 0u64;
    for _ in 0..rounds {
        sum = sum.wrapping_add(touch(&mut cache, BUFFERS as u32 - 1));
    }
    let _ = cache.retire();
    if sum == u64::from(rounds) {
        Ok(sum)
    } else {
        Err(WorkloadError::Wrong)
    }
}

// A cache that has each block of its disk, the last one most recently given back. Each block begins with a 1.
fn full(alloc: Global) -> Result<Cache<MemoryDisk>, WorkloadError>
    ensures { IfOk result (λ cache. HasNone cache.seats) }
{
    let disk = MemoryDisk::new(vec![in alloc; 1; BUFFERS * BLOCK_LEN]?);
    let mut cache = Cache::new(Buffers::new(alloc)?, disk);
    let mut sum = 0u64;
    for b in 0..BUFFERS as u32 {
        sum = sum.wrapping_add(touch(&mut cache, b));
    }
    if sum == BUFFERS as u64 {
        Ok(cache)
    } else {
        let _ = cache.retire();
        Err(WorkloadError::Wrong)
    }
}

// Gets a block and gives it back: a byte of it, or 0 if the get gave no buffer.
fn touch<D: Device>(cache: &mut Cache<D>, b: u32) -> u64
    requires { HasNone cache.old.seats }
    ensures { HasNone cache.new.seats }
{
    if cache.device().blocks() <= b {
        return 0;
    }
    match cache.get(HART, b) {
        Got::Waits => 0,
        Got::Held(guard) => read_and_release(cache, guard),
    }
}

fn read_and_release<D: Device>(cache: &mut Cache<D>, mut guard: Guard<Buffer>) -> u64
    requires one { HasOne cache.old.seats guard }
    requires held { IsHeld cache.old.seats guard }
    requires bytes { IfSome guard.value.content (λ bytes. bytes ≡ seen D.contents cache.old guard.value.block) }
    requires within { guard.value.block < length (D.contents cache.old.device) }
    ensures { HasNone cache.new.seats }
{
    read(cache, &mut guard);
    let byte = first_byte(guard.value());
    cache.release(guard);
    byte
}

// Reads the block into its buffer, if that isn't valid. After a fault it isn't valid either.
fn read<D: Device>(cache: &mut Cache<D>, guard: &mut Guard<Buffer>)
    requires one { HasOne cache.old.seats guard.old }
    requires held { IsHeld cache.old.seats guard.old }
    requires bytes { IfSome guard.old.value.content (λ bytes. bytes ≡ seen D.contents cache.old guard.old.value.block) }
    requires within { guard.old.value.block < length (D.contents cache.old.device) }
    ensures one { HasOne cache.new.seats guard.new }
    ensures held { IsHeld cache.new.seats guard.new }
    ensures bytes { IfSome guard.new.value.content (λ bytes. bytes ≡ seen D.contents cache.new guard.new.value.block) }
{
    if guard.value().is_valid() {
        return;
    }
    let _ = cache.fill(guard);
}

fn first_byte(buffer: &Buffer) -> u64 {
    if buffer.is_valid() {
        u64::from(buffer.bytes()[0])
    } else {
        0
    }
}
