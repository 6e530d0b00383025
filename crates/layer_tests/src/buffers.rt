//! Buffers: which are taken anew, what a fault leaves, and that there always is a buffer.
ghost use Rattle.std.specs.Prelude.{◌≡◌};
ghost use Rattle.buffer_cache.specs.Seats.{unused_from};

use crate::images::fresh;
use block_device::{BLOCK_LEN, Device, Fused, MemoryDisk};
use buffer_cache::{BUFFERS, BUFFERS_OF_A_HART, Buffers, Cache, Got, HARTS, MOST_PINNED};
use sleep_lock::Guard;
use std::alloc::{AllocError, Global};
use std::process::Abort;
use std::test::Fail;

pub const BLOCKS: u32 = 60;

/// Sixty blocks, each full of its number.
pub fn numbered(alloc: Global) -> Result<MemoryDisk, AllocError> {
    let mut bytes = Vec::new(alloc);
    for b in 0..BLOCKS {
        for _ in 0..BLOCK_LEN {
            bytes.push(b as u8)?;
        }
    }
    Ok(MemoryDisk::new(bytes))
}

/// The buffers, asked for once more if memory was refused.
pub fn buffers(rt: &impl Abort, alloc: Global) -> Buffers
    ensures { result ≡ unused_from 0 BUFFERS }
{
    match Buffers::new(alloc) {
        Ok(buffers) => buffers,
        Err(AllocError) => Buffers::new(alloc).expect(rt, "memory the second time"),
    }
}

// Gets a block, which has this byte at place 7, fills it if it isn't valid, and gives it back: was it valid?
fn touch<D: Device>(rt: &impl Abort, cache: &mut Cache<D>, hart: u8, b: u32, byte: u8) -> bool {
    assert!(rt; hart < HARTS && b < cache.device().blocks());
    assert!(rt; cache.held_by(hart) < BUFFERS_OF_A_HART);
    match cache.get(hart, b) {
        Got::Waits => panic!(rt; "nothing is out"),
        Got::Held(mut guard) => {
            let valid = guard.value().is_valid();
            if !valid {
                assert!(rt; cache.fill(&mut guard).is_ok());
            }
            assert!(rt; guard.value().bytes()[7] == byte);
            cache.release(guard);
            valid
        }
    }
}

// Pins a block's buffer, and gives it back.
fn pin(rt: &impl Abort, cache: &mut Cache<MemoryDisk>, hart: u8, b: u32) {
    assert!(rt; hart < HARTS && cache.held_by(hart) < BUFFERS_OF_A_HART);
    match cache.get(hart, b) {
        Got::Waits => panic!(rt; "nothing is out"),
        Got::Held(guard) => {
            assert!(rt; cache.pinned() < MOST_PINNED);
            cache.pin(&guard);
            cache.release(guard);
        }
    }
}

/// The first 47 blocks of a fresh image have a zero at place 7. The first 46 of them are in the buffers, and the
/// first is asked for once more. Then block 46 takes the buffer of block 1; or that of block 2, if block 1 is pinned.
#[test]
fn the_least_recent_is_taken(rt: HostRuntime) -> Result<(), Fail> {
    for (pinned, taken) in [(None, 1), (Some(1), 2)] {
        let disk = fresh(rt.alloc())?;
        let mut cache = Cache::new(buffers(&rt, rt.alloc()), disk);
        for b in 0..BUFFERS as u32 {
            assert!(rt; !touch(&rt, &mut cache, 0, b, 0));
            if pinned == Some(b) {
                pin(&rt, &mut cache, 0, b);
            }
        }
        assert!(rt; touch(&rt, &mut cache, 0, 0, 0));
        assert!(rt; !touch(&rt, &mut cache, 0, BUFFERS as u32, 0));
        for b in 0..=BUFFERS as u32 {
            assert!(rt; cache.is_cached(b) == (b != taken));
        }
        let _ = cache.retire();
    }
    Ok(())
}

// The device fails at each call in turn. The guard isn't valid then, the rest is as it was, and the cache ends with
// the guard out.
#[test]
fn a_fault_leaves_the_guard(rt: HostRuntime) -> Result<(), Fail> {
    for calls in 0..6 {
        let disk = Fused::new(numbered(rt.alloc())?, calls as u64);
        let mut cache = Cache::new(buffers(&rt, rt.alloc()), disk);
        for b in 0..calls {
            assert!(rt; !touch(&rt, &mut cache, 1, b, b as u8));
        }
        assert!(rt; calls < cache.device().blocks());
        assert!(rt; cache.held_by(7) < BUFFERS_OF_A_HART);
        match cache.get(7, calls) {
            Got::Waits => panic!(rt; "nothing is out"),
            Got::Held(mut guard) => {
                assert!(rt; !guard.value().is_valid());
                assert!(rt; cache.fill(&mut guard).is_err());
                assert!(rt; !guard.value().is_valid());
                for b in 0..calls {
                    assert!(rt; touch(&rt, &mut cache, 1, b, b as u8));
                }
                let (retired, disk) = cache.retire();
                assert!(rt; disk.faults() == 1);
                assert!(rt; (guard.number() as usize) < retired.count());
                guard.retire_in_row(&retired);
            }
        }
    }
    Ok(())
}

// Thirty buffers pinned and fifteen out, and one more asked; a block that is out waits.
#[test]
fn there_is_one_more(rt: HostRuntime) -> Result<(), Fail> {
    let disk = numbered(rt.alloc())?;
    let mut guards = Vec::with_capacity(rt.alloc(), 16)?;
    let mut cache = Cache::new(buffers(&rt, rt.alloc()), disk);
    for b in 0..MOST_PINNED as u32 {
        assert!(rt; !touch(&rt, &mut cache, 0, b, b as u8));
        pin(&rt, &mut cache, 0, b);
    }
    for n in 0..16 {
        let hart = (n / 2) as u8;
        let b = MOST_PINNED as u32 + n;
        assert!(rt; hart < HARTS && cache.held_by(hart) < BUFFERS_OF_A_HART);
        match cache.get(hart, b) {
            Got::Waits => panic!(rt; "there always is a buffer"),
            Got::Held(guard) => match guards.push(guard) {
                Ok(()) => {}
                Err(_full) => panic!(rt; "there is room for sixteen"),
            },
        }
        assert!(rt; cache.pinned() == MOST_PINNED);
    }
    for b in 0..BUFFERS as u32 {
        assert!(rt; cache.is_cached(b));
    }
    let (retired, _disk) = cache.retire();
    while let Some(guard) = guards.pop() {
        assert!(rt; (guard.number() as usize) < retired.count());
        guard.retire_in_row(&retired);
    }
    guards.destroy_empty();
    Ok(())
}

#[test]
fn what_is_recorded_is_seen_and_comes_home(rt: HostRuntime) -> Result<(), Fail> {
    let disk = numbered(rt.alloc())?;
    let mut cache = Cache::new(buffers(&rt, rt.alloc()), disk);
    assert!(rt; !touch(&rt, &mut cache, 2, 9, 9));
    assert!(rt; cache.held_by(2) < BUFFERS_OF_A_HART && 9 < cache.device().blocks());
    match cache.get(2, 9) {
        Got::Waits => panic!(rt; "nothing is out"),
        Got::Held(mut guard) => {
            assert!(rt; guard.value().is_valid());
            guard.value_mut().bytes_mut()[7] = 200;
            assert!(rt; cache.pinned() < MOST_PINNED);
            cache.pin(&guard);
            cache.release_changed(guard);
        }
    }
    assert!(rt; cache.held_by(2) < BUFFERS_OF_A_HART);
    match cache.get(2, 9) {
        Got::Waits => panic!(rt; "nothing is out"),
        Got::Held(guard) => {
            assert!(rt; guard.value().is_valid());
            assert!(rt; guard.value().bytes()[7] == 200);
            assert!(rt; cache.held_by(3) < BUFFERS_OF_A_HART);
            match cache.get(3, 9) {
                Got::Waits => {}
                Got::Held(_other) => panic!(rt; "it is out"),
            }
            assert!(rt; cache.write_home(&guard).is_ok());
            cache.unpin(&guard);
            cache.release(guard);
        }
    }
    assert!(rt; cache.pinned() == 0);
    if cache.is_cached(50) {
        panic!(rt; "no hart asked for it");
    }
    assert!(rt; 50 < cache.device().blocks());
    assert!(rt; cache.write_uncached(50, &[3; BLOCK_LEN]).is_ok());
    let (_retired, mut disk) = cache.retire();
    for (b, byte) in [(9, 200), (50, 3), (51, 51)] {
        let mut bytes = [0; BLOCK_LEN];
        assert!(rt; b < disk.blocks());
        assert!(rt; disk.read(b, &mut bytes).is_ok());
        assert!(rt; bytes[7] == byte);
    }
    Ok(())
}
