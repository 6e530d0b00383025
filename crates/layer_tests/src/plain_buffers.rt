//! Buffers beside a plain list of them, in order of giving back.
ghost use Rattle.std.specs.Prelude.{◌≡◌, ◌<◌, ℕ, length, IfSome};
ghost use Rattle.group_log.specs.Vocabulary.{seen};
ghost use Rattle.buffer_cache.specs.Seats.{KeepsOthers};
ghost use Rattle.mkfs.specs.Vocabulary.{blocks_of};

use crate::buffers::{BLOCKS, buffers, numbered};
use block_device::{Device, MemoryDisk};
use buffer_cache::{BUFFERS, BUFFERS_OF_A_HART, Buffer, Cache, Got, HARTS, MOST_PINNED};
use sleep_lock::Guard;
use std::process::Abort;
use std::test::Fail;

const ROUNDS: usize = 10_000;

// A buffer as the list has it.
#[derive(Clone, Copy)]
struct Row {
    number: u32,
    block: Option<u32>,
    is_read: bool,
    is_pinned: bool,
    is_out: bool,
}

// The first was given back least recently.
#[derive(Clone, Copy)]
struct Plain {
    rows: [Row; BUFFERS],
}

impl Plain {
    fn new() -> Plain {
        let mut rows = [Row {
            number: 0,
            block: None,
            is_read: false,
            is_pinned: false,
            is_out: false,
        }; BUFFERS];
        for number in 0..BUFFERS {
            rows[number].number = number as u32;
        }
        Plain { rows }
    }

    fn place_of(&self, b: u32) -> Option<usize>
        ensures { IfSome result (λ i. i < BUFFERS) }
    {
        self.rows.iter().position(|row| row.block == Some(b))
    }

    // The block's buffer, else the first that is neither out nor pinned. None if it waits.
    fn get(&mut self, b: u32) -> Option<Row> {
        let found = self.place_of(b);
        let free = self
            .rows
            .iter()
            .position(|row| !row.is_pinned && !row.is_out);
        let place = found.or(free)?;
        let row = &mut self.rows[place];
        if row.is_out {
            return None;
        }
        row.is_read &= found.is_some();
        row.block = Some(b);
        row.is_out = true;
        Some(*row)
    }

    fn set_read(&mut self, b: u32) {
        if let Some(place) = self.place_of(b) {
            self.rows[place].is_read = true;
        }
    }

    fn is_pinned(&self, b: u32) -> bool {
        match self.place_of(b) {
            Some(place) => self.rows[place].is_pinned,
            None => false,
        }
    }

    fn set_pinned(&mut self, b: u32, is_pinned: bool) {
        if let Some(place) = self.place_of(b) {
            self.rows[place].is_pinned = is_pinned;
        }
    }

    fn give_back(&mut self, b: u32) {
        let Some(place) = self.place_of(b) else {
            return;
        };
        let mut row = self.rows[place];
        row.is_out = false;
        for i in place..BUFFERS - 1 {
            self.rows[i] = self.rows[i + 1];
        }
        self.rows[BUFFERS - 1] = row;
    }
}

// Numbers that look random (the constants are those of Numerical Recipes).
#[derive(Clone, Copy)]
struct Numbers(u32);

impl Numbers {
    fn next(&mut self, below: u32) -> u32
        requires { 0 < below }
        ensures { result < below }
    {
        self.0 = self.0.wrapping_mul(1_664_525).wrapping_add(1_013_904_223);
        (self.0 >> 8) % below
    }
}

fn expect_same(rt: &impl Abort, guard: &Guard<Buffer>, row: Option<Row>) {
    match row {
        Some(row) => {
            assert!(rt; guard.number() == row.number);
            assert!(rt; guard.value().is_valid() == row.is_read);
        }
        None => panic!(rt; "the list waits"),
    }
}

// A hart gets a block, and gives it back, unless it is out.
fn pass_by(rt: &impl Abort, cache: &mut Cache<MemoryDisk>, plain: &mut Plain, hart: u8, b: u32)
    ensures others { KeepsOthers b cache.old.seats cache.new.seats }
    ensures count { length (blocks_of cache.new.device) ≡ length (blocks_of cache.old.device) }
    ensures seen { (k : ℕ) → seen blocks_of cache.new k ≡ seen blocks_of cache.old k }
{
    assert!(rt; hart < HARTS && cache.held_by(hart) < BUFFERS_OF_A_HART);
    let row = plain.get(b);
    match cache.get(hart, b) {
        Got::Waits => assert!(rt; row.is_none()),
        Got::Held(guard) => {
            expect_same(rt, &guard, row);
            cache.release(guard);
            plain.give_back(b);
        }
    }
}

// A hart gets a block, fills it, and gives it back. Meanwhile another one gets a block, and gives it back; and sometimes the first
// block is pinned or unpinned.
fn go_round(
    rt: &impl Abort,
    cache: &mut Cache<MemoryDisk>,
    plain: &mut Plain,
    numbers: &mut Numbers,
) {
    let b = numbers.next(BLOCKS);
    let other = numbers.next(BLOCKS);
    let hart = numbers.next(HARTS as u32) as u8;
    assert!(rt;
        hart < HARTS && cache.held_by(hart) < BUFFERS_OF_A_HART && b < cache.device().blocks()
    );
    match cache.get(hart, b) {
        Got::Waits => panic!(rt; "nothing is out"),
        Got::Held(mut guard) => {
            expect_same(rt, &guard, plain.get(b));
            if !guard.value().is_valid() {
                assert!(rt; cache.fill(&mut guard).is_ok());
                plain.set_read(b);
            }
            if other != b {
                pass_by(rt, cache, plain, (hart + 1) % HARTS, other);
            }
            cache.release(guard);
            plain.give_back(b);
        }
    }
    if numbers.next(8) == 0 {
        turn_pin(rt, cache, plain, b);
    }
}

// Unpins a block's buffer, after it was written home, or pins it if it isn't pinned; then it is given back.
fn turn_pin(rt: &impl Abort, cache: &mut Cache<MemoryDisk>, plain: &mut Plain, b: u32) {
    let is_pinned = plain.is_pinned(b);
    if !is_pinned && !(cache.is_cached(b) && cache.pinned() < MOST_PINNED) {
        return;
    }
    assert!(rt; cache.held_by(0) < BUFFERS_OF_A_HART && b < cache.device().blocks());
    match cache.get(0, b) {
        Got::Waits => panic!(rt; "nothing is out"),
        Got::Held(guard) => {
            expect_same(rt, &guard, plain.get(b));
            if is_pinned {
                assert!(rt; guard.value().is_valid());
                assert!(rt; cache.write_home(&guard).is_ok());
                cache.unpin(&guard);
            } else {
                assert!(rt; cache.pinned() < MOST_PINNED);
                cache.pin(&guard);
            }
            cache.release(guard);
            plain.give_back(b);
            plain.set_pinned(b, !is_pinned);
        }
    }
}

/// In each of ten thousand rounds a get gives the buffer that the list has, filled or not, and waits exactly if the
/// list does.
#[test]
fn buffers_go_as_a_plain_list(rt: HostRuntime) -> Result<(), Fail> {
    let mut cache = Cache::new(buffers(&rt, rt.alloc()), numbered(rt.alloc())?);
    let mut plain = Plain::new();
    let mut numbers = Numbers(1);
    for _ in 0..ROUNDS {
        go_round(&rt, &mut cache, &mut plain, &mut numbers);
    }
    let _ = cache.retire();
    Ok(())
}
