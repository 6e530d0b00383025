//! The cache.
ghost use Rattle.std.specs.Prelude.{◌≡◌, ◌≢◌, ◌+◌, ◌<◌, ◌≤◌, ◌⊎◌, ◌↔◌, ◌==◌, if◌then◌else◌, ℕ, [], true, false, length, slice_set, Some, None, IsSome, IfSome, IsTrue, OnOk, OnErr};
ghost use Rattle.std.specs.Option.{unwrap_or, option_map};
ghost use Rattle.sleep_lock.specs.SleepLock.{GuardState};
ghost use Rattle.block_device.specs.Blocks.{block_at, faults_after};
ghost use Rattle.buffer_cache.specs.Buffers.{BufferState};
ghost use Rattle.buffer_cache.specs.Limits.{buffer_count, hart_count, most_pinned};
ghost use Rattle.buffer_cache.specs.Lists.{count_of};
ghost use Rattle.buffer_cache.specs.Seats.{is_any, is_held_by, is_pinned, is_recorded, is_unused, IsPinned, IsRecorded, Keeps, seat_of, slot_of, holder_of, kept, IsHeld, KeepsHeld, KeepsOthers, with_seat, with_content, with_pin, given_back, unused_from};

use crate::buffer::Buffer;
use crate::buffers::Buffers;
use crate::got::Got;
use block_device::{BLOCK_LEN, Device, Fault};
use sleep_lock::{Guard, RetiredSlots};
use std::marker::Model;

/// Forty-six buffers over a device (xv6: `bcache`). A contract sees the device, and what is kept of each buffer, in
/// order of giving back. No call takes memory.
pub struct Cache<D: Device> {
    device: D,
    buffers: Buffers,
}

impl<D: Device> Model for Cache<D> {
    ghost use Rattle.buffer_cache.specs.Seats.{CacheState, IsSound};

    ghost Value = { CacheState D };

    ghost view = { λ c. record { device = c.device; seats = c.buffers } };

    ghost invariant = { λ c. IsSound (D.contents c.device) c.buffers };
}

impl<D: Device> Cache<D> {
    ghost use Rattle.buffer_cache.specs.Getting.{get_of, IfHeld};
    ghost use Rattle.buffer_cache.specs.Seats.{seen, IsSound};

    /// A cache with nothing in it.
    pub fn new(buffers: Buffers, device: D) -> Cache<D>
        requires { buffers ≡ unused_from 0 buffer_count }
        ensures { result ≡ record { device = device; seats = unused_from 0 buffer_count } }
    {
        Cache { device, buffers }
    }

    /// The device.
    pub fn device(&self) -> &D
        ensures device { result.now ≡ self.now.device }
        ensures sound { IsSound (D.contents self.now.device) self.now.seats }
    {
        &self.device
    }

    /// How many buffers a hart has in its hand.
    pub fn held_by(&self, hart: u8) -> usize
        ensures { result ≡ count_of (is_held_by hart) self.now.seats }
    {
        self.buffers.held_by(hart)
    }

    /// How many buffers are pinned.
    pub fn pinned(&self) -> usize
        ensures { result ≡ count_of is_pinned self.now.seats }
    {
        self.buffers.pinned()
    }

    /// Whether a block has a buffer.
    pub fn is_cached(&self, b: u32) -> bool
        ensures { IsTrue result ↔ IsSome (seat_of b self.now.seats) }
    {
        self.buffers.is_cached(b)
    }

    /// A block's buffer for a hart that has one other at most. It is the one that has the block, else the least
    /// recently given back one that is neither out nor pinned. One that was never used comes before any other. It
    /// waits exactly if the block's buffer is out, and then nothing changes (xv6: `bget`).
    pub fn get(&mut self, hart: u8, b: u32) -> Got
        requires hart { hart < hart_count }
        requires few { count_of (is_held_by hart) self.old.seats ≤ 1 }
        ensures gives { (self.new.seats, result) ≡ get_of hart b self.old.seats }
        ensures waits { (result ≡ Got.Waits) ↔ IsSome (holder_of b self.old.seats) }

        // As long as a buffer was never used, each block that has one keeps it.
        ensures unused { 0 < count_of is_unused self.old.seats → Keeps is_any self.old.seats self.new.seats }

        // The guard has the block's buffer, and a valid one has the bytes as they are seen.
        ensures held { IfHeld result (λ guard. (guard.hart ≡ hart) × (guard.value.block ≡ b) × IsHeld self.new.seats guard) }
        ensures bytes { IfHeld result (λ guard. IfSome guard.value.content (λ bytes. bytes ≡ seen D.contents self.old b)) }

        // All else is as it was.
        ensures others { KeepsHeld self.old.seats self.new.seats }
        ensures pins { Keeps is_pinned self.old.seats self.new.seats }
        ensures recorded { Keeps is_recorded self.old.seats self.new.seats }
        ensures device { self.new.device ≡ self.old.device }
        ensures seen { (k : ℕ) → seen D.contents self.new k ≡ seen D.contents self.old k }
    {
        self.buffers.get(hart, b)
    }

    /// The buffer in a pinned slot. `slot` is the number that a guard of it had. The answer is that of a get of its
    /// block, without a search.
    pub fn get_at(&mut self, hart: u8, slot: u32) -> Got
        requires hart { hart < hart_count }
        requires few { count_of (is_held_by hart) self.old.seats ≤ 1 }
        requires pinned { (b : ℕ) × (slot_of b self.old.seats ≡ Some slot) × IsPinned b self.old.seats }
        ensures gives { (b : ℕ) → slot_of b self.old.seats ≡ Some slot → (self.new.seats, result) ≡ get_of hart b self.old.seats }
        ensures waits { (b : ℕ) → slot_of b self.old.seats ≡ Some slot → ((result ≡ Got.Waits) ↔ IsSome (holder_of b self.old.seats)) }

        // The guard has the block's buffer, and a valid one has the bytes as they are seen.
        ensures held { (b : ℕ) → slot_of b self.old.seats ≡ Some slot
            → IfHeld result (λ guard. (guard.hart ≡ hart) × (guard.value.block ≡ b) × IsHeld self.new.seats guard) }
        ensures bytes { (b : ℕ) → slot_of b self.old.seats ≡ Some slot
            → IfHeld result (λ guard. IfSome guard.value.content (λ bytes. bytes ≡ seen D.contents self.old b)) }

        // All else is as it was.
        ensures others { KeepsHeld self.old.seats self.new.seats }
        ensures pins { Keeps is_pinned self.old.seats self.new.seats }
        ensures recorded { Keeps is_recorded self.old.seats self.new.seats }
        ensures device { self.new.device ≡ self.old.device }
        ensures seen { (k : ℕ) → seen D.contents self.new k ≡ seen D.contents self.old k }
    {
        self.buffers.get_at(hart, slot)
    }

    /// Reads the guard's block from the device into its buffer, which isn't valid, by one call. After a fault the guard
    /// and the buffers are as they were (xv6: what `bread` adds to `bget`).
    pub fn fill(&mut self, guard: &mut Guard<Buffer>) -> Result<(), Fault>
        requires held { IsHeld self.old.seats guard.old }
        requires unread { guard.old.value.content ≡ None }
        requires within { guard.old.value.block < length (D.contents self.old.device) }
        ensures called { D.Called self.old.device self.new.device }
        ensures filled { OnOk result (guard.new ≡ record guard.old {
          value = record {
            block = guard.old.value.block;
            content = Some (block_at (D.contents self.old.device) guard.old.value.block);
          };
        }) }
        ensures seats { OnOk result (self.new.seats
            ≡ with_seat guard.old.value.block (with_content (block_at (D.contents self.old.device) guard.old.value.block)) self.old.seats) }
        ensures err { OnErr result ((guard.new ≡ guard.old) × (self.new.seats ≡ self.old.seats)) }

        ensures held_on { IsHeld self.new.seats guard.new }
        ensures bytes { IfSome guard.new.value.content (λ bytes. bytes ≡ seen D.contents self.new guard.new.value.block) }
        ensures others { KeepsOthers guard.old.value.block self.old.seats self.new.seats }
        ensures pins { Keeps is_pinned self.old.seats self.new.seats }
        ensures recorded { Keeps is_recorded self.old.seats self.new.seats }
        ensures contents { D.contents self.new.device ≡ D.contents self.old.device }
        ensures faults { D.failures self.new.device ≡ faults_after result (D.failures self.old.device) }
        ensures seen { (k : ℕ) → seen D.contents self.new k ≡ seen D.contents self.old k }
    {
        self.buffers.fill(&mut self.device, guard)
    }

    /// Gives a buffer back, unchanged. It is the most recent one then (xv6: `brelse`).
    pub fn release(&mut self, guard: Guard<Buffer>)
        requires held { IsHeld self.old.seats guard }
        requires unchanged { IfSome guard.value.content (λ bytes. bytes ≡ seen D.contents self.old guard.value.block) }
        ensures seats { self.new.seats ≡ given_back guard.value.block self.old.seats }
        ensures others { KeepsOthers guard.value.block self.old.seats self.new.seats }
        ensures pins { Keeps is_pinned self.old.seats self.new.seats }
        ensures recorded { Keeps is_recorded self.old.seats self.new.seats }
        ensures device { self.new.device ≡ self.old.device }
        ensures seen { (k : ℕ) → seen D.contents self.new k ≡ seen D.contents self.old k }
    {
        self.buffers.release(guard);
    }

    /// Gives a pinned buffer back with the bytes that the guard has: from then on its block is seen with these. No
    /// other call changes what a block is seen as, except `write_uncached` for the block that it writes.
    pub fn release_changed(&mut self, guard: Guard<Buffer>)
        requires held { IsHeld self.old.seats guard }
        requires valid { IsSome guard.value.content }
        requires pinned { IsPinned guard.value.block self.old.seats }
        ensures seats { IfSome guard.value.content (λ bytes.
            self.new.seats ≡ given_back guard.value.block (with_seat guard.value.block (with_content bytes) self.old.seats)) }
        ensures block { IsRecorded guard.value.block self.new.seats }
        ensures others { KeepsOthers guard.value.block self.old.seats self.new.seats }
        ensures pins { Keeps is_pinned self.old.seats self.new.seats }
        ensures recorded { Keeps is_recorded self.old.seats self.new.seats }
        ensures device { self.new.device ≡ self.old.device }
        ensures seen { (k : ℕ) → seen D.contents self.new k
            ≡ (if k == guard.value.block then unwrap_or guard.value.content [] else seen D.contents self.old k) }
    {
        self.buffers.keep(&guard);
        self.buffers.release(guard);
    }

    /// Pins a guard's buffer: until its pin is given back it isn't taken for another block (xv6: `bpin`).
    pub fn pin(&mut self, guard: &Guard<Buffer>)
        requires held { IsHeld self.old.seats guard.now }
        requires room { IsPinned guard.now.value.block self.old.seats ⊎ (count_of is_pinned self.old.seats < most_pinned) }
        ensures seats { self.new.seats ≡ with_seat guard.now.value.block (with_pin true) self.old.seats }
        ensures pinned { IsPinned guard.now.value.block self.new.seats }
        ensures others { KeepsHeld self.old.seats self.new.seats }
        ensures pins { Keeps is_pinned self.old.seats self.new.seats }
        ensures recorded { Keeps is_recorded self.old.seats self.new.seats }
        ensures device { self.new.device ≡ self.old.device }
        ensures seen { (k : ℕ) → seen D.contents self.new k ≡ seen D.contents self.old k }
    {
        self.buffers.set_pinned(guard, true);
    }

    /// Gives the pin of a guard's buffer back. Its block on the device must be as it is seen (xv6: `bunpin`).
    pub fn unpin(&mut self, guard: &Guard<Buffer>)
        requires held { IsHeld self.old.seats guard.now }
        requires home { block_at (D.contents self.old.device) guard.now.value.block ≡ seen D.contents self.old guard.now.value.block }
        ensures seats { self.new.seats ≡ with_seat guard.now.value.block (with_pin false) self.old.seats }
        ensures others { KeepsHeld self.old.seats self.new.seats }
        ensures pins { (k : ℕ) → k ≢ guard.now.value.block → IsPinned k self.old.seats → IsPinned k self.new.seats }
        ensures recorded { (k : ℕ) → k ≢ guard.now.value.block → IsRecorded k self.old.seats → IsRecorded k self.new.seats }
        ensures device { self.new.device ≡ self.old.device }
        ensures seen { (k : ℕ) → seen D.contents self.new k ≡ seen D.contents self.old k }
    {
        self.buffers.set_pinned(guard, false);
    }

    /// Writes a guard's bytes, as they are seen, to its block on the device, by one call. A write that fails leaves the
    /// old block there or the new one (xv6: `bwrite`).
    pub fn write_home(&mut self, guard: &Guard<Buffer>) -> Result<(), Fault>
        requires held { IsHeld self.old.seats guard.now }
        requires valid { IsSome guard.now.value.content }
        requires unchanged { IfSome guard.now.value.content (λ bytes. bytes ≡ seen D.contents self.old guard.now.value.block) }
        requires within { guard.now.value.block < length (D.contents self.old.device) }
        ensures called { D.Called self.old.device self.new.device }
        ensures ok { OnOk result (D.contents self.new.device
            ≡ slice_set (D.contents self.old.device) guard.now.value.block (seen D.contents self.old guard.now.value.block)) }
        ensures err { OnErr result ((D.contents self.new.device ≡ D.contents self.old.device)
            ⊎ (D.contents self.new.device
            ≡ slice_set (D.contents self.old.device) guard.now.value.block (seen D.contents self.old guard.now.value.block))) }
        ensures home { OnOk result
            (block_at (D.contents self.new.device) guard.now.value.block ≡ seen D.contents self.new guard.now.value.block) }
        ensures faults { D.failures self.new.device ≡ faults_after result (D.failures self.old.device) }
        ensures seats { self.new.seats ≡ self.old.seats }
        ensures seen { (k : ℕ) → seen D.contents self.new k ≡ seen D.contents self.old k }
    {
        let buffer = guard.value();
        self.device.write(buffer.block(), buffer.bytes())
    }

    /// Writes a block that no buffer has, by one call. A write that fails leaves the old block there or the new one.
    pub fn write_uncached(&mut self, b: u32, bytes: &[u8; BLOCK_LEN]) -> Result<(), Fault>
        requires uncached { seat_of b self.old.seats ≡ None }
        requires within { b < length (D.contents self.old.device) }
        ensures called { D.Called self.old.device self.new.device }
        ensures ok { OnOk result (D.contents self.new.device ≡ slice_set (D.contents self.old.device) b bytes.now) }
        ensures err { OnErr result ((D.contents self.new.device ≡ D.contents self.old.device)
            ⊎ (D.contents self.new.device ≡ slice_set (D.contents self.old.device) b bytes.now)) }
        ensures faults { D.failures self.new.device ≡ faults_after result (D.failures self.old.device) }
        ensures seats { self.new.seats ≡ self.old.seats }
        ensures seen { (k : ℕ) → k ≢ b → seen D.contents self.new k ≡ seen D.contents self.old k }
    {
        self.device.write(b, bytes)
    }

    /// Ends the cache at any moment, and gives the device. The guards that are out may then be ended.
    pub fn retire(self) -> (RetiredSlots, D)
        ensures guards { (guard : GuardState BufferState) → IsHeld self.seats guard → guard.number < result.0 }
        ensures device { result.1 ≡ self.device }
    {
        let Cache { device, buffers } = self;
        (buffers.retire(), device)
    }
}
