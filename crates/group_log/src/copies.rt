//! One write of a commit, over the cache.
ghost use Rattle.std.specs.Prelude.{◌≡◌, ◌≢◌, ◌↔◌, ◌⊎◌, ◌<◌, ◌≤◌, ℕ, List, [], false, length, slice_set, replicate, None, Some, IsSome, OnOk, OnErr};
ghost use Rattle.group_log.specs.Vocabulary.{unwrap_or, faults_after, count_of, is_held_by, seat_of, holder_of, with_seat, with_pin, given_back, slot_of, seen, KeepsHeld};
ghost use Rattle.group_log.specs.Pins.{HasRecorded};
ghost use Rattle.group_log.specs.Phases.{head_block};
ghost use Rattle.group_log.specs.Written.{Writes, by_outcome, faults_of, outcome_of};

use block_device::{Device, Fault};
use buffer_cache::{Buffer, Cache, Got, HARTS};
use fs_layout::widths::{BLOCK_LEN, Block, LOG_HEAD_LEN};
use fs_layout::write_log_head;
use sleep_lock::Guard;

/// A recorded block, and the slot that its buffer is in.
#[derive(Drop)]
pub(crate) struct Recorded {
    pub block: u32,
    pub slot: u32,
}

/// The result of a write.
pub(crate) enum Written {
    /// The block's buffer is out, and nothing changed.
    Waits,
    /// It was made.
    Done,
    /// The device failed.
    Failed,
}

fn outcome(made: Result<(), Fault>) -> Written
    ensures { result ≡ outcome_of made }
{
    match made {
        Ok(()) => Written::Done,
        Err(Fault) => Written::Failed,
    }
}

/// Writes a recorded block, as it is seen, to a block of the log.
pub(crate) fn copy_to_log<D: Device>(
    cache: &mut Cache<D>,
    hart: u8,
    recorded: Recorded,
    at: u32,
) -> Written
    requires hart { hart < HARTS }
    requires few { count_of (is_held_by hart) cache.old.seats ≤ 1 }
    requires pinned { HasRecorded cache.old.seats recorded.block }
    requires slot { slot_of recorded.block cache.old.seats ≡ Some recorded.slot }
    requires uncached { seat_of at cache.old.seats ≡ None }
    requires within { at < length (D.contents cache.old.device) }
    ensures waits { (result ≡ Written.Waits) ↔ IsSome (holder_of recorded.block cache.old.seats) }
    ensures same { (result ≡ Written.Waits) → cache.new ≡ cache.old }
    ensures called { (result ≢ Written.Waits) → D.Called cache.old.device cache.new.device }
    ensures writes { Writes (D.contents cache.old.device) at (seen D.contents cache.old recorded.block) result
        (D.contents cache.new.device) }
    ensures faults { D.failures cache.new.device ≡ faults_of result (D.failures cache.old.device) }
    ensures seats { cache.new.seats
        ≡ by_outcome result cache.old.seats (given_back recorded.block cache.old.seats) (given_back recorded.block cache.old.seats) }
    ensures held { KeepsHeld cache.old.seats cache.new.seats }
    ensures seen { (k : ℕ) → k ≢ at → seen D.contents cache.new k ≡ seen D.contents cache.old k }
{
    match cache.get_at(hart, recorded.slot) {
        Got::Waits => Written::Waits,
        Got::Held(guard) => {
            let made = write_copy(cache, &guard, at);
            cache.release(guard);
            outcome(made)
        }
    }
}

// Writes a guard's bytes to a block that no buffer has.
fn write_copy<D: Device>(cache: &mut Cache<D>, guard: &Guard<Buffer>, at: u32) -> Result<(), Fault>
    requires valid { IsSome guard.now.value.content }
    requires uncached { seat_of at cache.old.seats ≡ None }
    requires within { at < length (D.contents cache.old.device) }
    ensures called { D.Called cache.old.device cache.new.device }
    ensures ok { OnOk result (D.contents cache.new.device
        ≡ slice_set (D.contents cache.old.device) at (unwrap_or guard.now.value.content [])) }
    ensures err { OnErr result ((D.contents cache.new.device ≡ D.contents cache.old.device)
        ⊎ (D.contents cache.new.device ≡ slice_set (D.contents cache.old.device) at (unwrap_or guard.now.value.content []))) }
    ensures faults { D.failures cache.new.device ≡ faults_after result (D.failures cache.old.device) }
    ensures seats { cache.new.seats ≡ cache.old.seats }
    ensures seen { (k : ℕ) → k ≢ at → seen D.contents cache.new k ≡ seen D.contents cache.old k }
{
    cache.write_uncached(at, guard.value().bytes())
}

/// Writes a recorded block, as it is seen, to its own place, and gives its pin back.
#[inline(always)]
pub(crate) fn copy_home<D: Device>(cache: &mut Cache<D>, hart: u8, recorded: Recorded) -> Written
    requires hart { hart < HARTS }
    requires few { count_of (is_held_by hart) cache.old.seats ≤ 1 }
    requires pinned { HasRecorded cache.old.seats recorded.block }
    requires slot { slot_of recorded.block cache.old.seats ≡ Some recorded.slot }
    requires within { recorded.block < length (D.contents cache.old.device) }
    ensures waits { (result ≡ Written.Waits) ↔ IsSome (holder_of recorded.block cache.old.seats) }
    ensures same { (result ≡ Written.Waits) → cache.new ≡ cache.old }
    ensures called { (result ≢ Written.Waits) → D.Called cache.old.device cache.new.device }
    ensures writes { Writes (D.contents cache.old.device) recorded.block (seen D.contents cache.old recorded.block) result
        (D.contents cache.new.device) }
    ensures faults { D.failures cache.new.device ≡ faults_of result (D.failures cache.old.device) }
    ensures seats { cache.new.seats
        ≡ by_outcome result cache.old.seats (given_back recorded.block (with_seat recorded.block (with_pin false) cache.old.seats))
        (given_back recorded.block cache.old.seats) }
    ensures held { KeepsHeld cache.old.seats cache.new.seats }
    ensures seen { (k : ℕ) → seen D.contents cache.new k ≡ seen D.contents cache.old k }
{
    match cache.get_at(hart, recorded.slot) {
        Got::Waits => Written::Waits,
        Got::Held(guard) => match cache.write_home(&guard) {
            Ok(()) => {
                cache.unpin(&guard);
                cache.release(guard);
                Written::Done
            }
            Err(Fault) => {
                cache.release(guard);
                Written::Failed
            }
        },
    }
}

/// Writes the log's head, with these blocks.
pub(crate) fn write_head<D: Device>(cache: &mut Cache<D>, start: u32, blocks: &[u32]) -> Written
    requires short { length blocks.now ≤ LOG_HEAD_LEN }
    requires uncached { seat_of start cache.old.seats ≡ None }
    requires within { start < length (D.contents cache.old.device) }
    ensures ran { result ≢ Written.Waits }
    ensures called { D.Called cache.old.device cache.new.device }
    ensures writes { Writes (D.contents cache.old.device) start (head_block blocks.now) result (D.contents cache.new.device) }
    ensures faults { D.failures cache.new.device ≡ faults_of result (D.failures cache.old.device) }
    ensures seats { cache.new.seats ≡ cache.old.seats }
    ensures seen { (k : ℕ) → k ≢ start → seen D.contents cache.new k ≡ seen D.contents cache.old k }
{
    let mut head = [0; BLOCK_LEN];
    name_blocks(&mut head, blocks);
    outcome(cache.write_uncached(start, &head))
}

// Makes a block of zeros a head with these blocks.
fn name_blocks(head: &mut Block, blocks: &[u32])
    requires zeros { head.old ≡ replicate BLOCK_LEN 0 }
    requires short { length blocks.now ≤ LOG_HEAD_LEN }
    ensures { head.new ≡ head_block blocks.now }
{
    write_log_head(head, blocks);
}
