//! The steps of a commit.
ghost use Rattle.std.specs.Prelude.{◌≡◌, ◌≢◌, ◌↔◌, ◌<◌, ◌≤◌, ℕ, length, slice_index, IsTrue};
ghost use Rattle.group_log.specs.Vocabulary.{count_of, is_held_by, has_block, seen, KeepsHeld, IsOutsideLog};
ghost use Rattle.group_log.specs.Phases.{write_to, write_of, IsUnderWay};
ghost use Rattle.group_log.specs.Slots.{HasSlots};
ghost use Rattle.group_log.specs.Soundness.{CanWrite};
ghost use Rattle.group_log.specs.Turns.{turn_is_out, seats_after, seats_at_fault};
ghost use Rattle.group_log.specs.Written.{Writes, by_outcome, faults_of};

use crate::copies::{Recorded, Written, copy_home, copy_to_log, write_head};
use crate::phase::Phase;
use block_device::Device;
use buffer_cache::{Cache, HARTS};
use fs_layout::Super;

/// The result of a commit's step.
#[derive(Debug, Clone, Copy, PartialEq, Eq)]
pub enum Progress {
    /// The buffer of the block that is copied next is out. Nothing changed.
    Waits,
    /// A write was made, and there are more.
    Wrote,
    /// The last write was made: others may join.
    Ended,
    /// The device failed, and the log is halted for good.
    Failed,
}

/// Makes the commit's next write.
#[inline(always)]
pub(crate) fn write_next<D: Device>(
    cache: &mut Cache<D>,
    hart: u8,
    sizes: &Super,
    group: &[u32],
    slots: &[u32],
    phase: Phase,
) -> Written
    requires hart { hart < HARTS }
    requires few { count_of (is_held_by hart) cache.old.seats ≤ 1 }
    requires runs { IsUnderWay (length group.now) phase }
    requires ready { CanWrite (D.contents cache.old.device) cache.old.seats sizes.now group.now phase }
    requires slots { HasSlots cache.old.seats group.now slots.now phase }
    ensures waits { (result ≡ Written.Waits) ↔ IsTrue (turn_is_out cache.old.seats group.now phase) }
    ensures same { (result ≡ Written.Waits) → cache.new ≡ cache.old }
    ensures called { (result ≢ Written.Waits) → D.Called cache.old.device cache.new.device }
    ensures writes { Writes (D.contents cache.old.device) (write_to sizes.now group.now phase)
        (write_of (seen D.contents cache.old) group.now phase) result (D.contents cache.new.device) }
    ensures faults { D.failures cache.new.device ≡ faults_of result (D.failures cache.old.device) }
    ensures seats { cache.new.seats
        ≡ by_outcome result cache.old.seats (seats_after group.now phase cache.old.seats) (seats_at_fault group.now phase cache.old.seats) }
    ensures held { KeepsHeld cache.old.seats cache.new.seats }
    ensures seen { (k : ℕ) → IsOutsideLog sizes.now k → seen D.contents cache.new k ≡ seen D.contents cache.old k }
{
    match phase {
        Phase::Staging(i) => {
            if i as usize == group.len() {
                write_head(cache, sizes.logstart, group)
            } else {
                let recorded = recorded_at(group, slots, i as usize);
                copy_to_log(cache, hart, recorded, sizes.logstart + 1 + i)
            }
        }
        Phase::Installing(i) => {
            if i as usize == group.len() {
                write_head(cache, sizes.logstart, &[])
            } else {
                copy_home(cache, hart, recorded_at(group, slots, i as usize))
            }
        }
        Phase::Open => unreachable!(),
        Phase::Halted => unreachable!(),
    }
}

// The group's block in this place.
fn recorded_at(group: &[u32], slots: &[u32], i: usize) -> Recorded
    requires within { i < length group.now }
    requires count { length slots.now ≡ length group.now }
    ensures { result ≡ record { block = slice_index group.now i; slot = slice_index slots.now i } }
{
    Recorded {
        block: group[i],
        slot: slots[i],
    }
}

/// Shows that in a sound cache no block has two buffers.
pub(crate) fn show_each_once<D: Device>(cache: &Cache<D>)
    ensures { (b : ℕ) → count_of (has_block b) cache.now.seats ≤ 1 }
{
    // The device's contract gives that the cache is sound.
    let _ = cache.device();
}
