//! Sleep locks in a row.
ghost use Rattle.sleep_lock.specs.Row.{IsNumbered};

use crate::workload::WorkloadError;
use sleep_lock::Slots;
use std::alloc::Global;

const ROUNDS: u32 = 80_000;

const SLOTS: u32 = 50;

const HART: u8 = 3;

/// Values on the heap, locked and unlocked: one operation is both.
pub fn lock_and_unlock(alloc: Global) -> Result<u64, WorkloadError> {
    let mut values = Vec::new(alloc);
    for number in 0..SLOTS {
        values.push(Box::new(alloc, u64::from(number))?)?;
    }
    if values.len() != SLOTS as usize {
        return Err(WorkloadError::Wrong);
    }
    let mut slots = Slots::new(alloc, values)?;
    let mut sum = 0u64;
    for _ in 0..ROUNDS {
        for number in 0..SLOTS {
            sum = sum.wrapping_add(touch(&mut slots, number));
        }
    }
    let operations = u64::from(ROUNDS) * u64::from(SLOTS);
    let expected = u64::from(ROUNDS) * u64::from(SLOTS * (SLOTS - 1) / 2);
    if sum == expected {
        Ok(operations)
    } else {
        Err(WorkloadError::Wrong)
    }
}

// Locks a slot and unlocks it: its value, or 0 if the lock gave no guard.
fn touch(slots: &mut Slots<Box<u64>>, number: u32) -> u64
    requires { IsNumbered slots.old }
    ensures { IsNumbered slots.new }
{
    if slots.len() <= number as usize {
        return 0;
    }
    match slots.lock(HART, number) {
        None => 0,
        Some(guard) => {
            let value = **guard.value();
            slots.unlock(guard);
            value
        }
    }
}
