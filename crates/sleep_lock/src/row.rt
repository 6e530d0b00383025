//! Slots in a row.
ghost use Rattle.std.specs.Prelude.{◌≡◌, ◌<◌, ◌≤◌, ◌^◌, Some, IfOk, IfSome, length, slice_get};
ghost use Rattle.std.specs.Borrow.{sem};
ghost use Rattle.sleep_lock.specs.Row.{lock_of, unlocked, IsOut, IsNumbered, LeavesOthers, row_of};

use crate::slot::{Guard, Slot};
use std::alloc::{AllocError, Global};
use std::marker::Model;

/// Slots in a row, each known by its place. A contract sees the list of their states.
#[derive(Drop)]
pub struct Slots<T> {
    items: Vec<Slot<T>>,
}

impl<T> Model for Slots<T> {
    ghost use Rattle.std.specs.Prelude.{List};
    ghost use Rattle.sleep_lock.specs.SleepLock.{SlotState};

    ghost Value = { List (SlotState T) };

    ghost view = { λ s. s.items.items };
}

/// The sign that a row of slots has ended, with their number.
#[derive(Drop)]
pub struct RetiredSlots {
    count: usize,
}

impl Model for RetiredSlots {
    ghost use Rattle.std.specs.Prelude.{ℕ};

    ghost Value = { ℕ };

    ghost view = { λ r. r.count };
}

impl RetiredSlots {
    /// How many slots have ended: those with the numbers below.
    pub fn count(&self) -> usize
        ensures { result ≡ self.now }
    {
        self.count
    }
}

impl<T> Slots<T> {
    ghost use Rattle.sleep_lock.specs.LendingRow.{LendsSlot};

    /// A row of these values, each in the slot that has its place as number. An error is want of memory, and ends
    /// the values.
    pub fn new(alloc: Global, values: Vec<T>) -> Result<Slots<T>, AllocError>
    where
        T: Drop,
        requires { length values.items ≤ 2 ^ 32 }
        ensures row { IfOk result (λ slots. slots ≡ row_of 0 values.items) }
        ensures numbered { IfOk result (λ slots. IsNumbered slots) }
        ensures count { IfOk result (λ slots. length slots ≡ length values.items) }
    {
        let mut items = Vec::with_capacity(alloc, values.len())?;
        let mut number: u64 = 0;
        for value in values {
            items.push(Slot::new(number as u32, Box::new(alloc, value)?))?;
            number += 1;
        }
        Ok(Slots { items })
    }

    /// How many slots there are.
    pub fn len(&self) -> usize
        ensures { result ≡ length self.now }
    {
        self.items.len()
    }

    fn at(&mut self, number: u32) -> &mut Slot<T>
        requires { number < length self.old }
        ensures* writes_back { sem 𝓛 (LendsSlot T.row self.entry number result) }
        ensures value { slice_get self.old number ≡ Some result.now }
    {
        &mut self.items[number as usize]
    }

    /// Takes the value of the slot at this number. The answer is no guard exactly if that value is out already, and
    /// then nothing changes.
    pub fn lock(&mut self, hart: u8, number: u32) -> Option<Guard<T>>
        requires { number < length self.old }
        ensures gives { (self.new, result) ≡ lock_of self.old number hart }
        ensures others { LeavesOthers hart self.old self.new }
        ensures numbered { IsNumbered self.old → IsNumbered self.new }
        ensures count { length self.new ≡ length self.old }
        ensures out { IsNumbered self.old → IfSome result (λ guard. (guard.number ≡ number) × (guard.hart ≡ hart) × IsOut self.new guard) }
    {
        self.at(number).try_take(hart)
    }

    /// Puts back what was taken.
    #[tactic(auto, unfolding(crate::specs::Row::unlocked, crate::specs::Row::IsOut))]
    pub fn unlock(&mut self, guard: Guard<T>)
        requires { IsOut self.old guard }
        ensures slots { self.new ≡ unlocked self.old guard }
        ensures others { LeavesOthers guard.hart self.old self.new }
        ensures numbered { IsNumbered self.old → IsNumbered self.new }
        ensures count { length self.new ≡ length self.old }
    {
        self.at(guard.number()).put(guard);
    }

    /// Ends the slots, and the values that are in them.
    pub fn retire(self) -> RetiredSlots
    where
        T: Drop,
        ensures { result ≡ length self }
    {
        let Slots { items } = self;
        let count = items.len();
        RetiredSlots { count }
    }
}
