//! A slot and its guard.
ghost use Rattle.std.specs.Prelude.{◌≡◌, ◌<◌, ◌↔◌, IsNone};
ghost use Rattle.std.specs.Borrow.{sem};
ghost use Rattle.sleep_lock.specs.SleepLock.{guard_of, taken, filled, emptied};

use crate::row::RetiredSlots;
use std::marker::Model;

/// A place for one value, which is either in it or out in a guard (xv6: `struct sleeplock`).
///
/// The number tells the slots of a row apart.
#[derive(Drop)]
pub struct Slot<T> {
    number: u32,
    inside: Option<Box<T>>,
    holder: Option<u8>,
}

impl<T> Model for Slot<T> {
    ghost use Rattle.std.specs.Option.{option_map};
    ghost use Rattle.sleep_lock.specs.SleepLock.{SlotState};

    ghost Value = { SlotState T };

    ghost view = { λ s. record { number = s.number; inside = option_map (λ b. b.value) s.inside; holder = s.holder } };
}

/// The value of a slot while it is out in a hart's hand.
///
/// A guard is put back, or ended after its slot has ended: code that lets one go doesn't compile.
pub struct Guard<T> {
    number: u32,
    // As wide as the number, so that a guard has no padding. Padding would make a move copy the guard byte by byte.
    hart: u32,
    value: Box<T>,
}

impl<T> Model for Guard<T> {
    ghost use Rattle.std.specs.Prelude.{◌<◌};
    ghost use Rattle.sleep_lock.specs.SleepLock.{GuardState};

    ghost Value = { GuardState T };

    ghost view = { λ g. record { number = g.number; hart = g.hart; value = g.value.value } };

    ghost invariant = { λ g. g.hart < 256 };
}

/// The sign that the slot of this number has ended.
#[derive(Drop)]
pub struct Retired {
    number: u32,
}

impl Model for Retired {
    ghost use Rattle.std.specs.Prelude.{ℕ};

    ghost Value = { ℕ };

    ghost view = { λ r. r.number };
}

impl<T> Slot<T> {
    /// A slot with this value in it.
    pub fn new(number: u32, value: Box<T>) -> Slot<T>
        ensures { result ≡ filled number value.value }
    {
        Slot {
            number,
            inside: Some(value),
            holder: None,
        }
    }

    /// Takes the value out for a hart. The answer is no guard exactly if the value is out already, and then nothing
    /// changes (xv6: `acquiresleep`, which sleeps there).
    pub fn try_take(&mut self, hart: u8) -> Option<Guard<T>>
        ensures guard { result ≡ guard_of self.old hart }
        ensures slot { self.new ≡ taken self.old hart }
        ensures none { IsNone result ↔ IsNone self.old.inside }
    {
        match self.inside.take() {
            None => None,
            Some(value) => {
                self.holder = Some(hart);
                Some(Guard {
                    number: self.number,
                    hart: u32::from(hart),
                    value,
                })
            }
        }
    }

    /// Puts back the value that was taken out of this slot (xv6: `releasesleep`). The slot must be out, in the hand
    /// of the guard's hart.
    pub fn put(&mut self, guard: Guard<T>)
        requires { self.old ≡ emptied guard }
        ensures { self.new ≡ filled guard.number guard.value }
    {
        let Guard {
            number: _,
            hart: _,
            value,
        } = guard;
        match std::mem::replace(&mut self.inside, Some(value)) {
            None => {}
            Some(_other) => unreachable!(),
        }
        self.holder = None;
    }

    /// Ends the slot, and the value if it is in it.
    pub fn retire(self) -> Retired
    where
        T: Drop,
        ensures { result ≡ self.number }
    {
        let Slot {
            number,
            inside: _,
            holder: _,
        } = self;
        Retired { number }
    }
}

impl<T> Guard<T> {
    ghost use Rattle.sleep_lock.specs.Lending.{LendsValue};

    /// The number of the guard's slot.
    pub fn number(&self) -> u32
        ensures { result ≡ self.now.number }
    {
        self.number
    }

    /// The hart that took the value.
    pub fn hart(&self) -> u8
        ensures { result ≡ self.now.hart }
    {
        self.hart as u8
    }

    /// The value.
    pub fn value(&self) -> &T
        ensures { result.now ≡ self.now.value }
    {
        &*self.value
    }

    /// The value, to be changed.
    pub fn value_mut(&mut self) -> &mut T
        ensures* writes_back { sem 𝓛 (LendsValue T.row self.entry result) }
        ensures value { result.now ≡ self.old.value }
    {
        &mut *self.value
    }

    /// Puts another value into the guard, and gives the one that was there.
    pub fn replace(&mut self, value: T) -> T
        ensures value { result ≡ self.old.value }
        ensures guard { self.new ≡ record self.old { value = value } }
    {
        std::mem::replace(&mut *self.value, value)
    }

    /// Ends a guard, and its value, after its slot has ended.
    pub fn retire(self, slot: &Retired)
    where
        T: Drop,
        requires { slot.now ≡ self.number }
    {
        let Guard {
            number: _,
            hart: _,
            value: _,
        } = self;
    }

    /// Ends a guard, and its value, after a row of slots has ended. Nothing says that it is the row of the guard's
    /// slot.
    pub fn retire_in_row(self, _slots: &RetiredSlots)
    where
        T: Drop,
    {
        let Guard {
            number: _,
            hart: _,
            value: _,
        } = self;
    }
}
