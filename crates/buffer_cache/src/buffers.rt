//! The buffers, their slots, and the order of giving back.
ghost use Rattle.std.specs.Prelude.{count_by, ℕ, ◌≡◌, ◌↔◌, ◌<◌, ◌≤◌, length, position, slice_set, Some, None, IsSome, IsTrue, IfOk, IfSome, OnOk, OnErr};
ghost use Rattle.std.specs.List.{find};
ghost use Rattle.sleep_lock.specs.SleepLock.{GuardState};
ghost use Rattle.buffer_cache.specs.Buffers.{BufferState};
ghost use Rattle.block_device.specs.Blocks.{block_at, faults_after};
ghost use Rattle.buffer_cache.specs.Lists.{change_to_end, count_of};
ghost use Rattle.buffer_cache.specs.Seats.{has_block, is_free, is_held_by, is_pinned, seat_of, slot_of, kept, IsHeld, with_seat, with_content, with_pin, given_back, without_holder, as_new, unused_from};
ghost use Rattle.buffer_cache.specs.Rows.{IsSeated};
ghost use Rattle.buffer_cache.specs.Order.{numbered, in_order, is_same, IsOrdered, IsLinked};
ghost use Rattle.buffer_cache.specs.Getting.{get_of, guard_of};
ghost use Rattle.buffer_cache.specs.declared.got.Got.TheVariants.{Held};
ghost use Rattle.buffer_cache.specs.Limits.{buffer_count};

use crate::buffer::Buffer;
use crate::chains::Chains;
use crate::got::Got;
use crate::limits::BUFFERS;
use crate::order::Order;
use crate::seat::BufferSeat;
use block_device::{Device, Fault};
use sleep_lock::{Guard, RetiredSlots, Slots};
use std::alloc::{AllocError, Global};
use std::marker::Model;

/// Forty-six buffers: the memory of a cache, taken before there is one. A contract sees the list of what is kept of
/// each, in order of giving back.
#[derive(Drop)]
pub struct Buffers {
    // Each in the place of its number, for good.
    seats: Vec<BufferSeat>,
    // Their numbers, in order of giving back.
    order: Order,
    // Their numbers, by their blocks.
    chains: Chains,
    slots: Slots<Buffer>,
}

impl Model for Buffers {
    ghost use Rattle.std.specs.Prelude.{List};
    ghost use Rattle.buffer_cache.specs.Seats.{SeatState};
    ghost use Rattle.buffer_cache.specs.Order.{in_order, IsLinked};

    ghost Value = { List SeatState };

    ghost view = { λ b. in_order b.seats.items b.order };

    ghost invariant = { λ b. IsLinked b.slots b.seats.items b.order b.chains };
}

impl Buffers {
    /// Forty-six buffers that were never used. An error is want of memory (xv6: `binit`).
    pub fn new(alloc: Global) -> Result<Buffers, AllocError>
        ensures { IfOk result (λ buffers. buffers ≡ unused_from 0 buffer_count) }
    {
        let seats = new_seats(alloc)?;
        let slots = new_slots(alloc)?;
        Ok(Buffers {
            seats,
            order: Order::new(),
            chains: Chains::new(),
            slots,
        })
    }

    pub(crate) fn held_by(&self, hart: u8) -> usize
        ensures { result ≡ count_of (is_held_by hart) self.now }
    {
        count_held(&self.seats, hart)
    }

    pub(crate) fn pinned(&self) -> usize
        ensures { result ≡ count_of is_pinned self.now }
    {
        count_pinned(&self.seats)
    }

    pub(crate) fn is_cached(&self, b: u32) -> bool
        requires once { count_of (has_block b) self.now ≤ 1 }
        ensures { IsTrue result ↔ IsSome (seat_of b self.now) }
    {
        self.chains.find(&self.seats, b).is_some()
    }

    // A block's buffer, else the first that is free.
    pub(crate) fn get(&mut self, hart: u8, b: u32) -> Got
        requires free { IsSome (find is_free self.old) }
        requires once { count_of (has_block b) self.old ≤ 1 }
        ensures { (self.new, result) ≡ get_of hart b self.old }
    {
        get_in(
            &mut self.seats,
            &self.order,
            &mut self.chains,
            &mut self.slots,
            hart,
            b,
        )
    }

    // The buffer in this slot, which has a block.
    pub(crate) fn get_at(&mut self, hart: u8, slot: u32) -> Got
        requires there { (b : ℕ) × (slot_of b self.old ≡ Some slot) }
        requires once { (b : ℕ) → count_of (has_block b) self.old ≤ 1 }
        ensures { (b : ℕ) → slot_of b self.old ≡ Some slot → (self.new, result) ≡ get_of hart b self.old }
    {
        let b = self.seats[slot as usize].block();
        lend(&mut self.seats, &mut self.slots, slot as usize, hart, b)
    }

    // Reads the device's block into a buffer that isn't valid.
    pub(crate) fn fill<D: Device>(
        &mut self,
        device: &mut D,
        guard: &mut Guard<Buffer>,
    ) -> Result<(), Fault>
        requires held { IsHeld self.old guard.old }
        requires unread { guard.old.value.content ≡ None }
        requires within { guard.old.value.block < length (D.contents device.old) }
        requires once { count_of (has_block guard.old.value.block) self.old ≤ 1 }
        ensures called { D.Called device.old device.new }
        ensures ok { OnOk result (guard.new ≡ record guard.old {
          value = record {
            block = guard.old.value.block;
            content = Some (block_at (D.contents device.old) guard.old.value.block);
          };
        }) }
        ensures seats { OnOk result (self.new
            ≡ with_seat guard.old.value.block (with_content (block_at (D.contents device.old) guard.old.value.block)) self.old) }
        ensures err { OnErr result ((guard.new ≡ guard.old) × (self.new ≡ self.old)) }
        ensures contents { D.contents device.new ≡ D.contents device.old }
        ensures faults { D.failures device.new ≡ faults_after result (D.failures device.old) }
    {
        fill_in(&mut self.seats, device, guard)
    }

    // Keeps a guard's bytes.
    pub(crate) fn keep(&mut self, guard: &Guard<Buffer>)
        requires held { IsHeld self.old guard.now }
        requires valid { IsSome guard.now.value.content }
        requires once { count_of (has_block guard.now.value.block) self.old ≤ 1 }
        ensures { IfSome guard.now.value.content (λ bytes. self.new ≡ with_seat guard.now.value.block (with_content bytes) self.old) }
    {
        keep_in(&mut self.seats, guard)
    }

    // Gives a buffer back, with the bytes that are kept. It is the most recent one then.
    pub(crate) fn release(&mut self, guard: Guard<Buffer>)
        requires held { IsHeld self.old guard }
        requires unchanged { guard.value.content ≡ kept guard.value.block self.old }
        requires once { count_of (has_block guard.value.block) self.old ≤ 1 }
        ensures { self.new ≡ given_back guard.value.block self.old }
    {
        let place = guard.number();
        self.slots.unlock(guard);
        give_back(&mut self.seats, &mut self.order, place);
    }

    // Pins a guard's buffer, or takes the pin away.
    pub(crate) fn set_pinned(&mut self, guard: &Guard<Buffer>, pinned: bool)
        requires held { IsHeld self.old guard.now }
        requires once { count_of (has_block guard.now.value.block) self.old ≤ 1 }
        ensures { self.new ≡ with_seat guard.now.value.block (with_pin pinned) self.old }
    {
        pin_in(&mut self.seats, guard, pinned);
    }

    // Ends the buffers. A guard that is out may then be ended too.
    pub(crate) fn retire(self) -> RetiredSlots
        ensures { (guard : GuardState BufferState) → IsHeld self guard → guard.number < result }
    {
        let Buffers {
            seats: _,
            order: _,
            chains: _,
            slots,
        } = self;
        slots.retire()
    }
}

fn new_seats(alloc: Global) -> Result<Vec<BufferSeat>, AllocError>
    ensures { IfOk result (λ seats. seats.items ≡ unused_from 0 buffer_count) }
{
    let mut seats = Vec::with_capacity(alloc, BUFFERS)?;
    for number in 0..BUFFERS {
        seats.push(BufferSeat::new(number as u32))?;
    }
    Ok(seats)
}

fn new_slots(alloc: Global) -> Result<Slots<Buffer>, AllocError>
    ensures { IfOk result (λ slots. IsSeated slots (unused_from 0 buffer_count)) }
{
    let mut buffers = Vec::with_capacity(alloc, BUFFERS)?;
    for _ in 0..BUFFERS {
        buffers.push(Buffer::new(alloc)?)?;
    }
    Slots::new(alloc, buffers)
}

fn count_held(seats: &[BufferSeat], hart: u8) -> usize
    ensures { result ≡ count_by (is_held_by hart) seats.now }
{
    seats.iter().filter(|seat| seat.is_held_by(hart)).count()
}

fn count_pinned(seats: &[BufferSeat]) -> usize
    ensures { result ≡ count_by is_pinned seats.now }
{
    seats.iter().filter(|seat| seat.is_pinned()).count()
}

fn get_in(
    seats: &mut Vec<BufferSeat>,
    order: &Order,
    chains: &mut Chains,
    slots: &mut Slots<Buffer>,
    hart: u8,
    b: u32,
) -> Got
    requires free { IsSome (find is_free (in_order seats.old.items order.now)) }
    requires once { count_of (has_block b) seats.old.items ≤ 1 }
    requires linked { IsLinked slots.old seats.old.items order.now chains.old }
    ensures gives { (in_order seats.new.items order.now, result) ≡ get_of hart b (in_order seats.old.items order.now) }
    ensures linked { IsLinked slots.new seats.new.items order.now chains.new }
{
    match chains.find(seats, b) {
        Some(i) => lend(seats, slots, i, hart, b),
        None => {
            let i = order.first_free(seats).unwrap();
            chains.move_to(i as u8, b);
            renew(seats, slots, i, hart, b)
        }
    }
}

// The buffer that has the block.
fn lend(seats: &mut Vec<BufferSeat>, slots: &mut Slots<Buffer>, i: usize, hart: u8, b: u32) -> Got
    requires place { position (has_block b) seats.old.items ≡ Some i }
    requires seated { IsSeated slots.old seats.old.items }
    ensures gives { (seats.new.items, result) ≡ get_of hart b seats.old.items }
    ensures seated { IsSeated slots.new seats.new.items }
{
    let seat = &mut seats[i];
    match slots.lock(hart, seat.number()) {
        None => Got::Waits,
        Some(mut guard) => {
            guard.value_mut().name(b);
            seat.lend(hart);
            Got::Held(guard)
        }
    }
}

// A free buffer, for a block that none has.
fn renew(seats: &mut Vec<BufferSeat>, slots: &mut Slots<Buffer>, i: usize, hart: u8, b: u32) -> Got
    requires place { i < length seats.old.items }
    requires free { IsTrue (is_free (numbered seats.old.items i)) }
    requires seated { IsSeated slots.old seats.old.items }
    ensures seats { seats.new.items ≡ slice_set seats.old.items i (as_new hart b (numbered seats.old.items i)) }
    ensures gives { result ≡ Held (guard_of hart b (numbered seats.old.items i) None) }
    ensures seated { IsSeated slots.new seats.new.items }
{
    let seat = &mut seats[i];
    match slots.lock(hart, seat.number()) {
        None => unreachable!(),
        Some(mut guard) => {
            guard.value_mut().renew(b);
            seat.renew(hart, b);
            Got::Held(guard)
        }
    }
}

fn fill_in<D: Device>(
    seats: &mut Vec<BufferSeat>,
    device: &mut D,
    guard: &mut Guard<Buffer>,
) -> Result<(), Fault>
    requires place { position (has_block guard.old.value.block) seats.old.items ≡ Some guard.old.number }
    requires unread { guard.old.value.content ≡ None }
    requires within { guard.old.value.block < length (D.contents device.old) }
    ensures called { D.Called device.old device.new }
    ensures ok { OnOk result (guard.new ≡ record guard.old {
      value = record {
        block = guard.old.value.block;
        content = Some (block_at (D.contents device.old) guard.old.value.block);
      };
    }) }
    ensures seats { OnOk result (seats.new.items
        ≡ with_seat guard.old.value.block (with_content (block_at (D.contents device.old) guard.old.value.block)) seats.old.items) }
    ensures err { OnErr result ((guard.new ≡ guard.old) × (seats.new.items ≡ seats.old.items)) }
    ensures contents { D.contents device.new ≡ D.contents device.old }
    ensures faults { D.failures device.new ≡ faults_after result (D.failures device.old) }
{
    guard.value_mut().read(device)?;
    let seat = &mut seats[guard.number() as usize];
    seat.keep(guard.value().bytes());
    Ok(())
}

fn keep_in(seats: &mut Vec<BufferSeat>, guard: &Guard<Buffer>)
    requires place { position (has_block guard.now.value.block) seats.old.items ≡ Some guard.now.number }
    requires valid { IsSome guard.now.value.content }
    ensures { IfSome guard.now.value.content
        (λ bytes. seats.new.items ≡ with_seat guard.now.value.block (with_content bytes) seats.old.items) }
{
    let seat = &mut seats[guard.number() as usize];
    seat.keep(guard.value().bytes());
}

fn pin_in(seats: &mut Vec<BufferSeat>, guard: &Guard<Buffer>, pinned: bool)
    requires { position (has_block guard.now.value.block) seats.old.items ≡ Some guard.now.number }
    ensures { seats.new.items ≡ with_seat guard.now.value.block (with_pin pinned) seats.old.items }
{
    let seat = &mut seats[guard.number() as usize];
    seat.set_pinned(pinned);
}

fn give_back(seats: &mut Vec<BufferSeat>, order: &mut Order, i: u32)
    requires place { i < length seats.old.items }
    requires ordered { IsOrdered seats.old.items order.old }
    ensures seats { seats.new.items ≡ slice_set seats.old.items i (without_holder (numbered seats.old.items i)) }
    ensures order { order.new ≡ change_to_end (is_same i) (λ n. n) order.old }
{
    let seat = &mut seats[i as usize];
    seat.take_back();
    order.move_last(i as u8);
}
