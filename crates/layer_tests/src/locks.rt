//! Sleep locks: what a slot gives, and a row that ends while some are out.
ghost use Rattle.std.specs.Prelude.{◌≡◌, length, IfOk};
ghost use Rattle.sleep_lock.specs.Row.{IsNumbered};

use sleep_lock::{Slot, Slots};
use std::alloc::{AllocError, Global};
use std::process::Abort;
use std::test::Fail;

const ROW: u32 = 50;

// A number on the heap.
fn boxed(alloc: Global, number: u64) -> Result<Box<u64>, AllocError>
    ensures { IfOk result (λ boxed. boxed.value ≡ number) }
{
    Ok(Box::new(alloc, number)?)
}

// Fifty numbers on the heap.
fn fifty(alloc: Global) -> Result<Vec<Box<u64>>, AllocError>
    ensures { IfOk result (λ values. length values.items ≡ 50) }
{
    let mut values = Vec::new(alloc);
    for number in 0..ROW as u64 {
        values.push(boxed(alloc, 100 + number)?)?;
    }
    Ok(values)
}

// A row of slots with these numbers, made once more if memory was refused. An error is of the numbers.
fn row_of_fifty(rt: &impl Abort, alloc: Global) -> Result<Slots<Box<u64>>, AllocError>
    ensures count { IfOk result (λ slots. length slots ≡ 50) }
    ensures numbered { IfOk result (λ slots. IsNumbered slots) }
{
    match Slots::new(alloc, fifty(alloc)?) {
        Ok(slots) => Ok(slots),
        Err(AllocError) => {
            let values = fifty(alloc)?;
            Ok(Slots::new(alloc, values).expect(rt, "memory the second time"))
        }
    }
}

#[test]
fn a_slot_gives_and_takes_back(rt: HostRuntime) -> Result<(), Fail> {
    let mut slot: Slot<u16> = Slot::new(7, Box::new(rt.alloc(), 40)?);
    let mut guard = slot.try_take(3).expect(&rt, "a new slot is not out");
    assert!(rt; (guard.number(), guard.hart(), *guard.value()) == (7, 3, 40));
    *guard.value_mut() += 1;
    assert!(rt; guard.replace(50) == 41);
    slot.put(guard);

    let guard = slot.try_take(4).expect(&rt, "it was put back");
    assert!(rt; (guard.number(), guard.hart(), *guard.value()) == (7, 4, 50));
    let ended = slot.retire();
    guard.retire(&ended);
    Ok(())
}

#[test]
fn a_row_of_fifty_ends_with_three_out(rt: HostRuntime) -> Result<(), Fail> {
    let mut row = row_of_fifty(&rt, rt.alloc())?;
    assert!(rt; row.len() == ROW as usize);
    for number in 0..ROW {
        let guard = row.lock(1, number).expect(&rt, "nothing is out");
        assert!(rt; **guard.value() == 100 + number as u64);
        row.unlock(guard);
    }

    let first = row.lock(0, 0).expect(&rt, "it was given back");
    let middle = row.lock(1, 17).expect(&rt, "it was given back");
    let last = row.lock(2, ROW - 1).expect(&rt, "it was given back");
    if let Some(_guard) = row.lock(7, 17) {
        panic!(rt; "it is out");
    }
    assert!(rt; (**first.value(), **middle.value(), **last.value()) == (100, 117, 149));

    row.unlock(middle);
    let middle = row.lock(7, 17).expect(&rt, "it was given back");
    assert!(rt; (middle.number(), middle.hart(), **middle.value()) == (17, 7, 117));
    let ended = row.retire();
    assert!(rt; (first.number() as usize) < ended.count());
    assert!(rt; (last.number() as usize) < ended.count());
    first.retire_in_row(&ended);
    middle.retire_in_row(&ended);
    last.retire_in_row(&ended);
    Ok(())
}
