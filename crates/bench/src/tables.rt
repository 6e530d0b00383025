//! The tables of inodes in memory, each of whose fifty places is taken.
ghost use Rattle.std.specs.Prelude.{◌≡◌, []};

use crate::records::inode_of_size;
use crate::workload::WorkloadError;
use fs_machine::{Dropped, Listed, MEMORY_INODES, Reference, Tables};
use std::alloc::Global;

const OPERATIONS: u32 = 4_000_000;

const HART: u8 = 3;

/// The root, which has the first place.
pub const ROOT: u32 = 1;

/// The inode at the last place.
pub const LAST: u32 = MEMORY_INODES as u32;

/// A loaded inode's lock taken and given back: one operation is both.
pub fn lock_and_unlock(alloc: Global, number: u32) -> Result<u64, WorkloadError> {
    let (mut tables, held) = referred_to(alloc)?;
    load(&mut tables, number);
    let mut done = 0u64;
    for _ in 0..OPERATIONS {
        match tables.lock(HART, number) {
            None => {}
            Some(guard) => {
                tables.unlock(HART, guard);
                done = done.saturating_add(1);
            }
        }
    }
    held.retire(&tables.retire());
    told(done)
}

/// A reference counted up and down, with a look at the count before each: one operation is both.
pub fn up_and_down(alloc: Global, number: u32) -> Result<u64, WorkloadError> {
    let (mut tables, held) = referred_to(alloc)?;
    let mut done = 0u64;
    for _ in 0..OPERATIONS {
        if 1000 <= tables.references(number) {
            break;
        }
        match tables.up(number) {
            None => {}
            Some(reference) => match down(&mut tables, reference) {
                None => done = done.saturating_add(1),
                Some(reference) => {
                    let ended = tables.retire();
                    reference.retire(&ended);
                    held.retire(&ended);
                    return Err(WorkloadError::Wrong);
                }
            },
        }
    }
    held.retire(&tables.retire());
    told(done)
}

// Puts a file into the place of an inode in memory, as a load does.
fn load(tables: &mut Tables, number: u32) {
    match tables.lock(HART, number) {
        None => {}
        Some(mut guard) => {
            guard.value_mut().set_record(inode_of_size(0));
            tables.unlock(HART, guard);
        }
    }
}

fn told(done: u64) -> Result<u64, WorkloadError> {
    if done == u64::from(OPERATIONS) {
        Ok(done)
    } else {
        Err(WorkloadError::Wrong)
    }
}

// The tables, and a reference to each of fifty inodes except the root, which the harts' directories refer to.
fn referred_to(alloc: Global) -> Result<(Tables, Listed), WorkloadError> {
    let none = Listed::new(alloc)?;
    match Tables::new(alloc) {
        Ok(mut tables) => {
            let held = all_referred_to(&mut tables, none);
            Ok((tables, held))
        }
        Err(failed) => {
            none.end();
            Err(failed.into())
        }
    }
}

// What is held, and a reference to each of fifty inodes.
fn all_referred_to(tables: &mut Tables, none: Listed) -> Listed
    requires { none ≡ [] }
{
    let mut held = none;
    for number in 2..LAST + 1 {
        if tables.references(number) < 1000 {
            match tables.up(number) {
                None => return held,
                Some(reference) => held.push(reference),
            }
        } else {
            return held;
        }
    }
    held
}

// Drops a reference, and gives it back if it is the last one.
fn down(tables: &mut Tables, reference: Reference) -> Option<Reference> {
    if tables.references(reference.number()) <= 1 {
        return Some(reference);
    }
    match tables.drop_reference(HART, reference) {
        Dropped::Counted => None,
        Dropped::Dying(reference, guard) => {
            tables.unlock(HART, guard);
            Some(reference)
        }
    }
}
