//! The tables, and the steps on inodes in memory.
ghost use Rattle.std.specs.Prelude.{◌≡◌, ◌≢◌, ◌+◌, ◌<◌, ◌^◌, Some, None, IsSome, IfSome, IfNone, IfOk, is_some, length, replicate, slice_get, slice_set};
ghost use Rattle.sleep_lock.specs.SleepLock.{GuardState, filled};
ghost use Rattle.sleep_lock.specs.Row.{lock_of};
ghost use Rattle.atomic_programs.specs.Prog.{Ran};
ghost use Rattle.fs_machine.specs.Inodes.{dying, first_free};
ghost use Rattle.fs_machine.specs.Soundness.{IsSoundInodes};

use crate::desk::Desks;
use crate::entries::{Dropped, Entries, Inode, Reference};
use crate::files::FilePlace;
use crate::limits::{LAST_REFERENCE, MEMORY_INODES, OPEN_FILES, ROOT};
use buffer_cache::HARTS;
use sleep_lock::{Guard, RetiredSlots, Slots};
use std::alloc::{AllocError, Global};
use std::marker::Model;

/// The tables (xv6: `itable`, `ftable`, and each process's `ofile` and `cwd`). A contract sees the places of inodes in memory with their
/// locks, the open files, and each hart's desk.
#[derive(Drop)]
pub struct Tables {
    pub(crate) entries: Entries,
    pub(crate) locks: Slots<Inode>,
    pub(crate) files: [FilePlace; OPEN_FILES],
    pub(crate) desks: Desks,
}

impl Model for Tables {
    ghost use Rattle.fs_machine.specs.Tables.{TablesState};
    ghost use Rattle.fs_machine.specs.Soundness.{IsSoundTables};

    ghost Value = { TablesState };

    ghost view = { λ t. record { entries = t.entries; locks = t.locks; files = t.files; desks = t.desks } };

    ghost invariant = { λ t. IsSoundTables (record { entries = t.entries; locks = t.locks; files = t.files; desks = t.desks }) };
}

impl Tables {
    ghost use Rattle.fs_machine.specs.Tables.{references_of, holder_of};
    ghost use Rattle.fs_machine.specs.Fresh.{fresh};
    ghost use Rattle.fs_machine.specs.Locks.{IsLocked, LeavesLocked};
    ghost use Rattle.fs_machine.specs.Inodes.{lock_inode, unlock_inode, up_inode, drop_inode, drop_walked, drop_freed, Counts};
    ghost use Rattle.fs_machine.specs.Results.{locked_as, dropped_as, kept_as, IfDying};

    /// Only the root is referred to, which is every hart's directory, and nothing is open. An error is want of memory.
    pub fn new(alloc: Global) -> Result<Tables, AllocError>
        ensures { IfOk result (λ tables. tables ≡ fresh) }
    {
        let locks = Slots::new(alloc, places(alloc)?)?;
        Ok(Tables {
            entries: Entries::new(HARTS as u32),
            locks,
            files: [FilePlace::Free; OPEN_FILES],
            desks: Desks::new(),
        })
    }

    /// Ends the tables. The guards and references that are out may then be ended.
    pub fn retire(self) -> RetiredSlots
        ensures { (guard : GuardState Inode) → IsLocked guard self → guard.number < result }
    {
        let Tables {
            entries: _,
            locks,
            files: _,
            desks: _,
        } = self;
        locks.retire()
    }

    /// Takes the lock of an inode (xv6: the `acquiresleep` of `ilock`). None if it waits.
    pub fn lock(&mut self, hart: u8, number: u32) -> Option<Guard<Inode>>
        ensures ran { lock_inode hart number self.old ≡ locked_as result self.new }
        ensures still { IfNone result (self.new ≡ self.old) }
        ensures own { IfSome result (λ guard. (guard.hart ≡ hart) × (guard.value.number ≡ number) × IsLocked guard self.new) }
        ensures others { LeavesLocked self.old self.new }
        ensures apart { IfSome result (λ _. (guard : GuardState Inode) → IsLocked guard self.old → guard.value.number ≢ number) }
    {
        match self.entries.place_of(number) {
            None => None,
            Some(place) => self.locks.lock(hart, place as u32),
        }
    }

    /// Gives a lock back, with the inode as the guard has it (xv6: `iunlock`).
    pub fn unlock(&mut self, hart: u8, guard: Guard<Inode>)
        requires own { guard.hart ≡ hart }
        requires locked { IsLocked guard self.old }
        ensures ran { self.new ≡ unlock_inode hart guard.value None self.old }
        ensures others { (other : GuardState Inode) → other.hart ≢ hart → IsLocked other self.old → IsLocked other self.new }
        ensures rest { (other : GuardState Inode) → other.value.number ≢ guard.value.number → IsLocked other self.old
            → IsLocked other self.new }
        ensures free { holder_of guard.value.number self.new ≡ None }
    {
        self.locks.unlock(guard);
    }

    /// The count of references to an inode.
    pub fn references(&self, number: u32) -> u32
        ensures { result ≡ references_of number self.now }
    {
        match self.entries.place_of(number) {
            None => 0,
            Some(place) => self.entries.references(place),
        }
    }

    /// One reference more to an inode (xv6: `iget`, `idup`). None if each place is referred to, and then nothing
    /// changes.
    #[inline(always)]
    pub fn up(&mut self, number: u32) -> Option<Reference>
        requires room { references_of number self.old + 1 < 2 ^ 32 }
        ensures ran { up_inode number self.old ≡ Ran result self.new }
        ensures number { IfSome result (λ reference. reference ≡ number) }
        ensures others { LeavesLocked self.old self.new }
    {
        match self.entries.place_of(number) {
            Some(place) => {
                self.entries.count_up(place);
                Some(Reference::new(number))
            }
            None => match self.entries.free_place() {
                None => None,
                Some(free) => {
                    begin(&mut self.entries, &mut self.locks, free, number);
                    Some(Reference::new(number))
                }
            },
        }
    }

    /// Drops a reference (xv6: `iput`, up to its freeing). If it is the last one to a dead inode the inode's lock is
    /// taken in its place.
    pub fn drop_reference(&mut self, hart: u8, reference: Reference) -> Dropped
        requires some { 0 < references_of reference self.old }
        requires last { references_of reference self.old ≡ 1 → holder_of reference self.old ≡ None }
        ensures ran { drop_inode hart reference self.old ≡ dropped_as result self.new }
        ensures own { IfDying result
            (λ n guard. (n ≡ reference) × (guard.hart ≡ hart) × (guard.value.number ≡ reference) × IsLocked guard self.new) }
        ensures others { LeavesLocked self.old self.new }
        ensures apart { IfDying result (λ _ _. (guard : GuardState Inode) → IsLocked guard self.old → guard.value.number ≢ reference) }
    {
        match self.entries.place_of(reference.number()) {
            None => {
                let _ = reference.end();
                Dropped::Counted
            }
            Some(place) => match take_dying(&self.entries, &mut self.locks, hart, place) {
                Some(guard) => Dropped::Dying(reference, guard),
                None => {
                    self.entries.count_down(place);
                    let _ = reference.end();
                    Dropped::Counted
                }
            },
        }
    }

    /// Drops a reference within a walk (xv6: the `iput` of `namex`). Where it is the last one to a dead inode it is kept, and nothing
    /// changes.
    #[inline(always)]
    pub fn drop_walked(&mut self, reference: Reference) -> Option<Reference>
        requires last { references_of reference self.old ≡ 1 → holder_of reference self.old ≡ None }
        ensures ran { drop_walked reference self.old ≡ Ran (kept_as result) self.new }
        ensures kept { IfSome result (λ kept. kept ≡ reference) }
        ensures others { LeavesLocked self.old self.new }
    {
        match self.entries.place_of(reference.number()) {
            None => {
                let _ = reference.end();
                None
            }
            Some(place) => {
                if is_dying(&self.entries, &mut self.locks, place) {
                    return Some(reference);
                }
                self.entries.count_down(place);
                let _ = reference.end();
                None
            }
        }
    }

    /// Drops the reference that is left to an inode that was freed: it is counted down.
    pub fn drop_freed(&mut self, reference: Reference)
        requires { references_of reference self.old ≡ 1 → holder_of reference self.old ≡ None }
        ensures ran { drop_freed reference self.old ≡ Ran Counts self.new }
        ensures others { LeavesLocked self.old self.new }
    {
        match self.entries.place_of(reference.number()) {
            None => {
                let _ = reference.end();
            }
            Some(place) => {
                self.entries.count_down(place);
                let _ = reference.end();
            }
        }
    }

    /// The first of these inodes to which there is no reference.
    pub fn first_free(&self, candidates: &[u32]) -> Option<u32>
        ensures { result ≡ first_free self.now.entries candidates.now }
    {
        first_free(&self.entries, candidates)
    }
}

// The same of places.
fn first_free(entries: &Entries, candidates: &[u32]) -> Option<u32>
    ensures { result ≡ first_free entries.now candidates.now }
{
    candidates
        .iter()
        .copied()
        .find(|number| entries.place_of(*number).is_none())
}

// Whether the last reference to a dead inode is dropped at a place.
fn is_dying(entries: &Entries, locks: &mut Slots<Inode>, place: usize) -> bool
    requires sound { IsSoundInodes entries.now locks.old }
    requires within { place < length entries.now }
    ensures dying { result ≡ is_some (dying (slice_get entries.now place) (slice_get locks.old place)) }
    ensures same { locks.new ≡ locks.old }
{
    match take_dying(entries, locks, 0, place) {
        None => false,
        Some(guard) => {
            locks.unlock(guard);
            true
        }
    }
}

// The places for inodes, all free.
fn places(alloc: Global) -> Result<Vec<Inode>, AllocError>
    ensures { IfOk result (λ places. places.items ≡ replicate MEMORY_INODES (record { number = ROOT; content = None })) }
{
    let mut places = Vec::with_capacity(alloc, MEMORY_INODES)?;
    for _ in 0..MEMORY_INODES {
        places.push(Inode::new(alloc, ROOT)?)?;
    }
    Ok(places)
}

// A free place becomes an inode's, with one reference; nothing of it is loaded yet.
fn begin(entries: &mut Entries, locks: &mut Slots<Inode>, place: usize, number: u32)
    requires sound { IsSoundInodes entries.old locks.old }
    requires free { IfSome (slice_get entries.old place) (λ e. e.references ≡ 0) }
    requires within { place < length entries.old }
    ensures entries { entries.new ≡ slice_set entries.old place (record { number = number; references = 1 }) }
    ensures locks { locks.new ≡ slice_set locks.old place (filled place (record { number = number; content = None })) }
{
    match locks.lock(0, place as u32) {
        None => unreachable!(),
        Some(mut guard) => {
            guard.value_mut().renew(number);
            locks.unlock(guard);
        }
    }
    entries.begin(place, number);
}

// The lock of a dead inode, when the last reference to it is dropped.
fn take_dying(
    entries: &Entries,
    locks: &mut Slots<Inode>,
    hart: u8,
    place: usize,
) -> Option<Guard<Inode>>
    requires sound { IsSoundInodes entries.now locks.old }
    requires within { place < length entries.now }
    ensures dying { IfSome result (λ guard. dying (slice_get entries.now place) (slice_get locks.old place) ≡ guard.value.content) }
    ensures dead { IfSome result (λ guard. IsSome guard.value.content) }
    ensures lock { IfSome result (λ guard. (locks.new, Some guard) ≡ lock_of locks.old place hart) }
    ensures alive { IfNone result (dying (slice_get entries.now place) (slice_get locks.old place) ≡ None) }
    ensures same { IfNone result (locks.new ≡ locks.old) }
{
    if entries.references(place) != LAST_REFERENCE {
        return None;
    }
    match locks.lock(hart, place as u32) {
        None => None,
        Some(guard) => {
            if guard.value().is_dead() {
                Some(guard)
            } else {
                locks.unlock(guard);
                None
            }
        }
    }
}
