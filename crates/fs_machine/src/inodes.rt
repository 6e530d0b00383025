//! One function for each operation on inodes in memory.
ghost use Rattle.std.specs.Prelude.{◌≡◌, ◌<◌, ◌^◌, Some, None, IfSome, IfNone};
ghost use Rattle.fs_machine.specs.Vocabulary.{Ran as ItRan};
ghost use Rattle.fs_machine.specs.Inodes.{Counts};
ghost use Rattle.fs_machine.specs.Results.{locked_as, dropped_as, kept_as, IfDying};
ghost use Rattle.fs_machine.specs.LogPart.{Outside};
ghost use Rattle.fs_machine.specs.Steps.{state_of, exec, Claim as ClaimOp, Lock, LockFile, LockOpen, Unlock, SetDirectory, Up, Down, Number, Directory, Held, Walked, Freed};
ghost use Rattle.fs_machine.specs.Premises.{May};
ghost use Rattle.fs_machine.specs.Tied.{IsOwn, IsOwnInode, LeavesTied};
ghost use Rattle.fs_machine.specs.Stays.{LeavesAll, LeavesAllBut, HasNone};
ghost use Rattle.fs_machine.specs.Claiming.{claimed_as, IfKept};
ghost use Rattle.fs_machine.specs.Locked.{file_locked_as, open_locked_as, IfFileWaits, IfFileLocked};

use crate::shared::Core;
use crate::{Dropped, Inode, OpenFile, Reference, Refused, Want};
use block_device::Device;
use buffer_cache::{Buffer, HARTS};
use sleep_lock::Guard;

impl<D: Device> Core<D> {
    /// Takes the lock of an inode (xv6: the `acquiresleep` of `ilock`). None if it waits.
    pub fn lock(&mut self, hart: u8, reference: &Reference) -> Option<Guard<Inode>>
        requires may { May hart (Lock reference.now) (state_of D.contents D.failures self.old) }
        ensures ran { (x : Outside)
            → exec hart x (Lock reference.now) (state_of D.contents D.failures self.old)
            ≡ locked_as result (state_of D.contents D.failures self.new) }
        ensures still { IfNone result (self.new ≡ self.old) }
        ensures own { IfSome result (λ guard. IsOwnInode hart reference.now guard (state_of D.contents D.failures self.new)) }
        ensures others { LeavesTied hart (state_of D.contents D.failures self.old) (state_of D.contents D.failures self.new) }
        ensures log { self.new.log ≡ self.old.log }
        ensures rest { LeavesAll (IsOwnInode hart) (state_of D.contents D.failures self.old) (state_of D.contents D.failures self.new) }
        ensures apart { IfSome result (λ _. HasNone reference.now (IsOwnInode hart) (state_of D.contents D.failures self.old)) }
    {
        self.tables.lock(hart, reference.number())
    }

    /// Gives a lock back, with the inode as the guard has it (xv6: `iunlock`).
    pub fn unlock(&mut self, hart: u8, guard: Guard<Inode>)
        requires own { IsOwnInode hart guard.value.number guard (state_of D.contents D.failures self.old) }
        requires may { May hart (Unlock guard.value None) (state_of D.contents D.failures self.old) }
        ensures ran { (x : Outside)
            → exec hart x (Unlock guard.value None) (state_of D.contents D.failures self.old)
            ≡ ItRan tt (state_of D.contents D.failures self.new) }
        ensures others { LeavesTied hart (state_of D.contents D.failures self.old) (state_of D.contents D.failures self.new) }
        ensures log { self.new.log ≡ self.old.log }
        ensures rest { LeavesAllBut guard.value.number (IsOwnInode hart) (state_of D.contents D.failures self.old)
            (state_of D.contents D.failures self.new) }
    {
        self.tables.unlock(hart, guard);
    }

    /// One reference more to an inode (xv6: `iget`, `idup`). None if each of the fifty places is referred to.
    #[tactic(auto, unfolding(crate::specs::Premises::May))]
    #[inline(always)]
    pub fn up(&mut self, hart: u8, number: u32) -> Option<Reference>
        requires may { May hart (Up (Number number)) (state_of D.contents D.failures self.old) }
        ensures ran { (x : Outside)
            → exec hart x (Up (Number number)) (state_of D.contents D.failures self.old)
            ≡ ItRan result (state_of D.contents D.failures self.new) }
        ensures number { IfSome result (λ reference. reference ≡ number) }
        ensures others { LeavesTied hart (state_of D.contents D.failures self.old) (state_of D.contents D.failures self.new) }
        ensures log { self.new.log ≡ self.old.log }
        ensures rest { LeavesAll (IsOwnInode hart) (state_of D.contents D.failures self.old) (state_of D.contents D.failures self.new) }
    {
        self.tables.up(number)
    }

    /// A reference to the first of these inodes to which there is none. If there is no such one the buffer is given
    /// back as it was, and else kept.
    #[tactic(auto, unfolding(crate::specs::Premises::May))]
    pub fn claim(&mut self, hart: u8, guard: Guard<Buffer>, candidates: &[u32]) -> Claim
        requires own { IsOwn hart guard.value.block guard (state_of D.contents D.failures self.old) }
        requires may { May hart (ClaimOp guard.value.block candidates.now) (state_of D.contents D.failures self.old) }
        ensures ran { (x : Outside)
            → exec hart x (ClaimOp guard.value.block candidates.now) (state_of D.contents D.failures self.old)
            ≡ claimed_as result (state_of D.contents D.failures self.new) }
        ensures kept { IfKept result
            (λ kept. (kept ≡ guard) × IsOwn hart guard.value.block kept (state_of D.contents D.failures self.new)) }
        ensures others { LeavesTied hart (state_of D.contents D.failures self.old) (state_of D.contents D.failures self.new) }
        ensures device { self.new.log.cache.device ≡ self.old.log.cache.device }
        ensures rest { LeavesAll (IsOwnInode hart) (state_of D.contents D.failures self.old) (state_of D.contents D.failures self.new) }
    {
        match self.tables.first_free(candidates) {
            None => {
                self.log.release(guard);
                Claim::NoInode
            }
            Some(number) => match self.tables.up(number) {
                None => Claim::NoPlace(guard),
                Some(reference) => Claim::Claimed(reference, guard),
            },
        }
    }

    /// Drops a reference (xv6: `iput`, up to its freeing). If it is the last one to a dead inode the inode's lock is
    /// taken in its place.
    pub fn drop_reference(&mut self, hart: u8, reference: Reference) -> Dropped
        requires may { May hart (Down (Held reference)) (state_of D.contents D.failures self.old) }
        ensures ran { (x : Outside)
            → exec hart x (Down (Held reference)) (state_of D.contents D.failures self.old)
            ≡ dropped_as result (state_of D.contents D.failures self.new) }
        ensures own { IfDying result
            (λ n guard. (n ≡ reference) × IsOwnInode hart reference guard (state_of D.contents D.failures self.new)) }
        ensures others { LeavesTied hart (state_of D.contents D.failures self.old) (state_of D.contents D.failures self.new) }
        ensures log { self.new.log ≡ self.old.log }
        ensures rest { LeavesAll (IsOwnInode hart) (state_of D.contents D.failures self.old) (state_of D.contents D.failures self.new) }
        ensures apart { IfDying result (λ _ _. HasNone reference (IsOwnInode hart) (state_of D.contents D.failures self.old)) }
    {
        self.tables.drop_reference(hart, reference)
    }

    /// Takes the lock of the inode that a descriptor names, if it may be had for this.
    #[tactic(auto, unfolding(crate::specs::Premises::May))]
    pub fn lock_file(&mut self, hart: u8, want: Want, fd: u32) -> LockedFile
        requires may { May hart (LockFile want fd) (state_of D.contents D.failures self.old) }
        ensures ran { (x : Outside)
            → exec hart x (LockFile want fd) (state_of D.contents D.failures self.old)
            ≡ file_locked_as result (state_of D.contents D.failures self.new) }
        ensures still { IfFileWaits result (self.new ≡ self.old) }
        ensures number { IfFileLocked result (λ file _. file.number < 2 ^ 16) }
        ensures own { IfFileLocked result (λ file guard. IsOwnInode hart file.number guard (state_of D.contents D.failures self.new)) }
        ensures others { LeavesTied hart (state_of D.contents D.failures self.old) (state_of D.contents D.failures self.new) }
        ensures log { self.new.log ≡ self.old.log }
        ensures rest { LeavesAll (IsOwnInode hart) (state_of D.contents D.failures self.old) (state_of D.contents D.failures self.new) }
        ensures apart { IfFileLocked result (λ file _. HasNone file.number (IsOwnInode hart) (state_of D.contents D.failures self.old)) }
    {
        match self.tables.check(hart, want, fd) {
            Some(why) => LockedFile::Refused(why),
            None => match self.tables.file(hart, fd) {
                None => LockedFile::Waits,
                Some(file) => match self.tables.lock(hart, file.number) {
                    None => LockedFile::Waits,
                    Some(guard) => LockedFile::Locked(file, guard),
                },
            },
        }
    }

    /// Takes the lock of the inode that a descriptor names which is known to be open. None if it waits.
    #[tactic(auto, unfolding(crate::specs::Premises::May))]
    pub fn lock_open(&mut self, hart: u8, fd: u32) -> Option<(OpenFile, Guard<Inode>)>
        requires may { May hart (LockOpen fd) (state_of D.contents D.failures self.old) }
        ensures ran { (x : Outside)
            → exec hart x (LockOpen fd) (state_of D.contents D.failures self.old)
            ≡ open_locked_as result (state_of D.contents D.failures self.new) }
        ensures still { IfNone result (self.new ≡ self.old) }
        ensures number { IfSome result (λ locked. locked.0.number < 2 ^ 16) }
        ensures own { IfSome result (λ locked. IsOwnInode hart locked.0.number locked.1 (state_of D.contents D.failures self.new)) }
        ensures others { LeavesTied hart (state_of D.contents D.failures self.old) (state_of D.contents D.failures self.new) }
        ensures log { self.new.log ≡ self.old.log }
        ensures rest { LeavesAll (IsOwnInode hart) (state_of D.contents D.failures self.old) (state_of D.contents D.failures self.new) }
        ensures apart { IfSome result (λ locked. HasNone locked.0.number (IsOwnInode hart) (state_of D.contents D.failures self.old)) }
    {
        match self.tables.file(hart, fd) {
            None => None,
            Some(file) => match self.tables.lock(hart, file.number) {
                None => None,
                Some(guard) => Some((file, guard)),
            },
        }
    }

    /// Gives a lock back, and the file of this descriptor has this offset from now on.
    #[tactic(auto, unfolding(crate::specs::Premises::May))]
    pub fn unlock_moving(&mut self, hart: u8, guard: Guard<Inode>, fd: u32, offset: u32)
        requires hart { hart < HARTS }
        requires own { IsOwnInode hart guard.value.number guard (state_of D.contents D.failures self.old) }
        requires may { May hart (Unlock guard.value (Some (fd, offset))) (state_of D.contents D.failures self.old) }
        ensures ran { (x : Outside)
            → exec hart x (Unlock guard.value (Some (fd, offset))) (state_of D.contents D.failures self.old)
            ≡ ItRan tt (state_of D.contents D.failures self.new) }
        ensures others { LeavesTied hart (state_of D.contents D.failures self.old) (state_of D.contents D.failures self.new) }
        ensures log { self.new.log ≡ self.old.log }
        ensures rest { LeavesAllBut guard.value.number (IsOwnInode hart) (state_of D.contents D.failures self.old)
            (state_of D.contents D.failures self.new) }
    {
        self.tables.move_offset(hart, fd, offset);
        self.tables.unlock(hart, guard);
    }

    /// Gives a lock back, and the inode, to which the reference is, is the hart's current directory from now on. The reference
    /// to the old one is handed out.
    #[tactic(auto, unfolding(crate::specs::Premises::May))]
    pub fn settle(&mut self, hart: u8, guard: Guard<Inode>, reference: Reference) -> Reference
        requires own { IsOwnInode hart guard.value.number guard (state_of D.contents D.failures self.old) }
        requires reference { reference ≡ guard.value.number }
        requires may { May hart (SetDirectory guard.value) (state_of D.contents D.failures self.old) }
        ensures ran { (x : Outside)
            → exec hart x (SetDirectory guard.value) (state_of D.contents D.failures self.old)
            ≡ ItRan result (state_of D.contents D.failures self.new) }
        ensures others { LeavesTied hart (state_of D.contents D.failures self.old) (state_of D.contents D.failures self.new) }
        ensures log { self.new.log ≡ self.old.log }
        ensures rest { LeavesAllBut guard.value.number (IsOwnInode hart) (state_of D.contents D.failures self.old)
            (state_of D.contents D.failures self.new) }
    {
        self.tables.unlock(hart, guard);
        self.tables.set_directory(hart, reference)
    }

    /// One reference more to the hart's current directory. It is never None, because there is one to it.
    #[tactic(auto, unfolding(crate::specs::Premises::May))]
    pub fn up_directory(&mut self, hart: u8) -> Option<Reference>
        requires may { May hart (Up Directory) (state_of D.contents D.failures self.old) }
        ensures ran { (x : Outside)
            → exec hart x (Up Directory) (state_of D.contents D.failures self.old)
            ≡ ItRan result (state_of D.contents D.failures self.new) }
        ensures others { LeavesTied hart (state_of D.contents D.failures self.old) (state_of D.contents D.failures self.new) }
        ensures log { self.new.log ≡ self.old.log }
        ensures rest { LeavesAll (IsOwnInode hart) (state_of D.contents D.failures self.old) (state_of D.contents D.failures self.new) }
    {
        let number = self.tables.directory(hart);
        self.tables.up(number)
    }

    /// Drops a reference within a walk. Where it is the last one to a dead inode it is kept, to be freed later.
    #[tactic(auto, unfolding(crate::specs::Premises::May))]
    pub fn drop_walked(&mut self, hart: u8, reference: Reference) -> Option<Reference>
        requires may { May hart (Down (Walked reference)) (state_of D.contents D.failures self.old) }
        ensures ran { (x : Outside)
            → exec hart x (Down (Walked reference)) (state_of D.contents D.failures self.old)
            ≡ ItRan (kept_as result) (state_of D.contents D.failures self.new) }
        ensures kept { IfSome result (λ kept. kept ≡ reference) }
        ensures others { LeavesTied hart (state_of D.contents D.failures self.old) (state_of D.contents D.failures self.new) }
        ensures log { self.new.log ≡ self.old.log }
        ensures rest { LeavesAll (IsOwnInode hart) (state_of D.contents D.failures self.old) (state_of D.contents D.failures self.new) }
    {
        self.tables.drop_walked(reference)
    }

    /// Drops the reference that is left to an inode that this hart has freed.
    #[tactic(auto, unfolding(crate::specs::Premises::May))]
    pub fn drop_freed(&mut self, hart: u8, reference: Reference)
        requires may { May hart (Down (Freed reference)) (state_of D.contents D.failures self.old) }
        ensures ran { (x : Outside)
            → exec hart x (Down (Freed reference)) (state_of D.contents D.failures self.old)
            ≡ ItRan Counts (state_of D.contents D.failures self.new) }
        ensures others { LeavesTied hart (state_of D.contents D.failures self.old) (state_of D.contents D.failures self.new) }
        ensures log { self.new.log ≡ self.old.log }
        ensures rest { LeavesAll (IsOwnInode hart) (state_of D.contents D.failures self.old) (state_of D.contents D.failures self.new) }
    {
        self.tables.drop_freed(reference);
    }
}

/// A new inode claimed.
pub enum Claim {
    Claimed(Reference, Guard<Buffer>),
    /// Each of the fifty places is referred to.
    NoPlace(Guard<Buffer>),
    /// There is a reference to each of them, and the buffer was given back.
    NoInode,
}

/// The lock of what a descriptor names.
pub enum LockedFile {
    Waits,
    Refused(Refused),
    /// The file, and its inode.
    Locked(OpenFile, Guard<Inode>),
}
