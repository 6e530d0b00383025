//! What all harts share, and one function for each operation on blocks.
ghost use Rattle.std.specs.Prelude.{◌≡◌, ◌≢◌, ◌<◌, ℕ, List, Some, None, IsSome, IfSome, IfNone};
ghost use Rattle.fs_machine.specs.Vocabulary.{IfHeld, IsHeld, IfWaits, Ran as ItRan};
ghost use Rattle.fs_machine.specs.LogPart.{Outside};
ghost use Rattle.fs_machine.specs.Steps.{state_of, exec, Join, JoinToWrite, Leave as LeaveOp, Get, Read, Put, Commit};
ghost use Rattle.fs_machine.specs.Premises.{May, Honest};
ghost use Rattle.fs_machine.specs.Tied.{IsOwn, LeavesTied, bytes_of};
ghost use Rattle.fs_machine.specs.Stays.{LeavesAll, LeavesAllBut, HasNone};
ghost use Rattle.fs_machine.specs.Joining.{joined_to_write_as, IfJoinWaits, IfJoined};
ghost use Rattle.fs_machine.specs.Performed.{joined_as, got_as, read_as, committed_as, said_read, said_written, IfGotNone, IfReadOk};

use crate::{Refused, Tables, Want};
use block_device::{Device, Fault};
use buffer_cache::{Buffer, Got};
use group_log::{AfterLeave, Log, Progress, Txn};
use sleep_lock::Guard;

/// All that harts share: the log, and the tables of inodes in memory, open files and descriptors. After its parts were made
/// nothing of it takes memory.
pub struct Core<D: Device> {
    pub log: Log<D>,
    pub tables: Tables,
}

/// A transaction to write what a descriptor names.
pub enum JoinedToWrite {
    Waits,
    Refused(Refused),
    /// To write the inode of this number.
    Joined(Txn, u32),
}

impl<D: Device> Core<D> {
    /// Joins a transaction (xv6: `begin_op`). None if it waits.
    #[tactic(auto, unfolding(crate::specs::Premises::May, crate::specs::Premises::Honest))]
    pub fn join(&mut self, hart: u8) -> Option<Txn>
        requires may { May hart Join (state_of D.contents D.failures self.old) }
        ensures ran { (x : Outside)
            → exec hart x Join (state_of D.contents D.failures self.old) ≡ joined_as result (state_of D.contents D.failures self.new) }
        ensures still { IfNone result (self.new ≡ self.old) }
        ensures txn { IfSome result (λ txn. txn ≡ hart) }
        ensures others { LeavesTied hart (state_of D.contents D.failures self.old) (state_of D.contents D.failures self.new) }
        ensures device { self.new.log.cache.device ≡ self.old.log.cache.device }
        ensures tables { self.new.tables ≡ self.old.tables }
        ensures rest { LeavesAll (IsOwn hart) (state_of D.contents D.failures self.old) (state_of D.contents D.failures self.new) }
    {
        self.log.join(hart)
    }

    /// Joins a transaction, if this descriptor may be written.
    #[tactic(auto, unfolding(crate::specs::Premises::May))]
    pub fn join_to_write(&mut self, hart: u8, fd: u32) -> JoinedToWrite
        requires may { May hart (JoinToWrite fd) (state_of D.contents D.failures self.old) }
        ensures ran { (x : Outside)
            → exec hart x (JoinToWrite fd) (state_of D.contents D.failures self.old)
            ≡ joined_to_write_as result (state_of D.contents D.failures self.new) }
        ensures still { IfJoinWaits result (self.new ≡ self.old) }
        ensures txn { IfJoined result (λ txn. txn ≡ hart) }
        ensures others { LeavesTied hart (state_of D.contents D.failures self.old) (state_of D.contents D.failures self.new) }
        ensures device { self.new.log.cache.device ≡ self.old.log.cache.device }
        ensures tables { self.new.tables ≡ self.old.tables }
        ensures rest { LeavesAll (IsOwn hart) (state_of D.contents D.failures self.old) (state_of D.contents D.failures self.new) }
    {
        match self.tables.check(hart, Want::Write, fd) {
            Some(why) => JoinedToWrite::Refused(why),
            None => match self.tables.file(hart, fd) {
                None => JoinedToWrite::Waits,
                Some(file) => match self.log.join(hart) {
                    None => JoinedToWrite::Waits,
                    Some(txn) => JoinedToWrite::Joined(txn, file.number),
                },
            },
        }
    }

    /// Leaves a transaction (xv6: `end_op`, without its `commit`), and says whether a commit begins.
    #[tactic(auto, unfolding(crate::specs::Premises::May, crate::specs::Premises::Honest))]
    pub fn leave(&mut self, hart: u8, txn: Txn) -> AfterLeave
        requires own { txn ≡ hart }
        requires may { May hart LeaveOp (state_of D.contents D.failures self.old) }
        ensures ran { (x : Outside)
            → exec hart x LeaveOp (state_of D.contents D.failures self.old) ≡ ItRan result (state_of D.contents D.failures self.new) }
        ensures others { LeavesTied hart (state_of D.contents D.failures self.old) (state_of D.contents D.failures self.new) }
        ensures device { self.new.log.cache.device ≡ self.old.log.cache.device }
        ensures tables { self.new.tables ≡ self.old.tables }
        ensures rest { LeavesAll (IsOwn hart) (state_of D.contents D.failures self.old) (state_of D.contents D.failures self.new) }
    {
        self.log.leave(txn)
    }

    /// Takes a block's buffer (xv6: `bget`).
    #[tactic(auto, unfolding(crate::specs::Premises::May, crate::specs::Premises::Honest))]
    pub fn get(&mut self, hart: u8, b: u32) -> Got
        requires may { May hart (Get b) (state_of D.contents D.failures self.old) }
        ensures ran { (x : Outside)
            → exec hart x (Get b) (state_of D.contents D.failures self.old) ≡ got_as result (state_of D.contents D.failures self.new) }
        ensures still { IfGotNone result (self.new ≡ self.old) }
        ensures own { IfHeld result (λ guard. IsOwn hart b guard (state_of D.contents D.failures self.new)) }
        ensures others { LeavesTied hart (state_of D.contents D.failures self.old) (state_of D.contents D.failures self.new) }
        ensures device { self.new.log.cache.device ≡ self.old.log.cache.device }
        ensures tables { self.new.tables ≡ self.old.tables }
        ensures rest { LeavesAll (IsOwn hart) (state_of D.contents D.failures self.old) (state_of D.contents D.failures self.new) }
        ensures apart { HasNone b (IsOwn hart) (state_of D.contents D.failures self.old) }
    {
        self.log.get(hart, b)
    }

    /// Reads the block from the device into its buffer (xv6: what `bread` adds to `bget`). An error is the device's.
    #[tactic(auto, unfolding(crate::specs::Premises::May, crate::specs::Premises::Honest))]
    pub fn read(&mut self, hart: u8, guard: &mut Guard<Buffer>) -> Result<(), Fault>
        requires own { IsOwn hart guard.old.value.block guard.old (state_of D.contents D.failures self.old) }
        requires unread { guard.old.value.content ≡ None }
        requires may { May hart (Read guard.old.value.block) (state_of D.contents D.failures self.old) }
        ensures ran { exec hart (said_read result (D.contents self.new.log.cache.device)) (Read guard.old.value.block)
            (state_of D.contents D.failures self.old)
            ≡ read_as result guard.new (state_of D.contents D.failures self.new) }
        ensures own { IsOwn hart guard.old.value.block guard.new (state_of D.contents D.failures self.new) }
        ensures valid { IfReadOk result (IsSome guard.new.value.content) (guard.new ≡ guard.old) }
        ensures honest { Honest hart (Read guard.old.value.block) (state_of D.contents D.failures self.old)
            (said_read result (D.contents self.new.log.cache.device)) }
        ensures others { LeavesTied hart (state_of D.contents D.failures self.old) (state_of D.contents D.failures self.new) }
        ensures called { D.Called self.old.log.cache.device self.new.log.cache.device }
        ensures tables { self.new.tables ≡ self.old.tables }
        ensures rest { LeavesAllBut guard.old.value.block (IsOwn hart) (state_of D.contents D.failures self.old)
            (state_of D.contents D.failures self.new) }
    {
        self.log.fill(guard)
    }

    /// Gives a buffer back as it was (xv6: `brelse`).
    #[tactic(auto, unfolding(crate::specs::Premises::May, crate::specs::Premises::Honest))]
    pub fn put_back(&mut self, hart: u8, guard: Guard<Buffer>)
        requires own { IsOwn hart guard.value.block guard (state_of D.contents D.failures self.old) }
        requires may { May hart (Put guard.value.block None) (state_of D.contents D.failures self.old) }
        ensures ran { (x : Outside)
            → exec hart x (Put guard.value.block None) (state_of D.contents D.failures self.old)
            ≡ ItRan tt (state_of D.contents D.failures self.new) }
        ensures others { LeavesTied hart (state_of D.contents D.failures self.old) (state_of D.contents D.failures self.new) }
        ensures device { self.new.log.cache.device ≡ self.old.log.cache.device }
        ensures tables { self.new.tables ≡ self.old.tables }
        ensures rest { LeavesAllBut guard.value.block (IsOwn hart) (state_of D.contents D.failures self.old)
            (state_of D.contents D.failures self.new) }
    {
        self.log.release(guard);
    }

    /// Gives a buffer back, recorded with the bytes that it holds (xv6: `log_write` and `brelse`).
    #[tactic(auto, unfolding(crate::specs::Premises::May, crate::specs::Premises::Honest))]
    pub fn put_changed(&mut self, hart: u8, txn: &mut Txn, guard: Guard<Buffer>)
        requires txn { txn.old ≡ hart }
        requires hand { guard.hart ≡ hart }
        requires held { IsHeld self.old.log.cache.seats guard }
        requires valid { IsSome guard.value.content }
        requires may { May hart (Put guard.value.block (Some (bytes_of guard))) (state_of D.contents D.failures self.old) }
        ensures ran { (x : Outside)
            → exec hart x (Put guard.value.block (Some (bytes_of guard))) (state_of D.contents D.failures self.old)
            ≡ ItRan tt (state_of D.contents D.failures self.new) }
        ensures kept { txn.new ≡ txn.old }
        ensures others { LeavesTied hart (state_of D.contents D.failures self.old) (state_of D.contents D.failures self.new) }
        ensures device { self.new.log.cache.device ≡ self.old.log.cache.device }
        ensures tables { self.new.tables ≡ self.old.tables }
        ensures rest { LeavesAllBut guard.value.block (IsOwn hart) (state_of D.contents D.failures self.old)
            (state_of D.contents D.failures self.new) }
    {
        self.log.record(txn, guard);
    }

    /// Makes one write of the commit (xv6: `commit`; a write of `write_log`, `write_head` or `install_trans`).
    #[tactic(auto, unfolding(crate::specs::Premises::May, crate::specs::Premises::Honest))]
    pub fn commit(&mut self, hart: u8) -> Progress
        requires may { May hart Commit (state_of D.contents D.failures self.old) }
        ensures ran { exec hart (said_written result (D.contents self.new.log.cache.device)) Commit
            (state_of D.contents D.failures self.old)
            ≡ committed_as result (state_of D.contents D.failures self.new) }
        ensures still { IfWaits result (self.new ≡ self.old) }
        ensures honest { Honest hart Commit (state_of D.contents D.failures self.old)
            (said_written result (D.contents self.new.log.cache.device)) }
        ensures others { LeavesTied hart (state_of D.contents D.failures self.old) (state_of D.contents D.failures self.new) }
        ensures called { (result ≢ Progress.Waits) → D.Called self.old.log.cache.device self.new.log.cache.device }
        ensures tables { self.new.tables ≡ self.old.tables }
        ensures rest { LeavesAll (IsOwn hart) (state_of D.contents D.failures self.old) (state_of D.contents D.failures self.new) }
    {
        self.log.commit_step(hart)
    }
}
