//! Operations that lock what a descriptor names, each as a part: to write it, to read it, and to answer its state.
ghost use Rattle.std.specs.Prelude.{ℕ};
ghost use Rattle.inode_parts.specs.Vocabulary.{LockOpen as LocksOpen, LockFile as Locks, Stats};
ghost use Rattle.inode_parts.specs.Starts.{HasStarted};
ghost use Rattle.inode_parts.specs.FileLocks.{lock_open_left, lock_open_asked, LockBegins, LockOpenAmid, LockOpenReady, lock_file_left, lock_file_asked, LockFileAmid, LockFileReady};
ghost use Rattle.inode_parts.specs.FileStats.{stat_left, stat_asked, StatAmid, StatReady};

use crate::answers::cause;
use crate::faces::face;
use crate::note::{Note, Notes};
use crate::operation::Operation;
use crate::part::InodePart;
use file_table::{FileLocked, LockFile, LockOpen};
use fs_layout::Super;
use fs_machine::{Answer, Hand, InodePlace, Op, Routine, Want};
use inode_table::record_at;
use path_walk::{Heard, Locked};

/// The lock of what this descriptor names is taken, which is known to be open.
#[derive(Clone, Copy, Drop)]
pub struct LockOpenPart {
    pub fd: u32,
    pub lock: LockOpen,
}

impl InodePart {
    /// Begins to lock what this descriptor names, which is known to be open, on a disk of these sizes.
    #[inline(always)]
    pub(crate) fn begin_lock_open(&mut self, fd: u32, sizes: &Super, hand: &Hand)
        requires { LockBegins sizes.now hand.now }
        ensures { (number : ℕ) → HasStarted sizes.now (LocksOpen fd number) hand.now self.new hand.now }
    {
        let lock = LockOpen::new(sizes.inodestart, InodePlace::One, fd);
        *self = InodePart::LockOpen(LockOpenPart { fd, lock });
    }
}

impl Operation for LockOpenPart {
    ghost left = { lock_open_left };

    ghost asked = { lock_open_asked };

    ghost Ready = { LockOpenReady };

    // The descriptor, and the inode.
    ghost About = { ℕ × ℕ };

    ghost above = { λ a. LocksOpen a.0 a.1 };

    ghost Amid = { λ a. LockOpenAmid a.0 };

    fn op(&self, hand: &mut Hand) -> Op {
        self.lock.op(hand)
    }

    fn next(
        &mut self,
        notes: &mut Notes,
        answer: &Answer,
        hand: &mut Hand,
        heard: &mut Heard,
    ) -> bool {
        match self.lock.next(answer, hand) {
            None => false,
            Some(held) => {
                let offset = held.file.offset;
                notes.set(held.seat, Note::Opened(self.fd, offset));
                *heard = Heard::At(held.file.number, u64::from(offset));
                true
            }
        }
    }
}

/// The lock of what this descriptor names is taken, if that may be read.
#[derive(Clone, Copy, Drop)]
pub struct LockFilePart {
    pub fd: u32,
    pub lock: LockFile,
}

impl InodePart {
    /// Begins to lock what this descriptor names, if that may be read, on a disk of these sizes.
    #[inline(always)]
    pub(crate) fn begin_lock_file(&mut self, fd: u32, sizes: &Super, hand: &Hand)
        requires { LockBegins sizes.now hand.now }
        ensures { HasStarted sizes.now (Locks fd) hand.now self.new hand.now }
    {
        let lock = LockFile::new(sizes.inodestart, InodePlace::One, Want::Read, fd);
        *self = InodePart::LockFile(LockFilePart { fd, lock });
    }
}

impl Operation for LockFilePart {
    ghost left = { lock_file_left };

    ghost asked = { lock_file_asked };

    ghost Ready = { LockFileReady };

    // The descriptor.
    ghost About = { ℕ };

    ghost above = { Locks };

    ghost Amid = { LockFileAmid };

    fn op(&self, hand: &mut Hand) -> Op {
        self.lock.op(hand)
    }

    fn next(
        &mut self,
        notes: &mut Notes,
        answer: &Answer,
        hand: &mut Hand,
        heard: &mut Heard,
    ) -> bool {
        match self.lock.next(answer, hand) {
            None => false,
            Some(FileLocked::Refused(why)) => {
                *heard = Heard::Locked(Locked::Refused(cause(why)));
                true
            }
            Some(FileLocked::Locked(held)) => {
                let offset = held.file.offset;
                notes.set(held.seat, Note::Opened(self.fd, offset));
                *heard = Heard::Locked(Locked::Locks(held.file.number, u64::from(offset)));
                true
            }
        }
    }
}

/// The lock of what a descriptor names is taken, if that has a state (xv6: `stati`).
#[derive(Clone, Copy, Drop)]
pub struct StatFilePart {
    pub lock: LockFile,
}

impl InodePart {
    /// Begins to lock what this descriptor names, if that has a state, on a disk of these sizes.
    #[inline(always)]
    pub(crate) fn begin_stat_file(&mut self, fd: u32, sizes: &Super, hand: &Hand)
        requires { LockBegins sizes.now hand.now }
        ensures { HasStarted sizes.now (Stats fd) hand.now self.new hand.now }
    {
        let lock = LockFile::new(sizes.inodestart, InodePlace::One, Want::Stat, fd);
        *self = InodePart::StatFile(StatFilePart { lock });
    }
}

impl Operation for StatFilePart {
    ghost left = { stat_left };

    ghost asked = { stat_asked };

    ghost Ready = { StatReady };

    // The descriptor.
    ghost About = { ℕ };

    ghost above = { Stats };

    ghost Amid = { λ _. StatAmid };

    fn op(&self, hand: &mut Hand) -> Op {
        self.lock.op(hand)
    }

    fn next(
        &mut self,
        notes: &mut Notes,
        answer: &Answer,
        hand: &mut Hand,
        heard: &mut Heard,
    ) -> bool {
        match self.lock.next(answer, hand) {
            None => false,
            Some(FileLocked::Refused(_)) => {
                *heard = Heard::Stat(None);
                true
            }
            Some(FileLocked::Locked(held)) => {
                let inode = record_at(hand, held.seat);
                notes.set(held.seat, Note::Nothing);
                *heard = Heard::Stat(Some((held.file.number as u16, face(inode))));
                true
            }
        }
    }
}
