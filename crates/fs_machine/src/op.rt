//! Operations as a control asks for them, by places in the hand, and what they come to.
ghost use Rattle.std.specs.Prelude.{◌≡◌};
ghost use Rattle.fs_machine.specs.Ops.{yes_in};

use crate::hand::{InodePlace, Place};
use crate::{Doubled, Kind, NewFile, OpenFile, Refused, Want};

/// The next operation. Its object is at a place of the hand.
#[derive(Clone, Copy)]
pub enum Op {
    /// Joins a transaction.
    Join,
    /// Leaves it.
    Leave,
    /// One write of the commit.
    Commit,
    /// Takes this block's buffer.
    Get(Place, u32),
    /// Reads the block into it.
    Read(Place),
    /// Gives it back as it was.
    Give(Place),
    /// Gives it back, recorded with the bytes that it has in hand.
    Record(Place),
    /// Takes the lock of the inode to which the reference is.
    Lock(InodePlace),
    /// Gives it back, with the inode as it is in hand.
    Unlock(InodePlace),
    /// A reference to the inode of this number.
    Up(InodePlace, u32),
    /// The same if no seat is free: it is aside.
    UpAside(u32),
    /// Drops the reference at this seat; where it is the last one to a dead inode the inode's lock is taken in its place.
    Down(InodePlace),
    /// Joins a transaction, if this descriptor may be written.
    JoinToWrite(u32),
    /// Takes the lock of what a descriptor names, if it may be had for this.
    LockFile(InodePlace, Want, u32),
    /// That of what a descriptor names that is known to be open.
    LockOpen(InodePlace, u32),
    /// Gives it back, and the file of this descriptor has this offset from now on.
    UnlockMoving(InodePlace, u32, u32),
    /// Gives it back, and the inode, to which the reference is, is the hart's current directory from now on. The reference to the old
    /// one is there then.
    SetDirectory(InodePlace),
    /// A reference to the hart's current directory.
    UpDirectory(InodePlace),
    /// Drops a reference within a walk; the last one to a dead inode is listed, after the others. A reference that is
    /// aside is put into the seat.
    DownWalked(InodePlace),
    /// Takes the first listed reference, and the lock of its inode.
    LockListed(InodePlace),
    /// Drops the reference that is left to an inode that this hart has freed.
    DownFreed(InodePlace),
    /// Whether a descriptor may be had for this.
    CheckFile(Want, u32),
    /// Takes a place for an open file.
    TakePlace,
    /// Opens a file there; if no descriptor is free the reference stays.
    TakeDescriptor(InodePlace, NewFile),
    /// One descriptor more for what this one names.
    Double(u32),
    /// A descriptor goes; if it was the last one the file's reference is there then.
    Close(InodePlace, u32),
    /// To this child the next descriptor from this one on; if there is none the directory, and the reference to the
    /// child's old one is there then.
    GiveTo(InodePlace, u8, u32),
    /// A reference to the first of the numbers in hand to which there is none; if there is no such one the buffer is
    /// given back.
    Claim(Place, InodePlace),
    /// Gives the reply.
    Reply,
}

/// What the hand doesn't show of an answer.
#[derive(Clone, Copy)]
pub enum Answer {
    Nothing,
    /// A commit begins, or has ended; a dropped reference was the last one to a dead inode; there was a place for an
    /// open file. Or a descriptor was its file's last; the directory was handed on. Of a claim: no place in memory was
    /// left.
    Is(bool),
    Refused(Refused),
    Number(u32),
    File(OpenFile),
    Doubled(Doubled),
    /// This descriptor, and whether there are more to come.
    Given(u8, bool),
}

impl Answer {
    /// Whether it says yes.
    pub fn yes(&self) -> bool
        ensures { result ≡ yes_in self.now }
    {
        match self {
            Answer::Is(yes) => *yes,
            _ => false,
        }
    }
}

/// The result of an operation.
#[derive(Clone, Copy)]
pub enum Performed {
    Waits,
    Ran(Kind),
    Stopped,
}
