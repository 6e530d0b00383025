//! The kinds of step.

/// What a step does.
#[derive(Clone, Copy, PartialEq, Eq, Debug)]
pub enum Kind {
    /// Takes an inode's lock.
    Lock,
    /// Gives it up.
    Unlock,
    /// Takes a block's buffer.
    Get,
    /// Reads the block from the device into its buffer.
    Read,
    /// Gives a buffer back, recorded or not.
    Put,
    /// Joins a transaction.
    Join,
    /// Leaves it.
    Leave,
    /// Makes one write of a commit.
    Commit,
    /// Counts a reference up.
    Up,
    /// Counts a reference down.
    Down,
    /// Takes, doubles or drops an open file's place or a descriptor.
    Slot,
    /// Gives the reply.
    Reply,
}
