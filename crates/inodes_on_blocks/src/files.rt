//! Operations on open files, as programs below: each acts at one moment, whatever the other harts do.

ghost use Rattle.std.specs.Prelude.{ℕ};
ghost use Rattle.inodes_on_blocks.specs.Vocabulary.{Super, LockFile, LockOpen, ReadFile};
ghost use Rattle.inodes_on_blocks.specs.Files.{lock_file, lock_open, read_file};
ghost use Rattle.inodes_on_blocks.specs.Acting.{DoesItAt};
ghost use Rattle.inodes_on_blocks.specs.Writing.{WritesActOnce};

/// The lock of what a descriptor names is taken to read it, and there the operation acts. After that the inode is
/// read from its block, if it isn't loaded. Or the read is refused.
pub fn locks_to_read_act_once()
    ensures { (sizes : Super) (fd : ℕ) → DoesItAt sizes (LockFile fd) (lock_file sizes fd) }
{}

/// So it is to write.
pub fn locks_to_write_act_once()
    ensures { (sizes : Super) (fd n : ℕ) → DoesItAt sizes (LockOpen fd n) (lock_open sizes fd n) }
{}

/// A part of the file is read block by block, and the lock given up: there the offset moves by as much as was read.
pub fn reads_act_once()
    ensures { (sizes : Super) (fd n offset count : ℕ) → DoesItAt sizes (ReadFile fd n offset count) (read_file fd n offset count) }
{}

/// If nothing refuses it, a piece is written into a file: the blocks are found or taken, and then the record is put.
/// It acts when the lock is given up, and the offset moves to the end of the written bytes. These are all bytes, or
/// those before the block for which none was free.
pub fn writes_act_once()
    ensures { (sizes : Super) → WritesActOnce sizes }
{}
