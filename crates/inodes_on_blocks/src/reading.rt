//! Operations that lock an inode and read it, as programs below: each acts when the lock is taken, whatever the other
//! harts do.

ghost use Rattle.std.specs.Prelude.{ℕ};
ghost use Rattle.inodes_on_blocks.specs.Vocabulary.{Super, Query, Take, StatFile};
ghost use Rattle.inodes_on_blocks.specs.Reading.{stat_file, take};
ghost use Rattle.inodes_on_blocks.specs.Acting.{DoesItAt};

/// What a descriptor names is locked, and read from its block if it isn't loaded. It answers its state of the moment
/// at which the lock was taken.
pub fn stats_act_once()
    ensures { (sizes : Super) (fd : ℕ) → DoesItAt sizes (StatFile fd) (stat_file sizes fd) }
{}

/// An inode's lock is taken, and the inode looked at. Its record is read from its block if it isn't loaded. For a
/// name, or for an entry past the first two, a directory's blocks are read one after the other.
pub fn takes_act_once()
    ensures { (sizes : Super) (n : ℕ) (looking : Query) → DoesItAt sizes (Take n looking) (take sizes n looking) }
{}
