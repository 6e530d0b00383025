//! Operations on whole inodes as programs below: each acts at one moment, whatever the other harts do.

ghost use Rattle.std.specs.Prelude.{ℕ, Bool};
ghost use Rattle.inodes_on_blocks.specs.Vocabulary.{OpenFile, InodeType, UnlockInode, UpStart, Up, WalkDown, Down, Forget, Slot, Install, CheckFile, JoinFile, Double, Shut, SetDirectory, Lend, LendDirectory, Release, Join, Leave, Say};
ghost use Rattle.inodes_on_blocks.specs.Handlers.{give, settle, up_start, up, walk_down, down, forget, slot, install, double, close, check_file, lend, lend_directory, release, join, join_file, leave, say};
ghost use Rattle.inodes_on_blocks.specs.Acting.{DoesIt};

/// A lock given back is one step, with the record that the hart has of the inode.
pub fn gives_act_once()
    ensures { (n : ℕ) → DoesIt (UnlockInode n) (give n) }
{}

/// And so if the inode becomes the hart's directory.
pub fn settles_act_once()
    ensures { (n : ℕ) → DoesIt (SetDirectory n) (settle n) }
{}

/// A reference more to a path's start is one step.
pub fn starts_act_once()
    ensures { (absolute : Bool) → DoesIt (UpStart absolute) (up_start absolute) }
{}

/// A reference more to what was found is one step.
pub fn ups_act_once()
    ensures { (n : ℕ) → DoesIt (Up n) (up n) }
{}

/// A reference less within a walk is one step, which keeps the last one to an inode without links.
pub fn walk_downs_act_once()
    ensures { (n : ℕ) → DoesIt (WalkDown n) (walk_down n) }
{}

/// A reference less elsewhere is one step, which takes the lock in place of the last one.
pub fn downs_act_once()
    ensures { (n : ℕ) → DoesIt (Down n) (down n) }
{}

/// The reference that is left to an inode that the hart has freed goes in one step.
pub fn forgets_act_once()
    ensures { (n : ℕ) → DoesIt (Forget n) (forget n) }
{}

/// A place taken for an open file is one step.
pub fn slots_act_once()
    ensures { DoesIt Slot slot }
{}

/// A file opened by the lowest free descriptor is one step.
pub fn installs_act_once()
    ensures { (f : OpenFile) (inode_type : InodeType) → DoesIt (Install f inode_type) (install f inode_type) }
{}

/// A descriptor doubled is one step.
pub fn doubles_act_once()
    ensures { (fd : ℕ) → DoesIt (Double fd) (double fd) }
{}

/// A descriptor shut is one step.
pub fn closes_act_once()
    ensures { (fd : ℕ) → DoesIt (Shut fd) (close fd) }
{}

/// Whether a descriptor may be written is one step.
pub fn checks_act_once()
    ensures { (fd : ℕ) → DoesIt (CheckFile fd) (check_file fd) }
{}

/// A reply is one step.
pub fn replies_act_once()
    ensures { DoesIt Say say }
{}

/// A transaction joined is one step, which waits if the log has no room.
pub fn joins_act_once()
    ensures { DoesIt Join join }
{}

/// A transaction is left in one step; the writes of the commit that it begins are further steps, of which nothing is
/// seen.
pub fn leaves_act_once()
    ensures { DoesIt Leave leave }
{}

/// A transaction joined for the inode that a descriptor names is one step, which refuses what may not be written.
pub fn file_joins_act_once()
    ensures { (fd : ℕ) → DoesIt (JoinFile fd) (join_file fd) }
{}

/// The next descriptor handed on to a child is one step, or the directory if there is no descriptor.
pub fn lends_act_once()
    ensures { (child from : ℕ) → DoesIt (Lend child from) (lend child from) }
{}

/// The directory handed on after the descriptors is one step.
pub fn directory_lends_act_once()
    ensures { (child : ℕ) → DoesIt (LendDirectory child) (lend_directory child) }
{}

/// A child let go is one step, which changes nothing below.
pub fn releases_act_once()
    ensures { (child : ℕ) → DoesIt (Release child) (release child) }
{}
