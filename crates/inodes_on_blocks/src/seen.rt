//! Laws of the disk as it is seen while a log runs. By them what is said of puts on a disk is said of what a log
//! makes seen.

ghost use Rattle.inodes_on_blocks.specs.SeenLaws.{RecoveredDisksAreImages, SeenDisksAreGood, SeenDisksStay, SeenPutsArePuts};

/// The seen disk passes the checks of its superblock and its log, and recovery would leave what is seen.
pub fn seen_disks_are_good()
    ensures { SeenDisksAreGood }
{}

/// If one block changes as it is seen, that is a put of the seen disk.
pub fn seen_puts_are_puts()
    ensures { SeenPutsArePuts }
{}

/// What changes nothing that is seen outside the log leaves the seen disk: a read, a buffer given back, a step of a
/// commit.
pub fn seen_disks_stay()
    ensures { SeenDisksStay }
{}

/// A disk that recovery would leave as it is seen is a well-formed image just if the seen disk is one. Both are
/// images of the same tree then.
pub fn recovered_disks_are_images()
    ensures { RecoveredDisksAreImages }
{}
