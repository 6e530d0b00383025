//! Laws of the blocks of a running file system: each inode holds its node but for those that a hart is changing in
//! its transaction.

ghost use Rattle.inodes_on_blocks.specs.RunningLaws.{ChangedNodesMayBeAny, ChangesMayBegin, ChangesMayEnd, ImagesCanRun, OthersMayJoinOrLeave, PutsKeepRunning, QuietBlocksAreImages};

/// With nobody in a transaction the blocks are a well-formed image of the tree.
pub fn quiet_blocks_are_images()
    ensures { QuietBlocksAreImages }
{}

/// A well-formed image may run.
pub fn images_can_run()
    ensures { ImagesCanRun }
{}

/// A hart in a transaction may begin to change an inode.
pub fn changes_may_begin()
    ensures { ChangesMayBegin }
{}

/// While an inode is being changed its node may be any, because the blocks needn't hold it.
pub fn changed_nodes_may_be_any()
    ensures { ChangedNodesMayBeAny }
{}

/// A change ends when the inode holds its node again.
pub fn changes_may_end()
    ensures { ChangesMayEnd }
{}

/// A put for an inode that is being changed keeps what holds of all others.
pub fn puts_keep_running()
    ensures { PutsKeepRunning }
{}

/// A hart may join a transaction, and one that changes nothing may leave its own.
pub fn others_may_join_or_leave()
    ensures { OthersMayJoinOrLeave }
{}
