//! Laws of puts: what a disk holds after one of its blocks is put, and how a node is changed on it put by put.

ghost use Rattle.inodes_on_blocks.specs.PutLaws.{BlocksCanBeGivenBack, BlocksCanBeTaken, BytesCanBePut, CountsCanChange, DeadNodesMayGo, DirectNumbersCanBeSet, EmptyInodesAreLaidOut, FreedInodesAreHeld, HeldNodesAreLaidOut, InodePutsLeaveOthers, NoBlockIsOwed, NumbersCanBePut, PutNodesAreHeld, PutsLeaveOthers, SlotsCanBePut, SparesCanBePut, TablesCanBeSet, UntouchedChangesAreKept, UntouchedInodesAreKept};

/// What an inode holds is in the inode itself and in the blocks that are its own.
pub fn untouched_inodes_are_kept()
    ensures { UntouchedInodesAreKept }
{}

/// A put of an inode's data block leaves what other inodes hold.
pub fn puts_leave_others()
    ensures { PutsLeaveOthers }
{}

/// A put of an inode leaves what other inodes hold, those in the same block too.
pub fn inode_puts_leave_others()
    ensures { InodePutsLeaveOthers }
{}

/// What leaves an inode as it is leaves it while it is being changed as well.
pub fn untouched_changes_are_kept()
    ensures { UntouchedChangesAreKept }
{}

/// An inode that holds a node is laid out for it, and names each of its blocks.
pub fn held_nodes_are_laid_out()
    ensures { HeldNodesAreLaidOut }
{}

/// An inode that is put as it is laid out, and names each of its blocks, holds its node.
pub fn put_nodes_are_held()
    ensures { PutNodesAreHeld }
{}

/// An inode that owns no block may be put free.
pub fn freed_inodes_are_held()
    ensures { FreedInodesAreHeld }
{}

/// A node with count 0 may go, once nothing refers to it.
pub fn dead_nodes_may_go()
    ensures { DeadNodesMayGo }
{}

/// A count that changes leaves the content.
pub fn counts_can_change()
    ensures { CountsCanChange }
{}

/// An inode without blocks, of size 0: a new one, or one that was emptied.
pub fn empty_inodes_are_laid_out()
    ensures { EmptyInodesAreLaidOut }
{}

/// Bytes that are put into a block of a file are bytes of its node. They are within its size, or from it on, and then
/// it grows.
pub fn bytes_can_be_put()
    ensures { BytesCanBePut }
{}

/// An entry that is put is the slot of the directory's node, or one more after the last.
pub fn slots_can_be_put()
    ensures { SlotsCanBePut }
{}

/// A block that was taken and isn't named yet may be put, as with zeros.
pub fn spares_can_be_put()
    ensures { SparesCanBePut }
{}

/// An inode may name one more of its blocks itself.
pub fn direct_numbers_can_be_set()
    ensures { DirectNumbersCanBeSet }
{}

/// An inode may name a block of zeros as its table.
pub fn tables_can_be_set()
    ensures { TablesCanBeSet }
{}

/// An inode may name one more of its blocks in its table.
pub fn numbers_can_be_put()
    ensures { NumbersCanBePut }
{}

/// A free block whose bit is set may become an inode's.
pub fn blocks_can_be_taken()
    ensures { BlocksCanBeTaken }
{}

/// An inode's block whose bit is cleared becomes free.
pub fn blocks_can_be_given_back()
    ensures { BlocksCanBeGivenBack }
{}

/// A number 0 names no block that an inode could owe.
pub fn no_block_is_owed()
    ensures { NoBlockIsOwed }
{}
