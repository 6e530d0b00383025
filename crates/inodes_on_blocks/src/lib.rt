//! The nodes of a running file system on the blocks that its log shows. The laws say what always holds of them, and
//! which puts and calls of the log keep it. They are a well-formed image of the tree whenever no transaction is
//! outstanding.
//!
//! Beside them are the tables that all harts share, each step of which is an operation on whole inodes. Other laws
//! join images and plain trees. The functions do nothing: each carries a law.
#![tactic(auto)]

pub mod acting;
pub mod files;
pub mod naming;
pub mod puts;
pub mod reading;
pub mod recording;
pub mod running;
pub mod seen;
pub mod spent;
pub mod storing;

ghost use Rattle.inodes_on_blocks.specs.Accounts.{TransactionsHaveRoom};
ghost use Rattle.inodes_on_blocks.specs.Counted.{ReferencesAreCounted, WaitsForOthers};
ghost use Rattle.inodes_on_blocks.specs.Laws.{ChangesMayBegin, ChangesMayEnd, JoinsKeepThem, LeavesKeepThem, MountedNodesAreOnBlocks, QuietBlocksAreImages, RecordsKeepThem, UnseenChangesKeepThem};
ghost use Rattle.inodes_on_blocks.specs.Mounted.{MountsShowTheirTrees};
ghost use Rattle.inodes_on_blocks.specs.QuietWorlds.{QuietWorldsAreImages, RestingWorldsAreImages};
ghost use Rattle.inodes_on_blocks.specs.TableLaws.{ChildrenAreReleased, DescriptorsAreDoubled, DescriptorsAreGiven, DescriptorsAreShut, DescriptorsNameFiles, DirectoriesAreGiven, DirectoriesAreSettled, DirectoriesAreStarts, FilesAreLocked, FilesAreLockedToRead, FilesAreOpened, FreshTablesShow, LocksAreGiven, LocksAreTaken, OffsetsAreMoved, PlacesAreTaken, TablesCountReferences, ReferencesAreDropped, StartsAreCounted, WalksDropReferences};
ghost use Rattle.inodes_on_blocks.specs.ImageLaws.{HeldTreesAreImages, ImagesHoldTheirTrees, TreesOfImagesAreWellFormed};

/// Whenever no transaction is outstanding, the seen blocks are a well-formed image of the tree, and so is each disk
/// that recovery would leave so.
pub fn quiet_blocks_are_images()
    ensures { QuietBlocksAreImages }
{}

/// A block that is recorded for an inode that is being changed leaves all others on the blocks.
pub fn records_keep_them()
    ensures { RecordsKeepThem }
{}

/// What changes nothing that is seen outside the log keeps them: a buffer that is got, read or given back, a step of
/// a commit.
pub fn unseen_changes_keep_them()
    ensures { UnseenChangesKeepThem }
{}

/// A hart that joins, or records one more block, changes nothing of it.
pub fn joins_keep_them()
    ensures { JoinsKeepThem }
{}

/// A hart that is changing no inode may leave its transaction.
pub fn leaves_keep_them()
    ensures { LeavesKeepThem }
{}

/// A hart in a transaction may begin to change an inode.
pub fn changes_may_begin()
    ensures { ChangesMayBegin }
{}

/// A change ends when the inode holds a node, which is then its node.
pub fn changes_may_end()
    ensures { ChangesMayEnd }
{}

/// The nodes of a well-formed image are on the blocks of a log over it that is fresh.
pub fn mounted_nodes_are_on_blocks()
    ensures { MountedNodesAreOnBlocks }
{}

/// A mount of it shows its tree, in which every hart rests: there the worlds begin.
pub fn mounts_show_their_trees()
    ensures { MountsShowTheirTrees }
{}

/// Whenever nobody is in a transaction the seen blocks are an image of the tree above. So is each disk that recovery
/// would leave so.
pub fn quiet_worlds_are_images()
    ensures { QuietWorldsAreImages }
{}

/// So whenever every hart rests.
pub fn resting_worlds_are_images()
    ensures { RestingWorldsAreImages }
{}

/// What a call's program may spend is room for its recorded puts. While the transaction has added no more to the
/// group, each block that it says may be recorded, and then it has added no more still.
pub fn transactions_have_room()
    ensures { TransactionsHaveRoom }
{}

/// Whenever the machine below shows a world that holds, each reference of an open file or a current directory is
/// counted.
pub fn references_are_counted()
    ensures { ReferencesAreCounted }
{}

/// And there an operation that may be made waits only for what another hart has in its hand, or for the log.
pub fn waits_for_others()
    ensures { WaitsForOthers }
{}

/// The lock of a referenced inode is tried: it waits if the operation does, and else answers what is loaded.
pub fn locks_are_taken()
    ensures { LocksAreTaken }
{}

/// A lock is given back, with the inode as its holder has it.
pub fn locks_are_given()
    ensures { LocksAreGiven }
{}

/// A reference more is counted just if the operation finds a place in memory, and the answer says so.
pub fn tables_count_references()
    ensures { TablesCountReferences }
{}

/// The same of a path's start.
pub fn starts_are_counted()
    ensures { StartsAreCounted }
{}

/// A hart's relative paths start at its current directory.
pub fn directories_are_starts()
    ensures { DirectoriesAreStarts }
{}

/// Within a walk the last reference to an inode without links is kept, and any other is counted down.
pub fn walks_drop_references()
    ensures { WalksDropReferences }
{}

/// Elsewhere the lock is taken in place of the last one, and what is loaded is answered.
pub fn references_are_dropped()
    ensures { ReferencesAreDropped }
{}

/// The first place is taken in which no file is open and that no hart has in hand, or there is none.
pub fn places_are_taken()
    ensures { PlacesAreTaken }
{}

/// A file is opened by the lowest free descriptor, or the place is given back.
pub fn files_are_opened()
    ensures { FilesAreOpened }
{}

/// A descriptor is doubled onto the lowest free one.
pub fn descriptors_are_doubled()
    ensures { DescriptorsAreDoubled }
{}

/// A descriptor is shut. Its open file goes with the last one that names it, of any hart, or is on its way to one.
pub fn descriptors_are_shut()
    ensures { DescriptorsAreShut }
{}

/// A lock is given back, and the inode is the hart's directory; the old one is answered.
pub fn directories_are_settled()
    ensures { DirectoriesAreSettled }
{}

/// A descriptor names the file that the operations see by it, and is refused for what they refuse.
pub fn descriptors_name_files()
    ensures { DescriptorsNameFiles }
{}

/// The lock of the inode that a descriptor names is tried.
pub fn files_are_locked()
    ensures { FilesAreLocked }
{}

/// So it is to read of it, if that isn't refused.
pub fn files_are_locked_to_read()
    ensures { FilesAreLockedToRead }
{}

/// A lock is given back, and the offset of what a descriptor names moves in the same step.
pub fn offsets_are_moved()
    ensures { OffsetsAreMoved }
{}

/// A hart's next descriptor is the child's too, or, if it has none, its directory; the child's old one is answered.
pub fn descriptors_are_given()
    ensures { DescriptorsAreGiven }
{}

/// Past the last descriptor the directory is.
pub fn directories_are_given()
    ensures { DirectoriesAreGiven }
{}

/// When a child is released the tables show the world as before.
pub fn children_are_released()
    ensures { ChildrenAreReleased }
{}

/// At first, with all harts in the root and nothing open, the tables show a world at rest.
pub fn fresh_tables_show()
    ensures { FreshTablesShow }
{}

/// The tree of an image that passes the twelve checks is well formed: one tree of directories under the root. In it
/// each count is the number of names, nothing is open, and all harts are in the root.
pub fn trees_of_images_are_well_formed()
    ensures { TreesOfImagesAreWellFormed }
{}

/// A disk that holds the nodes of a running tree passes the twelve checks. Its tree has just the live ones: the named
/// part of the running tree.
pub fn held_trees_are_images()
    ensures { HeldTreesAreImages }
{}

/// An image that passes the twelve checks holds the nodes of its tree, so a running file system can begin with it.
pub fn images_hold_their_trees()
    ensures { ImagesHoldTheirTrees }
{}
