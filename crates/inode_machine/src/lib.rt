//! The machine of whole inodes, and the eleven calls as programs over it. Each operation is one step of a hart, and
//! each call is right whatever the other harts do. The history of a run is kept beside it. The functions do nothing:
//! each carries a law.
#![tactic(auto)]

ghost use Rattle.image_versions.specs.declared.version.Version.{Version};
ghost use Rattle.inode_machine.specs.Examples.{ChdirFinishes, CloseFinishes, CreateFinishes, DupFinishes, InheritFinishes, InheritFrees, InheritMoves, LinkBelowNothing, LinkFinishes, LinkOfDirectory, LinkOfMany, LinkOfNothing, LinkToNoName, LinkToTaken, LongNamesAreTold, MkdirFinishes, NoBlockForDirectory, NoBlockForFile, NoBlockForName, NoBlockForPart, NoSlotForDirectory, NoSlotForFile, NoSlotForName, NoBlockLeft, NoDescriptorToDouble, NoDescriptorToOpen, NoInodeForFile, NoInodeLeft, OpenFinishes, ReadFinishes, StartsRefused, StatFinishes, UnlinkFinishes, WalkerFails, WriteFinishes};
ghost use Rattle.inode_machine.specs.Histories.{CallsHaveOneHistory, OneHartHasOneHistory};
ghost use Rattle.inode_machine.specs.Shortages.{NoOpenFileForNew, NoOpenFileLeft, NoPlaceLeft};
ghost use Rattle.inode_machine.specs.Stories.{ClimbsAcross, LinksWhileUnlinked, OffsetIsShared, RaiseIsSeen, StaysInTheRemoved, WalkFails, WalkFailsStill};
ghost use Rattle.inode_machine.specs.Theory.{CallsAreExplained, WorldsRest, WorldsStayInOrder, WorldsWithAFileRest};
ghost use Rattle.inode_machine.specs.Kept.{RunsHaveTheHistory};
ghost use Rattle.inode_machine.specs.Making.{RunsMakeMoves};
ghost use Rattle.inode_machine.specs.Histories.{covered};

/// For every list of events of any harts, the replies of all eleven calls are those of one list of moves on the tree.
/// The calls may have any flags, and pieces and paths of any length. Each move is made between its call's start and
/// return, as long as no step found no room. A move of a call on descriptors, or of an inherit, is a tree step. Those
/// of a path are its walk's beginning, its lookups and the step that acts at the last one, as in the crate tree_laws.
/// At every moment each hart's next operation may be made. An operation waits only for a lock that another hart has,
/// and no call takes more steps than its bound. A hart without a call has no lock, no transaction, and the references
/// of its descriptors and current directory alone. A hart that gets another's descriptors starts nothing until it has
/// them all and the directory.
pub fn calls_are_explained()
    ensures { (version : Version) → CallsAreExplained version }
{}

/// For every list of events of any harts one list of tree steps explains all calls that were started. Each finished
/// call's entries are its written sequence and make its reply. Each entry is placed between its call's start and
/// return. The list leads from the tree at the beginning to the tree as the world has it at the end. This holds as
/// long as no step found no room and no path has the element "..".
pub fn calls_have_one_history()
    ensures { (version : Version) → CallsHaveOneHistory version }
{}

/// If one hart alone makes calls the same holds for any paths.
pub fn one_hart_has_one_history()
    ensures { (version : Version) → OneHartHasOneHistory version }
{}

/// Also once a step found no room, and if paths climb, the tree before it settles stays well formed. What no hart
/// keeps is on disk as that tree has it, and so is what a hart in no transaction keeps.
pub fn worlds_stay_in_order()
    ensures { (version : Version) → WorldsStayInOrder version }
{}

/// There are such beginnings: a well-formed tree without open files, orphans included, with every hart at rest.
pub fn worlds_rest()
    ensures { WorldsRest }
{}

/// And such with an open file: hart 0 has it by its first descriptor, at any offset, of any node.
pub fn worlds_with_a_file_rest()
    ensures { WorldsWithAFileRest }
{}

/// There are runs, computed from a fresh tree, in which calls finish. In one, a hart's directory is removed under it
/// and it frees that itself; in some no room is found; and some starts are refused. If all hundred open files are
/// taken, or all fifty places for inodes in memory are, calls change nothing. Names that agree in fourteen bytes
/// differ in version 2.
pub fn calls_finish()
    ensures open { OpenFinishes }
    ensures stat { StatFinishes }
    ensures read { ReadFinishes }
    ensures dup { DupFinishes }
    ensures close { CloseFinishes }
    ensures mkdir { MkdirFinishes }
    ensures chdir { ChdirFinishes }
    ensures unlink { UnlinkFinishes }
    ensures create { CreateFinishes }
    ensures write { WriteFinishes }
    ensures inherit { InheritFinishes }
    ensures moves { InheritMoves }
    ensures frees { InheritFrees }
    ensures refused { StartsRefused }
    ensures removed { WalkerFails }
    ensures inodes { NoInodeLeft }
    ensures blocks { NoBlockLeft }
    ensures link { LinkFinishes }
    ensures taken { LinkToTaken }
    ensures below { LinkBelowNothing }
    ensures nameless { LinkToNoName }
    ensures unfound { LinkOfNothing }
    ensures directory { LinkOfDirectory }
    ensures name { NoBlockForName }
    ensures file_inode { NoInodeForFile }
    ensures file_block { NoBlockForFile }
    ensures directory_block { NoBlockForDirectory }
    ensures full_directory { NoSlotForDirectory }
    ensures full_for_file { NoSlotForFile }
    ensures full_for_name { NoSlotForName }
    ensures part_block { NoBlockForPart }
    ensures doubled { NoDescriptorToDouble }
    ensures opened { NoDescriptorToOpen }
    ensures many { LinkOfMany }
    ensures files { NoOpenFileLeft }
    ensures made { NoOpenFileForNew }
    ensures places { NoPlaceLeft }
    ensures long_names { LongNamesAreTold }
{}

/// And runs in which two harts meet, event by event. A walk to a directory that is removed under it, also if both
/// names are made anew; a hart that stays in its removed directory. A link whose old name is unlinked meanwhile; a
/// raise that is seen before it is taken back; an offset that a child shares. And a path that climbs, which resolves
/// to a file that it names at no moment.
pub fn harts_meet()
    ensures on_the_way { WalkFails }
    ensures made_anew { WalkFailsStill }
    ensures removed { StaysInTheRemoved }
    ensures linked { LinksWhileUnlinked }
    ensures raised { RaiseIsSeen }
    ensures shared { OffsetIsShared }
    ensures climbed { ClimbsAcross }
{}

/// The list that is kept beside a run of the eleven calls over whole inodes explains it, and leads to its tree.
pub fn runs_have_the_history()
    ensures { (version : Version) → RunsHaveTheHistory version (covered version) }
{}

/// Each event of a run, whatever its paths, makes the move that it places as code makes it (`MayMake`, `stage_by`,
/// `told_by_move`). If it places none the tree and all walks stay. This holds as long as no step found no room.
pub fn runs_make_moves()
    ensures { (version : Version) → RunsMakeMoves version (covered version) }
{}
