//! Laws of the plain tree: when a tree is well formed, and that each tree step keeps it so. Laws of what a step
//! leaves of directories and of the paths that other harts follow.
//!
//! Laws of the moves of calls on a tree too (walks, lookups, acts), as a single hart sees them. One list of tree
//! steps explains each run of them. A walk that another hart's step kills fails at that very step; its call learns it
//! when it gives the walk up. The functions do nothing: each carries a law.
#![tactic(auto)]

ghost use Rattle.image_versions.specs.declared.version.Version.{Version};
ghost use Rattle.tree_laws.specs.Actions.{ActionsAreTold};
ghost use Rattle.tree_laws.specs.Laws.{StepsKeepWellFormed, EffectsKeepWellFormed, StepsLeaveFinding, StepsLeavePaths, PathsLeadToWhatIsFound, DeadNodesMayLeave, NewNumbersAreNobodys, FreshTreesAreWellFormed, LiveNodesAreReached};
ghost use Rattle.tree_laws.specs.Examples.{OpenFinishes, ReadFinishes, WriteFinishes, LinkFinishes, UnlinkFinishes, MkdirFinishes, ChdirFinishes, DupFinishes, FstatFinishes, CloseFinishes, InheritFinishes, WalkerFails, WalkerStaysFailed, WalkerFailsAtAFile};
ghost use Rattle.tree_laws.specs.MoveLaws.{RunsAreExplained, ListsLeadToTheTree, ListsGrow, OneHartIsExplained, CallsAreToldLate, WrittenMovesComeNext, WrittenMovesEnd, MovesTellInTurn, EventsTellTheirHart, RunsGoOn};

/// Each of the fifteen tree steps, refused or not, keeps a tree well formed. It does so for any node that is there
/// and any live directory that were found for its path.
pub fn steps_keep_well_formed()
    ensures { (version : Version) → StepsKeepWellFormed version }
{}

/// The same of a step that isn't refused, with the nodes that nothing keeps still in the tree.
pub fn effects_keep_well_formed()
    ensures { (version : Version) → EffectsKeepWellFormed version }
{}

/// A step that enters or clears a name changes what directories find at that name alone, and any other step changes
/// none of it. A directory that goes had no entries, and only a new number becomes a live directory.
pub fn steps_leave_finding()
    ensures { (version : Version) → StepsLeaveFinding version }
{}

/// A path without ".." that led somewhere still leads there, or led to what the step removed and leads nowhere.
pub fn steps_leave_paths()
    ensures { (version : Version) → StepsLeavePaths version }
{}

/// What a path leads to is a node that is there, and its parent a live directory.
pub fn paths_lead_to_what_is_found()
    ensures { (version : Version) → PathsLeadToWhatIsFound version }
{}

/// A dead node that no current directory, hold or open file names may leave a well-formed tree.
pub fn dead_nodes_may_leave()
    ensures { DeadNodesMayLeave }
{}

/// A number without a node is under no name, and no current directory, hold or open file has it.
pub fn new_numbers_are_nobodys()
    ensures { NewNumbersAreNobodys }
{}

/// The tree that a fresh image holds is well formed.
pub fn fresh_trees_are_well_formed()
    ensures { (version : Version) → FreshTreesAreWellFormed version }
{}

/// Going down from the root reaches each live node, except one that a link has raised and not yet named.
pub fn live_nodes_are_reached()
    ensures { LiveNodesAreReached }
{}

/// What each of the fifteen actions makes of a tree before it settles, and what it answers, if it isn't refused.
pub fn actions_are_told()
    ensures { (version : Version) → ActionsAreTold version }
{}

/// The list that a run keeps, by appending alone, explains the run's trace. Calls of many harts that walk, look up,
/// enter and remove step by step act as one list of tree steps. No path has the element "..".
pub fn explained()
    ensures { (version : Version) → RunsAreExplained version }
{}

/// At each moment the list so far leads from the first tree to the tree at that moment, which is well formed.
pub fn lists_lead_to_the_tree()
    ensures { (version : Version) → ListsLeadToTheTree version }
{}

/// The entries of the events up to a moment are the list as it was at that moment.
pub fn lists_grow()
    ensures { (version : Version) → ListsGrow version }
{}

/// If one hart alone makes calls, the same holds for any paths, and the list is the sequences of its calls one after
/// the other.
pub fn one_hart_is_explained()
    ensures { (version : Version) → OneHartIsExplained version }
{}

/// What the list has of a call under way is what the call was handed. If its walk is lost, the list also has the
/// failing step, which the call is handed when it gives the walk up.
pub fn calls_are_told_late()
    ensures { (version : Version) → CallsAreToldLate version }
{}

/// If all moves of a call are written, each of them begins the next step of the call's written sequence. After the
/// last the call may reply.
pub fn written_moves_come_next()
    ensures next { WrittenMovesComeNext }
    ensures last { WrittenMovesEnd }
    ensures told { MovesTellInTurn }
{}

/// An event of a hart hands a deed to that hart's call alone, and ends no other call.
pub fn events_tell_their_hart()
    ensures { EventsTellTheirHart }
{}

/// A run and a run from its end are one run.
pub fn runs_go_on()
    ensures { (version : Version) → RunsGoOn version }
{}

/// There are runs: for each of the eleven calls one in which the call finishes.
pub fn each_call_finishes()
    ensures open { OpenFinishes }
    ensures read { ReadFinishes }
    ensures write { WriteFinishes }
    ensures link { LinkFinishes }
    ensures unlink { UnlinkFinishes }
    ensures mkdir { MkdirFinishes }
    ensures chdir { ChdirFinishes }
    ensures dup { DupFinishes }
    ensures fstat { FstatFinishes }
    ensures close { CloseFinishes }
    ensures inherit { InheritFinishes }
{}

/// A hart walks to a directory that another hart removes under it. Its open fails at that very unlink, even if the
/// names are made again before it looks. An open through a file fails when its walk reaches the file.
pub fn walkers_fail_with_their_directory()
    ensures removed { WalkerFails }
    ensures made_again { WalkerStaysFailed }
    ensures at_a_file { WalkerFailsAtAFile }
{}
