//! Every run of the calls on blocks is a run of the machine of whole inodes, and has one list of tree steps. If the
//! device doesn't fail, the image and the events fix its outcomes and that list. It finds no room only if there is
//! none, and then takes back what the call had changed. It records at most ten blocks in a transaction, takes few
//! steps a call, and leaves nothing of a call in an idle hart. The functions do nothing: each carries a law.
#![tactic(auto)]

ghost use Rattle.run_laws.specs.ActsAt.{OperationsActFirstOrLast};
ghost use Rattle.run_laws.specs.Agreeing.{RunsOnOneImageAgree};
ghost use Rattle.run_laws.specs.Answered.{CallsFindNoneWhereThereIsNone};
ghost use Rattle.run_laws.specs.Changes.{ChangesAreTold, ShortWritesAreShort, WritesAreMade};
ghost use Rattle.run_laws.specs.Faithful.{CallsGoOnAsTheyActed};
ghost use Rattle.run_laws.specs.Idle.{IdleHartsHaveBegunNothing};
ghost use Rattle.run_laws.specs.Laws.{RunsRefineWholeInodes};
ghost use Rattle.run_laws.specs.OneList.{RunsHaveOneList};
ghost use Rattle.run_laws.specs.Rooms.{RoomIsToldByAnswers};
ghost use Rattle.run_laws.specs.Searches.{ClaimsFindReferences, SearchesSeeAll};
ghost use Rattle.run_laws.specs.Seen.{CallsLookEverywhere};
ghost use Rattle.run_laws.specs.ShortWrites.{ShortWritesEndBeforeMissing};
ghost use Rattle.run_laws.specs.Standing.{CallsWithoutRoomTakeBack};
ghost use Rattle.run_laws.specs.Transactions.{TransactionsRecordAtMostTen};
ghost use Rattle.run_laws.specs.Unlinked.{FreesPutNoType, NothingIsLost};
ghost use Rattle.run_laws.specs.UnderWay.{MovesAreMadeAsOperationsAct, StepsPlaceInTime};
ghost use Rattle.run_laws.specs.Wants.{NoRoomOnlyWhereThereIsNone};
ghost use Rattle.run_laws.specs.Worlds.{WorldsRefineWholeInodes};
ghost use Rattle.run_laws.specs.StepBounds.{CallsTakeFewSteps, RunsTakeFewSteps};

use block_device::Device;
use hart_core::World;

/// Whole operations on inodes, one after the other, lead from the image's tree to what the blocks show. It is so of
/// every list of events of any harts on a mounted disk, with a device that fails at any moment or never. Each
/// finished call's own are a run of its program, with the reply that was given, and are made between the call's start
/// and its return. If that reply is that there is no room, one of them wanted it. It is so also if paths climb, and
/// after a step found no room.
pub fn runs_refine_whole_inodes()
    ensures { RunsRefineWholeInodes }
{}

/// So in each run of a world as it was mounted, by the events and the outcomes that `run` answers. Each of its
/// histories is such a run, and each call of its trace, with its reply, is a run of the call's program over whole
/// inodes.
pub fn worlds_refine_whole_inodes<D: Device>(world: &World<D>)
    ensures { WorldsRefineWholeInodes D.contents D.failures world.now }
{
    let _ = world;
}

/// In such a run each operation on whole inodes is made once within its own program on the blocks, at a step that is
/// marked for it to act. Its answer is the one that the program ends with, by which the call goes on. A finished call
/// has made all of its operations so, and ends with its reply. It is so of a call under way, as far as it has come.
/// Only of an operation whose program hasn't ended yet is no answer compared.
pub fn calls_go_on_as_they_acted<D: Device>(world: &World<D>)
    ensures { CallsGoOnAsTheyActed D.contents D.failures world.now }
{
    let _ = world;
}

/// Whatever the steps of its program on the blocks are answered, just one of them is marked for an operation on whole
/// inodes to act. It is the first one if an inode's lock is taken or a transaction left; else the last one. A claim
/// alone may act before its last step, by which the inodes' block goes back.
pub fn operations_act_first_or_last()
    ensures { OperationsActFirstOrLast }
{}

/// In such a run each hart's call is in one operation on whole inodes at a time, of which some steps on the blocks
/// have run. A step that runs goes on with that operation's own program, or ends it and begins the call's next one,
/// or gives the reply. An operation acts in its program's first step or in its last one, as said. There the machine
/// of whole inodes gives the answer with which its program ends, then or later. There too its mark, at that answer,
/// makes the move that the event places. An event in which no operation acts places none.
pub fn moves_are_made_as_operations_act<D: Device>(world: &World<D>)
    ensures made { MovesAreMadeAsOperationsAct D.contents D.failures world.now }
    ensures in_time { StepsPlaceInTime }
{
    let _ = world;
}

/// In such a run each step found room exactly if no operation on whole inodes was answered that there is none, nor
/// the step on the tree which acts there.
pub fn room_is_told_by_answers<D: Device>(world: &World<D>)
    ensures { RoomIsToldByAnswers D.contents D.failures world.now }
{
    let _ = world;
}

/// In such a run an operation on whole inodes finds no room only if there is none, in the world to which the
/// operations before it lead:
/// - no place in memory: fifty inodes or more are referred to;
/// - no place for an open file: all hundred are taken;
/// - no descriptor: the hart's sixteen have open files;
/// - no slot: the directory has the most of its image's version (17,152 or 8,576), and each is used.
pub fn no_room_only_where_there_is_none<D: Device>(world: &World<D>)
    ensures { NoRoomOnlyWhereThereIsNone D.contents D.failures world.now }
{
    let _ = world;
}

/// So a call may be answered that there is no place in memory, no open file, no descriptor or no slot of a directory.
/// Then one of its operations wanted that, in a world that has none.
pub fn calls_find_none_where_there_is_none<D: Device>(world: &World<D>)
    ensures { CallsFindNoneWhereThereIsNone D.contents D.failures world.now }
{
    let _ = world;
}

/// And what its own operations have changed then is as the kind of room says. Either it is nothing, or what was
/// changed was taken back: the raise of a link's count, an inode that was claimed, or a place of an open file. Two
/// things stay. The first is the file that CREATE made when there is no open file or no descriptor; then no file was
/// emptied. The second is, of a write, the bytes before the missing block, with the offset just after them. Only the
/// calls listed there are answered so.
///
/// All changes are reported. An operation that reports none leaves each inode on the disk, but one without a name
/// that it frees, and open files, and what harts have of them. The bytes that a write reports are in the file, just
/// before its offset. If a block was missing, they are fewer than those of the piece.
pub fn calls_without_room_take_back<D: Device>(world: &World<D>)
    ensures take_back { CallsWithoutRoomTakeBack D.contents D.failures world.now }
    ensures told { ChangesAreTold }
    ensures written { WritesAreMade }
    ensures short { ShortWritesAreShort }
{
    let _ = world;
}

/// Whatever the steps on the blocks are answered, an operation on whole inodes that is made of them has looked
/// everywhere. If it ends for want of a block, it has read the bitmap, and no bit below the size was clear there. If
/// it ends for want of an inode, it has read the block of each inode of the disk. Each had a type there, or was among
/// those of which none could be claimed. The answer that none could be claimed is given only if there is a reference
/// to each of those.
pub fn searches_see_all()
    ensures sees_all { SearchesSeeAll }
    ensures finds_references { ClaimsFindReferences }
{}

/// Whatever the steps of its program on the blocks are answered, a short write ends before a missing block. It is
/// answered that there was no block for all of its bytes, and has written just those before one block of the content.
/// The inode lacked that block, as its record and its indirect block had it, and no bit of the bitmap was clear for
/// it.
pub fn short_writes_end_before_missing()
    ensures { ShortWritesEndBeforeMissing }
{}

/// So it is in each run of a mounted world. If a call is answered that there is no block, one of its steps had the
/// bitmap with no clear bit below the size. That step was between the call's start and its return. If it is answered
/// that there is no inode, its steps had the block of each inode of the disk. Each inode had a type there, or there
/// was a reference to it when the block's free ones were to be claimed.
pub fn calls_look_everywhere<D: Device>(world: &World<D>)
    ensures { CallsLookEverywhere D.contents D.failures world.now }
{
    let _ = world;
}

/// In each run of a mounted world a hart's transaction records at most ten different blocks, from its join to its
/// leave or to the end of the run. Those count as well that the group had already, of which the log keeps no account.
/// The log has the hart in a transaction exactly if its steps have joined one and not left it, and no step records a
/// block but in one.
pub fn transactions_record_at_most_ten_blocks<D: Device>(world: &World<D>)
    ensures { TransactionsRecordAtMostTen D.contents D.failures world.now }
{
    let _ = world;
}

/// A run has one list of tree steps, which is a function of its events with the device's answers, and only grows.
/// After each event, if the world is stopped there, the list so far is a beginning of that of the whole run. It
/// explains the calls and the replies so far. The disk's tree is what has names in the tree after a beginning of that
/// same list. That beginning is the entries of the events up to the cut, or up to the doubt. It is so as long as no
/// step found no room, and no path climbs or one hart alone makes calls.
pub fn runs_have_one_list<D: Device>(world: &World<D>)
    ensures { RunsHaveOneList D.contents D.failures world.now }
{
    let _ = world;
}

/// The image and the events fix a run, as long as the device doesn't fail. Two worlds may be mounted on devices with
/// the same blocks, and run the same events. Then each event has the same outcome in both, and both runs have one
/// list of tree steps. Only what the log's own blocks hold may differ.
pub fn runs_on_one_image_agree<D: Device>(world: &World<D>, other: &World<D>)
    ensures { RunsOnOneImageAgree D.contents D.failures world.now other.now }
{
    let _ = world;
    let _ = other;
}

/// After any events of a run of a mounted world, a hart without a call has raised no link count for a name to come.
/// It refers to no inode but its current directory, beside its open files. If no hart has a call, open files and
/// current directories account for all references to each inode. No place is left taken for a file, and the blocks
/// are a well-formed image.
pub fn idle_harts_have_begun_nothing<D: Device>(world: &World<D>)
    ensures { IdleHartsHaveBegunNothing D.contents D.failures world.now }
{
    let _ = world;
}

/// And if no hart has a call, each inode on the disk whose count is 0 is that of an open file or of a current
/// directory. So what has lost its last name is freed once nobody uses it. Whatever its program's steps are answered,
/// the last step of a freeing puts the inode's block as it was read, with a record of the inode that has no type.
pub fn nothing_is_lost<D: Device>(world: &World<D>)
    ensures lost { NothingIsLost D.contents D.failures world.now }
    ensures freed { FreesPutNoType }
{
    let _ = world;
}

/// No call takes more steps that ran than its own limit, and no call's limit is above 1,000,000. It is so of every
/// list of events of any harts on a mounted disk, with a device that fails at any moment or never. A step that waits
/// doesn't count; that a call goes on is not said.
pub fn calls_take_few_steps()
    ensures { CallsTakeFewSteps }
{}

/// So in each run of a world as it was mounted, by the events and the outcomes that `run` answers.
pub fn runs_take_few_steps<D: Device>(world: &World<D>)
    ensures { RunsTakeFewSteps D.contents D.failures world.now }
{
    let _ = world;
}
