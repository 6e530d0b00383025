//! The calls on the blocks of a file system: each call's program over whole inodes as a program below. The laws say
//! what every list of events makes of them, and what the disk is if a mounted file system stops at any event. The
//! functions do nothing: each carries a law.
#![tactic(auto)]

ghost use Rattle.calls_on_blocks.specs.Laws.{CallsAreLawful, CodeIsOfIt};
ghost use Rattle.calls_on_blocks.specs.History.{MountsHaveOneHistory, MountsMakeMoves, OneHartHasOneHistory};
ghost use Rattle.calls_on_blocks.specs.Stops.{MarksAreTold, OneHartLeavesABeginning, SizesStay, StopsLeaveABeginning, StopsLeaveImages};
ghost use Rattle.calls_on_blocks.specs.Whole.{CutsHaveReplies, MarksPartNone};
ghost use Rattle.calls_on_blocks.specs.Heads.{LogsLeaveGoodHeads, LogsMayBegin};

/// Each call that is served is right on the blocks, whatever the other harts do and whenever the device fails. Each
/// of its operations may be made when it is made. The call leaves to the others what is theirs, and it ends with its
/// written sequence, in time and with nothing in hand.
pub fn calls_are_lawful()
    ensures { CallsAreLawful }
{}

/// What all harts share goes on as the theory says, and the code's premises are among its own.
pub fn code_is_of_it()
    ensures { CodeIsOfIt }
{}

/// The headline, of definitions: one list of tree steps explains all calls that were started, from the image's tree.
/// It is so for every list of events of any harts on a mounted disk, with a device that fails at any moment or never.
/// Each finished call's entries are its written sequence and make its reply, and each is placed between the call's
/// start and return. It is so as long as no step found no room and no path has the element "..".
pub fn mounts_have_one_history()
    ensures { MountsHaveOneHistory }
{}

/// If one hart alone makes calls, the same holds for any paths.
pub fn one_hart_has_one_history()
    ensures { OneHartHasOneHistory }
{}

/// Each event of a run on a mounted disk, whatever its paths, makes the move that it places. Code makes the same move
/// on a tree that is kept beside the run. If the event places none, tree and walks stay. It is so as long as no step
/// found no room.
pub fn mounts_make_moves()
    ensures { MountsMakeMoves }
{}

/// A mounted file system may stop in the middle of calls or of a commit, by the device's failure or not. Then its
/// disk passes all checks as recovery sees it: it can be mounted again. Its superblock is as it was, so that the disk
/// has the sizes and the version with which it was mounted.
pub fn stops_leave_images()
    ensures images { StopsLeaveImages }
    ensures sizes { SizesStay }
{}

/// Crash safety, of definitions: the tree on that disk is what has names in the tree after a beginning of the one
/// list of tree steps that explains the run. That beginning is the entries of its first events, up to the leave that
/// began the last commit whose header was on the disk. It is so as long as no step found no room and no path has the
/// element "..".
pub fn stops_leave_a_beginning()
    ensures { StopsLeaveABeginning }
{}

/// If one hart alone makes calls, the same holds for any paths.
pub fn one_hart_leaves_a_beginning()
    ensures { OneHartLeavesABeginning }
{}

/// The marks of its events are known by the phase to which each takes the log's commit: so code that sees the log
/// before and after an event keeps them.
pub fn marks_are_told()
    ensures { MarksAreTold }
{}

/// After the count of events that a mark gives, no hart is in a transaction: so none is stored in part. And once a
/// hart has replied whose leave began a commit, that leave isn't after the cut.
pub fn marks_leave_all_whole()
    ensures transactions { MarksPartNone }
    ensures replies { CutsHaveReplies }
{}

/// Whatever a log was doing when it stopped, its disk passes the checks up to the log's: so recovery passes it.
pub fn logs_leave_good_heads()
    ensures { LogsLeaveGoodHeads }
{}

/// A log may begin on a disk that recovery has passed.
pub fn logs_may_begin()
    ensures { LogsMayBegin }
{}
