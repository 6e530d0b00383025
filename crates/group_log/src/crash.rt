//! A stop at any event.
ghost use Rattle.group_log.specs.CrashLaw.{StopsAtACut};
ghost use Rattle.group_log.specs.Moves.{LogsAreLoggedRuns, LogsStopAtACut, MovesCompose};
ghost use Rattle.group_log.specs.Stories.{CutsHaveReplies, MarksTellStops, NoneIsMarkedInPart};
ghost use Rattle.group_log.specs.Whole.{CallsKeepWhole};

use block_device::Device;

/// Take any events of any machine whose events obey the clauses of the log's calls. After them, recovery makes the
/// disk as it was seen at the leave that began the last commit whose head was written. So a committed group is there
/// whole, and nothing of a later one is.
pub fn stops_at_a_cut()
    ensures { StopsAtACut }
{}

/// The same of the states of a log over any device from `Log::new` on. If each call led from one to the next, they
/// are such a run.
pub fn logs_stop_at_a_cut<D: Device>()
    ensures runs { LogsAreLoggedRuns D.contents }
    ensures stops { LogsStopAtACut D.contents }
{}

/// An event of a machine over a log may make several calls of it.
pub fn moves_compose<D: Device>()
    ensures { MovesCompose D.contents }
{}

/// Take any events of a machine over a log that keeps marks. After them, recovery makes what was seen after the first
/// k events, and k is one of the marks. What a hart committed is below the cut when the hart replies. No transaction
/// is there in part.
pub fn marks_tell_stops<D: Device>()
    ensures stops { MarksTellStops D.contents }
    ensures replies { CutsHaveReplies D.contents }
    ensures whole { NoneIsMarkedInPart D.contents }
{}

/// Each call of the log, if it may be made, keeps what always holds of the log and of its cache, even if the device
/// fails.
pub fn calls_keep_whole()
    ensures { CallsKeepWhole }
{}
