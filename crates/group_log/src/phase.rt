//! How far a commit is.
ghost use Rattle.std.specs.Prelude.{◌≡◌, ◌≤◌, length};
ghost use Rattle.group_log.specs.Phases.{IsUnderWay, next_phase, group_in};

use crate::limits::MOST_LOGGED;
use arrayvec::ArrayVec;

/// How far a commit is. While one is under way nobody joins.
#[derive(Debug, Clone, Copy, PartialEq, Eq)]
pub enum Phase {
    /// None is under way: transactions join, record and leave.
    Open,
    /// The number of the group's blocks that were copied into the log. After the last comes the head.
    Staging(u32),
    /// The head names the group, and this number of its blocks was copied home. After the last comes the empty head.
    Installing(u32),
    /// A write failed.
    Halted,
}

/// The phase after a write, in the commit of a group of n blocks.
pub(crate) fn after(phase: Phase, n: usize) -> Phase
    requires runs { IsUnderWay n phase }
    requires few { n ≤ MOST_LOGGED }
    ensures { result ≡ next_phase n phase }
{
    match phase {
        Phase::Staging(i) => if i as usize == n {
            Phase::Installing(0)
        } else {
            Phase::Staging(i + 1)
        },
        Phase::Installing(i) => if i as usize == n {
            Phase::Open
        } else {
            Phase::Installing(i + 1)
        },
        Phase::Open => Phase::Open,
        Phase::Halted => Phase::Halted,
    }
}

/// A group ends with its commit.
pub(crate) fn clear_when_open(group: &mut ArrayVec<u32, MOST_LOGGED>, phase: Phase)
    ensures { group.new.items ≡ group_in phase group.old.items }
{
    match phase {
        Phase::Open => group.clear(),
        Phase::Staging(_) => {}
        Phase::Installing(_) => {}
        Phase::Halted => {}
    }
}
