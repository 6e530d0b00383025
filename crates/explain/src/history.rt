//! The history of a run.
ghost use Rattle.std.specs.Prelude.{◌≡◌, ℕ, List, MatchResult};
ghost use Rattle.explain.specs.Explained.{HasKept, IsHandedOut, IsRefusedSo, IsToldOf, OwnsRun, RunOn};
ghost use Rattle.explain.specs.OneRun.{AnyRunsAgree, ListsAreOfEachRun, RefusalsAreOfEachRun};

use crate::climbs::any_climbs;
use crate::keep::Keeper;
use crate::play::{Played, play};
use crate::refused::ExplainRefused;
use hart_core::{Came, Event};
use plain_tree::Placed;
use std::alloc::Global;

/// Mounts a copy of the image in memory, runs these events, and hands out a list of tree steps that explains what
/// they showed of calls. It has event number, call, step and answer of each. Without events the list is empty.
///
/// Why it is refused:
/// - the image's first damage;
/// - 71 if a step found no room, also in a call that hasn't replied, and also if a path climbs as well;
/// - 72 if each step found room and the path of a call that was started has the element "..";
/// - 33 if memory was refused.
///
/// The events run beside a tree, on which each operation makes its move as it acts: the list is made of these moves.
/// Each step is there with its answer at the event at which it acted. The failing steps of walks are at the event of
/// the unlink that removed their directory. It is the run's own list, of which the disk holds a beginning wherever
/// the run stops, and that of each such run (`any_runs_agree`). It takes as long as the run and the steps on the tree.
pub fn explain(alloc: Global, image: &[u8], events: &[Event]) -> Result<Vec<Placed>, ExplainRefused>
    ensures { MatchResult result (λ v. OwnsRun image.now events.now v.items) (λ e. IsRefusedSo image.now events.now e) }
{
    let Played { outcomes, keeper } = play(alloc, image, events)?;
    explain_noted(events, &outcomes, keeper)
}

/// The same of events that were noted as they were made of a mounted world, with the outcome of each. The keeper's
/// list is handed out as it is; nothing is run or searched again.
///
/// It explains these events if the keeper noted each of them, from the tree of the image that was mounted, and the
/// end (`KeepsToTheEnd`). Of another keeper it is only what that one has kept.
pub fn explain_noted(
    events: &[Event],
    outcomes: &[Came],
    keeper: Keeper,
) -> Result<Vec<Placed>, ExplainRefused>
    ensures kept { IsHandedOut keeper events.now outcomes.now result }
    ensures owns { (image : List ℕ) (run : RunOn image events.now) → run.outcomes ≡ outcomes.now → HasKept image events.now run keeper
        → IsToldOf image events.now run result }
{
    if keeper.is_full() {
        return Err(ExplainRefused::FullSeen);
    }
    let Ok(list) = keeper.into_list() else {
        return Err(ExplainRefused::NoMemory);
    };
    if any_climbs(events, outcomes) {
        return Err(ExplainRefused::Climbs);
    }
    Ok(list)
}

/// A law, for a reader; nothing is done. The image and the events fix the run in memory: any two such runs have the
/// same outcomes and one list. So the list that `explain` hands out is that of each, and each has the reason for which
/// it refuses.
pub fn any_runs_agree()
    ensures agree { AnyRunsAgree }
    ensures lists { ListsAreOfEachRun }
    ensures refusals { RefusalsAreOfEachRun }
{}
