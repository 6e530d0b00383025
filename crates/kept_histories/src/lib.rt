//! What a keeper kept of a run is the run's own list of tree steps, if each step found room; and it knows whether
//! each did. The function does nothing: it carries the law.
#![tactic(auto)]

ghost use Rattle.kept_histories.specs.Laws.{KeptListsAreTheRuns};

use block_device::Device;
use hart_core::World;

/// A keeper notes each event of a run of a mounted world (`KeepsRun`), of fewer than 2^64, from the image's tree on.
/// At its end it notes whether a call lacks a place and hasn't heard so yet (`World::lacks_place`). It knows of a
/// step without room exactly if the run has one, also in a call that hasn't replied. If it has none, the keeper has
/// kept the run's own list of tree steps, with answers and events, of which `runs_have_one_list` of run_laws speaks.
/// That holds for any paths, and wherever the run stops.
pub fn kept_lists_are_the_runs<D: Device>(world: &World<D>)
    ensures { KeptListsAreTheRuns D.contents D.failures world.now }
{
    let _ = world;
}
