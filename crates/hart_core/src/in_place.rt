//! A step of a hart's call in its place.
ghost use Rattle.std.specs.Prelude.{◌≡◌, ◌<◌, false};
ghost use Rattle.hart_core.specs.Vocabulary.{PlainHonestStep, MayOf, hart_step, program_at, state_of, CallsOnce, LeavesTied, running_of};
ghost use Rattle.hart_core.specs.Blocks.{blocks, code};
ghost use Rattle.hart_core.specs.Harts.{outcome_of, said, HartFits};
ghost use Rattle.hart_core.specs.Telling.{KeepsLast, TellsOutcome, heard_at};

use crate::outcome::{Outcome, Stop};
use atomic_programs::machines::SteppedInPlace;
use block_device::Device;
use buffer_cache::HARTS;
use fs_machine::Core;
use path_walk::Heard;
use syscalls::CallPlace;

/// A step of the call in this place, if there is one, unless the world has stopped. Once the call has replied the
/// place is idle, and `last` has what it heard in this step.
#[inline(always)]
pub(crate) fn step<D: Device>(
    place: &mut CallPlace,
    last: &mut Option<Heard>,
    hart: u8,
    core: &mut Core<D>,
    stopped: &mut bool,
) -> Outcome
    requires eight { hart < HARTS }
    requires may { stopped.old ≡ false
        → MayOf blocks code hart (state_of D.contents D.failures core.old) (program_at running_of place.old) }
    requires fits { HartFits (state_of D.contents D.failures core.old) hart place.old }
    ensures makes { hart_step blocks code hart (said result (state_of D.contents D.failures core.new))
        (state_of D.contents D.failures core.old) stopped.old (program_at running_of place.old)
        ≡ record {
          came = outcome_of result;
          left = program_at running_of place.new;
          shared = state_of D.contents D.failures core.new;
          stopped = stopped.new;
        } }
    ensures honest { PlainHonestStep blocks code hart (said result (state_of D.contents D.failures core.new))
        (state_of D.contents D.failures core.old) stopped.old (program_at running_of place.old) }
    ensures fits { HartFits (state_of D.contents D.failures core.new) hart place.new }
    ensures others { LeavesTied hart (state_of D.contents D.failures core.old) (state_of D.contents D.failures core.new) }
    ensures called { CallsOnce D.Called core.old.log.cache.device core.new.log.cache.device }
    ensures tells { TellsOutcome hart place.old result (heard_at last.new place.new) place.new
        (state_of D.contents D.failures core.old) (state_of D.contents D.failures core.new) }
    ensures last { KeepsLast result last.old last.new }
{
    if !place.is_busy() {
        return Outcome::Idle;
    }
    if *stopped {
        return Outcome::Stopped(Stop::Halted);
    }
    match place.step(last, hart, core) {
        SteppedInPlace::Waits => Outcome::Waits,
        SteppedInPlace::Ran(kind) => Outcome::Ran(kind),
        SteppedInPlace::Done(reply, _kind) => Outcome::Done(reply),
        SteppedInPlace::Stopped => {
            *stopped = true;
            Outcome::Stopped(Stop::DeviceFault)
        }
    }
}
