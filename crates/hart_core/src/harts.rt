//! Eight harts' machines over all that they share.
ghost use Rattle.std.specs.Prelude.{◌≡◌, ◌<◌, ◌&&◌, false, Some, None, get_or, is_some, length, replicate, slice_get, slice_set};
ghost use Rattle.atomic_programs.specs.Calls.{Start as StartOf, Step as StepOf, Started};
ghost use Rattle.atomic_programs.specs.Plain.{plain_makes, PlainHonest};
ghost use Rattle.group_log.specs.Phases.{is_point};
ghost use Rattle.fs_machine.specs.Machines.{CallsOnce};
ghost use Rattle.hart_core.specs.Blocks.{blocks, code, MayStep};
ghost use Rattle.inode_machine.specs.Exec.{is_at};
ghost use Rattle.calls_on_blocks.specs.Theory.{block_calls, has_file, reserved};
ghost use Rattle.hart_core.specs.Harts.{outcome_of, said, shared_of, programs_of, busy_in, children_in, AreHarts, AreIdle};
ghost use Rattle.hart_core.specs.Starts.{fault_of};
ghost use Rattle.hart_core.specs.Telling.{KeepsLast, SetsAt, TellsOutcome, heard_at, some_lacks_place};
ghost use Rattle.inode_parts.specs.Sizes.{IsSized};
ghost use Rattle.syscalls.specs.Places.{HasBegun};
ghost use Rattle.atomic_programs.specs.Prog.{plain};

use crate::calls::Calls;
use crate::outcome::Outcome;
use block_device::Device;
use buffer_cache::HARTS;
use fs_layout::Super;
use fs_machine::{Core, DESCRIPTORS};
use group_log::Phase;
use path_walk::Heard;
use plain_tree::Call;
use std::marker::Model;

// Whether this is the child.
fn is_child(child: Option<u8>, hart: u8) -> bool
    ensures { result ≡ is_at child hart }
{
    match child {
        Some(child) => child == hart,
        None => false,
    }
}

/// The machines of eight harts over all that they share. A contract sees what they share, the machines, whom each hart's last call
/// reserves, and whether a failure of the device has stopped them.
///
/// After it was made it takes no memory. It must be unmounted.
pub struct Harts<D: Device> {
    core: Core<D>,
    stopped: bool,
    children: [Option<u8>; 8],
    calls: Calls,
}

impl<D: Device> Model for Harts<D> {
    ghost use Rattle.fs_machine.specs.Steps.{state_of as shared_state};
    ghost use Rattle.hart_core.specs.Harts.{HartsOf, AreHarts};

    ghost Value = { HartsOf D };

    ghost view = { λ w. record { core = w.core; stopped = w.stopped; children = w.children; calls = w.calls } };

    ghost invariant = { λ w. AreHarts (shared_state D.contents D.failures w.core) w.calls };
}

impl<D: Device> Harts<D> {
    /// Eight idle harts over this.
    pub fn new(core: Core<D>, calls: Calls) -> Harts<D>
        requires { AreIdle calls }
        ensures { result ≡ record { core = core; stopped = false; children = replicate HARTS None; calls = replicate HARTS None } }
    {
        Harts {
            core,
            stopped: false,
            children: [None; 8],
            calls,
        }
    }

    /// Whether there is such a hart and it has a call. There are eight.
    pub fn is_busy(&self, hart: u8) -> bool
        ensures busy { result ≡ is_some (get_or self.now.calls hart None) }
        ensures eight { length self.now.calls ≡ HARTS }
    {
        hart < HARTS && self.calls.is_busy(hart)
    }

    // Whether there is such a hart, it has a call, and that reserves the other one.
    fn reserves(&self, hart: u8, child: u8) -> bool
        ensures { result ≡ (busy_in self.now.calls hart && is_at (children_in self.now.children hart) child) }
    {
        let children = &self.children;
        if !self.is_busy(hart) {
            return false;
        }
        is_child(children[hart as usize], child)
    }

    /// Whether a call under way reserves the hart: it is the child of an inherit.
    #[inline(always)]
    pub fn is_reserved(&self, hart: u8) -> bool
        ensures { result ≡ reserved (busy_in self.now.calls) (children_in self.now.children) hart }
    {
        for other in 0..HARTS {
            if self.reserves(other, hart) {
                return true;
            }
        }
        false
    }

    /// Whether the hart has an open file.
    pub fn has_file(&self, hart: u8) -> bool
        requires { hart < HARTS }
        ensures { result ≡ has_file hart self.now.core.tables }
    {
        for fd in 0..DESCRIPTORS {
            if self.core.tables.file(hart, fd as u32).is_some() {
                return true;
            }
        }
        false
    }

    /// A hart without a call begins this one, on a disk of these sizes, which reserves this child.
    pub fn begin(&mut self, hart: u8, sizes: &Super, call: Call, child: Option<u8>)
        requires idle { slice_get self.old.calls hart ≡ Some None }
        requires faultless { fault_of call ≡ None }
        requires sized { IsSized sizes.now }
        ensures makes { plain_makes blocks code (StartOf hart (plain ((block_calls sizes.now).program call)))
            (programs_of D.contents D.failures self.old) ≡ record { came = Started; after = programs_of D.contents D.failures self.new } }
        ensures core { self.new.core ≡ self.old.core }
        ensures children { self.new.children ≡ slice_set self.old.children hart child }
        ensures begun { HasBegun sizes.now call (get_or self.new.calls hart None) }
        ensures others { SetsAt hart self.old.calls self.new.calls }
        ensures eight { length self.old.children ≡ HARTS }
    {
        self.calls.begin(hart, sizes, call);
        self.children[hart as usize] = child;
    }

    /// One operation of a hart's call. It is idle if there is no such hart, or the hart has no call. A call is
    /// stopped if the device fails in this very step, or has failed before. At most one call of the device is made.
    /// What a call that replied heard in this step is left in `last`.
    #[inline(always)]
    pub fn step(&mut self, last: &mut Option<Heard>, hart: u8) -> Outcome
        requires may { MayStep hart (programs_of D.contents D.failures self.old) }
        ensures makes { plain_makes blocks code
            (StepOf hart (said result (shared_of D.contents D.failures self.new)))
            (programs_of D.contents D.failures self.old)
            ≡ record { came = outcome_of result; after = programs_of D.contents D.failures self.new } }
        ensures honest { PlainHonest blocks code
            (StepOf hart (said result (shared_of D.contents D.failures self.new)))
            (programs_of D.contents D.failures self.old) }
        ensures children { self.new.children ≡ self.old.children }
        ensures called { CallsOnce D.Called self.old.core.log.cache.device self.new.core.log.cache.device }
        ensures tells { TellsOutcome hart (get_or self.old.calls hart None) result
            (heard_at last.new (get_or self.new.calls hart None)) (get_or self.new.calls hart None)
            (shared_of D.contents D.failures self.old) (shared_of D.contents D.failures self.new) }
        ensures last { KeepsLast result last.old last.new }
        ensures others { SetsAt hart self.old.calls self.new.calls }
    {
        // What holds of the harts is needed in both cases.
        let _ = &self.calls;
        if hart >= HARTS {
            return Outcome::Idle;
        }
        self.calls
            .step(last, hart, &mut self.core, &mut self.stopped)
    }

    /// What the hart's call heard in its last step, if an operation over whole inodes ended there; of a hart without
    /// a call, `last`.
    /// What each call has in hand goes with the core.
    pub fn heard(&self, hart: u8, last: Option<Heard>) -> Option<Heard>
        ensures heard { result ≡ heard_at last (get_or self.now.calls hart None) }
        ensures fits { AreHarts (shared_of D.contents D.failures self.now) self.now.calls }
    {
        if hart >= HARTS || !self.calls.is_busy(hart) {
            return last;
        }
        self.calls.heard(hart)
    }

    /// Whether a call claims an inode for which no place in memory was left, and will hear so in its next step.
    pub fn lacks_place(&self) -> bool
        ensures { result ≡ some_lacks_place self.now }
    {
        self.calls.lacks_place()
    }

    /// How far the log's commit is.
    pub fn phase(&self) -> Phase
        ensures { result ≡ self.now.core.log.phase }
    {
        self.core.log.phase()
    }

    /// Whether the commit's next write is that of the head that names the group.
    pub fn is_at_point(&self) -> bool
        ensures { result ≡ is_point (length self.now.core.log.group) self.now.core.log.phase }
    {
        self.core.log.is_at_point()
    }

    /// Ends it at any moment, in mid-call too, without a call of the device, and gives the device.
    pub fn unmount(self) -> D
        ensures { result ≡ self.core.log.cache.device }
    {
        let Harts {
            core,
            stopped: _,
            children: _,
            calls,
        } = self;
        let (retired, device) = core.retire();
        calls.retire(&retired);
        device
    }
}
