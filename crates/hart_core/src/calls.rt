//! The calls that eight harts have under way.
ghost use Rattle.std.specs.Prelude.{◌≡◌, ◌<◌, [], ◌∷◌, false, None, IfOk, get_or, is_some, replicate, slice_set};
ghost use Rattle.std.specs.List.{list_any};
ghost use Rattle.std.specs.Option.{MatchOption};
ghost use Rattle.atomic_programs.specs.Plain.{PlainHonestStep, MayOf, hart_step};
ghost use Rattle.atomic_programs.specs.Machines.{program_at};
ghost use Rattle.fs_machine.specs.Steps.{state_of};
ghost use Rattle.fs_machine.specs.Machines.{CallsOnce};
ghost use Rattle.fs_machine.specs.Tied.{LeavesTied};
ghost use Rattle.inode_parts.specs.Sizes.{IsSized};
ghost use Rattle.syscalls.specs.Machines.{heard_of, lacks_place_at, running_of};
ghost use Rattle.syscalls.specs.Places.{HasBegun};
ghost use Rattle.whole_calls.specs.Wholes.{IsCall};
ghost use Rattle.hart_core.specs.Blocks.{blocks, code};
ghost use Rattle.hart_core.specs.Harts.{outcome_of, said, AreIdle, HartFits};
ghost use Rattle.hart_core.specs.Telling.{KeepsLast, TellsOutcome, heard_at};

use crate::in_place::step;
use crate::outcome::Outcome;
use block_device::Device;
use buffer_cache::HARTS;
use fs_layout::Super;
use fs_machine::{Core, RetiredCore};
use path_walk::Heard;
use plain_tree::Call;
use std::alloc::{AllocError, Global};
use std::marker::Model;
use syscalls::CallPlace;

/// The calls that eight harts have under way, each in its hart's place. A contract sees what each hart does.
pub struct Calls {
    places: [CallPlace; 8],
}

impl Model for Calls {
    ghost use Rattle.std.specs.Prelude.{List, Option};
    ghost use Rattle.syscalls.specs.Machines.{Running};

    ghost Value = { List (Option Running) };

    ghost view = { λ c. c.places };
}

// Two idle places.
fn two_places(alloc: Global) -> Result<[CallPlace; 2], AllocError>
    ensures { IfOk result (λ two. two ≡ None ∷ None ∷ []) }
{
    let one = CallPlace::idle(alloc)?;
    match CallPlace::idle(alloc) {
        Ok(other) => Ok([one, other]),
        Err(failed) => {
            one.end();
            Err(failed)
        }
    }
}

// Four idle places.
fn four_places(alloc: Global) -> Result<[CallPlace; 4], AllocError>
    ensures { IfOk result (λ four. four ≡ None ∷ None ∷ None ∷ None ∷ []) }
{
    let [a, b] = two_places(alloc)?;
    match two_places(alloc) {
        Ok(others) => {
            let [c, d] = others;
            Ok([a, b, c, d])
        }
        Err(failed) => {
            a.end();
            b.end();
            Err(failed)
        }
    }
}

// Eight places, by four and four.
fn eight_places(first: [CallPlace; 4], others: [CallPlace; 4]) -> [CallPlace; 8]
    requires { (first ≡ None ∷ None ∷ None ∷ None ∷ []) × (others ≡ None ∷ None ∷ None ∷ None ∷ []) }
    ensures { result ≡ replicate HARTS None }
{
    let [a, b, c, d] = first;
    let [e, f, g, h] = others;
    [a, b, c, d, e, f, g, h]
}

// Ends idle places.
fn end_four(places: [CallPlace; 4])
    requires { places ≡ None ∷ None ∷ None ∷ None ∷ [] }
{
    let [a, b, c, d] = places;
    a.end();
    b.end();
    c.end();
    d.end();
}

impl Calls {
    /// Eight harts that do nothing, and all the memory that their calls will take.
    pub fn idle(alloc: Global) -> Result<Calls, AllocError>
        ensures { IfOk result AreIdle }
    {
        let first = four_places(alloc)?;
        match four_places(alloc) {
            Ok(others) => Ok(Calls {
                places: eight_places(first, others),
            }),
            Err(failed) => {
                end_four(first);
                Err(failed)
            }
        }
    }

    /// Whether a hart has a call.
    pub fn is_busy(&self, hart: u8) -> bool
        requires { hart < HARTS }
        ensures { result ≡ is_some (get_or self.now hart None) }
    {
        self.places[hart as usize].is_busy()
    }

    /// One operation of a hart's call in its place, unless the world has stopped. A call that has replied leaves its place idle.
    #[inline(always)]
    pub fn step<D: Device>(
        &mut self,
        last: &mut Option<Heard>,
        hart: u8,
        core: &mut Core<D>,
        stopped: &mut bool,
    ) -> Outcome
        requires eight { hart < HARTS }
        requires may { stopped.old ≡ false
            → MayOf blocks code hart (state_of D.contents D.failures core.old) (program_at running_of (get_or self.old hart None)) }
        requires fits { HartFits (state_of D.contents D.failures core.old) hart (get_or self.old hart None) }
        ensures makes { hart_step blocks code hart (said result (state_of D.contents D.failures core.new))
            (state_of D.contents D.failures core.old) stopped.old (program_at running_of (get_or self.old hart None))
            ≡ record {
              came = outcome_of result;
              left = program_at running_of (get_or self.new hart None);
              shared = state_of D.contents D.failures core.new;
              stopped = stopped.new;
            } }
        ensures honest { PlainHonestStep blocks code hart (said result (state_of D.contents D.failures core.new))
            (state_of D.contents D.failures core.old) stopped.old (program_at running_of (get_or self.old hart None)) }
        ensures fits { HartFits (state_of D.contents D.failures core.new) hart (get_or self.new hart None) }
        ensures kept { self.new ≡ slice_set self.old hart (get_or self.new hart None) }
        ensures others { LeavesTied hart (state_of D.contents D.failures core.old) (state_of D.contents D.failures core.new) }
        ensures called { CallsOnce D.Called core.old.log.cache.device core.new.log.cache.device }
        ensures tells { TellsOutcome hart (get_or self.old hart None) result
            (heard_at last.new (get_or self.new hart None)) (get_or self.new hart None) (state_of D.contents D.failures core.old)
            (state_of D.contents D.failures core.new) }
        ensures last { KeepsLast result last.old last.new }
    {
        step(&mut self.places[hart as usize], last, hart, core, stopped)
    }

    /// Has an idle hart begin a call, on a disk of these sizes.
    #[inline(always)]
    pub fn begin(&mut self, hart: u8, sizes: &Super, call: Call)
        requires eight { hart < HARTS }
        requires idle { get_or self.old hart None ≡ None }
        requires call { IsCall sizes.now.version call }
        requires sized { IsSized sizes.now }
        ensures begun { HasBegun sizes.now call (get_or self.new hart None) }
        ensures kept { self.new ≡ slice_set self.old hart (get_or self.new hart None) }
    {
        self.places[hart as usize].start(sizes, call);
    }

    /// What the call under way of a hart heard in its last step, if an operation over whole inodes ended there.
    pub fn heard(&self, hart: u8) -> Option<Heard>
        requires { hart < HARTS }
        ensures { MatchOption (get_or self.now hart None) (Unit {0}) (λ call. result ≡ heard_of call) }
    {
        self.places[hart as usize].heard()
    }

    /// Whether one of them claims an inode for which no place in memory was left, and will hear so in its next step.
    pub fn lacks_place(&self) -> bool
        ensures { result ≡ list_any lacks_place_at self.now }
    {
        self.places.iter().any(|place| place.lacks_place())
    }

    /// Ends those of idle harts.
    pub fn end(self)
        requires { AreIdle self }
    {
        let Calls { places } = self;
        end_eight(places);
    }

    /// Ends them in mid-call, after all that harts share has ended.
    pub fn retire(self, retired: &RetiredCore) {
        let Calls { places } = self;
        retire_eight(places, retired);
    }
}

// Ends what idle harts have.
fn end_eight(places: [CallPlace; 8])
    requires { places ≡ replicate HARTS None }
{
    let [a, b, c, d, e, f, g, h] = places;
    end_four([a, b, c, d]);
    end_four([e, f, g, h]);
}

// Ends what harts do.
fn retire_eight(places: [CallPlace; 8], retired: &RetiredCore) {
    let [a, b, c, d, e, f, g, h] = places;
    a.retire(retired);
    b.retire(retired);
    c.retire(retired);
    d.retire(retired);
    e.retire(retired);
    f.retire(retired);
    g.retire(retired);
    h.retire(retired);
}
