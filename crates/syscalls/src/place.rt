//! The place of a hart's call.
ghost use Rattle.std.specs.Prelude.{◌≡◌, ◌<◌, None, IfOk, IsSome, is_some};
ghost use Rattle.std.specs.Option.{MatchOption};
ghost use Rattle.fs_machine.specs.Steps.{state_of};
ghost use Rattle.fs_machine.specs.Machines.{MayNext};
ghost use Rattle.whole_calls.specs.Wholes.{IsCall};
ghost use Rattle.fs_machine.specs.Empty.{IsEmpty};
ghost use Rattle.inode_parts.specs.Sizes.{IsSized};
ghost use Rattle.syscalls.specs.Machines.{heard_of, lacks_place_at, running_of, RunningFits};
ghost use Rattle.syscalls.specs.Places.{HasBegun, KeepsLast, StepsAt};

use crate::calls_run_by_parts;
use atomic_programs::machines::SteppedInPlace;
use block_device::Device;
use buffer_cache::HARTS;
use fs_layout::Super;
use fs_machine::{Answer, Core, Hand, Kind, Machine, RetiredCore};
use inode_parts::Lowered;
use path_walk::Heard;
use plain_tree::{Call, Reply};
use std::alloc::{AllocError, AllocFailed, Global};
use std::marker::Model;

/// The place of a hart's call. It is idle, or a call is under way there, with the part of its present operation and
/// all that its hart has in hand. The memory for that is taken once. To begin a call takes none, and a call that has
/// replied leaves the place as it found it. A contract sees the call under way, if one is.
///
/// Code that lets a place go doesn't compile: an idle one is ended, or any after all that harts share has ended.
pub struct CallPlace {
    is_busy: bool,
    machine: Box<Machine<Lowered>>,
}

impl Model for CallPlace {
    ghost use Rattle.std.specs.Prelude.{◌≡◌, false, Option};
    ghost use Rattle.fs_machine.specs.Empty.{IsEmpty};
    ghost use Rattle.syscalls.specs.Machines.{Running};
    ghost use Rattle.syscalls.specs.Places.{call_at};

    ghost Value = { Option Running };

    ghost view = { λ p. call_at p.is_busy p.machine.value };

    ghost invariant = { λ p. p.is_busy ≡ false → IsEmpty p.machine.value.hand };
}

// A call under way takes less than this number of bytes. The bytes of its call, of its list and of the buffers and
// inodes that it holds don't count.
const MOST_BYTES: usize = 1024;

const _: () = prove!(size_of::<Machine<Lowered>>() < MOST_BYTES);

// What is in an idle place, and its memory.
fn idle_machine(alloc: Global) -> Result<Machine<Lowered>, AllocError>
    ensures { IfOk result (λ m. IsEmpty m.hand) }
{
    let control = Lowered::idle(alloc)?;
    let hand = Hand::new(alloc)?;
    Ok(Machine {
        control,
        hand,
        told: Answer::Nothing,
    })
}

// Ends what is in an idle place.
fn end_machine(machine: Machine<Lowered>)
    requires { IsEmpty machine.hand }
{
    let Machine {
        control: _,
        hand,
        told: _,
    } = machine;
    hand.end();
}

impl CallPlace {
    /// An idle place, and the memory for a call there.
    pub fn idle(alloc: Global) -> Result<CallPlace, AllocError>
        ensures { IfOk result (λ place. place ≡ None) }
    {
        let machine = idle_machine(alloc)?;
        match Box::new(alloc, machine) {
            Ok(machine) => Ok(CallPlace {
                is_busy: false,
                machine,
            }),
            Err(failed) => {
                let AllocFailed { value: machine } = failed;
                end_machine(machine);
                Err(AllocError)
            }
        }
    }

    /// Whether a call is under way.
    #[inline(always)]
    pub fn is_busy(&self) -> bool
        ensures { result ≡ is_some self.now }
    {
        self.is_busy
    }

    /// A call begins in an idle place, on a disk of these sizes.
    #[inline(always)]
    pub fn start(&mut self, sizes: &Super, call: Call)
        requires idle { self.old ≡ None }
        requires call { IsCall sizes.now.version call }
        requires sized { IsSized sizes.now }
        ensures { HasBegun sizes.now call self.new }
    {
        let Machine {
            control,
            hand,
            told: _,
        } = &mut *self.machine;
        calls_run_by_parts();
        control.start(sizes, call, hand);
        self.is_busy = true;
    }

    /// One operation of the call under way. Once it has replied the place is idle, and `last` is what it heard in
    /// this step.
    #[inline(always)]
    pub fn step<D: Device>(
        &mut self,
        last: &mut Option<Heard>,
        hart: u8,
        core: &mut Core<D>,
    ) -> SteppedInPlace<Reply, Kind>
        requires eight { hart < HARTS }
        requires busy { IsSome self.old }
        requires may { MatchOption self.old ⊥ (λ call. MayNext hart (running_of call) (state_of D.contents D.failures core.old)) }
        requires fits { MatchOption self.old ⊥ (λ call. RunningFits hart (state_of D.contents D.failures core.old) call) }
        ensures steps { StepsAt D.contents D.failures D.Called hart self.old self.new result last.new core.old core.new }
        ensures last { KeepsLast result last.old last.new }
    {
        match self.machine.step(hart, core) {
            SteppedInPlace::Waits => SteppedInPlace::Waits,
            SteppedInPlace::Ran(kind) => SteppedInPlace::Ran(kind),
            SteppedInPlace::Done((), kind) => {
                self.is_busy = false;
                self.machine.control.tell(last);
                SteppedInPlace::Done(self.machine.control.reply(), kind)
            }
            SteppedInPlace::Stopped => SteppedInPlace::Stopped,
        }
    }

    /// What the call under way heard in its last step, if an operation over whole inodes ended there.
    pub fn heard(&self) -> Option<Heard>
        ensures { MatchOption self.now (Unit {0}) (λ call. result ≡ heard_of call) }
    {
        self.machine.control.heard()
    }

    /// Whether a call is under way that claims an inode for which no place in memory was left, and its next step must
    /// say so.
    pub fn lacks_place(&self) -> bool
        ensures { result ≡ lacks_place_at self.now }
    {
        self.is_busy && self.machine.control.lacks_place()
    }

    /// Ends an idle place.
    pub fn end(self)
        requires { self ≡ None }
    {
        let CallPlace {
            is_busy: _,
            machine,
        } = self;
        end_machine(Box::into_inner(machine));
    }

    /// Ends it in mid-call too, after all that harts share has ended.
    pub fn retire(self, retired: &RetiredCore) {
        let CallPlace {
            is_busy: _,
            machine,
        } = self;
        Box::into_inner(machine).retire(retired);
    }
}
