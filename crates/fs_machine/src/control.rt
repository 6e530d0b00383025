//! Controls, and a step of any of them.
ghost use Rattle.std.specs.Prelude.{◌≡◌, ◌<◌, ℕ, Option, Some, None, IfSome, IfNone};
ghost use Rattle.atomic_programs.specs.Prog.{asks};
ghost use Rattle.fs_machine.specs.Steps.{Op as StepOp, Answer as StepAnswer, state_of};
ghost use Rattle.fs_machine.specs.Machines.{P, MayNext};
ghost use Rattle.fs_machine.specs.Places.{StepsAt};
ghost use Rattle.fs_machine.specs.Hands.{HandFits, with_buffer};
ghost use Rattle.fs_machine.specs.declared.hand.Place.{Place as PlaceState};
ghost use Rattle.fs_machine.specs.Ops.{op_in, answer_in, CanDo, Prepared, IsAfter};
ghost use Rattle.fs_machine.specs.Controls.{Goes, left_after, bare, TellsAt};
ghost use Rattle.fs_machine.specs.declared.hand.Hand.{Hand as HandState};
ghost use Rattle.fs_machine.specs.declared.op.Op.{Op as OpState};

use crate::hand::Hand;
use crate::op::{Answer, Op, Performed};
use crate::{Core, Kind, RetiredCore};
use atomic_programs::machines::SteppedInPlace;
use block_device::Device;
use buffer_cache::HARTS;

/// Says which operation is next, and how it goes on after the answer. It has nothing in hand itself.
pub trait Control: Drop {
    type Out: Drop;

    // The result of its program ..
    ghost Value: { Type 0 };

    // .. if it ends so in this state, with this in hand.
    ghost value: { Self → Self.Out → HandState → Value };

    // The program that is left.
    ghost left: { Self → HandState → P Value };

    // The operation that it asks for.
    ghost asked: { Self → OpState };

    // What it has in hand.
    ghost Ready: { Self → HandState → Type 0 };

    ghost Ends: { Self.Out → HandState → Type 0 };

    // What else it says of a step: in this state, with this in hand, it was answered so. Then it ended, or is in that
    // state with that in hand.
    ghost Tells: { Self → HandState → ((o : StepOp) → StepAnswer o) → Option Self.Out → Self → HandState → Type 0 };

    /// The next operation. Bytes to be recorded are written in their buffer.
    fn op(&self, hand: &mut Hand) -> Op
        requires ready { Ready self.now hand.old }
        ensures op { result ≡ asked self.now }
        ensures asks { asks (left self.now hand.old) ≡ Some (op_in hand.new result) }
        ensures can { CanDo result hand.new }
        ensures prepared { Prepared result hand.old hand.new };

    /// How it goes on. The record of a locked inode may change in hand, and the numbers of which one is to be claimed.
    fn next(&mut self, answer: &Answer, hand: &mut Hand) -> Option<Self::Out>
        requires came { (before : HandState) × Ready self.old before × IsAfter (asked self.old) before answer.now hand.old }
        ensures goes { (before : HandState) → Ready self.old before → IsAfter (asked self.old) before answer.now hand.old
            → Goes (left self.old before) (answer_in (asked self.old) answer.now hand.old)
            (left_after left (value self.new) result self.new hand.new) }
        ensures tells { (before : HandState) → Ready self.old before → IsAfter (asked self.old) before answer.now hand.old
            → Tells self.old before (answer_in (asked self.old) answer.now hand.old) result self.new hand.new }
        ensures ready { IfNone result (Ready self.new hand.new) }
        ensures ends { IfSome result (λ out. Ends out hand.new) }
        ensures hand { bare hand.new ≡ bare hand.old };
}

/// A control within others, that uses one buffer's place and changes nothing else in hand.
pub trait Part: Drop {
    type Out: Drop;

    ghost Value: { Type 0 };

    ghost value: { Self.Out → HandState → Value };

    ghost left: { Self → HandState → P Value };

    ghost asked: { Self → OpState };

    ghost Ready: { Self → HandState → Type 0 };

    // The place.
    ghost place: { Self → PlaceState };

    // What never changes.
    ghost About: { Type 0 };

    ghost about: { Self → About };

    // What holds at its end.
    ghost Ends: { Self → Self.Out → HandState → Type 0 };

    /// The next operation. Bytes to be recorded are written in their buffer.
    fn op(&self, hand: &mut Hand) -> Op
        requires ready { Ready self.now hand.old }
        ensures op { result ≡ asked self.now }
        ensures asks { asks (left self.now hand.old) ≡ Some (op_in hand.new result) }
        ensures can { CanDo result hand.new }
        ensures prepared { Prepared result hand.old hand.new };

    /// How it goes on.
    fn next(&mut self, answer: &Answer, hand: &Hand) -> Option<Self::Out>
        requires came { (before : HandState) × Ready self.old before × IsAfter (asked self.old) before answer.now hand.now }
        ensures goes { (before : HandState) → Ready self.old before → IsAfter (asked self.old) before answer.now hand.now
            → Goes (left self.old before) (answer_in (asked self.old) answer.now hand.now)
            (left_after left value result self.new hand.now) }
        ensures ready { IfNone result (Ready self.new hand.now) }
        ensures ends { IfSome result (λ out. Ends self.old out hand.now) }
        ensures place { IfNone result (place self.new ≡ place self.old) }
        ensures about { IfNone result (about self.new ≡ about self.old) }
        ensures beside { (before : HandState) → IsAfter (asked self.old) before answer.now hand.now
            → with_buffer (place self.old) None hand.now ≡ with_buffer (place self.old) None before };
}

/// A control within others, that tells what it may change in hand.
pub trait Routine: Drop {
    type Out: Drop;

    ghost Value: { Type 0 };

    ghost value: { Self.Out → HandState → Value };

    ghost left: { Self → HandState → P Value };

    ghost asked: { Self → OpState };

    ghost Ready: { Self → HandState → Type 0 };

    // What never changes.
    ghost About: { Type 0 };

    ghost about: { Self → About };

    // What is in hand, but for what it may change.
    ghost beside: { About → HandState → HandState };

    // What holds at its end.
    ghost Ends: { Self → Self.Out → HandState → Type 0 };

    /// The next operation. Bytes to be recorded are written in their buffer.
    fn op(&self, hand: &mut Hand) -> Op
        requires ready { Ready self.now hand.old }
        ensures op { result ≡ asked self.now }
        ensures asks { asks (left self.now hand.old) ≡ Some (op_in hand.new result) }
        ensures can { CanDo result hand.new }
        ensures prepared { Prepared result hand.old hand.new };

    /// How it goes on. The record of a locked inode may change in hand, and the numbers of which one is to be claimed.
    fn next(&mut self, answer: &Answer, hand: &mut Hand) -> Option<Self::Out>
        requires came { (before : HandState) × Ready self.old before × IsAfter (asked self.old) before answer.now hand.old }
        ensures goes { (before : HandState) → Ready self.old before → IsAfter (asked self.old) before answer.now hand.old
            → Goes (left self.old before) (answer_in (asked self.old) answer.now hand.old)
            (left_after left value result self.new hand.new) }
        ensures ready { IfNone result (Ready self.new hand.new) }
        ensures ends { IfSome result (λ out. Ends self.old out hand.new) }
        ensures about { IfNone result (about self.new ≡ about self.old) }
        ensures beside { (before : HandState) → Ready self.old before → IsAfter (asked self.old) before answer.now hand.old
            → beside (about self.old) hand.new ≡ beside (about self.old) before }
        ensures hand { bare hand.new ≡ bare hand.old };
}

/// A control with what its hart has in hand.
pub struct Machine<C: Control> {
    pub control: C,
    pub hand: Hand,
    /// The answer to the last operation.
    pub told: Answer,
}

impl<C: Control> Machine<C> {
    /// One operation.
    pub fn step<D: Device>(&mut self, hart: u8, core: &mut Core<D>) -> SteppedInPlace<C::Out, Kind>
        requires eight { hart < HARTS }
        requires may { MayNext hart (C.left self.old.control self.old.hand) (state_of D.contents D.failures core.old) }
        requires fits { HandFits hart (state_of D.contents D.failures core.old) self.old.hand }
        requires ready { C.Ready self.old.control self.old.hand }
        ensures steps { StepsAt D.contents D.failures D.Called (λ m. C.left m.control m.hand)
            (λ out. C.value self.new.control out self.new.hand) (λ _ _ m. C.Ready m.control m.hand) (λ out. C.Ends out self.new.hand)
            self.new hart self.old self.new result core.old core.new }
        ensures tells { TellsAt C.left C.Tells hart self.old.control self.old.hand result self.new.control self.new.hand
            (state_of D.contents D.failures core.old) (state_of D.contents D.failures core.new) }
        ensures fits { HandFits hart (state_of D.contents D.failures core.new) self.new.hand }
    {
        let op = self.control.op(&mut self.hand);
        match self.hand.perform(hart, core, op, &mut self.told) {
            Performed::Waits => SteppedInPlace::Waits,
            Performed::Stopped => SteppedInPlace::Stopped,
            Performed::Ran(kind) => match self.control.next(&self.told, &mut self.hand) {
                None => SteppedInPlace::Ran(kind),
                Some(out) => SteppedInPlace::Done(out, kind),
            },
        }
    }

    /// Ends it in mid-call, after all that harts share has ended.
    pub fn retire(self, retired: &RetiredCore) {
        let Machine {
            control: _,
            hand,
            told: _,
        } = self;
        hand.retire(retired);
    }
}
