//! Operations on transactions and buffers, made of what is in hand.
ghost use Rattle.std.specs.Prelude.{◌≡◌};
ghost use Rattle.fs_machine.specs.Steps.{state_of};
ghost use Rattle.fs_machine.specs.Premises.{May};
ghost use Rattle.fs_machine.specs.Hands.{HandFits};
ghost use Rattle.fs_machine.specs.declared.hand.Hand.{Hand as HandState};
ghost use Rattle.fs_machine.specs.declared.op.Answer.{Answer as AnswerState};
ghost use Rattle.fs_machine.specs.Ops.{op_in, left_by, CanDo, Prepared};
ghost use Rattle.fs_machine.specs.Performs.{Performs};

use crate::hand::{Hand, Place};
use crate::op::{Answer, Op, Performed};
use crate::{Core, Kind};
use block_device::{Device, Fault};
use buffer_cache::Got;
use group_log::{AfterLeave, Progress};
use std::mem;

impl Hand {
    // Joins a transaction.
    pub(crate) fn join<D: Device>(&mut self, hart: u8, core: &mut Core<D>) -> Performed
        requires fits { HandFits hart (state_of D.contents D.failures core.old) self.old }
        requires can { CanDo Op.Join self.old }
        requires may { May hart (op_in self.old Op.Join) (state_of D.contents D.failures core.old) }
        ensures { (told : AnswerState)
            → Performs D.contents D.failures D.Called hart Op.Join self.old self.new told result core.old core.new }
    {
        match core.join(hart) {
            None => Performed::Waits,
            Some(txn) => {
                self.hold_txn(txn);
                Performed::Ran(Kind::Join)
            }
        }
    }

    // Leaves it.
    pub(crate) fn leave<D: Device>(
        &mut self,
        hart: u8,
        core: &mut Core<D>,
        told: &mut Answer,
    ) -> Performed
        requires fits { HandFits hart (state_of D.contents D.failures core.old) self.old }
        requires can { CanDo Op.Leave self.old }
        requires may { May hart (op_in self.old Op.Leave) (state_of D.contents D.failures core.old) }
        ensures { Performs D.contents D.failures D.Called hart Op.Leave self.old self.new told.new result core.old core.new }
    {
        match mem::replace(&mut self.txn, None) {
            None => unreachable!(),
            Some(txn) => {
                let commits = commits(core.leave(hart, txn));
                *told = Answer::Is(commits);
                Performed::Ran(Kind::Leave)
            }
        }
    }

    // One write of the commit.
    pub(crate) fn commit<D: Device>(
        &mut self,
        hart: u8,
        core: &mut Core<D>,
        told: &mut Answer,
    ) -> Performed
        requires fits { HandFits hart (state_of D.contents D.failures core.old) self.old }
        requires may { May hart (op_in self.old Op.Commit) (state_of D.contents D.failures core.old) }
        ensures { Performs D.contents D.failures D.Called hart Op.Commit self.old self.new told.new result core.old core.new }
    {
        match core.commit(hart) {
            Progress::Waits => Performed::Waits,
            Progress::Wrote => {
                *told = Answer::Is(false);
                Performed::Ran(Kind::Commit)
            }
            Progress::Ended => {
                *told = Answer::Is(true);
                Performed::Ran(Kind::Commit)
            }
            Progress::Failed => Performed::Stopped,
        }
    }

    // Takes a block's buffer.
    pub(crate) fn get<D: Device>(
        &mut self,
        hart: u8,
        core: &mut Core<D>,
        place: Place,
        b: u32,
    ) -> Performed
        requires fits { HandFits hart (state_of D.contents D.failures core.old) self.old }
        requires can { CanDo (Op.Get place b) self.old }
        requires may { May hart (op_in self.old (Op.Get place b)) (state_of D.contents D.failures core.old) }
        ensures { (told : AnswerState)
            → Performs D.contents D.failures D.Called hart (Op.Get place b) self.old self.new told result core.old core.new }
    {
        match core.get(hart, b) {
            Got::Waits => Performed::Waits,
            Got::Held(guard) => {
                self.hold_buffer(place, guard);
                Performed::Ran(Kind::Get)
            }
        }
    }

    // Reads the block into it.
    pub(crate) fn read<D: Device>(
        &mut self,
        hart: u8,
        core: &mut Core<D>,
        place: Place,
    ) -> Performed
        requires fits { HandFits hart (state_of D.contents D.failures core.old) self.old }
        requires can { CanDo (Op.Read place) self.old }
        requires may { May hart (op_in self.old (Op.Read place)) (state_of D.contents D.failures core.old) }
        ensures { (told : AnswerState)
            → Performs D.contents D.failures D.Called hart (Op.Read place) self.old self.new told result core.old core.new }
    {
        match self.take_buffer(place) {
            None => unreachable!(),
            Some(mut guard) => match core.read(hart, &mut guard) {
                Ok(()) => {
                    self.hold_buffer(place, guard);
                    Performed::Ran(Kind::Read)
                }
                Err(Fault) => {
                    self.hold_buffer(place, guard);
                    Performed::Stopped
                }
            },
        }
    }

    // Gives a buffer back as it was.
    pub(crate) fn give<D: Device>(
        &mut self,
        hart: u8,
        core: &mut Core<D>,
        place: Place,
    ) -> Performed
        requires fits { HandFits hart (state_of D.contents D.failures core.old) self.old }
        requires can { CanDo (Op.Give place) self.old }
        requires may { May hart (op_in self.old (Op.Give place)) (state_of D.contents D.failures core.old) }
        ensures { (told : AnswerState)
            → Performs D.contents D.failures D.Called hart (Op.Give place) self.old self.new told result core.old core.new }
    {
        match self.take_buffer(place) {
            None => unreachable!(),
            Some(guard) => {
                core.put_back(hart, guard);
                Performed::Ran(Kind::Put)
            }
        }
    }

    // Gives it back, recorded with the bytes that were prepared in it.
    pub(crate) fn record<D: Device>(
        &mut self,
        hart: u8,
        core: &mut Core<D>,
        place: Place,
    ) -> Performed
        requires fits { (before : HandState) × HandFits hart (state_of D.contents D.failures core.old) before
            × Prepared (Op.Record place) before self.old }
        requires can { CanDo (Op.Record place) self.old }
        requires may { May hart (op_in self.old (Op.Record place)) (state_of D.contents D.failures core.old) }
        ensures { (told : AnswerState)
            → Performs D.contents D.failures D.Called hart (Op.Record place) self.old self.new told result core.old core.new }
    {
        match self.take_buffer(place) {
            None => unreachable!(),
            Some(guard) => match &mut self.txn {
                None => unreachable!(),
                Some(txn) => {
                    core.put_changed(hart, txn, guard);
                    Performed::Ran(Kind::Put)
                }
            },
        }
    }
}

// Whether a commit begins.
fn commits(left: AfterLeave) -> bool
    ensures { left ≡ left_by result }
{
    match left {
        AfterLeave::Free => false,
        AfterLeave::Commits => true,
    }
}
