//! The end of a transaction.
ghost use Rattle.std.specs.Prelude.{◌≡◌, Some, None, IfSome, IfNone};
ghost use Rattle.fs_machine.specs.Hands.{with_txn};
ghost use Rattle.fs_machine.specs.Ops.{IsAfter, answer_in};
ghost use Rattle.fs_machine.specs.Controls.{Goes, left_after, bare};
ghost use Rattle.fs_machine.specs.declared.hand.Hand.{Hand as HandState};
ghost use Rattle.fs_machine.specs.Finishing.{finish_left, finish_asked, FinishReady};

use crate::control::Control;
use crate::hand::Hand;
use crate::op::{Answer, Op};

/// The most writes of a commit.
const MOST_WRITES: u8 = 62;

/// Leaves a transaction, and makes the writes of the commit if one begins (xv6: `end_op` with its `commit`).
#[derive(Clone, Copy, Drop)]
pub enum Finish {
    Leave,
    /// So many writes at most, and one at least.
    Commit(u8),
}

impl Control for Finish {
    type Out = ();

    ghost Value = { Unit {0} };

    ghost value = { λ _ _ _. tt };

    ghost left = { finish_left };

    ghost asked = { finish_asked };

    ghost Ready = { FinishReady };

    ghost Ends = { λ _ h. h.txn ≡ None };

    ghost Tells = { λ _ _ _ _ _ _. Unit {0} };

    fn op(&self, hand: &mut Hand) -> Op {
        match self {
            Finish::Leave => Op::Leave,
            Finish::Commit(_) => Op::Commit,
        }
    }

    #[inline(always)]
    fn next(&mut self, answer: &Answer, hand: &mut Hand) -> Option<()>
        requires came { (before : HandState) × FinishReady self.old before × IsAfter (finish_asked self.old) before answer.now hand.old }
        ensures goes { (before : HandState) → FinishReady self.old before → IsAfter (finish_asked self.old) before answer.now hand.old
            → Goes (finish_left self.old before) (answer_in (finish_asked self.old) answer.now hand.old)
            (left_after finish_left (λ _ _. tt) result self.new hand.new) }
        ensures ready { IfNone result (FinishReady self.new hand.new) }
        ensures ends { IfSome result (λ _. hand.new.txn ≡ None) }
        ensures hand { bare hand.new ≡ bare hand.old }
        ensures same { hand.new ≡ hand.old }
        ensures rest { (before : HandState) → FinishReady self.old before → IsAfter (finish_asked self.old) before answer.now hand.old
            → with_txn None hand.old ≡ with_txn None before }
    {
        match *self {
            Finish::Leave => {
                if answer.yes() {
                    *self = Finish::Commit(MOST_WRITES);
                    None
                } else {
                    Some(())
                }
            }
            Finish::Commit(left) => {
                if answer.yes() {
                    Some(())
                } else if left == 1 {
                    Some(())
                } else {
                    *self = Finish::Commit(left - 1);
                    None
                }
            }
        }
    }
}
