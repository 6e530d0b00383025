//! The end of a call with a transaction.
ghost use Rattle.std.specs.Prelude.{◌≡◌, ℕ, List, Option, Some};
ghost use Rattle.image_versions.specs.declared.version.Version.{Version};
ghost use Rattle.whole_calls.specs.Vocabulary.{Reply, Call, Action, asks, hears, mark_at, marked_as, op_in, reply_to, stepped, IsNamed, P, free_all, say};
ghost use Rattle.whole_calls.specs.Ends.{after_free, ending_of, freeing_of};

use crate::dropping::Dropping;
use path_walk::{Ask, Heard, Mark, Numbers, Query};
use plain_tree::Answer;

/// An inode of the call's list is freed in a transaction of its own.
#[derive(Clone, Copy)]
pub enum Freeing {
    Join(u32),
    Take(u32),
    Frees(Dropping),
    Leave,
}

impl Freeing {
    pub fn ask(&self) -> Ask
        ensures asks { (path : List ℕ) (k : P Reply) → asks (freeing_of k self.now) ≡ Some (op_in path result) }
        ensures named { (v : Version) (path : List ℕ) → IsNamed v path result }
    {
        match self {
            Freeing::Join(_) => Ask::Join,
            Freeing::Take(n) => Ask::Take(*n, Query::Nothing),
            Freeing::Frees(dropping) => dropping.ask(),
            Freeing::Leave => Ask::Leave,
        }
    }

    /// Goes on in its place: true if the inode is freed, and the transaction left.
    pub fn step(&mut self, heard: &Heard) -> bool
        ensures { (text : List ℕ) (k : P Reply) → hears text (freeing_of k self.old) heard.now ≡ after_free k self.new result }
    {
        match self {
            Freeing::Join(n) => *self = Freeing::Take(*n),
            Freeing::Take(n) => *self = Freeing::Frees(Dropping::Free(*n)),
            Freeing::Frees(dropping) => {
                if dropping.step(heard) {
                    *self = Freeing::Leave;
                }
            }
            Freeing::Leave => return true,
        }
        false
    }

    pub fn mark(&self) -> Option<Mark>
        ensures { (s : Action) (k : P Reply) (heard : Heard) → mark_at (freeing_of k self.now) heard ≡ marked_as s result }
    {
        match self {
            Freeing::Frees(dropping) => dropping.mark(),
            _ => None,
        }
    }
}

/// What the call has in hand is given up; its transaction is left; the inodes of its list are freed; and it replies this.
#[derive(Clone, Copy)]
pub enum Ending {
    GivesTwo(Dropping, u32, Answer),
    Gives(Dropping, Answer),
    Leaves(Answer),
    Frees(Freeing, Answer),
    Says(Answer),
}

// The next inode of the list is freed, or the reply is given.
#[inline(always)]
fn free_next(at: &mut Ending, list: &mut Numbers, answer: Answer)
    ensures { (call : Call) → ending_of call list.new at.new ≡ free_all list.old (say (reply_to call answer)) }
{
    match list.take_first() {
        Some(n) => *at = Ending::Frees(Freeing::Join(n), answer),
        None => *at = Ending::Says(answer),
    }
}

impl Ending {
    #[inline(always)]
    pub fn ask(&self) -> Ask
        ensures asks { (path : List ℕ) (call : Call) (list : List ℕ) → asks (ending_of call list self.now) ≡ Some (op_in path result) }
        ensures named { (v : Version) (path : List ℕ) → IsNamed v path result }
    {
        match self {
            Ending::GivesTwo(dropping, _, _) | Ending::Gives(dropping, _) => dropping.ask(),
            Ending::Leaves(_) => Ask::Leave,
            Ending::Frees(freeing, _) => freeing.ask(),
            Ending::Says(_) => Ask::Say,
        }
    }

    /// Goes on in its place with what it hears: true if it has ended, with its answer left in `says`.
    #[inline(always)]
    pub fn step(&mut self, heard: &Heard, list: &mut Numbers, says: &mut Answer) -> bool
        ensures { (text : List ℕ) (call : Call)
            → hears text (ending_of call list.old self.old) heard.now ≡ stepped (ending_of call list.new self.new) call says.new result }
    {
        match self {
            Ending::GivesTwo(dropping, n, answer) => {
                if dropping.step(heard) {
                    *self = Ending::Gives(Dropping::UnlockInode(*n), *answer);
                }
            }
            Ending::Gives(dropping, answer) => {
                if dropping.step(heard) {
                    *self = Ending::Leaves(*answer);
                }
            }
            Ending::Leaves(answer) => {
                let answer = *answer;
                free_next(self, list, answer);
            }
            Ending::Frees(freeing, answer) => {
                if freeing.step(heard) {
                    let answer = *answer;
                    free_next(self, list, answer);
                }
            }
            Ending::Says(answer) => {
                *says = *answer;
                return true;
            }
        }
        false
    }

    pub fn mark(&self) -> Option<Mark>
        ensures { (s : Action) (call : Call) (list : List ℕ) (heard : Heard)
            → mark_at (ending_of call list self.now) heard ≡ marked_as s result }
    {
        match self {
            Ending::GivesTwo(dropping, _, _) => dropping.mark(),
            Ending::Gives(dropping, _) => dropping.mark(),
            Ending::Frees(freeing, _) => freeing.mark(),
            _ => None,
        }
    }
}
