//! References that wait for the end of a call.
ghost use Rattle.std.specs.Prelude.{◌≡◌, ◌<◌, ℕ, List, [], ◌∷◌, ◌++◌, length, IfOk, MatchOption};

use crate::{Listed, MOST_LISTED, Reference, RetiredCore};
use atomic_programs::machines::put;
use std::alloc::{AllocError, Global};
use std::marker::Model;
use std::mem;

/// Listed references, in order. The first one is at hand, so that its inode's lock can be waited for while it keeps its place. A contract
/// sees the inodes' numbers.
pub struct Queue {
    first: Option<Reference>,
    others: Listed,
}

impl Model for Queue {
    ghost use Rattle.std.specs.Prelude.{◌≡◌, ℕ, List, [], None};
    ghost use Rattle.fs_machine.specs.Queues.{queued};

    ghost Value = { List ℕ };

    ghost view = { λ q. queued q.first q.others };

    ghost invariant = { λ q. q.first ≡ None → q.others ≡ [] };
}

impl Queue {
    /// None yet, and the memory for all of them.
    pub fn new(alloc: Global) -> Result<Queue, AllocError>
        ensures { IfOk result (λ queue. queue ≡ []) }
    {
        let others = Listed::new(alloc)?;
        Ok(Queue {
            first: None,
            others,
        })
    }

    /// One more, after the others.
    pub(crate) fn push(&mut self, reference: Reference)
        requires { length self.old < MOST_LISTED }
        ensures { self.new ≡ self.old ++ reference ∷ [] }
    {
        match &self.first {
            None => put(&mut self.first, reference),
            Some(_) => self.others.push(reference),
        }
    }

    /// The first one.
    pub(crate) fn first(&self) -> Option<&Reference>
        ensures { MatchOption result (self.now ≡ []) (λ first. (rest : List ℕ) × (self.now ≡ first.now ∷ rest)) }
    {
        match &self.first {
            None => None,
            Some(first) => Some(first),
        }
    }

    /// Takes the first one out.
    pub(crate) fn take_first(&mut self) -> Option<Reference>
        ensures { MatchOption result ((self.old ≡ []) × (self.new ≡ [])) (λ first. self.old ≡ first ∷ self.new) }
    {
        let next = self.others.take_first();
        mem::replace(&mut self.first, next)
    }

    /// Ends an empty one.
    pub(crate) fn end(self)
        requires { self ≡ [] }
    {
        let Queue { first, others } = self;
        match first {
            None => others.end(),
            Some(_) => unreachable!(),
        }
    }

    /// Ends a queue in mid-call, after all that harts share has ended.
    pub(crate) fn retire(self, retired: &RetiredCore) {
        let Queue { first, others } = self;
        match first {
            Some(first) => first.retire(&retired.inodes),
            None => {}
        }
        others.retire(&retired.inodes);
    }
}
