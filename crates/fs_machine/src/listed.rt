//! References that a call keeps to its end.
ghost use Rattle.std.specs.Prelude.{◌≡◌, ◌<◌, List, [], ◌∷◌, ◌++◌, length, IfOk, MatchOption};

use crate::entries::Reference;
use crate::limits::MOST_LISTED;
use arrayvec::ArrayVec;
use sleep_lock::RetiredSlots;
use std::alloc::{AllocError, Global};
use std::marker::Model;

/// References that a call keeps: each is the last one to a dead inode, and the call frees the inode at its end. There is room for
/// one for each element of two paths, in memory of its own, so that who has it moves no more than where it is. A contract sees the
/// inodes' numbers.
///
/// Code that lets a list go doesn't compile: an empty one is ended, or any after the tables have ended.
pub struct Listed {
    numbers: Box<ArrayVec<u32, MOST_LISTED>>,
}

impl Model for Listed {
    ghost use Rattle.std.specs.Prelude.{ℕ, List};

    ghost Value = { List ℕ };

    ghost view = { λ l. l.numbers.value.items };
}

impl Listed {
    /// None yet, and the memory for all of them.
    pub fn new(alloc: Global) -> Result<Listed, AllocError>
        ensures { IfOk result (λ list. list ≡ []) }
    {
        let numbers = Box::new(alloc, ArrayVec::new())?;
        Ok(Listed { numbers })
    }

    /// One more, after the others.
    pub fn push(&mut self, reference: Reference)
        requires { length self.old < MOST_LISTED }
        ensures { self.new ≡ self.old ++ reference ∷ [] }
    {
        self.numbers.push(reference.end());
    }

    /// Takes the first one out.
    pub fn take_first(&mut self) -> Option<Reference>
        ensures { MatchOption result ((self.old ≡ []) × (self.new ≡ [])) (λ first. self.old ≡ first ∷ self.new) }
    {
        if self.numbers.is_empty() {
            None
        } else {
            Some(Reference::new(self.numbers.remove(0)))
        }
    }

    /// Ends an empty list.
    pub fn end(self)
        requires { self ≡ [] }
    {
        let Listed { numbers: _ } = self;
    }

    /// Ends a list once its table has ended.
    pub fn retire(self, _tables: &RetiredSlots) {
        let Listed { numbers: _ } = self;
    }
}
