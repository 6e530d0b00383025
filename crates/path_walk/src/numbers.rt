//! The inodes that a call frees at its end.
ghost use Rattle.std.specs.Prelude.{◌≡◌, ◌<◌, List, [], ◌∷◌, ◌++◌, length, IfOk, MatchOption};

use arrayvec::ArrayVec;
use std::alloc::{AllocError, Global};
use std::marker::Model;

/// One for each element of two paths.
pub const MOST_LISTED: usize = 128;

/// Numbers of dead inodes, each of whose last reference is the call's, in memory of their own.
#[derive(Drop)]
pub struct Numbers {
    numbers: Box<ArrayVec<u32, MOST_LISTED>>,
}

impl Model for Numbers {
    ghost use Rattle.std.specs.Prelude.{ℕ, List};

    ghost Value = { List ℕ };

    ghost view = { λ l. l.numbers.value.items };
}

impl Numbers {
    /// None yet, and the memory for all of them.
    pub fn new(alloc: Global) -> Result<Numbers, AllocError>
        ensures { IfOk result (λ list. list ≡ []) }
    {
        let numbers = Box::new(alloc, ArrayVec::new())?;
        Ok(Numbers { numbers })
    }

    /// None any more.
    pub fn clear(&mut self)
        ensures { self.new ≡ [] }
    {
        self.numbers.clear();
    }

    /// One more, after the others.
    pub fn push(&mut self, number: u32)
        requires { length self.old < MOST_LISTED }
        ensures { self.new ≡ self.old ++ number ∷ [] }
    {
        self.numbers.push(number);
    }

    /// Takes the first one out.
    #[inline(always)]
    pub fn take_first(&mut self) -> Option<u32>
        ensures { MatchOption result ((self.old ≡ []) × (self.new ≡ [])) (λ first. self.old ≡ first ∷ self.new) }
    {
        if self.numbers.is_empty() {
            None
        } else {
            Some(self.numbers.remove(0))
        }
    }
}
