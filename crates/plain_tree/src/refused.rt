//! Why the tree gives no answer.
use std::alloc::{AllocError, AllocFailed};

/// Memory is short. The request changed nothing.
#[derive(Clone, Copy, PartialEq, Eq, Debug)]
pub struct NoMemory;

/// What memory may be short for.
pub(crate) type Attempt<T = ()> = Result<T, NoMemory>;

impl From<AllocError> for NoMemory {
    fn from(_error: AllocError) -> NoMemory {
        NoMemory
    }
}

impl<T: Drop> From<AllocFailed<T>> for NoMemory {
    fn from(_error: AllocFailed<T>) -> NoMemory {
        NoMemory
    }
}

/// Why a step was not made. The tree is as it was.
#[derive(Clone, Copy, PartialEq, Eq, Debug)]
pub enum ApplyRefused {
    /// Memory is short for the step. A step may change a node whose number isn't below `ninodes`: in a tree of
    /// `Tree::of_nodes` a slot may have such a number. Then the step asks for the places up to that node too.
    NoMemory,
    /// The step makes a node, and its number is 0, past the last or already in the tree.
    BadChoice,
}

impl From<NoMemory> for ApplyRefused {
    ghost use Rattle.std.specs.Prelude.{◌≡◌};
    ghost use Rattle.plain_tree.specs.declared.refused.ApplyRefused.TheVariants.{NoMemory as OutOfMemory};

    ghost from_gives = { λ _ e. e ≡ OutOfMemory };

    fn from(_error: NoMemory) -> ApplyRefused {
        ApplyRefused::NoMemory
    }
}
