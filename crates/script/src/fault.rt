//! Why a line isn't read.
use crate::reason::Reason;
use std::alloc::AllocError;

/// It says nothing, and why; or memory was refused.
#[derive(Drop)]
pub enum LineFault {
    Bad(Reason),
    Memory,
}

impl From<AllocError> for LineFault {
    ghost use Rattle.std.specs.Prelude.{◌≡◌};
    ghost use Rattle.script.specs.declared.fault.LineFault.TheVariants.{Memory};

    ghost from_gives = { λ _ e. e ≡ Memory };

    fn from(_error: AllocError) -> LineFault {
        LineFault::Memory
    }
}
