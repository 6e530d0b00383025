//! Why a script didn't reach its end.
ghost use Rattle.std.specs.Prelude.{◌≡◌};
ghost use Rattle.console.specs.Faults.{status_of};

use crate::numbers::{stop_name, stop_number};
use hart_core::Stop;
use image_tree::MountFault;
use script::{Reason, ScriptFault};
use std::alloc::AllocError;
use std::io;
use thiserror::Error;

/// Why a script can't be read.
#[derive(Debug, Drop, Error)]
pub enum Unread {
    /// It has more bytes than this.
    #[error("it is longer than {0} bytes")]
    TooLong(u64),
    #[error("{0}")]
    Input(io::Error),
}

/// Why a script didn't reach its end.
#[derive(Debug, Drop, Error)]
pub enum ConsoleFault {
    /// The image isn't taken.
    #[error("refused {} {}", .0.number(), .0.name())]
    Image(MountFault),
    #[error("the script can't be read: {0}")]
    Read(Unread),
    /// An answer can't be written.
    #[error("an answer can't be written: {0}")]
    Write(io::Error),
    /// The line, counted from 1, is no command, and why, so that no line was run.
    #[error("line {0}: bad command\n{1}")]
    Line(u64, Reason),
    /// A call was stopped, and its line printed.
    #[error("stopped {} {}", stop_number(*.0), stop_name(*.0))]
    Stopped(Stop),
    #[error("no memory")]
    Memory,
}

impl From<AllocError> for ConsoleFault {
    ghost use Rattle.std.specs.Prelude.{◌≡◌};
    ghost use Rattle.console.specs.declared.fault.ConsoleFault.TheVariants.{Memory};

    ghost from_gives = { λ _ e. e ≡ Memory };

    fn from(_error: AllocError) -> ConsoleFault {
        ConsoleFault::Memory
    }
}

impl From<MountFault> for ConsoleFault {
    ghost use Rattle.std.specs.Prelude.{◌≡◌};
    ghost use Rattle.console.specs.Faults.{of_mount};

    ghost from_gives = { λ fault e. e ≡ of_mount fault };

    fn from(fault: MountFault) -> ConsoleFault {
        match fault {
            MountFault::NoMemory => ConsoleFault::Memory,
            fault => ConsoleFault::Image(fault),
        }
    }
}

impl From<ScriptFault> for ConsoleFault {
    ghost use Rattle.std.specs.Prelude.{◌≡◌};
    ghost use Rattle.console.specs.Faults.{of_script};

    ghost from_gives = { λ fault e. e ≡ of_script fault };

    fn from(fault: ScriptFault) -> ConsoleFault {
        match fault {
            ScriptFault::Line(number, reason) => ConsoleFault::Line(number, reason),
            ScriptFault::Memory => ConsoleFault::Memory,
        }
    }
}

/// The exit status of a program whose script ended so.
pub fn status(fault: &ConsoleFault) -> u8
    ensures { result ≡ status_of fault.now }
{
    match fault {
        ConsoleFault::Image(_) | ConsoleFault::Read(_) | ConsoleFault::Write(_) => 1,
        ConsoleFault::Line(..) => 2,
        ConsoleFault::Stopped(_) | ConsoleFault::Memory => 3,
    }
}
