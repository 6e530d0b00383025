//! Why a script's threads didn't reach their end.
ghost use Rattle.std.specs.Prelude.{◌≡◌};
ghost use Rattle.console_threads.specs.Faults.{status_of};

use console::ConsoleFault;
use image_tree::MountFault;
use std::alloc::AllocError;
use thiserror::Error;

/// Why a script's threads didn't reach their end.
#[derive(Debug, Drop, Error)]
pub enum ThreadsFault {
    /// As without threads.
    #[error("{0}")]
    Console(ConsoleFault),
    /// The disk has failed, which one in memory does only after 2^64 - 1 calls.
    #[error("the disk has failed")]
    Device,
    /// The harts' replies differ from those in the run's list.
    #[error("the run isn't the one that its harts were told of")]
    Strange,
}

impl From<ConsoleFault> for ThreadsFault {
    ghost use Rattle.std.specs.Prelude.{◌≡◌};
    ghost use Rattle.console_threads.specs.declared.fault.ThreadsFault.TheVariants.{Console};

    ghost from_gives = { λ fault e. e ≡ Console fault };

    fn from(fault: ConsoleFault) -> ThreadsFault {
        ThreadsFault::Console(fault)
    }
}

impl From<AllocError> for ThreadsFault {
    ghost use Rattle.std.specs.Prelude.{◌≡◌};
    ghost use Rattle.console_threads.specs.Vocabulary.{Memory};
    ghost use Rattle.console_threads.specs.declared.fault.ThreadsFault.TheVariants.{Console};

    ghost from_gives = { λ _ e. e ≡ Console Memory };

    fn from(_error: AllocError) -> ThreadsFault {
        ThreadsFault::Console(ConsoleFault::Memory)
    }
}

impl From<MountFault> for ThreadsFault {
    ghost use Rattle.std.specs.Prelude.{◌≡◌};
    ghost use Rattle.console_threads.specs.Faults.{of_mount};

    ghost from_gives = { λ fault e. e ≡ of_mount fault };

    fn from(fault: MountFault) -> ThreadsFault {
        match fault {
            MountFault::DeviceFault => ThreadsFault::Device,
            MountFault::NoMemory => ThreadsFault::Console(ConsoleFault::Memory),
            fault => ThreadsFault::Console(ConsoleFault::Image(fault)),
        }
    }
}

/// The exit status of a program whose threads ended so.
pub fn status(fault: &ThreadsFault) -> u8
    ensures { result ≡ status_of fault.now }
{
    match fault {
        ThreadsFault::Console(fault) => console::status(fault),
        ThreadsFault::Device | ThreadsFault::Strange => 3,
    }
}
