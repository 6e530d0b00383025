//! Why there is no report.
ghost use Rattle.std.specs.Prelude.{◌≡◌};

use image_tree::MountFault;
use std::alloc::AllocError;
use std::io;
use thiserror::Error;

/// Why there is no report, or not the whole of it.
#[derive(Debug, Drop, Error)]
pub enum ReportFault {
    /// The image isn't taken.
    #[error("refused {} {}", .0.number(), .0.name())]
    Image(MountFault),
    /// The path names nothing.
    #[error("no such file or directory in the image")]
    NoPath,
    /// The path names a directory or a device.
    #[error("not a file")]
    NoFile,
    /// The number is above those of the image's inodes.
    #[error("no such inode in the image")]
    NoInode,
    /// The number is no directory's that has a name.
    #[error("not a directory of the image's tree")]
    NoDirectory,
    /// The report can't be written.
    #[error("the report can't be written: {0}")]
    Write(io::Error),
    /// There are 2^64 lines or more. The tree of a well-formed image has none so many.
    #[error("too many lines")]
    TooLong,
    #[error("no memory")]
    Memory,
}

impl From<AllocError> for ReportFault {
    ghost use Rattle.std.specs.Prelude.{◌≡◌};
    ghost use Rattle.image_reports.specs.declared.fault.ReportFault.TheVariants.{Memory};

    ghost from_gives = { λ _ e. e ≡ Memory };

    fn from(_error: AllocError) -> ReportFault {
        ReportFault::Memory
    }
}

impl From<MountFault> for ReportFault {
    ghost use Rattle.std.specs.Prelude.{◌≡◌};
    ghost use Rattle.image_reports.specs.Faults.{of_mount};

    ghost from_gives = { λ fault e. e ≡ of_mount fault };

    fn from(fault: MountFault) -> ReportFault {
        match fault {
            MountFault::NoMemory => ReportFault::Memory,
            fault => ReportFault::Image(fault),
        }
    }
}
