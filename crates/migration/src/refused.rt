//! Why an image was not migrated.
ghost use Rattle.std.specs.Prelude.{◌≡◌};
ghost use Rattle.migration.specs.Refusals.{name_of, number_of};

use block_device::Fault;
use image_tree::MountFault;
use std::alloc::AllocError;

/// Why an image was not migrated. If several reasons hold, the answer is the first in the order below. A failure of
/// the device, or want of memory, is a fault too, and may come at any time.
#[derive(Debug, Clone, Copy, PartialEq, Eq)]
pub enum MigrateRefused {
    /// The old image is damaged, its device failed, or memory was refused.
    Fault(MountFault),
    /// The version is not above that of the old image.
    AlreadyNew,
    /// The new image has too many blocks, or what comes before the nodes' blocks and the root's own don't fit.
    BadSizes,
    /// A directory has more slots than one of the new version may have.
    DirectoryTooBig,
    /// The nodes' blocks don't fit.
    NoBlocks,
}

impl From<MountFault> for MigrateRefused {
    ghost use Rattle.std.specs.Prelude.{◌≡◌};
    ghost use Rattle.migration.specs.declared.refused.MigrateRefused.TheVariants.{Fault};

    ghost from_gives = { λ f e. e ≡ Fault f };

    fn from(fault: MountFault) -> MigrateRefused {
        MigrateRefused::Fault(fault)
    }
}

impl From<Fault> for MigrateRefused {
    ghost use Rattle.std.specs.Prelude.{◌≡◌};
    ghost use Rattle.image_tree.specs.declared.fault.MountFault.TheVariants.{DeviceFault};
    ghost use Rattle.migration.specs.declared.refused.MigrateRefused.TheVariants.{Fault};

    ghost from_gives = { λ _ e. e ≡ Fault DeviceFault };

    fn from(_fault: Fault) -> MigrateRefused {
        MigrateRefused::Fault(MountFault::DeviceFault)
    }
}

impl From<AllocError> for MigrateRefused {
    ghost use Rattle.std.specs.Prelude.{◌≡◌};
    ghost use Rattle.image_tree.specs.declared.fault.MountFault.TheVariants.{NoMemory};
    ghost use Rattle.migration.specs.declared.refused.MigrateRefused.TheVariants.{Fault};

    ghost from_gives = { λ _ e. e ≡ Fault NoMemory };

    fn from(_error: AllocError) -> MigrateRefused {
        MigrateRefused::Fault(MountFault::NoMemory)
    }
}

impl MigrateRefused {
    /// The refusal's number, as programs print it.
    pub fn number(self) -> u32
        ensures { result ≡ number_of self }
    {
        match self {
            MigrateRefused::Fault(fault) => u32::from(fault.number()),
            MigrateRefused::AlreadyNew => 87,
            MigrateRefused::BadSizes => 81,
            MigrateRefused::DirectoryTooBig => 88,
            MigrateRefused::NoBlocks => 84,
        }
    }

    /// The refusal's name, as programs print it.
    pub fn name(self) -> &'static str
        ensures { result.now ≡ name_of self }
    {
        match self {
            MigrateRefused::Fault(fault) => fault.name(),
            MigrateRefused::AlreadyNew => "AlreadyNew",
            MigrateRefused::BadSizes => "BadSizes",
            MigrateRefused::DirectoryTooBig => "DirectoryTooBig",
            MigrateRefused::NoBlocks => "NoBlocks",
        }
    }
}
