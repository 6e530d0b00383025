//! Why an image is not taken.
ghost use Rattle.std.specs.Prelude.{◌≡◌};
ghost use Rattle.image_tree.specs.Faults.{damage_name, fault_name, fault_number};

use block_device::Fault;
use std::alloc::AllocError;

/// What is wrong with an image: the first check that fails, in the order of these lines.
#[derive(Clone, Copy, PartialEq, Eq, Debug)]
pub enum Damage {
    /// The device has fewer than 2 blocks, or fewer than the superblock says.
    TooShort = 51,
    /// The superblock has another magic number than its version's, or sizes that don't fit together.
    BadSuper = 52,
    /// The log's head names too many blocks, one outside inodes, bitmap and data, or one twice.
    BadLog = 53,
    /// An inode has an unknown type, or a negative count.
    BadType = 54,
    /// Inode 1 is no live directory.
    NoRoot = 62,
    /// An inode names a block that holds no data.
    BlockRange = 55,
    /// A block is named twice.
    BlockShared = 56,
    /// The bitmap shows a block in use as free.
    BlockUnmarked = 57,
    /// A size is above the limit, or has not all its blocks, or is no directory's.
    BadSize = 58,
    /// A live directory has a slot that is no entry, or not the one that belongs there, or it has a name twice.
    BadEntry = 59,
    /// The live directories are not one tree.
    NotATree = 60,
    /// A count isn't how often its node is named.
    LinkCount = 61,
}

/// Why an image is not taken.
#[derive(Clone, Copy, PartialEq, Eq, Debug)]
pub enum MountFault {
    /// The image is damaged. Its number is that of the damage.
    Damaged(Damage),
    /// A call of the device failed. Its number is 31.
    DeviceFault,
    /// Memory was refused. Its number is 33.
    NoMemory,
}

impl From<Fault> for MountFault {
    ghost use Rattle.std.specs.Prelude.{◌≡◌};
    ghost use Rattle.image_tree.specs.declared.fault.MountFault.TheVariants.{DeviceFault};

    ghost from_gives = { λ _ e. e ≡ DeviceFault };

    fn from(_fault: Fault) -> MountFault {
        MountFault::DeviceFault
    }
}

impl From<AllocError> for MountFault {
    ghost use Rattle.std.specs.Prelude.{◌≡◌};
    ghost use Rattle.image_tree.specs.declared.fault.MountFault.TheVariants.{NoMemory};

    ghost from_gives = { λ _ e. e ≡ NoMemory };

    fn from(_error: AllocError) -> MountFault {
        MountFault::NoMemory
    }
}

impl Damage {
    /// The name under which it is printed.
    pub fn name(&self) -> &'static str
        ensures { result.now ≡ damage_name self.now }
    {
        match self {
            Damage::TooShort => "TooShort",
            Damage::BadSuper => "BadSuper",
            Damage::BadLog => "BadLog",
            Damage::BadType => "BadType",
            Damage::NoRoot => "NoRoot",
            Damage::BlockRange => "BlockRange",
            Damage::BlockShared => "BlockShared",
            Damage::BlockUnmarked => "BlockUnmarked",
            Damage::BadSize => "BadSize",
            Damage::BadEntry => "BadEntry",
            Damage::NotATree => "NotATree",
            Damage::LinkCount => "LinkCount",
        }
    }
}

impl MountFault {
    /// The name under which it is printed.
    pub fn name(&self) -> &'static str
        ensures { result.now ≡ fault_name self.now }
    {
        match self {
            MountFault::Damaged(damage) => damage.name(),
            MountFault::DeviceFault => "DeviceFault",
            MountFault::NoMemory => "NoMemory",
        }
    }

    /// Its number, as programs print it.
    pub fn number(self) -> u8
        ensures { result ≡ fault_number self }
    {
        match self {
            MountFault::Damaged(damage) => damage as u8,
            MountFault::DeviceFault => 31,
            MountFault::NoMemory => 33,
        }
    }
}
