//! Why a search for damage ends early.
ghost use Rattle.std.specs.Prelude.{◌≡◌};

use block_device::Fault;
use std::alloc::AllocError;

/// Why a search for damage ends early. It says nothing of the image.
#[derive(Clone, Copy, PartialEq, Eq, Debug)]
pub enum SearchFault {
    /// A call of the device failed.
    DeviceFault,
    /// Memory was refused.
    NoMemory,
}

impl From<Fault> for SearchFault {
    ghost use Rattle.std.specs.Prelude.{◌≡◌};
    ghost use Rattle.damage_places.specs.declared.search_fault.SearchFault.TheVariants.{DeviceFault};

    ghost from_gives = { λ _ e. e ≡ DeviceFault };

    fn from(_fault: Fault) -> SearchFault {
        SearchFault::DeviceFault
    }
}

impl From<AllocError> for SearchFault {
    ghost use Rattle.std.specs.Prelude.{◌≡◌};
    ghost use Rattle.damage_places.specs.declared.search_fault.SearchFault.TheVariants.{NoMemory};

    ghost from_gives = { λ _ e. e ≡ NoMemory };

    fn from(_error: AllocError) -> SearchFault {
        SearchFault::NoMemory
    }
}
