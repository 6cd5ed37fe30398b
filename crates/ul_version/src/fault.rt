//! Why a text gives no version.
ghost use Rattle.std.specs.Prelude.{◌≡◌};

use std::alloc::{AllocError, AllocFailed};

/// Why a text gives no version.
#[derive(Clone, Copy, PartialEq, Eq)]
pub enum VersionFault {
    /// The text is no version.
    NoReading,
    /// Memory ran out, which says nothing of the text.
    NoMemory,
}

impl From<AllocError> for VersionFault {
    ghost use Rattle.std.specs.Prelude.{◌≡◌};
    ghost use Rattle.ul_version.specs.declared.fault.VersionFault.TheVariants.{NoMemory};

    ghost from_gives = { λ _ e. e ≡ NoMemory };

    fn from(_: AllocError) -> VersionFault {
        VersionFault::NoMemory
    }
}

impl<T: Drop> From<AllocFailed<T>> for VersionFault {
    ghost use Rattle.std.specs.Prelude.{◌≡◌};
    ghost use Rattle.ul_version.specs.declared.fault.VersionFault.TheVariants.{NoMemory};

    ghost from_gives = { λ _ e. e ≡ NoMemory };

    fn from(_e: AllocFailed<T>) -> VersionFault {
        VersionFault::NoMemory
    }
}
