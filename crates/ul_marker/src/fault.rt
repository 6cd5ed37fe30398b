//! Why a text gives no marker.
ghost use Rattle.std.specs.Prelude.{◌≡◌};

use std::alloc::{AllocError, AllocFailed};

/// Why a text gives no marker.
#[derive(Clone, Copy)]
pub enum MarkerFault {
    /// The text is no marker.
    NoReading,
    /// Memory ran out, which says nothing of the text.
    NoMemory,
}

impl From<AllocError> for MarkerFault {
    ghost use Rattle.std.specs.Prelude.{◌≡◌};
    ghost use Rattle.ul_marker.specs.declared.fault.MarkerFault.TheVariants.{NoMemory};

    ghost from_gives = { λ _ e. e ≡ NoMemory };

    fn from(_: AllocError) -> MarkerFault {
        MarkerFault::NoMemory
    }
}

impl<T: Drop> From<AllocFailed<T>> for MarkerFault {
    ghost use Rattle.std.specs.Prelude.{◌≡◌};
    ghost use Rattle.ul_marker.specs.declared.fault.MarkerFault.TheVariants.{NoMemory};

    ghost from_gives = { λ _ e. e ≡ NoMemory };

    fn from(_e: AllocFailed<T>) -> MarkerFault {
        MarkerFault::NoMemory
    }
}
