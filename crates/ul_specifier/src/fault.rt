//! Why a text gives no specifier.
ghost use Rattle.std.specs.Prelude.{◌≡◌};

use std::alloc::{AllocError, AllocFailed};

/// Why a text gives no specifier.
#[derive(Clone, Copy, PartialEq, Eq, Debug)]
pub enum SpecFault {
    /// The text is no specifier.
    NoReading,
    /// Memory ran out, which says nothing of the text.
    NoMemory,
}

impl From<AllocError> for SpecFault {
    ghost use Rattle.std.specs.Prelude.{◌≡◌};
    ghost use Rattle.ul_specifier.specs.declared.fault.SpecFault.TheVariants.{NoMemory};

    ghost from_gives = { λ _ e. e ≡ NoMemory };

    fn from(_: AllocError) -> SpecFault {
        SpecFault::NoMemory
    }
}

impl<T: Drop> From<AllocFailed<T>> for SpecFault {
    ghost use Rattle.std.specs.Prelude.{◌≡◌};
    ghost use Rattle.ul_specifier.specs.declared.fault.SpecFault.TheVariants.{NoMemory};

    ghost from_gives = { λ _ e. e ≡ NoMemory };

    fn from(_e: AllocFailed<T>) -> SpecFault {
        SpecFault::NoMemory
    }
}
