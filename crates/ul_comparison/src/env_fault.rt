//! Why bytes give no machine.
ghost use Rattle.std.specs.Prelude.{◌≡◌};

use std::alloc::{AllocError, AllocFailed};

/// Why bytes give no machine.
#[derive(Debug, Drop)]
pub enum EnvFault {
    /// The bytes aren't an object of JSON.
    NotJson,
    /// This key, the first of those that are wanted, is absent or has no text.
    Missing(String),
    /// `python_full_version` isn't three numbers below 2^32, joined by points.
    PythonForm,
    /// Memory ran out, which says nothing of the bytes.
    NoMemory,
}

impl From<AllocError> for EnvFault {
    ghost use Rattle.std.specs.Prelude.{◌≡◌};
    ghost use Rattle.ul_comparison.specs.declared.env_fault.EnvFault.TheVariants.{NoMemory};

    ghost from_gives = { λ _ e. e ≡ NoMemory };

    fn from(_: AllocError) -> EnvFault {
        EnvFault::NoMemory
    }
}

impl<T: Drop> From<AllocFailed<T>> for EnvFault {
    ghost use Rattle.std.specs.Prelude.{◌≡◌};
    ghost use Rattle.ul_comparison.specs.declared.env_fault.EnvFault.TheVariants.{NoMemory};

    ghost from_gives = { λ _ e. e ≡ NoMemory };

    fn from(_e: AllocFailed<T>) -> EnvFault {
        EnvFault::NoMemory
    }
}
