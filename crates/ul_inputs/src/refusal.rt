//! Why an input is refused.
use std::alloc::{AllocError, AllocFailed, Global};

/// Why an input is refused.
#[derive(Drop)]
pub enum Refusal {
    /// A file has no reading: its path, and the place in it.
    Malformed(String, String),
    /// A count is above its limit: the limit's name and number.
    Limit(&'static str, u64),
    /// A read failed: the path.
    ReadFault(String),
    /// Memory ran out.
    NoMemory,
}

impl From<AllocError> for Refusal {
    ghost use Rattle.std.specs.Prelude.{◌≡◌};
    ghost use Rattle.ul_inputs.specs.declared.refusal.Refusal.TheVariants.{NoMemory};

    ghost from_gives = { λ _ e. e ≡ NoMemory };

    fn from(_: AllocError) -> Refusal {
        Refusal::NoMemory
    }
}

impl<T: Drop> From<AllocFailed<T>> for Refusal {
    ghost use Rattle.std.specs.Prelude.{◌≡◌};
    ghost use Rattle.ul_inputs.specs.declared.refusal.Refusal.TheVariants.{NoMemory};

    ghost from_gives = { λ _ e. e ≡ NoMemory };

    fn from(_: AllocFailed<T>) -> Refusal {
        Refusal::NoMemory
    }
}
