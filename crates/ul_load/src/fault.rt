//! Why there is no catalog.

use std::alloc::{AllocError, AllocFailed};
use ul_index::IndexFault;

/// Why there is no catalog: the first cause in the order in which documents are read.
#[derive(Drop)]
pub enum LoadFault {
    /// The read of the file at this path failed.
    Read(String),
    /// The document at this path isn't one of its name. The fault is never want of memory.
    Document(String, IndexFault),
    /// The document at this path has more than `FILE_BYTES` bytes.
    TooLong(String),
    /// The documents have more than `TOTAL_BYTES` bytes together.
    TooManyBytes,
    /// More than `PACKAGES` names are met.
    TooManyPackages,
    /// The documents list more than `RELEASES` releases.
    TooManyReleases,
    /// The project and the documents have more than `COMPARISONS` different opaque comparisons.
    TooManyAtoms,
    /// Memory ran out.
    NoMemory,
}

impl From<AllocError> for LoadFault {
    ghost use Rattle.std.specs.Prelude.{◌≡◌};
    ghost use Rattle.ul_load.specs.declared.fault.LoadFault.TheVariants.{NoMemory};

    ghost from_gives = { λ _ e. e ≡ NoMemory };

    fn from(_: AllocError) -> LoadFault {
        LoadFault::NoMemory
    }
}

impl<T: Drop> From<AllocFailed<T>> for LoadFault {
    ghost use Rattle.std.specs.Prelude.{◌≡◌};
    ghost use Rattle.ul_load.specs.declared.fault.LoadFault.TheVariants.{NoMemory};

    ghost from_gives = { λ _ e. e ≡ NoMemory };

    fn from(_: AllocFailed<T>) -> LoadFault {
        LoadFault::NoMemory
    }
}
