//! Why bytes are no index document of a name.

use crate::Place;
use std::alloc::{AllocError, AllocFailed};

/// Why bytes are no index document of a name.
#[derive(Clone, Copy)]
pub enum IndexFault {
    /// `serde_json` doesn't read the bytes.
    NotJson,
    /// The first place that has another shape than it should.
    Shape(Place),
    /// The document is that of another name, or of none.
    WrongName,
    /// Memory ran out, which says nothing of the bytes.
    NoMemory,
}

impl From<AllocError> for IndexFault {
    ghost use Rattle.std.specs.Prelude.{◌≡◌};
    ghost use Rattle.ul_index.specs.declared.fault.IndexFault.TheVariants.{NoMemory};

    ghost from_gives = { λ _ e. e ≡ NoMemory };

    fn from(_: AllocError) -> IndexFault {
        IndexFault::NoMemory
    }
}

impl<T: Drop> From<AllocFailed<T>> for IndexFault {
    ghost use Rattle.std.specs.Prelude.{◌≡◌};
    ghost use Rattle.ul_index.specs.declared.fault.IndexFault.TheVariants.{NoMemory};

    ghost from_gives = { λ _ e. e ≡ NoMemory };

    fn from(_: AllocFailed<T>) -> IndexFault {
        IndexFault::NoMemory
    }
}
