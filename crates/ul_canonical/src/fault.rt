//! Why the canonical texts of a file's markers aren't told.
ghost use Rattle.std.specs.Prelude.{◌≡◌};
ghost use Rattle.ul_canonical.specs.declared.fault.CanonicalFault.TheVariants.{NoMemory};

use std::alloc::AllocError;

/// Why the canonical texts of a file's markers aren't told.
#[derive(Debug, Drop)]
pub enum CanonicalFault {
    /// The first line, from 1, that is neither `*` nor `never` nor a marker of a lock, or that has no LF.
    Line(u64),
    /// The file has more than 256 different opaque comparisons.
    TooManyComparisons,
    /// A marker isn't printed, since it has more than 4,096 paths to true or one with more than 512 nodes.
    TooManyPaths,
    /// The text is longer than `ul_lock_write::TEXT_BYTES`.
    TooLong,
    /// Memory ran out.
    NoMemory,
}

impl From<AllocError> for CanonicalFault {
    ghost from_gives = { λ _ e. e ≡ NoMemory };

    fn from(_e: AllocError) -> CanonicalFault {
        CanonicalFault::NoMemory
    }
}
