//! Where bytes go.
ghost use Rattle.std.specs.Prelude.{◌≡◌, ◌∷◌, ◌++◌, [], ℕ, List, Option};
ghost use Rattle.ul_files.specs.Sinks.{WriteCause};

use std::alloc::AllocError;

/// Why a write did not take the whole piece.
#[derive(Clone, Copy, Debug, PartialEq, Eq)]
pub enum SinkRefused {
    /// The write failed, and the count of faults rose.
    Failed,
    /// Memory ran out, and nothing was written.
    NoMemory,
}

impl From<AllocError> for SinkRefused {
    ghost use Rattle.std.specs.Prelude.{◌≡◌};
    ghost use Rattle.ul_files.specs.declared.sink.SinkRefused.TheVariants.{NoMemory};

    ghost from_gives = { λ _ e. e ≡ NoMemory };

    fn from(_: AllocError) -> Self {
        SinkRefused::NoMemory
    }
}

/// Where bytes go.
pub trait Sink {
    /// The bytes written so far, where they are told.
    ghost bytes: { Self → Option (List ℕ) };

    /// How often a write has failed. The count never falls, and stands still at its type's end.
    ghost faults: { Self → ℕ };

    /// The pieces that the sink was given, in their order, whatever it answered. All sinks keep this record.
    ghost given: { Self → List (List ℕ) };

    /// Writes all of a piece.
    ///
    /// `Failed` comes only where the count of faults rose in this call, or stands at its last value; a prefix of the
    /// piece was then written. Every other answer leaves the count as it was. `NoMemory` writes nothing.
    fn write_all(&mut self, piece: &[u8]) -> Result<(), SinkRefused>
        ensures recorded { given self.new ≡ given self.old ++ piece.now ∷ [] }
        ensures cause { WriteCause (faults self.old) (faults self.new)
            (bytes self.old) (bytes self.new) piece.now result };
}
