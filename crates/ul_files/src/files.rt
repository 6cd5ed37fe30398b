//! Files by their paths.
ghost use Rattle.std.specs.Prelude.{◌≡◌, ◌∷◌, ◌++◌, [], ℕ, List, Option, Some};
ghost use Rattle.ul_files.specs.Files.{Agrees, FileMap, IsWithin, Read, ReadCause, Remembers, Tells, Told, read_of};

use std::alloc::AllocError;

/// Why a read gave no answer.
#[derive(Clone, Copy, Debug, PartialEq, Eq)]
pub enum ReadRefused {
    /// The read failed, and the count of faults rose.
    Failed,
    /// The file has more bytes than the limit.
    TooLong,
    /// Memory ran out.
    NoMemory,
}

impl From<AllocError> for ReadRefused {
    ghost use Rattle.std.specs.Prelude.{◌≡◌};
    ghost use Rattle.ul_files.specs.declared.files.ReadRefused.TheVariants.{NoMemory};

    ghost from_gives = { λ _ e. e ≡ NoMemory };

    fn from(_: AllocError) -> Self {
        ReadRefused::NoMemory
    }
}

/// Files by their paths, as far as the program sees them.
pub trait Files {
    /// The bytes at each path, where they are told: files in memory tell them, a real folder doesn't.
    ghost map: { Self → Option FileMap };

    /// How often a read has failed. The count never falls, and stands still at its type's end.
    ghost faults: { Self → ℕ };

    /// The path of the last read that answered `Failed`, where it is told. Once it is told it stays told.
    ghost last_failed: { Self → Option (List ℕ) };

    /// The reads so far, in their order, each with what it found. All files keep this record.
    ghost reads: { Self → List Read };

    /// Reads the file at `path`, of at most `limit` bytes.
    ///
    /// `Ok(None)` says that there is none. `Failed` comes only where the count of faults rose in this call, or
    /// stands at its last value, and every other answer leaves it as it was. Where the map is told, `TooLong` comes
    /// exactly where the file is longer than `limit`. `NoMemory` may come in place of any answer. The read goes on record
    /// behind those of before, whatever it answers.
    fn read(&mut self, path: &str, limit: u64) -> Result<Option<Vec<u8>>, ReadRefused>
        ensures told { Told (map self.old) (λ m. Tells m path.now limit result) }
        ensures same { map self.new ≡ map self.old }
        ensures recorded { reads self.new ≡ reads self.old ++ read_of path.now limit result ∷ [] }
        ensures grown { Remembers (reads self.old) (reads self.new) }
        ensures within { IsWithin limit result }
        ensures cause { ReadCause (faults self.old) (faults self.new)
            (last_failed self.old) (last_failed self.new) path.now result };

    /// Where the map is told, it agrees with what was read.
    ghost agrees: { (s : Self) (m : FileMap) → map s ≡ Some m → Agrees m (reads s) };
}
