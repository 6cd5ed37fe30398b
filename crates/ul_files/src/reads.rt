//! Reads on record, which only clauses see: at run time a record takes no memory and does nothing.
ghost use Rattle.std.specs.Prelude.{◌≡◌, ◌∷◌, ◌++◌, [], List};
ghost use Rattle.std.specs.Borrow.{ftrue};
ghost use Rattle.ul_files.specs.Files.{Read, read_of};
ghost use Rattle.ul_files.specs.Records.{reads_code};

use crate::files::ReadRefused;
use std::marker::Model;

/// A read, and what it was answered.
#[derive(Clone, Copy, Drop)]
pub struct Noted<'a> {
    /// The path that was read.
    pub path: &'a str,
    /// The most bytes that were asked for.
    pub limit: u64,
    /// The answer.
    pub answer: &'a Result<Option<Vec<u8>>, ReadRefused>,
}

/// Reads, in their order. A clause sees them as `list`.
#[derive(Drop)]
pub struct Reads {
    pub ghost list: { List Read } by { reads_code },
}

impl Model for Reads {
    ghost also_owns = { λ _. ftrue };
}

impl Reads {
    /// No read so far.
    pub fn new() -> Reads
        ensures { result.list ≡ [] }
    {
        Reads {}
    }

    /// These reads, and one more.
    #[inline(always)]
    pub fn with(&self, _read: &Noted<'_>) -> Reads
        ensures { result.list ≡ self.now.list
            ++ read_of _read.now.path.now _read.now.limit _read.now.answer.now ∷ [] }
    {
        Reads {}
    }
}
