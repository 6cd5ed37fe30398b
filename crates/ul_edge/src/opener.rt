//! What opens files.
ghost use Rattle.std.specs.Prelude.{ℕ, List, Result};
ghost use Rattle.std.specs.declared.io.Error.{Error};

use std::io;
use std::io::Read;

/// What opens files by their paths, as a file system does.
pub trait Opener {
    /// A file that was opened.
    type File: Read + Drop;

    /// What opening a path may answer. Nothing above says of an answer that it is one but a call of `open` with that path.
    ghost opens: { Self → List ℕ → Result Self.File Error → Type 0 };

    /// Opens the file at a path for reading.
    fn open(&self, path: &str) -> io::Result<Self::File>
        ensures { opens self.now path.now result };
}
