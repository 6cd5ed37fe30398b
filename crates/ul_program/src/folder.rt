//! The file system.
use std::io::Read;
use std::{fs, io, rt};
use ul_edge::Opener;

/// The file system, which opens files by their paths.
#[derive(Drop)]
pub struct Folder<'a, R: rt::Files> {
    rt: &'a R,
}

impl<'a, R: rt::Files> Folder<'a, R> {
    /// The file system of a handle.
    pub fn of(rt: &'a R) -> Folder<'a, R> {
        Folder { rt }
    }
}

impl<R: rt::Files> Opener for Folder<'_, R>
where
    R::File: Read + Drop,
{
    ghost use Rattle.std.specs.Prelude.{⊤};

    type File = R::File;

    ghost opens = { λ _ _ _. ⊤ };

    /// The one call that opens a path. The system says nothing of it that a clause could tell.
    fn open(&self, path: &str) -> io::Result<R::File> {
        fs::open(self.rt, path)
    }
}
