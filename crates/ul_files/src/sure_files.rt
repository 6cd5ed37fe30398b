//! Files in memory that never fail.
ghost use Rattle.std.specs.Prelude.{◌≡◌, ◌≢◌, ◌∷◌, ◌++◌, [], None, Some, Err};
ghost use Rattle.ul_files.specs.Files.{FileMap, IsWithin, ReadCause, Remembers, Tells, files_of, read_of};
ghost use Rattle.ul_files.specs.MemFiles.{SureState, reads_here, sure_files};

use crate::files::{Files, ReadRefused};
use crate::listed_files::ListedFiles;
use crate::reads::{Noted, Reads};
use std::alloc::Global;
use std::marker::Model;

/// Files in memory that never fail.
///
/// A clause sees the map and the reads.
#[derive(Drop)]
pub struct SureFiles {
    alloc: Global,
    files: ListedFiles,
    reads: Reads,
}

impl Model for SureFiles {
    ghost Value = { SureState };

    ghost view = { λ s. record { files = s.files; reads = s.reads.list } };
}

impl SureFiles {
    /// The files of a list, of which the first pair of a path counts. No read fails.
    pub fn of(alloc: Global, list: Vec<(String, Vec<u8>)>) -> SureFiles
        ensures { result ≡ sure_files (files_of list.items) }
    {
        SureFiles {
            alloc,
            files: ListedFiles::of(list),
            reads: Reads::new(),
        }
    }
}

impl Files for SureFiles {
    ghost use Rattle.ul_files.specs.ReadsHere.{here_agrees};

    ghost map = { λ s. Some s.files };

    ghost faults = { λ _. 0 };

    ghost last_failed = { λ _. None };

    ghost reads = { λ s. reads_here s.files s.reads };

    ghost agrees = { λ s m e. here_agrees s.files m s.reads e };

    /// Answers from the list, notes the read, and never answers `Failed`: the count of faults is 0 for good.
    fn read(&mut self, path: &str, limit: u64) -> Result<Option<Vec<u8>>, ReadRefused>
        ensures told { Tells self.old.files path.now limit result }
        ensures same { self.new.files ≡ self.old.files }
        ensures recorded { reads_here self.new.files self.new.reads
            ≡ reads_here self.old.files self.old.reads ++ read_of path.now limit result ∷ [] }
        ensures grown { Remembers (reads_here self.old.files self.old.reads) (reads_here self.new.files self.new.reads) }
        ensures within { IsWithin limit result }
        ensures cause { ReadCause 0 0 None None path.now result }
        ensures sure { result ≢ Err ReadRefused.Failed }
    {
        let answer = self.files.answer(self.alloc, path, limit);
        self.reads = self.reads.with(&Noted {
            path,
            limit,
            answer: &answer,
        });
        answer
    }
}
