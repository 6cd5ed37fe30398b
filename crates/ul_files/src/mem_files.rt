//! Files in memory of which reads fail.
ghost use Rattle.std.specs.Prelude.{◌≡◌, ◌∷◌, ◌++◌, [], None, Some, string_bytes, option_map};
ghost use Rattle.ul_files.specs.Files.{FileMap, IsWithin, ReadCause, Remembers, Tells, files_of, read_of};
ghost use Rattle.ul_files.specs.MemFiles.{FilesState, MemAnswer, MemRead, reads_here, unread_files};

use crate::files::{Files, ReadRefused};
use crate::listed_files::ListedFiles;
use crate::reads::{Noted, Reads};
use std::alloc::Global;
use std::marker::Model;

/// Files in memory, of which the reads of given numbers fail. The first read that doesn't fail makes an index of the
/// paths.
///
/// A clause sees the map, the numbers of the reads that fail, how many reads there were and how many of them failed
/// (both stand still at their type's end), the path of the last that failed, and the reads.
#[derive(Drop)]
pub struct MemFiles {
    alloc: Global,
    files: ListedFiles,
    failing: Vec<u64>,
    calls: u64,
    faults: u64,
    last: Option<String>,
    reads: Reads,
}

impl Model for MemFiles {
    ghost Value = { FilesState };

    ghost view = { λ s. record {
      files = s.files;
      failing = s.failing.items;
      calls = s.calls;
      faults = s.faults;
      last = option_map string_bytes s.last;
      reads = s.reads.list;
    } };
}

impl MemFiles {
    /// The files of a list, of which the first pair of a path counts; the reads whose numbers, from 0, stand in
    /// `failing` fail, and no other.
    pub fn of(alloc: Global, list: Vec<(String, Vec<u8>)>, failing: Vec<u64>) -> MemFiles
        ensures { result ≡ unread_files (files_of list.items) failing.items }
    {
        MemFiles {
            alloc,
            files: ListedFiles::of(list),
            failing,
            calls: 0,
            faults: 0,
            last: None,
            reads: Reads::new(),
        }
    }

    // Answers from the list. It copies the path before it answers `Failed`, so that it can answer `NoMemory` there.
    fn answer(&mut self, path: &str, limit: u64) -> Result<Option<Vec<u8>>, ReadRefused>
        ensures told { Tells self.old.files path.now limit result }
        ensures cause { ReadCause self.old.faults self.new.faults self.old.last self.new.last path.now result }
        ensures exact { MemAnswer self.old self.new path.now result }
    {
        let fails = self.failing.contains(&self.calls);
        self.calls = self.calls.saturating_add(1);
        if fails {
            let copy = String::from_str(self.alloc, path)?;
            self.last = Some(copy);
            self.faults = self.faults.saturating_add(1);
            return Err(ReadRefused::Failed);
        }
        self.files.answer(self.alloc, path, limit)
    }
}

impl Files for MemFiles {
    ghost use Rattle.ul_files.specs.ReadsHere.{here_agrees};

    ghost map = { λ s. Some s.files };

    ghost faults = { λ s. s.faults };

    ghost last_failed = { λ s. s.last };

    ghost reads = { λ s. reads_here s.files s.reads };

    ghost agrees = { λ s m e. here_agrees s.files m s.reads e };

    /// Answers from the list, and notes the read.
    fn read(&mut self, path: &str, limit: u64) -> Result<Option<Vec<u8>>, ReadRefused>
        ensures told { Tells self.old.files path.now limit result }
        ensures same { self.new.files ≡ self.old.files }
        ensures recorded { reads_here self.new.files self.new.reads
            ≡ reads_here self.old.files self.old.reads ++ read_of path.now limit result ∷ [] }
        ensures grown { Remembers (reads_here self.old.files self.old.reads) (reads_here self.new.files self.new.reads) }
        ensures within { IsWithin limit result }
        ensures cause { ReadCause self.old.faults self.new.faults self.old.last self.new.last path.now result }
        ensures exact { MemRead self.old self.new path.now limit result }
    {
        let answer = self.answer(path, limit);
        self.reads = self.reads.with(&Noted {
            path,
            limit,
            answer: &answer,
        });
        answer
    }
}
