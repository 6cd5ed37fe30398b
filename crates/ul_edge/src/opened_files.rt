//! Files that are opened by their paths.
ghost use Rattle.std.specs.Prelude.{◌≡◌, ◌∷◌, ◌++◌, [], None};
ghost use Rattle.ul_files.specs.Files.{IsWithin, ReadCause, Remembers, read_of};
ghost use Rattle.ul_edge.specs.PathReads.{IsReadOf, opener_of};

use crate::opened::read_opened;
use crate::opener::Opener;
use std::alloc::Global;
use ul_files::{Files, Noted, ReadRefused, Reads};

/// Files that are opened by their paths, such as those of the file system. They tell no content and no path that failed,
/// but they keep the record of reads, so what is proved over them speaks of what was read.
///
/// A file that isn't there is absent; every other failure, but a refused growth of memory, is a fault and is counted. At
/// the count's last value it stays there.
#[derive(Drop)]
pub struct OpenedFiles<O> {
    opener: O,
    alloc: Global,
    faults: u64,
    reads: Reads,
}

impl<O: Opener> OpenedFiles<O> {
    /// The files that are opened so, with no read so far.
    pub fn new(alloc: Global, opener: O) -> OpenedFiles<O>
        ensures opener { opener_of result ≡ opener }
        ensures faults { ⟦<OpenedFiles<O> as Files>⟧.faults result ≡ 0 }
        ensures reads { ⟦<OpenedFiles<O> as Files>⟧.reads result ≡ [] }
    {
        OpenedFiles {
            opener,
            alloc,
            faults: 0,
            reads: Reads::new(),
        }
    }
}

impl<O: Opener> Files for OpenedFiles<O> {
    ghost use Rattle.std.specs.Prelude.{None};
    ghost use Rattle.ul_edge.specs.NoMap.{no_map};

    ghost map = { λ _. None };

    ghost faults = { λ s. s.faults };

    ghost last_failed = { λ _. None };

    ghost reads = { λ s. s.reads.list };

    ghost agrees = { λ s m e. no_map m s.reads.list e };

    /// Opens this path once, has `read_opened` tell what the file holds, and notes the read.
    fn read(&mut self, path: &str, limit: u64) -> Result<Option<Vec<u8>>, ReadRefused>
        ensures opener { opener_of self.new ≡ opener_of self.old }
        ensures recorded { self.new.reads.list ≡ self.old.reads.list ++ read_of path.now limit result ∷ [] }
        ensures grown { Remembers self.old.reads.list self.new.reads.list }
        ensures within { IsWithin limit result }
        ensures cause { ReadCause self.old.faults self.new.faults None None path.now result }
        ensures opened { IsReadOf (O.opens (opener_of self.old) path.now) O.File.remaining limit result }
    {
        let opened = self.opener.open(path);
        let answer = read_opened(self.alloc, opened, limit, &mut self.faults);
        self.reads = self.reads.with(&Noted {
            path,
            limit,
            answer: &answer,
        });
        answer
    }
}
