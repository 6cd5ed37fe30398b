//! Files that tests load from, and of which nothing is told.

ghost use Rattle.std.specs.Prelude.{◌≢◌, None};
ghost use Rattle.ul_files.specs.Files.{IsWithin};

use std::alloc::Global;
use tests_rows::put;
use ul_files::{Files, MemFiles, Noted, ReadRefused, Reads};

/// Files in memory whose contents aren't told.
#[derive(Drop)]
pub struct Untold {
    pub files: MemFiles,
}

impl Files for Untold {
    ghost use Rattle.std.proofs.lemmas.Option.{none-some};
    ghost use Rattle.ul_files.specs.MemFiles.{reads_here};

    ghost map = { λ _. None };

    ghost faults = { λ u. u.files.faults };

    ghost last_failed = { λ u. u.files.last };

    ghost reads = { λ u. reads_here u.files.files u.files.reads };

    ghost agrees = { λ _ m e. absurd (none-some m e) };

    fn read(&mut self, path: &str, limit: u64) -> Result<Option<Vec<u8>>, ReadRefused> {
        self.files.read(path, limit)
    }
}

/// A folder that has a document of one release for each name that begins with `d`, and no other. The documents are
/// padded with blanks to `size` bytes, and there is a further byte behind that of the name `d-long`.
#[derive(Drop)]
pub struct Padded {
    alloc: Global,
    size: usize,
    reads: Reads,
}

impl Padded {
    /// The folder, with no read so far.
    pub fn new(alloc: Global, size: usize) -> Padded {
        Padded {
            alloc,
            size,
            reads: Reads::new(),
        }
    }

    // The answer to a read.
    fn answer(&self, path: &str, limit: u64) -> Result<Option<Vec<u8>>, ReadRefused>
        ensures within { IsWithin limit result }
        ensures sure { result ≢ Err ReadRefused.Failed }
    {
        let Some(name) = name_in(path) else {
            return Ok(None);
        };
        let bytes = padded_text(self.alloc, name, self.size);
        if bytes.len() as u64 > limit {
            return Err(ReadRefused::TooLong);
        }
        Ok(Some(bytes))
    }
}

// The name that a path asks for, where it begins with `d`.
fn name_in(path: &str) -> Option<&str> {
    let name = path.strip_prefix("ix/")?.strip_suffix(".json")?;
    if name.starts_with("d") {
        return Some(name);
    }
    None
}

fn put_blanks(alloc: Global, text: &mut String, size: usize) {
    if let Ok(blanks) = " ".repeat(alloc, size.saturating_sub(text.len())) {
        put(text, blanks.as_str());
    }
}

fn padded_text(alloc: Global, name: &str, size: usize) -> Vec<u8> {
    let mut text = String::new(alloc);
    put(&mut text, "{\"name\": \"");
    put(&mut text, name);
    put(&mut text, "\", \"versions\": [{\"version\": \"1\"}]}");
    put_blanks(alloc, &mut text, size);
    put(&mut text, if name == "d-long" { " " } else { "" });
    text.into_bytes()
}

impl Files for Padded {
    ghost use Rattle.std.proofs.lemmas.Option.{none-some};

    ghost map = { λ _. None };

    ghost faults = { λ _. 0 };

    ghost last_failed = { λ _. None };

    ghost reads = { λ p. p.reads.list };

    ghost agrees = { λ _ m e. absurd (none-some m e) };

    fn read(&mut self, path: &str, limit: u64) -> Result<Option<Vec<u8>>, ReadRefused> {
        let answer = self.answer(path, limit);
        self.reads = self.reads.with(&Noted {
            path,
            limit,
            answer: &answer,
        });
        answer
    }
}
