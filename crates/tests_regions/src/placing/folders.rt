//! Folders of index documents that are made as they are read.
ghost use Rattle.std.specs.Prelude.{◌≢◌, None};
ghost use Rattle.ul_files.specs.Files.{IsWithin};

use std::alloc::{AllocError, Global};
use std::fmt::Write;
use ul_files::{Files, Noted, ReadRefused, Reads};

/// Documents of a text: parts between `|`, each a name and a colon, and then releases between `/`, each a version and,
/// behind an `@` each, the interpreters that it asks for and its requirements.
#[derive(Drop)]
pub struct Written<'a> {
    alloc: Global,
    text: &'a str,
    reads: Reads,
}

// The name that a path asks for.
fn name_in(path: &str) -> &str {
    let path = path.strip_prefix("ix/").unwrap_or(path);
    path.strip_suffix(".json").unwrap_or(path)
}

// What stands before an item of a list.
fn comma(json: &str) -> &'static str {
    if json.ends_with("[") { "" } else { ", " }
}

// Puts a list of texts, which commas separate.
fn push_list(json: &mut String, list: &str) -> Result<(), AllocError> {
    for text in list.split(',') {
        let comma = comma(json.as_str());
        write!(json, "{comma}\"{}\"", text.trim())?;
    }
    Ok(())
}

// Puts a release.
fn push_release(json: &mut String, release: &str) -> Result<(), AllocError> {
    let (version, rest) = release.split_once('@').unwrap_or((release, ""));
    let (python, requirements) = rest.split_once('@').unwrap_or((rest, ""));
    let (comma, version, python) = (comma(json.as_str()), version.trim(), python.trim());
    write!(
        json,
        "{comma}{{\"version\": \"{version}\", \"requires_python\": \"{python}\", \"requires_dist\": ["
    )?;
    if !requirements.is_empty() {
        push_list(json, requirements)?;
    }
    json.push_str("]}")
}

// The document of a name and its releases.
fn document(alloc: Global, name: &str, releases: &str) -> Result<String, AllocError> {
    let mut json = format!(in alloc; "{{\"name\": \"{name}\", \"versions\": [")?;
    for release in releases.split('/') {
        push_release(&mut json, release)?;
    }
    json.push_str("]}")?;
    Ok(json)
}

/// The answer to a read of a file with these bytes.
pub fn within(bytes: Vec<u8>, limit: u64) -> Result<Option<Vec<u8>>, ReadRefused>
    ensures within { IsWithin limit result }
    ensures sure { result ≢ Err ReadRefused.Failed }
{
    if bytes.len() as u64 > limit {
        return Err(ReadRefused::TooLong);
    }
    Ok(Some(bytes))
}

impl<'a> Written<'a> {
    /// The folder of a text, with no read so far.
    pub fn new(alloc: Global, text: &'a str) -> Written<'a> {
        Written {
            alloc,
            text,
            reads: Reads::new(),
        }
    }

    // The answer to a read.
    fn answer(&self, path: &str, limit: u64) -> Result<Option<Vec<u8>>, ReadRefused>
        ensures within { IsWithin limit result }
        ensures sure { result ≢ Err ReadRefused.Failed }
    {
        let wanted = name_in(path);
        for part in self.text.split('|') {
            let (name, releases) = part.split_once(':').unwrap_or((part, ""));
            if name.trim() == wanted {
                let json = document(self.alloc, wanted, releases)?;
                return within(json.into_bytes(), limit);
            }
        }
        Ok(None)
    }
}

impl<'a> Files for Written<'a> {
    ghost use Rattle.std.proofs.lemmas.Option.{none-some};

    ghost map = { λ _. None };

    ghost faults = { λ _. 0 };

    ghost last_failed = { λ _. None };

    ghost reads = { λ w. w.reads.list };

    ghost agrees = { λ _ m e. absurd (none-some m e) };

    fn read(&mut self, path: &str, limit: u64) -> Result<Option<Vec<u8>>, ReadRefused> {
        let answer = self.answer(path, limit);
        self.reads = self.reads.with(&Noted {
            path,
            limit,
            answer: &answer,
        });
        answer
    }
}
