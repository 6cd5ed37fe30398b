//! What is wrong with a file, and the refusal that is made of it.
//!
//! Each fault of a reader becomes one of these without an allocator, so that none is called want of memory. Memory is
//! taken, and may run out, where a text is made.
ghost use Rattle.std.specs.Prelude.{◌≡◌, ◌++◌, IfOk, Some, codes, string_bytes};
ghost use Rattle.std.specs.Fmt.{decimal};
ghost use Rattle.ul_index.specs.Places.{place_text};
ghost use Rattle.ul_project.specs.Paths.{path_text};
ghost use Rattle.ul_inputs.specs.Refused as refused;
ghost use Rattle.ul_inputs.specs.Refusals.{IsRefusalFor};
ghost use Rattle.ul_inputs.specs.FileFaults as spec;

use crate::refusal::Refusal;
use std::alloc::{AllocError, Global};
use ul_index::Place;
use ul_project::ProjectPath;

/// A place of a file that has no reading, before its text is made.
#[derive(Drop)]
pub enum FilePlace {
    /// A place with this text.
    Fixed(&'static str),
    /// A place with a number, such as a line: the word before the number, and the number.
    Numbered(&'static str, u64),
    /// The key of a machine file that is missing.
    Missing(String),
    /// A place in a document of the index, which has another shape.
    Document(Place),
    /// A place in a project file: what is told of it, with a blank behind it, and the place.
    Project(&'static str, ProjectPath),
}

/// What is wrong with a file, before a text is made of it.
#[derive(Drop)]
pub enum FileFault {
    /// The file has no reading: the place in it.
    At(FilePlace),
    /// A count is above its limit: the limit's name and number.
    Limit(&'static str, u64),
    /// Memory ran out.
    NoMemory,
}

// The text of a place with a number.
fn numbered(alloc: Global, word: &str, number: u64) -> Result<String, AllocError>
    ensures { IfOk result (λ t. string_bytes t ≡ word.now ++ codes " " ++ decimal number) }
{
    let text = format!(in alloc; "{word} {number}")?;
    Ok(text)
}

// The text of a key that is missing.
fn missing(alloc: Global, key: &str) -> Result<String, AllocError>
    ensures { IfOk result (λ t. string_bytes t ≡ codes "missing " ++ key.now) }
{
    let text = format!(in alloc; "missing {key}")?;
    Ok(text)
}

// The text of a place in a document.
fn in_document(alloc: Global, place: Place) -> Result<String, AllocError>
    ensures { IfOk result (λ t. string_bytes t ≡ codes "shape " ++ place_text place) }
{
    let path = place.text(alloc)?;
    let text = format!(in alloc; "shape {path}")?;
    Ok(text)
}

// The text of a place in a project file.
fn in_project(alloc: Global, word: &str, path: &ProjectPath) -> Result<String, AllocError>
    ensures { IfOk result (λ t. string_bytes t ≡ word.now ++ path_text path.now) }
{
    let path = path.text(alloc)?;
    let text = format!(in alloc; "{word}{path}")?;
    Ok(text)
}

// The text of a place.
fn text_of(alloc: Global, place: &FilePlace) -> Result<String, AllocError>
    ensures { IfOk result (λ t. string_bytes t ≡ spec.text_of place.now) }
{
    match place {
        FilePlace::Fixed(text) => String::from_str(alloc, text),
        FilePlace::Numbered(word, number) => numbered(alloc, word, *number),
        FilePlace::Missing(key) => missing(alloc, key.as_str()),
        FilePlace::Document(place) => in_document(alloc, *place),
        FilePlace::Project(word, path) => in_project(alloc, word, path),
    }
}

// The refusal of the file at a path, at the place with this text.
fn malformed(alloc: Global, path: &str, place: String) -> Refusal
    ensures { IsRefusalFor (Some (refused.malformed path.now (string_bytes place))) result }
{
    match String::from_str(alloc, path) {
        Ok(path) => Refusal::Malformed(path, place),
        Err(_) => Refusal::NoMemory,
    }
}

// The refusal of the file at a path, at a place of it.
fn refused_at(alloc: Global, path: &str, place: FilePlace) -> Refusal
    ensures { IsRefusalFor (Some (refused.malformed path.now (spec.text_of place))) result }
{
    let text = text_of(alloc, &place);
    drop(place);
    match text {
        Ok(text) => malformed(alloc, path, text),
        Err(_) => Refusal::NoMemory,
    }
}

/// The refusal of the file at a path for its fault.
pub fn file_refusal(alloc: Global, path: &str, fault: FileFault) -> Refusal
    ensures { IsRefusalFor (spec.refused_file path.now fault) result }
{
    match fault {
        FileFault::At(place) => refused_at(alloc, path, place),
        FileFault::Limit(name, number) => Refusal::Limit(name, number),
        FileFault::NoMemory => Refusal::NoMemory,
    }
}
