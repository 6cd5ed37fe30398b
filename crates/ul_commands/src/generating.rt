//! A generated project: its files in memory, and the counts of its lock.
ghost use Rattle.std.specs.Prelude.{◌≡◌, ◌<◌, ◌≤◌, IfOk, Ok, string_bytes};
ghost use Rattle.ul_files.specs.Files.{files_of};
ghost use Rattle.ul_answers.specs.Views.{view};
ghost use Rattle.ul_commands.specs.Generating as spec;

use std::alloc::{AllocError, Global};
use ul_answers::Answer;
use ul_gen::{document_of, project_of};

/// Where the project file stands.
pub(crate) const PROJECT: &str = "pyproject.toml";

/// Where the index documents stand.
pub(crate) const INDEX: &str = "ix";

// The document of a package, at its path.
fn document(
    alloc: Global,
    seed: u64,
    size: u64,
    number: u64,
) -> Result<(String, Vec<u8>), AllocError>
    requires most { size ≤ 2000 }
    requires below { number < size }
    ensures { IfOk result (λ f. (string_bytes f.0, f.1.items) ≡ spec.document_file seed size number) }
{
    let path = format!(in alloc; "ix/g{number}.json")?;
    let bytes = document_of(alloc, seed, size, number)?;
    Ok((path, bytes))
}

/// The files of a generated project: the project file, and a document for each package.
///
/// # Errors
///
/// Only for want of memory.
pub(crate) fn files(
    alloc: Global,
    seed: u64,
    size: u64,
) -> Result<Vec<(String, Vec<u8>)>, AllocError>
    requires some { 1 ≤ size }
    requires most { size ≤ 2000 }
    ensures { IfOk result (λ v. files_of v.items ≡ spec.generated_files seed size) }
{
    let mut list = Vec::new(alloc);
    let path = String::from_str(alloc, PROJECT)?;
    let bytes = project_of(alloc, seed, size)?;
    list.push((path, bytes))?;
    for number in 0..size {
        let file = document(alloc, seed, size, number)?;
        list.push(file)?;
    }
    Ok(list)
}

/// An answer, with its counts in the place of a lock.
pub(crate) fn counted(answer: Answer) -> Answer
    ensures { (Ok (view result)) ≡ spec.counted_for (Ok (view answer)) }
{
    match answer {
        Answer::Locked { lock, forks } => Answer::Counted { lock, forks },
        other => other,
    }
}
