//! The answer of `marker`.
ghost use Rattle.std.specs.Prelude.{◌≡◌, ℕ, List};
ghost use Rattle.ul_files.specs.Files.{ByReads, Remembers};
ghost use Rattle.ul_answers.specs.Views.{view as answer_view};
ghost use Rattle.ul_inputs.specs.FileFaults.{refused_file};
ghost use Rattle.ul_inputs.specs.Inputs.{only};
ghost use Rattle.ul_inputs.specs.Refusals.{Answers, Cause, IsRefusalFor};
ghost use Rattle.ul_commands.specs.Markers as spec;
ghost use Rattle.ul_commands.specs.Views.{GivesAnswer};

use std::alloc::Global;
use std::mem;
use std::sync::Wait;
use ul_answers::Answer;
use ul_canonical::{CanonicalFault, canonical};
use ul_files::Files;
use ul_inputs::{FileFault, FilePlace, Refusal, TEXT_BYTES, file_refusal, small_file};
use ul_load::COMPARISONS;
use ul_tree::MOST_PATHS;

// What is wrong with a file of markers.
fn file_fault(fault: CanonicalFault) -> FileFault
    ensures { (path : List ℕ) → refused_file path result ≡ spec.refused_fault path fault }
{
    match fault {
        CanonicalFault::Line(line) => FileFault::At(FilePlace::Numbered("line", line)),
        CanonicalFault::TooManyComparisons => FileFault::Limit("comparisons", COMPARISONS as u64),
        CanonicalFault::TooManyPaths => FileFault::Limit("marker-paths", MOST_PATHS as u64),
        CanonicalFault::TooLong => FileFault::Limit("text-bytes", TEXT_BYTES),
        CanonicalFault::NoMemory => FileFault::NoMemory,
    }
}

// The refusal of a file of markers for its fault.
fn refusal(alloc: Global, path: &str, fault: CanonicalFault) -> Refusal
    ensures { IsRefusalFor (spec.refused_fault path.now fault) result }
{
    file_refusal(alloc, path, file_fault(fault))
}

// The canonical texts of the markers of a file's bytes.
#[tactic(auto, using(crate::proofs::MarkerFiles::texts_told, crate::proofs::MarkerFiles::fault_told))]
fn markers_in<R: Wait>(rt: &R, alloc: Global, path: &str, bytes: &[u8]) -> Result<Answer, Refusal>
    ensures { Answers answer_view result (only (spec.IsMarkerAnswer path.now bytes.now)) }
{
    match canonical(rt, alloc, bytes) {
        Ok(text) => Ok(Answer::Canonical(text)),
        Err(fault) => Err(refusal(alloc, path, fault)),
    }
}

/// The canonical texts of the markers of the file at a path.
pub(crate) fn marker_files<R: Wait, F: Files>(
    rt: &R,
    alloc: Global,
    files: &mut F,
    path: &str,
) -> Result<Answer, Refusal>
    ensures told { ByReads (F.reads files.new) (λ m. Answers answer_view result (spec.markers_at path.now m)) }
    ensures same { F.map files.new ≡ F.map files.old }
    ensures grown { Remembers (F.reads files.old) (F.reads files.new) }
    ensures cause { Cause (F.faults files.old) (F.faults files.new) (F.last_failed files.new) result }
    ensures answering { GivesAnswer result }
{
    let bytes = small_file(alloc, files, path)?;
    let answer = markers_in(rt, alloc, path, &bytes);
    mem::forget(bytes);
    answer
}
