//! The catalog of a project from its index folder.
ghost use Rattle.std.specs.Prelude.{◌≡◌, ℕ, List, IfOk};
ghost use Rattle.ul_files.specs.Files.{ByReads, Remembers};
ghost use Rattle.ul_load.specs.Begun.{BeginsWith};
ghost use Rattle.ul_inputs.specs.FileFaults.{refused_file};
ghost use Rattle.ul_inputs.specs.Catalogs as spec;
ghost use Rattle.ul_inputs.specs.Refusals.{Answers, Cause, IsRefusalFor};

use crate::file_faults::{FileFault, FilePlace, file_refusal};
use crate::refusal::Refusal;
use std::alloc::Global;
use ul_files::Files;
use ul_groups::adjust;
use ul_index::{Catalog, IndexFault};
use ul_load::{COMPARISONS, FILE_BYTES, LoadFault, PACKAGES, RELEASES, TOTAL_BYTES, load_project};
use ul_project::Project;

// What is wrong with a document.
fn file_fault(fault: IndexFault) -> FileFault
    ensures { (path : List ℕ) → refused_file path result ≡ spec.refused_document path fault }
{
    match fault {
        IndexFault::NotJson => FileFault::At(FilePlace::Fixed("not JSON")),
        IndexFault::Shape(place) => FileFault::At(FilePlace::Document(place)),
        IndexFault::WrongName => FileFault::At(FilePlace::Fixed("name")),
        IndexFault::NoMemory => FileFault::NoMemory,
    }
}

// The refusal of a document for its fault.
fn document_refusal(alloc: Global, path: &str, fault: IndexFault) -> Refusal
    ensures { IsRefusalFor (spec.refused_document path.now fault) result }
{
    file_refusal(alloc, path, file_fault(fault))
}

// The refusal of an index folder for its fault.
fn refusal(alloc: Global, fault: LoadFault) -> Refusal
    ensures { spec.IsLoadRefusal fault result }
{
    match fault {
        LoadFault::Read(path) => Refusal::ReadFault(path),
        LoadFault::Document(path, fault) => document_refusal(alloc, path.as_str(), fault),
        LoadFault::TooLong(_) => Refusal::Limit("file-bytes", FILE_BYTES),
        LoadFault::TooManyBytes => Refusal::Limit("total-bytes", TOTAL_BYTES),
        LoadFault::TooManyPackages => Refusal::Limit("packages", PACKAGES as u64),
        LoadFault::TooManyReleases => Refusal::Limit("releases", RELEASES),
        LoadFault::TooManyAtoms => Refusal::Limit("comparisons", COMPARISONS as u64),
        LoadFault::NoMemory => Refusal::NoMemory,
    }
}

// The catalog of the documents.
fn documents<F: Files>(
    alloc: Global,
    files: &mut F,
    folder: &str,
    project: &Project,
) -> Result<Catalog, Refusal>
    ensures told { ByReads (F.reads files.new)
        (λ m. Answers (λ c. c) result (spec.documents folder.now project.now m)) }
    ensures first { IfOk result (BeginsWith project.now.package) }
    ensures same { F.map files.new ≡ F.map files.old }
    ensures grown { Remembers (F.reads files.old) (F.reads files.new) }
    ensures cause { Cause (F.faults files.old) (F.faults files.new) (F.last_failed files.new) result }
{
    match load_project(alloc, files, folder, project) {
        Ok(catalog) => Ok(catalog),
        Err(fault) => Err(refusal(alloc, fault)),
    }
}

// The catalog of the documents, adjusted by the project's constraints, overrides and sources, in its mode of pre-releases.
#[tactic(auto, using(crate::proofs::ForCallers::refuses, crate::proofs::ForCallers::goes_on, crate::proofs::Usable::adjusted_begins))]
pub(crate) fn catalog_in<F: Files>(
    alloc: Global,
    files: &mut F,
    folder: &str,
    project: &Project,
) -> Result<Catalog, Refusal>
    ensures told { ByReads (F.reads files.new)
        (λ m. Answers (λ c. c) result (spec.catalog_in folder.now project.now m)) }
    ensures first { IfOk result (spec.BeginsAdjusted project.now) }
    ensures same { F.map files.new ≡ F.map files.old }
    ensures grown { Remembers (F.reads files.old) (F.reads files.new) }
    ensures cause { Cause (F.faults files.old) (F.faults files.new) (F.last_failed files.new) result }
{
    let documents = documents(alloc, files, folder, project)?;
    let catalog = adjust(alloc, project, documents)?;
    Ok(catalog)
}
