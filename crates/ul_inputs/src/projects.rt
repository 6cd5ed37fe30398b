//! The project of a project file.
ghost use Rattle.std.specs.Prelude.{◌≡◌, ℕ, List, [], IfOk};
ghost use Rattle.ul_files.specs.Files.{ByReads, Remembers};
ghost use Rattle.ul_groups.specs.Expanded.{expanded_project};
ghost use Rattle.ul_inputs.specs.FileFaults.{refused_file};
ghost use Rattle.ul_inputs.specs.Inputs.{only};
ghost use Rattle.ul_inputs.specs.Projects as spec;
ghost use Rattle.ul_inputs.specs.Resolutions.{HasUsable};
ghost use Rattle.ul_inputs.specs.Refusals.{Answers, Cause, IsRefusalFor};

use crate::file_faults::{FileFault, FilePlace, file_refusal};
use crate::files::small_file;
use crate::refusal::Refusal;
use std::alloc::Global;
use ul_files::Files;
use ul_groups::expand;
use ul_project::{Project, ProjectFault, project};

// What is wrong with a project file.
fn file_fault(fault: ProjectFault) -> FileFault
    ensures { (path : List ℕ) → refused_file path result ≡ spec.refused_project path fault }
{
    match fault {
        ProjectFault::NotToml => FileFault::At(FilePlace::Fixed("not TOML")),
        ProjectFault::Shape(place) => FileFault::At(FilePlace::Project("shape ", place)),
        ProjectFault::Requirement(place) => FileFault::At(FilePlace::Project(
            "requirement ",
            place,
        )),
        ProjectFault::Unsupported(place) => FileFault::At(FilePlace::Project(
            "unsupported ",
            place,
        )),
        ProjectFault::EmptyRegion => FileFault::At(FilePlace::Fixed("empty region")),
        ProjectFault::NoMemory => FileFault::NoMemory,
    }
}

// The refusal of a project file for its fault.
fn refusal(alloc: Global, path: &str, fault: ProjectFault) -> Refusal
    ensures { IsRefusalFor (spec.refused_project path.now fault) result }
{
    file_refusal(alloc, path, file_fault(fault))
}

// The project that bytes say.
#[tactic(auto, using(crate::proofs::ProjectFaults::said_fault, crate::proofs::Usable::said_usable))]
fn said(alloc: Global, path: &str, bytes: &[u8]) -> Result<Project, Refusal>
    ensures answers { Answers (λ p. p) result (only (spec.IsProjectOf path.now bytes.now)) }
    ensures usable { IfOk result (λ p. HasUsable p.package) }
{
    match project(alloc, bytes) {
        Ok(found) => Ok(found),
        Err(fault) => Err(refusal(alloc, path, fault)),
    }
}

// The project with its groups as extras.
#[tactic(auto, using(crate::proofs::ProjectFaults::expanded_fault, crate::proofs::Usable::expanded_usable))]
fn expanded(alloc: Global, path: &str, found: Project) -> Result<Project, Refusal>
    requires { HasUsable found.package }
    ensures answers { Answers (λ p. p) result (only (spec.IsExpanded path.now (expanded_project found))) }
    ensures usable { IfOk result (λ p. HasUsable p.package) }
{
    match expand(alloc, found) {
        Ok(found) => Ok(found),
        Err(fault) => Err(refusal(alloc, path, fault)),
    }
}

// The project of bytes.
#[tactic(auto, using(crate::proofs::ForCallers::refuses, crate::proofs::ForCallers::goes_on))]
fn project_in(alloc: Global, path: &str, bytes: &[u8]) -> Result<Project, Refusal>
    ensures answers { Answers (λ p. p) result (spec.project_said path.now bytes.now []) }
    ensures usable { IfOk result (λ p. HasUsable p.package) }
{
    let found = said(alloc, path, bytes)?;
    expanded(alloc, path, found)
}

/// The project of the project file at a path, with its groups as extras.
#[tactic(auto, using(crate::proofs::ForCallers::refuses, crate::proofs::ForCallers::goes_on))]
pub fn project_file<F: Files>(alloc: Global, files: &mut F, path: &str) -> Result<Project, Refusal>
    ensures told { ByReads (F.reads files.new) (λ m. Answers (λ p. p) result (spec.project_at path.now m)) }
    ensures same { F.map files.new ≡ F.map files.old }
    ensures grown { Remembers (F.reads files.old) (F.reads files.new) }
    ensures cause { Cause (F.faults files.old) (F.faults files.new) (F.last_failed files.new) result }
    ensures usable { IfOk result (λ p. HasUsable p.package) }
{
    let bytes = small_file(alloc, files, path)?;
    project_in(alloc, path, &bytes)
}
