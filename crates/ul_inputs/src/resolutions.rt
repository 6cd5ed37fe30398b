//! What a resolution is about.
ghost use Rattle.std.specs.Prelude.{◌≡◌, IfOk, option_map};
ghost use Rattle.ul_files.specs.Files.{ByReads, Remembers};
ghost use Rattle.ul_inputs.specs.Refusals.{Answers, Cause};
ghost use Rattle.ul_inputs.specs.Resolutions as spec;

use crate::catalogs::catalog_in;
use crate::locks::old_lock;
use crate::projects::project_file;
use crate::refusal::Refusal;
use std::alloc::Global;
use ul_base::Name;
use ul_files::Files;
use ul_index::Catalog;
use ul_project::Project;
use ul_requirement::Wish;
use ul_version::Version;

/// The project with its groups as extras, its catalog, adjusted by its constraints and overrides, and what is wished.
#[derive(Drop)]
pub struct Resolution {
    pub project: Project,
    pub catalog: Catalog,
    pub wish: Wish,
}

// What is wished of a project, with what an old lock keeps.
fn wish_of(project: &Project, kept: Vec<(Name, Version)>) -> Wish
    ensures { result ≡ spec.wish_of project.now kept.items }
{
    Wish {
        mode: project.mode,
        strategy: project.strategy,
        kept,
    }
}

/// What a project says, with what an old lock keeps and the index folder's documents, which are read.
#[tactic(auto, using(crate::proofs::Usable::is_resolution))]
pub fn resolution_with<F: Files>(
    alloc: Global,
    files: &mut F,
    folder: &str,
    project: Project,
    kept: Vec<(Name, Version)>,
) -> Result<Resolution, Refusal>
    requires { spec.HasUsable project.package }
    ensures told { ByReads (F.reads files.new)
        (λ m. Answers spec.view result (spec.resolution_with folder.now project kept.items m)) }
    ensures same { F.map files.new ≡ F.map files.old }
    ensures grown { Remembers (F.reads files.old) (F.reads files.new) }
    ensures cause { Cause (F.faults files.old) (F.faults files.new) (F.last_failed files.new) result }
    ensures resolution { IfOk result (λ r. spec.IsResolution (spec.view r)) }
{
    match catalog_in(alloc, files, folder, &project) {
        Ok(catalog) => {
            let wish = wish_of(&project, kept);
            Ok(Resolution {
                project,
                catalog,
                wish,
            })
        }
        Err(refusal) => {
            drop(project);
            drop(kept);
            Err(refusal)
        }
    }
}

/// What a project file, an old lock and an index folder say, read in this order.
pub fn resolution_in<F: Files>(
    alloc: Global,
    files: &mut F,
    project: &str,
    folder: &str,
    old: Option<&str>,
) -> Result<Resolution, Refusal>
    ensures told { ByReads (F.reads files.new)
        (λ m. Answers spec.view result
        (spec.resolution_in project.now folder.now (option_map (λ p. p.now) old.entry) m)) }
    ensures same { F.map files.new ≡ F.map files.old }
    ensures grown { Remembers (F.reads files.old) (F.reads files.new) }
    ensures cause { Cause (F.faults files.old) (F.faults files.new) (F.last_failed files.new) result }
    ensures resolution { IfOk result (λ r. spec.IsResolution (spec.view r)) }
{
    let project = project_file(alloc, files, project)?;
    match old_lock(alloc, files, old) {
        Ok(kept) => resolution_with(alloc, files, folder, project, kept),
        Err(refusal) => {
            drop(project);
            Err(refusal)
        }
    }
}
