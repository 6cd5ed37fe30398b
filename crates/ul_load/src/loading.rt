//! Loading.

ghost use Rattle.std.specs.Prelude.{◌≡◌, ◌∷◌, [], IfOk, OnOk};
ghost use Rattle.ul_files.specs.Files.{ByReads, Remembers};
ghost use Rattle.ul_index.specs.Catalogs.{IsCatalog, Packages};
ghost use Rattle.ul_load.specs.Begun.{BeginsWith, KeepsFirst};
ghost use Rattle.ul_load.specs.Conditions.{beginning};
ghost use Rattle.ul_load.specs.Faults.{Cause, FailedAt, Gives, LoadGives};
ghost use Rattle.ul_load.specs.Headline.{LoadPromises};
ghost use Rattle.ul_load.specs.Loading.{Loads, Traced, document_path, next_name, next_progress};
ghost use Rattle.ul_load.specs.Progressing.{HasNext, HasOneMore, IsProgress};
ghost use Rattle.ul_load.specs.Reads.{ReadsEach, ReadsFirst};
ghost use Rattle.ul_load.specs.Views.{progress_view};

use crate::documents::package_at;
use crate::progress::Progress;
use crate::{LoadFault, PACKAGES};
use std::alloc::Global;
use ul_files::Files;
use ul_index::Catalog;
use ul_project::Project;

// Reads the document of the next name.
fn follow<F: Files>(
    alloc: Global,
    files: &mut F,
    folder: &str,
    progress: &mut Progress,
) -> Result<(), LoadFault>
    requires kept { IsProgress (progress_view progress.old) }
    requires next { HasNext (progress_view progress.old) }
    ensures told { ByReads (F.reads files.new) (λ m. Gives (λ _. progress_view progress.new) result
        (next_progress m folder.now (progress_view progress.old))) }
    ensures same { F.map files.new ≡ F.map files.old }
    ensures grown { Remembers (F.reads files.old) (F.reads files.new) }
    ensures cause { Cause (F.faults files.old) (F.faults files.new) (F.last_failed files.new) result }
    ensures failed { FailedAt (λ p. p ≡ document_path folder.now (next_name (progress_view progress.old))) result }
    ensures reads { ReadsFirst (F.reads files.old) (F.reads files.new)
        (document_path folder.now (next_name (progress_view progress.old)) ∷ []) }
    ensures each { OnOk result (ReadsEach (F.reads files.old) (F.reads files.new)
        (document_path folder.now (next_name (progress_view progress.old)) ∷ [])) }
    ensures kept { OnOk result (IsProgress (progress_view progress.new)) }
    ensures one { OnOk result (HasOneMore (progress_view progress.old) (progress_view progress.new)) }
    ensures first { OnOk result (KeepsFirst (progress_view progress.old).packages
        (progress_view progress.new).packages) }
{
    let name = progress.next_name(alloc)?;
    let found = package_at(alloc, files, folder, &name, progress.bytes)?;
    progress.add(alloc, found.0, found.1)
}

// The catalog of a project, or the first fault. Each turn adds a package, so that there are at most as many turns as names.
fn load_all<F: Files>(
    alloc: Global,
    files: &mut F,
    folder: &str,
    project: &Project,
) -> Result<Catalog, LoadFault>
    ensures told { ByReads (F.reads files.new) (λ m. LoadGives m folder.now (beginning project.now) result) }
    ensures once { ByReads (F.reads files.new) (λ m. (t : Traced Packages) → Loads m folder.now (beginning project.now) t
        → ReadsFirst (F.reads files.old) (F.reads files.new) t.0) }
    ensures same { F.map files.new ≡ F.map files.old }
    ensures grown { Remembers (F.reads files.old) (F.reads files.new) }
    ensures cause { Cause (F.faults files.old) (F.faults files.new) (F.last_failed files.new) result }
    ensures catalog { IfOk result IsCatalog }
    ensures first { IfOk result (BeginsWith project.now.package) }
{
    let mut progress = Progress::begin(alloc, project)?;
    for _turn in 0..PACKAGES {
        if !progress.has_next() {
            let catalog = progress.catalog(alloc)?;
            return Ok(catalog);
        }
        follow(alloc, files, folder, &mut progress)?;
    }
    unreachable!()
}

/// The catalog of a project, from the index documents in a folder, or the first fault.
///
/// The comparisons of the project's environments, of the conditions of its sources, of its constraints and of its
/// overrides count as its own. The catalog has the project's package first, and then each name that a requirement asks
/// for, in the order in which the names are met; the document of each is read once, at `FOLDER/NAME.json`, and a name
/// without a document is a package without releases. At each document the faults are looked at in this order: `Read`,
/// `TooLong`, `TooManyBytes`, `Document`, `TooManyReleases`, `TooManyPackages`, `TooManyAtoms`; the last two also before
/// the first document.
pub fn load_project<F: Files>(
    alloc: Global,
    files: &mut F,
    folder: &str,
    project: &Project,
) -> Result<Catalog, LoadFault>
    ensures { LoadPromises (F.map files.old) (F.map files.new) (F.reads files.old) (F.reads files.new)
        (F.faults files.old) (F.faults files.new)
        (F.last_failed files.new) folder.now (beginning project.now) result }
{
    load_all(alloc, files, folder, project)
}
