//! What was loaded so far.

ghost use Rattle.std.specs.Prelude.{◌≡◌, ◌≢◌, ◌∷◌, ◌≤◌, ◌+◌, ◌↔◌, [], Err, IfErr, IfOk, IsTrue, OnOk, length};
ghost use Rattle.ul_load.specs.Begun.{BeginsWith, KeepsFirst};
ghost use Rattle.ul_load.specs.Conditions.{beginning};
ghost use Rattle.ul_load.specs.Faults.{Gives, IsOfBytes};
ghost use Rattle.ul_load.specs.Loading.{comparisons_with, first_progress, met_within, names_of, names_with, most_packages, most_releases, next_name, own_atoms, progress_with, requirements_of, total_bytes, within};
ghost use Rattle.ul_load.specs.Progressing.{HasNext, HasOneMore, IsNextPackage, IsProgress};
ghost use Rattle.ul_load.specs.Views.{atoms_view, progress_view};

use crate::comparisons::Comparisons;
use crate::met::{meet, meet_releases};
use crate::{COMPARISONS, LoadFault, PACKAGES, RELEASES};
use indexmap::IndexSet;
use std::alloc::{AllocError, Global};
use ul_base::Name;
use ul_index::Catalog;
use ul_marker::Marker;
use ul_project::{NameSources, Project};
use ul_requirement::{Package, Release, Requirement};

/// The names that were met, the packages of the first of them, the bytes of the documents, how many releases they list,
/// and the different comparisons.
#[derive(Drop)]
pub(crate) struct Progress {
    names: IndexSet<Name>,
    packages: Vec<Package>,
    pub bytes: u64,
    entries: u64,
    comparisons: Comparisons,
}

// The names that a package meets: its own, and those that its requirements ask for.
fn first_names(alloc: Global, project: &Package) -> Result<IndexSet<Name>, AllocError>
    ensures { IfOk result (λ n. n.keys ≡
        names_with (project.now.name ∷ []) (names_of (requirements_of project.now.releases))) }
{
    let mut names = IndexSet::new(alloc);
    let name: &Name = &project.name;
    meet(alloc, &mut names, name)?;
    let releases: &Vec<Release> = &project.releases;
    meet_releases(alloc, &mut names, releases)?;
    Ok(names)
}

// The different comparisons of the project.
fn own_comparisons(alloc: Global, project: &Project) -> Result<Comparisons, AllocError>
    ensures { IfOk result (λ s. atoms_view s ≡ comparisons_with [] (own_atoms (beginning project.now))) }
{
    let package: &Package = &project.package;
    let environments: &Vec<Marker> = &project.environments;
    let sources: &Vec<NameSources> = &project.sources;
    let constraints: &Vec<Requirement> = &project.constraints;
    let overrides: &Vec<Requirement> = &project.overrides;
    let mut comparisons = Comparisons::new(alloc);
    comparisons.add_releases(alloc, package.releases())?;
    comparisons.add_markers(alloc, environments)?;
    comparisons.add_sources(alloc, sources)?;
    comparisons.add_requirements(alloc, constraints)?;
    comparisons.add_requirements(alloc, overrides)?;
    Ok(comparisons)
}

// The project alone, as a list of packages.
fn first_packages(alloc: Global, project: &Package) -> Result<Vec<Package>, AllocError>
    ensures { IfOk result (λ v. v.items ≡ project.now ∷ []) }
{
    let mut packages = Vec::new(alloc);
    packages.push(project.copy(alloc)?)?;
    Ok(packages)
}

impl Progress {
    /// The project alone.
    pub(crate) fn begin(alloc: Global, project: &Project) -> Result<Progress, LoadFault>
        ensures told { Gives progress_view result (within (first_progress (beginning project.now))) }
        ensures kept { IfOk result (λ p. IsProgress (progress_view p)) }
        ensures first { IfOk result (λ p. BeginsWith project.now.package (progress_view p).packages) }
        ensures bytes { IfErr result IsOfBytes }
    {
        let package: &Package = &project.package;
        let names = first_names(alloc, package)?;
        let packages = first_packages(alloc, package)?;
        let comparisons = own_comparisons(alloc, project)?;
        let progress = Progress {
            names,
            packages,
            bytes: 0,
            entries: 0,
            comparisons,
        };
        progress.check()?;
        Ok(progress)
    }

    // The limits on names and comparisons.
    fn check(&self) -> Result<(), LoadFault>
        ensures told { Gives (λ _. progress_view self.now) result (met_within (progress_view self.now)) }
        ensures names { OnOk result (length (progress_view self.now).names ≤ most_packages) }
        ensures bytes { IfErr result IsOfBytes }
        ensures sure { result ≢ Err LoadFault.NoMemory }
    {
        if self.names.len() > PACKAGES {
            return Err(LoadFault::TooManyPackages);
        }
        if self.comparisons.len() > COMPARISONS {
            return Err(LoadFault::TooManyAtoms);
        }
        Ok(())
    }

    /// Whether there is a name without a package.
    pub(crate) fn has_next(&self) -> bool
        ensures { IsTrue result ↔ HasNext (progress_view self.now) }
    {
        self.packages.len() < self.names.len()
    }

    /// The first name without a package.
    pub(crate) fn next_name(&self, alloc: Global) -> Result<Name, AllocError>
        requires { HasNext (progress_view self.now) }
        ensures { IfOk result (λ n. n ≡ next_name (progress_view self.now)) }
    {
        self.names[self.packages.len()].copy(alloc)
    }

    /// Adds the package of that name, whose document has so many bytes.
    pub(crate) fn add(&mut self, alloc: Global, size: u64, found: Package) -> Result<(), LoadFault>
        requires kept { IsProgress (progress_view self.old) }
        requires next { HasNext (progress_view self.old) }
        requires is { IsNextPackage (next_name (progress_view self.old)) (progress_view self.old).bytes (size, found) }
        ensures told { Gives (λ _. progress_view self.new) result
            (within (progress_with (progress_view self.old) (size, found))) }
        ensures kept { OnOk result (IsProgress (progress_view self.new)) }
        ensures one { OnOk result (HasOneMore (progress_view self.old) (progress_view self.new)) }
        ensures first { OnOk result (KeepsFirst (progress_view self.old).packages (progress_view self.new).packages) }
        ensures bytes { IfErr result IsOfBytes }
    {
        if found.entries > RELEASES - self.entries {
            return Err(LoadFault::TooManyReleases);
        }
        self.note(alloc, size, found)?;
        self.check()
    }

    // Adds a package within the limit of releases.
    fn note(&mut self, alloc: Global, size: u64, found: Package) -> Result<(), AllocError>
        requires bytes { (progress_view self.old).bytes + size ≤ total_bytes }
        requires entries { (progress_view self.old).entries + found.entries ≤ most_releases }
        ensures { OnOk result (progress_view self.new ≡ progress_with (progress_view self.old) (size, found)) }
    {
        let releases: &Vec<Release> = &found.releases;
        meet_releases(alloc, &mut self.names, releases)?;
        self.comparisons.add_releases(alloc, releases)?;
        self.bytes += size;
        self.entries += found.entries;
        self.packages.push(found)?;
        Ok(())
    }

    /// The catalog of the packages, where each name has one.
    pub(crate) fn catalog(self, alloc: Global) -> Result<Catalog, AllocError>
        requires kept { IsProgress (progress_view self) }
        requires whole { ¬ HasNext (progress_view self) }
        ensures { IfOk result (λ c. c ≡ (progress_view self).packages) }
    {
        let _count = self.names.len();
        Catalog::of(alloc, self.packages)
    }
}
