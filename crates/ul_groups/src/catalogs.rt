//! Catalogs adjusted by a project's overrides, constraints and sources, with the project's mode of pre-releases.

ghost use Rattle.std.specs.Prelude.{◌≡◌, ◌↔◌, [], IfOk, IsTrue, map};
ghost use Rattle.ul_groups.specs.Adjusted as Adjusted;
ghost use Rattle.ul_groups.specs.NameLists.{HasEach, at_name};
ghost use Rattle.ul_groups.specs.Sourced as Sourced;

use crate::adjustment::adjusted_list;
use crate::copies::{copy_files, copy_source, copy_specifiers};
use crate::name_lists::{Requirements, by_name};
use crate::sources::source_constraints;
use std::alloc::{AllocError, Global};
use std::collections::BTreeMap;
use ul_base::Name;
use ul_base::owned::{beside, made_from, with_made};
use ul_index::Catalog;
use ul_project::{NameSources, Project};
use ul_ranges::SharedList;
use ul_requirement::{FileEntry, Package, Release, Requirement, same_requirements};
use ul_specifier::Specifiers;
use ul_version::Version;

// Requirements that are adjusted, as a list that releases may share.
fn adjusted_requirements(
    alloc: Global,
    constraints: &BTreeMap<Name, Requirements>,
    overrides: &BTreeMap<Name, Requirements>,
    sources: &BTreeMap<Name, Requirements>,
    requirements: &[Requirement],
) -> Result<SharedList<Requirement>, AllocError>
    ensures { IfOk result (λ s. s
        ≡ Adjusted.adjusted_list (at_name constraints.now.entries) (at_name overrides.now.entries)
        (at_name sources.now.entries) requirements.now) }
{
    let list = adjusted_list(alloc, constraints, overrides, sources, requirements)?;
    let shared = SharedList::of(alloc, list)?;
    Ok(shared)
}

// Requirements that are adjusted. Where they are those that were adjusted last, what was made of these is shared.
fn next_requirements(
    alloc: Global,
    constraints: &BTreeMap<Name, Requirements>,
    overrides: &BTreeMap<Name, Requirements>,
    sources: &BTreeMap<Name, Requirements>,
    said: &[Requirement],
    made: &SharedList<Requirement>,
    requirements: &[Requirement],
) -> Result<SharedList<Requirement>, AllocError>
    requires { made.now ≡ Adjusted.adjusted_list (at_name constraints.now.entries)
        (at_name overrides.now.entries) (at_name sources.now.entries) said.now }
    ensures { IfOk result (λ s. s ≡ Adjusted.adjusted_list (at_name constraints.now.entries)
        (at_name overrides.now.entries) (at_name sources.now.entries) requirements.now) }
{
    if same_requirements(requirements, said) {
        return made.copy();
    }
    adjusted_requirements(alloc, constraints, overrides, sources, requirements)
}

// A release with these requirements in the place of its own.
fn with_requirements(
    alloc: Global,
    release: &Release,
    requirements: &SharedList<Requirement>,
) -> Result<Release, AllocError>
    ensures { IfOk result (λ r. r ≡ Adjusted.with_requirements release.now requirements.now) }
{
    let version: &Version = &release.version;
    let version = version.copy(alloc)?;
    let python: &Specifiers = &release.python;
    let (version, python) = beside(version, copy_specifiers(alloc, python))?;
    let (kept, requirements) = beside((version, python), requirements.copy())?;
    let files: &Vec<FileEntry> = &release.files;
    let (kept, files) = beside((kept, requirements), copy_files(alloc, files))?;
    let source: &Option<Name> = &release.source;
    let (kept, source) = beside((kept, files), copy_source(alloc, source))?;
    let (((version, python), requirements), files) = kept;
    Ok(Release {
        version,
        python,
        requirements,
        yanked: release.yanked,
        files,
        source,
    })
}

// Releases whose requirements are adjusted. Releases that follow one another mostly require the same: those share a list.
fn adjusted_releases(
    alloc: Global,
    constraints: &BTreeMap<Name, Requirements>,
    overrides: &BTreeMap<Name, Requirements>,
    sources: &BTreeMap<Name, Requirements>,
    releases: &[Release],
) -> Result<Vec<Release>, AllocError>
    ensures { IfOk result (λ v. v.items ≡ map (Adjusted.adjusted_release (at_name constraints.now.entries)
        (at_name overrides.now.entries) (at_name sources.now.entries)) releases.now) }
{
    let mut list = Vec::with_capacity(alloc, releases.len())?;
    let mut said: &[Requirement] = &[];
    let mut made = SharedList::of(alloc, Vec::new(alloc))?;
    for release in releases {
        let requirements = release.requirements.as_slice();
        made = next_requirements(
            alloc,
            constraints,
            overrides,
            sources,
            said,
            &made,
            requirements,
        )?;
        said = requirements;
        list = with_made(list, with_requirements(alloc, release, &made))?;
    }
    Ok(list)
}

// A package whose releases are adjusted.
#[tactic(auto, using(crate::proofs::AdjustedPackages::differ_of))]
fn adjusted_package(
    alloc: Global,
    constraints: &BTreeMap<Name, Requirements>,
    overrides: &BTreeMap<Name, Requirements>,
    sources: &BTreeMap<Name, Requirements>,
    found: &Package,
) -> Result<Package, AllocError>
    ensures { IfOk result (λ p. p
        ≡ Adjusted.adjusted_package (at_name constraints.now.entries) (at_name overrides.now.entries)
        (at_name sources.now.entries) found.now) }
{
    let name: &Name = &found.name;
    let name = name.copy(alloc)?;
    let releases: &Vec<Release> = &found.releases;
    let releases = adjusted_releases(alloc, constraints, overrides, sources, releases);
    let (name, releases) = beside(name, releases)?;
    Ok(Package {
        name,
        entries: found.entries,
        prereleases: found.prereleases,
        releases,
    })
}

// Packages whose releases are adjusted.
fn adjusted_packages(
    alloc: Global,
    constraints: &BTreeMap<Name, Requirements>,
    overrides: &BTreeMap<Name, Requirements>,
    sources: &BTreeMap<Name, Requirements>,
    packages: &[Package],
) -> Result<Vec<Package>, AllocError>
    ensures { IfOk result (λ v. v.items ≡ map (Adjusted.adjusted_package (at_name constraints.now.entries)
        (at_name overrides.now.entries) (at_name sources.now.entries)) packages.now) }
{
    let mut list = Vec::with_capacity(alloc, packages.len())?;
    for found in packages {
        let made = adjusted_package(alloc, constraints, overrides, sources, found);
        list = with_made(list, made)?;
    }
    Ok(list)
}

// The constraints that a project's sources are, in a map from their names.
fn by_source(
    alloc: Global,
    project: &Project,
    catalog: &Catalog,
) -> Result<BTreeMap<Name, Requirements>, AllocError>
    ensures { IfOk result (λ m. HasEach m.entries (Sourced.source_constraints project.now catalog.now)) }
{
    let sources: &Vec<NameSources> = &project.sources;
    let constraints = source_constraints(alloc, sources, catalog)?;
    let by = by_name(alloc, &constraints);
    made_from(by, constraints)
}

// Whether a project has neither constraints nor overrides nor sources.
fn adjusts_nothing(project: &Project) -> bool
    ensures { IsTrue result
        ↔ ((project.now.constraints ≡ []) × (project.now.overrides ≡ []) × (project.now.sources ≡ [])) }
{
    let constraints: &Vec<Requirement> = &project.constraints;
    let overrides: &Vec<Requirement> = &project.overrides;
    let sources: &Vec<NameSources> = &project.sources;
    constraints.is_empty() && overrides.is_empty() && sources.is_empty()
}

// The catalog whose requirements are adjusted by the project's overrides, constraints and sources.
#[tactic(auto, using(crate::proofs::AdjustedPackages::adjusted_by_lists, crate::proofs::AdjustedPackages::adjusted_by_none))]
fn adjusted_catalog(
    alloc: Global,
    project: &Project,
    catalog: Catalog,
) -> Result<Catalog, AllocError>
    ensures { IfOk result (λ c. c ≡ Adjusted.adjusted_catalog project.now.constraints project.now.overrides
        (Sourced.source_constraints project.now catalog) catalog) }
{
    if adjusts_nothing(project) {
        return Ok(catalog);
    }
    let constraints: &Vec<Requirement> = &project.constraints;
    let constraints = by_name(alloc, constraints)?;
    let overrides: &Vec<Requirement> = &project.overrides;
    let overrides = by_name(alloc, overrides)?;
    let sources = by_source(alloc, project, &catalog)?;
    let packages = adjusted_packages(
        alloc,
        &constraints,
        &overrides,
        &sources,
        catalog.packages(),
    )?;
    Catalog::of(alloc, packages)
}

/// The catalog that a project is resolved in: its requirements are adjusted by the project's overrides, constraints and
/// sources, and pre-releases count by the project's mode.
///
/// In each release, the project's included, a requirement on a name with overrides is replaced by one for each of
/// them, in order: with the requirement's extras, the override's specifiers, and both markers joined by `and`. After
/// that, each requirement on a name with constraints is followed by one for each of them, in order: without extras,
/// with the constraint's specifiers, and both markers joined by `and`. After that, each requirement on a name with
/// sources, one that a constraint added too, is followed likewise by one for each source, in order, whose specifiers
/// exclude the name's releases that come from elsewhere, and, unless some source has no condition, by one for the
/// rest, which excludes those that come from any source where no condition is true. The only error is want of memory.
#[tactic(auto, using(crate::proofs::AdjustedPackages::packages_for))]
pub fn adjust(alloc: Global, project: &Project, catalog: Catalog) -> Result<Catalog, AllocError>
    ensures { IfOk result (λ c. c ≡ Adjusted.catalog_for project.now catalog) }
{
    let adjusted = adjusted_catalog(alloc, project, catalog)?;
    Ok(adjusted.with_prereleases(project.prereleases))
}
