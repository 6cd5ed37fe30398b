//! The names that are met.

ghost use Rattle.std.specs.Prelude.{◌≡◌, OnOk};
ghost use Rattle.std.specs.Str.{bytes_eq};
ghost use Rattle.indexmap.specs.IndexSet.{insert_key};
ghost use Rattle.ul_load.specs.Loading.{names_of, names_with, requirements_of};

use indexmap::IndexSet;
use std::alloc::{AllocError, Global};
use ul_base::Name;
use ul_requirement::{Release, Requirement};

/// Meets a name: it is numbered where it is met for the first time.
pub(crate) fn meet(alloc: Global, names: &mut IndexSet<Name>, name: &Name) -> Result<(), AllocError>
    ensures { OnOk result (names.new.keys ≡ insert_key bytes_eq names.old.keys name.now) }
{
    if !names.contains(name) {
        let copy = name.copy(alloc)?;
        names.insert(copy)?;
    }
    Ok(())
}

// Meets the name that a requirement asks for.
fn meet_requirement(
    alloc: Global,
    names: &mut IndexSet<Name>,
    requirement: &Requirement,
) -> Result<(), AllocError>
    ensures { OnOk result (names.new.keys ≡ insert_key bytes_eq names.old.keys requirement.now.name) }
{
    let name: &Name = &requirement.name;
    meet(alloc, names, name)
}

// Meets the names that requirements ask for.
fn meet_requirements(
    alloc: Global,
    names: &mut IndexSet<Name>,
    requirements: &[Requirement],
) -> Result<(), AllocError>
    ensures { OnOk result (names.new.keys ≡ names_with names.old.keys (names_of requirements.now)) }
{
    for requirement in requirements {
        meet_requirement(alloc, names, requirement)?;
    }
    Ok(())
}

// Meets the names that a release's requirements ask for.
fn meet_release(
    alloc: Global,
    names: &mut IndexSet<Name>,
    release: &Release,
) -> Result<(), AllocError>
    ensures { OnOk result (names.new.keys ≡ names_with names.old.keys (names_of release.now.requirements)) }
{
    let requirements: &Vec<Requirement> = release.requirements.as_vec();
    meet_requirements(alloc, names, requirements)
}

/// Meets the names that the requirements of releases ask for.
pub(crate) fn meet_releases(
    alloc: Global,
    names: &mut IndexSet<Name>,
    releases: &[Release],
) -> Result<(), AllocError>
    ensures { OnOk result (names.new.keys ≡ names_with names.old.keys (names_of (requirements_of releases.now))) }
{
    for release in releases {
        meet_release(alloc, names, release)?;
    }
    Ok(())
}
