//! Copies of the parts of releases.

ghost use Rattle.std.specs.Prelude.{◌≡◌, IfOk, option_map};
ghost use Rattle.ul_marker.specs.Views.{marker_view};

use std::alloc::{AllocError, Global};
use ul_base::Name;
use ul_base::owned::{made_from, with_made};
use ul_marker::Marker;
use ul_ranges::SharedList;
use ul_requirement::{FileEntry, Requirement};
use ul_specifier::{Clause, Specifiers};

// Equal clauses.
fn copy_clauses(alloc: Global, clauses: &[Clause]) -> Result<Vec<Clause>, AllocError>
    ensures { IfOk result (λ v. v.items ≡ clauses.now) }
{
    let mut list = Vec::with_capacity(alloc, clauses.len())?;
    for clause in clauses {
        list = with_made(list, clause.copy(alloc))?;
    }
    Ok(list)
}

/// An equal specifier.
pub(crate) fn copy_specifiers(
    alloc: Global,
    specifiers: &Specifiers,
) -> Result<Specifiers, AllocError>
    ensures { IfOk result (λ s. s ≡ specifiers.now) }
{
    let clauses: &Vec<Clause> = &specifiers.clauses;
    let clauses = copy_clauses(alloc, clauses)?;
    Ok(Specifiers { clauses })
}

/// Equal files.
pub(crate) fn copy_files(alloc: Global, files: &[FileEntry]) -> Result<Vec<FileEntry>, AllocError>
    ensures { IfOk result (λ v. v.items ≡ files.now) }
{
    let mut list = Vec::with_capacity(alloc, files.len())?;
    for file in files {
        list = with_made(list, file.copy(alloc))?;
    }
    Ok(list)
}

/// An equal source of a release, where there is one.
pub(crate) fn copy_source(alloc: Global, source: &Option<Name>) -> Result<Option<Name>, AllocError>
    ensures { IfOk result (λ s. s ≡ source.now) }
{
    match source {
        Some(source) => {
            let source = source.copy(alloc)?;
            Ok(Some(source))
        }
        None => Ok(None),
    }
}

/// An equal marker, where there is one.
pub(crate) fn copy_marker(
    alloc: Global,
    marker: &Option<Marker>,
) -> Result<Option<Marker>, AllocError>
    ensures { IfOk result (λ m. option_map marker_view m ≡ option_map marker_view marker.now) }
{
    match marker {
        Some(marker) => {
            let marker = marker.copy(alloc)?;
            Ok(Some(marker))
        }
        None => Ok(None),
    }
}

// Equal requirements.
fn copy_requirements(
    alloc: Global,
    requirements: &[Requirement],
) -> Result<Vec<Requirement>, AllocError>
    ensures { IfOk result (λ v. v.items ≡ requirements.now) }
{
    let mut list = Vec::with_capacity(alloc, requirements.len())?;
    for requirement in requirements {
        list = with_made(list, requirement.copy(alloc))?;
    }
    Ok(list)
}

/// The requirements of a list, with one owner.
pub(crate) fn own_requirements(
    alloc: Global,
    requirements: SharedList<Requirement>,
) -> Result<Vec<Requirement>, AllocError>
    ensures { IfOk result (λ v. v.items ≡ requirements) }
{
    let made = copy_requirements(alloc, requirements.as_slice());
    made_from(made, requirements)
}
