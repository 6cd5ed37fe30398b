//! The constraints that sources are.

ghost use Rattle.std.specs.Prelude.{◌≡◌, ◌++◌, ◌∷◌, [], IfOk, map, option_map, option_to_list};
ghost use Rattle.ul_specifier.specs.Clauses.{IsClause};
ghost use Rattle.ul_comparison.specs.Formulas.{IsFormula};
ghost use Rattle.ul_marker.specs.Views.{marker_view};
ghost use Rattle.ul_requirement.specs.Fields.{MayBeFormula};
ghost use Rattle.ul_groups.specs.Negated as Negated;
ghost use Rattle.ul_groups.specs.Sourced as Sourced;

use crate::copies::copy_marker;
use crate::negation::negated;
use std::alloc::{AllocError, Global};
use ul_base::Name;
use ul_base::owned::{beside, with_made};
use ul_index::Catalog;
use ul_marker::Marker;
use ul_project::{NameSources, Source};
use ul_requirement::{Release, Requirement};
use ul_specifier::{Clause, Op, Specifiers};
use ul_version::Version;

// Whether a release comes from the source of a label, or from no source.
fn is_from(source: Option<&Name>, release: &Release) -> bool
    ensures { result ≡ Sourced.is_from (option_map (λ n. n.now) source.entry) release.now }
{
    match (source, &release.source) {
        (Some(label), Some(other)) => other.text() == label.text(),
        (None, None) => true,
        _ => false,
    }
}

// The clause that a release alone doesn't meet.
fn excluded(alloc: Global, release: &Release) -> Result<Clause, AllocError>
    ensures clause { IfOk result (λ c. c ≡ Sourced.excluded release.now) }
    ensures valid { IfOk result IsClause }
{
    let version: &Version = &release.version;
    let version = version.copy(alloc)?;
    Ok(Clause {
        op: Op::Distinct,
        version,
        prefix: false,
    })
}

// Specifiers that exclude one release more.
fn with_excluded(
    alloc: Global,
    specifiers: Specifiers,
    release: &Release,
) -> Result<Specifiers, AllocError>
    ensures { IfOk result (λ s. s ≡ specifiers ++ Sourced.excluded release.now ∷ []) }
{
    let Specifiers { clauses } = specifiers;
    let clauses = with_made(clauses, excluded(alloc, release))?;
    Ok(Specifiers { clauses })
}

// The specifiers that of these releases those meet that come from a source.
fn specifiers_from(
    alloc: Global,
    source: Option<&Name>,
    releases: &[Release],
) -> Result<Specifiers, AllocError>
    ensures { IfOk result (λ s. s ≡ Sourced.clauses_from (option_map (λ n. n.now) source.entry) releases.now) }
{
    let mut specifiers = Specifiers {
        clauses: Vec::new(alloc),
    };
    for release in releases {
        if !is_from(source, release) {
            specifiers = with_excluded(alloc, specifiers, release)?;
        }
    }
    Ok(specifiers)
}

// A constraint on a name: a release comes from a source, where the marker is true.
fn constraint(
    alloc: Global,
    name: &Name,
    source: Option<&Name>,
    releases: &[Release],
    marker: Option<Marker>,
) -> Result<Requirement, AllocError>
    requires { MayBeFormula (option_map marker_view marker) }
    ensures { IfOk result (λ q. q ≡ Sourced.constraint name.now
        (Sourced.clauses_from (option_map (λ n. n.now) source.entry) releases.now) (option_map marker_view marker)) }
{
    let (marker, specifiers) = beside(marker, specifiers_from(alloc, source, releases))?;
    let (kept, name) = beside((marker, specifiers), name.copy(alloc))?;
    let (marker, specifiers) = kept;
    Ok(Requirement {
        name,
        extras: Vec::new(alloc),
        specifiers,
        marker,
    })
}

// The constraint on a name that one of its sources is.
fn source_constraint(
    alloc: Global,
    name: &Name,
    releases: &[Release],
    source: &Source,
) -> Result<Requirement, AllocError>
    ensures { IfOk result (λ q. q ≡ Sourced.source_constraint name.now releases.now source.now) }
{
    let condition: &Option<Marker> = &source.condition;
    let condition = copy_marker(alloc, condition)?;
    let label: &Name = &source.label;
    let made = constraint(alloc, name, Some(label), releases, condition)?;
    Ok(made)
}

// Markers, and the negation of one more where there is one.
fn with_negation(
    alloc: Global,
    parts: Vec<Marker>,
    condition: &Option<Marker>,
) -> Result<Vec<Marker>, AllocError>
    ensures { IfOk result (λ v. map marker_view v.items ≡ map marker_view parts.items
        ++ map Negated.negated (option_to_list (option_map marker_view condition.now))) }
{
    match condition {
        Some(condition) => with_made(parts, negated(alloc, condition)),
        None => Ok(parts),
    }
}

// No condition of sources is true.
fn none_counts(alloc: Global, sources: &[Source]) -> Result<Marker, AllocError>
    ensures marker { IfOk result (λ m. marker_view m ≡ Sourced.none_counts sources.now) }
    ensures valid { IfOk result (λ m. IsFormula (marker_view m)) }
{
    let mut parts = Vec::new(alloc);
    for source in sources {
        let condition: &Option<Marker> = &source.condition;
        parts = with_negation(alloc, parts, condition)?;
    }
    Ok(Marker::All(parts))
}

// Whether each source has a condition.
fn has_rest(sources: &[Source]) -> bool
    ensures { result ≡ Sourced.has_rest sources.now }
{
    for source in sources {
        if source.condition.is_none() {
            return false;
        }
    }
    true
}

// Constraints, and the one on a name for the rest, where there is a rest.
fn with_rest(
    alloc: Global,
    list: Vec<Requirement>,
    name: &Name,
    releases: &[Release],
    sources: &[Source],
) -> Result<Vec<Requirement>, AllocError>
    ensures { IfOk result (λ v. v.items ≡ list.items ++ Sourced.rest_constraints name.now releases.now sources.now) }
{
    if !has_rest(sources) {
        return Ok(list);
    }
    let (list, marker) = beside(list, none_counts(alloc, sources))?;
    with_made(list, constraint(alloc, name, None, releases, Some(marker)))
}

// Constraints, and those on a name that its sources are.
fn with_constraints(
    alloc: Global,
    list: Vec<Requirement>,
    name: &Name,
    releases: &[Release],
    sources: &[Source],
) -> Result<Vec<Requirement>, AllocError>
    ensures { IfOk result (λ v. v.items ≡ list.items ++ Sourced.constraints_on name.now releases.now sources.now) }
{
    let mut list = list;
    for source in sources {
        list = with_made(list, source_constraint(alloc, name, releases, source))?;
    }
    with_rest(alloc, list, name, releases, sources)
}

/// The constraints on names that their sources are in a catalog.
///
/// The only error is want of memory.
pub(crate) fn source_constraints(
    alloc: Global,
    sources: &[NameSources],
    catalog: &Catalog,
) -> Result<Vec<Requirement>, AllocError>
    ensures { IfOk result (λ v. v.items ≡ Sourced.constraints_of sources.now catalog.now) }
{
    let mut list = Vec::new(alloc);
    for named in sources {
        let name: &Name = &named.name;
        let releases = catalog.releases_of(name);
        let on: &Vec<Source> = &named.sources;
        list = with_constraints(alloc, list, name, releases, on)?;
    }
    Ok(list)
}
