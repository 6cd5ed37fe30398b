//! Lists of requirements.

ghost use Rattle.std.specs.Prelude.{◌≡◌, option_map};
ghost use Rattle.toml.specs.View.{items_view, view};
ghost use Rattle.ul_marker.specs.Views.{marker_view};
ghost use Rattle.ul_requirement.specs.Reading.{read_address, reading_of};
ghost use Rattle.ul_project.specs.Answers.{Gives, list_view, place_of, value_view};
ghost use Rattle.ul_project.specs.Requirements as Requirements;
ghost use Rattle.ul_project.specs.Results.{each_from};
ghost use Rattle.ul_project.specs.Toml.{items_list};
ghost use Rattle.ul_project.specs.declared.path.ProjectPath.{ProjectPath};

use crate::kept::with_read;
use crate::path::ArrayPlace;
use crate::shapes::{entry_text, optional_items_at};
use crate::{Profile, ProjectFault};
use std::alloc::Global;
use toml::Value;
use ul_marker::Marker;
use ul_requirement::{ReqFault, Requirement};

// The requirement of an entry that is one by a URL.
fn address_at(
    alloc: Global,
    profile: Profile,
    place: ArrayPlace<'_>,
    entry: u64,
    text: &str,
) -> Result<Requirement, ProjectFault>
    ensures { Gives (λ q. q) result (Requirements.address_read profile
        (ProjectPath.Entry (place_of place.entry) entry) (read_address (reading_of text.now))) }
{
    match profile {
        Profile::Strict => Err(ProjectFault::Unsupported(place.entry(alloc, entry)?)),
        Profile::Wide => match Requirement::by_url(alloc, text)? {
            Some(requirement) => Ok(requirement),
            None => Err(ProjectFault::Requirement(place.entry(alloc, entry)?)),
        },
    }
}

// The requirement of an entry of the array at a place.
#[tactic(auto, unfolding(crate::specs::Requirements::requirement_at))]
pub(crate) fn requirement_at(
    alloc: Global,
    profile: Profile,
    place: ArrayPlace<'_>,
    entry: u64,
    value: &Value,
) -> Result<Requirement, ProjectFault>
    ensures { Gives (λ q. q) result (Requirements.requirement_at profile (place_of place.entry) entry (view value.now)) }
{
    let text = entry_text(alloc, place, entry, value)?;
    match Requirement::read(alloc, text) {
        Ok(requirement) => Ok(requirement),
        Err(ReqFault::Url) => address_at(alloc, profile, place, entry, text),
        Err(ReqFault::NoReading) => Err(ProjectFault::Requirement(place.entry(alloc, entry)?)),
        Err(ReqFault::NoMemory) => Err(ProjectFault::NoMemory),
    }
}

// The requirements of the values of an array at a place.
pub(crate) fn requirements(
    alloc: Global,
    profile: Profile,
    place: ArrayPlace<'_>,
    items: &[Value],
) -> Result<Vec<Requirement>, ProjectFault>
    ensures { Gives list_view result
        (each_from (Requirements.requirement_at profile (place_of place.entry)) 0 (items_list (items_view items.now))) }
{
    let mut list = Vec::new(alloc);
    let mut number: u64 = 0;
    for item in items {
        list = with_read(list, requirement_at(alloc, profile, place, number, item))?;
        number += 1;
    }
    Ok(list)
}

// The requirements of the array at a place, where there is one.
#[tactic(auto, unfolding(crate::specs::Requirements::requirements_at))]
pub(crate) fn requirements_at(
    alloc: Global,
    profile: Profile,
    place: ArrayPlace<'_>,
    value: Option<&Value>,
) -> Result<Vec<Requirement>, ProjectFault>
    ensures { Gives list_view result (Requirements.requirements_at profile (place_of place.entry) (value_view value.entry)) }
{
    let items = optional_items_at(alloc, place, value)?;
    requirements(alloc, profile, place, items)
}

// Whether a comparison with `extra` stands in a marker.
fn may_ask_extra(marker: &Option<Marker>) -> bool
    ensures { result ≡ Requirements.may_ask_extra (option_map marker_view marker.now) }
{
    match marker {
        Some(marker) => marker.asks_extra(),
        None => false,
    }
}

// Whether a requirement has extras, or its marker asks for one.
fn speaks_of_extras(requirement: &Requirement) -> bool
    ensures { result ≡ Requirements.speaks_of_extras requirement.now }
{
    let marker: &Option<Marker> = &requirement.marker;
    !requirement.extras.is_empty() || may_ask_extra(marker)
}

// The constraint, or the override, of an entry of the array at a place.
#[tactic(auto, unfolding(crate::specs::Requirements::bound_at))]
fn bound_at(
    alloc: Global,
    profile: Profile,
    place: ArrayPlace<'_>,
    entry: u64,
    value: &Value,
) -> Result<Requirement, ProjectFault>
    ensures { Gives (λ q. q) result (Requirements.bound_at profile (place_of place.entry) entry (view value.now)) }
{
    let requirement = requirement_at(alloc, profile, place, entry, value)?;
    if speaks_of_extras(&requirement) {
        drop(requirement);
        return Err(ProjectFault::Unsupported(place.entry(alloc, entry)?));
    }
    Ok(requirement)
}

// The constraints, or the overrides, of the values of an array at a place.
fn bounds(
    alloc: Global,
    profile: Profile,
    place: ArrayPlace<'_>,
    items: &[Value],
) -> Result<Vec<Requirement>, ProjectFault>
    ensures { Gives list_view result
        (each_from (Requirements.bound_at profile (place_of place.entry)) 0 (items_list (items_view items.now))) }
{
    let mut list = Vec::new(alloc);
    let mut number: u64 = 0;
    for item in items {
        list = with_read(list, bound_at(alloc, profile, place, number, item))?;
        number += 1;
    }
    Ok(list)
}

// The constraints, or the overrides, of the array at a place, where there is one.
#[tactic(auto, unfolding(crate::specs::Requirements::bounds_at))]
pub(crate) fn bounds_at(
    alloc: Global,
    profile: Profile,
    place: ArrayPlace<'_>,
    value: Option<&Value>,
) -> Result<Vec<Requirement>, ProjectFault>
    ensures { Gives list_view result (Requirements.bounds_at profile (place_of place.entry) (value_view value.entry)) }
{
    let items = optional_items_at(alloc, place, value)?;
    bounds(alloc, profile, place, items)
}
