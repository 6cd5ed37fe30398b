//! What a project requires by its extras.

ghost use Rattle.std.specs.Prelude.{◌≡◌, ◌++◌, IfOk, OnOk, map, option_map};
ghost use Rattle.std.specs.List.Sorted.{IsStrictlySortedBy};
ghost use Rattle.toml.specs.View.{view};
ghost use Rattle.ul_base.specs.Names.{name_cmp};
ghost use Rattle.ul_comparison.specs.Formulas.{IsFormula};
ghost use Rattle.ul_marker.specs.Views.{marker_view};
ghost use Rattle.ul_requirement.specs.Fields.{MayBeFormula};
ghost use Rattle.ul_project.specs.Answers.{Gives, list_view, value_view};
ghost use Rattle.ul_project.specs.Extras as Extras;
ghost use Rattle.ul_project.specs.Lists.{names_of};

use crate::lists::{NamedList, are_names, ordered_lists};
use crate::path::ArrayPlace;
use crate::requirements::requirements_at;
use crate::shapes::{at_key, optional_table_at};
use crate::{Profile, ProjectFault, ProjectKey};
use std::alloc::{AllocError, Global};
use std::collections::BTreeMap;
use std::marker::Model;
use toml::Value;
use ul_base::Name;
use ul_base::owned::{beside, with_one};
use ul_marker::Marker;
use ul_requirement::Requirement;

/// Requirements, which contracts see as their list.
#[derive(Drop)]
pub(crate) struct Requirements {
    pub(crate) list: Vec<Requirement>,
}

impl Model for Requirements {
    ghost use Rattle.std.specs.Coded.{codes};
    ghost use Rattle.std.specs.Prelude.{List};
    ghost use Rattle.ul_comparison.specs.Codes.{formula_code};
    ghost use Rattle.ul_requirement.specs.Fields.{RequirementFields};

    ghost Value = { List RequirementFields };

    ghost coded = { Prim.hlevel (codes, formula_code) };

    ghost view = { λ r. r.list.items };
}

impl NamedList for Requirements {
    ghost use Rattle.ul_project.specs.Extras.{extra_list_at};

    ghost list_at = { extra_list_at };

    fn read(
        alloc: Global,
        profile: Profile,
        name: &Name,
        value: &Value,
    ) -> Result<Requirements, ProjectFault> {
        let list = requirements_at(alloc, profile, ArrayPlace::Extra(name), Some(value))?;
        Ok(Requirements { list })
    }
}

// The optional dependencies, in byte order of the extras.
#[tactic(auto, unfolding(crate::specs::Extras::extras_at, crate::specs::Lists::lists_in))]
pub(crate) fn extras_at(
    alloc: Global,
    profile: Profile,
    value: Option<&Value>,
) -> Result<BTreeMap<Name, Requirements>, ProjectFault>
    ensures { Gives (λ m. m.entries) result (Extras.extras_at profile (value_view value.entry)) }
{
    let Some(table) = optional_table_at(ProjectKey::OptionalDependencies, value)? else {
        return Ok(BTreeMap::new(alloc));
    };
    let none: BTreeMap<Name, Requirements> = BTreeMap::new(alloc);
    let named = are_names(alloc, &none, table);
    drop(none);
    if !named? {
        return Err(ProjectFault::Shape(at_key(ProjectKey::OptionalDependencies)));
    }
    ordered_lists(alloc, profile, ProjectKey::OptionalDependencies, table)
}

// Two markers joined.
fn all_of(alloc: Global, left: Marker, right: Marker) -> Result<Marker, AllocError>
    ensures { IfOk result (λ m. Some (marker_view m)
        ≡ Extras.joined_markers (Some (marker_view left)) (Some (marker_view right))) }
{
    let parts = with_one(Vec::new(alloc), left);
    let (right, parts) = beside(right, parts)?;
    let parts = with_one(parts, right)?;
    Ok(Marker::All(parts))
}

/// Two markers joined by `and`, where there are any. The only error is want of memory.
pub fn joined_markers(
    alloc: Global,
    left: Option<Marker>,
    right: Option<Marker>,
) -> Result<Option<Marker>, AllocError>
    ensures { IfOk result (λ m. option_map marker_view m
        ≡ Extras.joined_markers (option_map marker_view left) (option_map marker_view right)) }
{
    let Some(left) = left else {
        return Ok(right);
    };
    let Some(right) = right else {
        return Ok(Some(left));
    };
    let marker = all_of(alloc, left, right)?;
    Ok(Some(marker))
}

// The marker `extra == 'NAME'`.
fn extra_marker(alloc: Global, name: &Name) -> Result<Option<Marker>, AllocError>
    ensures marker { IfOk result (λ m. option_map marker_view m ≡ Extras.extra_marker name.now) }
    ensures valid { IfOk result (λ m. MayBeFormula (option_map marker_view m)) }
{
    let literal = String::from_str(alloc, name.text())?;
    Ok(Some(Marker::Extra {
        literal,
        equal: true,
    }))
}

// A marker joined with `extra == 'NAME'`.
fn marker_of_extra(
    alloc: Global,
    name: &Name,
    marker: Option<Marker>,
) -> Result<Option<Marker>, AllocError>
    requires { MayBeFormula (option_map marker_view marker) }
    ensures marker { IfOk result (λ m. option_map marker_view m
        ≡ Extras.joined_markers (option_map marker_view marker) (Extras.extra_marker name.now)) }
    ensures valid { IfOk result (λ m. MayBeFormula (option_map marker_view m)) }
{
    let (marker, extra) = beside(marker, extra_marker(alloc, name))?;
    joined_markers(alloc, marker, extra)
}

/// A requirement of an extra, as the project's: `extra == 'NAME'` is joined to its marker.
///
/// The only error is want of memory.
pub fn of_extra(
    alloc: Global,
    name: &Name,
    requirement: Requirement,
) -> Result<Requirement, AllocError>
    ensures { IfOk result (λ q. q ≡ Extras.of_extra name.now requirement) }
{
    let Requirement {
        name: target,
        extras,
        specifiers,
        marker,
    } = requirement;
    let marker = marker_of_extra(alloc, name, marker);
    let (kept, marker) = beside((target, extras, specifiers), marker)?;
    let (target, extras, specifiers) = kept;
    Ok(Requirement {
        name: target,
        extras,
        specifiers,
        marker,
    })
}

// Puts the requirements of an extra, as the project's, behind others.
fn add_list(
    alloc: Global,
    requirements: &mut Vec<Requirement>,
    name: &Name,
    list: Vec<Requirement>,
) -> Result<(), AllocError>
    ensures { OnOk result (requirements.new.items
        ≡ requirements.old.items ++ map (Extras.of_extra name.now) list.items) }
{
    for requirement in list {
        requirements.push(of_extra(alloc, name, requirement)?)?;
    }
    Ok(())
}

// Puts the requirements of all extras, as the project's, behind others; answers the extras, and how many requirements
// each has.
fn add_lists(
    alloc: Global,
    requirements: &mut Vec<Requirement>,
    lists: BTreeMap<Name, Requirements>,
) -> Result<(Vec<Name>, Vec<u64>), AllocError>
    ensures requirements { OnOk result (requirements.new.items
        ≡ requirements.old.items ++ Extras.extra_requirements lists.entries) }
    ensures extras { IfOk result (λ t. t.0.items ≡ names_of lists.entries) }
    ensures sizes { IfOk result (λ t. t.1.items ≡ map Extras.extra_size lists.entries) }
    ensures rises { IfOk result (λ t. IsStrictlySortedBy name_cmp t.0.items) }
{
    let _size = lists.len();
    let mut extras = Vec::new(alloc);
    let mut sizes = Vec::new(alloc);
    for (name, list) in lists {
        sizes.push(list.list.len() as u64)?;
        add_list(alloc, requirements, &name, list.list)?;
        extras.push(name)?;
    }
    Ok((extras, sizes))
}

/// Requirements with those of all extras, as the project's, behind them; the extras, and how many requirements each has.
pub(crate) fn with_extras(
    alloc: Global,
    requirements: Vec<Requirement>,
    lists: BTreeMap<Name, Requirements>,
) -> Result<(Vec<Requirement>, Vec<Name>, Vec<u64>), AllocError>
    ensures requirements { IfOk result (λ t.
        t.0.items ≡ requirements.items ++ Extras.extra_requirements lists.entries) }
    ensures extras { IfOk result (λ t. t.1.items ≡ names_of lists.entries) }
    ensures sizes { IfOk result (λ t. t.2.items ≡ map Extras.extra_size lists.entries) }
    ensures rises { IfOk result (λ t. IsStrictlySortedBy name_cmp t.1.items) }
{
    let mut requirements = requirements;
    let added = add_lists(alloc, &mut requirements, lists);
    let (requirements, added) = beside(requirements, added)?;
    let (extras, sizes) = added;
    Ok((requirements, extras, sizes))
}
