//! Requirements adjusted by overrides, constraints and sources.

ghost use Rattle.std.specs.Prelude.{◌≡◌, ◌++◌, IfOk, OnOk, map};
ghost use Rattle.ul_groups.specs.Adjusted as Adjusted;
ghost use Rattle.ul_groups.specs.NameLists.{at_name};

use crate::name_lists::{Requirements, on_name};
use std::alloc::{AllocError, Global};
use std::collections::BTreeMap;
use ul_base::Name;
use ul_base::owned::beside;
use ul_project::joined_markers;
use ul_requirement::Requirement;

// What an override makes of a requirement.
#[tactic(auto, using(crate::proofs::AdjustedLists::joined_valid))]
fn overridden_by(
    alloc: Global,
    requirement: &Requirement,
    by: &Requirement,
) -> Result<Requirement, AllocError>
    ensures { IfOk result (λ q. q ≡ Adjusted.overridden_by requirement.now by.now) }
{
    let requirement = requirement.copy(alloc)?;
    let (requirement, by) = beside(requirement, by.copy(alloc))?;
    let Requirement {
        name,
        extras,
        specifiers: replaced,
        marker,
    } = requirement;
    let Requirement {
        name: same,
        extras: none,
        specifiers,
        marker: other,
    } = by;
    drop((replaced, same, none));
    let marker = joined_markers(alloc, marker, other);
    let (kept, marker) = beside((name, extras, specifiers), marker)?;
    let (name, extras, specifiers) = kept;
    Ok(Requirement {
        name,
        extras,
        specifiers,
        marker,
    })
}

// What a constraint adds to a requirement: what an override would make of it, without extras.
fn constrained_by(
    alloc: Global,
    requirement: &Requirement,
    by: &Requirement,
) -> Result<Requirement, AllocError>
    ensures { IfOk result (λ q. q ≡ Adjusted.constrained_by requirement.now by.now) }
{
    let Requirement {
        name,
        extras,
        specifiers,
        marker,
    } = overridden_by(alloc, requirement, by)?;
    drop(extras);
    Ok(Requirement {
        name,
        extras: Vec::new(alloc),
        specifiers,
        marker,
    })
}

// Adds what each override makes of a requirement.
fn add_overridden(
    alloc: Global,
    list: &mut Vec<Requirement>,
    requirement: &Requirement,
    overrides: &[Requirement],
) -> Result<(), AllocError>
    ensures { OnOk result (list.new.items
        ≡ list.old.items ++ map (Adjusted.overridden_by requirement.now) overrides.now) }
{
    for by in overrides {
        list.push(overridden_by(alloc, requirement, by)?)?;
    }
    Ok(())
}

// Adds what stands in the place of a requirement with these overrides.
#[tactic(auto, using(crate::proofs::AdjustedLists::replaced_some))]
fn add_replaced(
    alloc: Global,
    list: &mut Vec<Requirement>,
    requirement: &Requirement,
    overrides: &[Requirement],
) -> Result<(), AllocError>
    ensures { OnOk result (list.new.items ≡ list.old.items ++ Adjusted.replaced_by requirement.now overrides.now) }
{
    match overrides {
        [] => {
            list.push(requirement.copy(alloc)?)?;
            Ok(())
        }
        [_, ..] => add_overridden(alloc, list, requirement, overrides),
    }
}

// Adds what each constraint adds to a requirement.
fn add_constrained(
    alloc: Global,
    list: &mut Vec<Requirement>,
    requirement: &Requirement,
    constraints: &[Requirement],
) -> Result<(), AllocError>
    ensures { OnOk result (list.new.items
        ≡ list.old.items ++ map (Adjusted.constrained_by requirement.now) constraints.now) }
{
    for by in constraints {
        list.push(constrained_by(alloc, requirement, by)?)?;
    }
    Ok(())
}

// Adds a requirement, and what these constraints add to it.
fn add_followed(
    alloc: Global,
    list: &mut Vec<Requirement>,
    requirement: Requirement,
    constraints: &[Requirement],
) -> Result<(), AllocError>
    ensures { OnOk result (list.new.items ≡ list.old.items ++ Adjusted.followed_by requirement constraints.now) }
{
    let mut followers = Vec::new(alloc);
    add_constrained(alloc, &mut followers, &requirement, constraints)?;
    list.push(requirement)?;
    for follower in followers {
        list.push(follower)?;
    }
    Ok(())
}

// Requirements after the overrides.
fn overridden_list(
    alloc: Global,
    overrides: &BTreeMap<Name, Requirements>,
    requirements: &[Requirement],
) -> Result<Vec<Requirement>, AllocError>
    ensures { IfOk result (λ v. v.items ≡ Adjusted.overridden_list (at_name overrides.now.entries) requirements.now) }
{
    let mut list = Vec::new(alloc);
    for requirement in requirements {
        let name: &Name = &requirement.name;
        add_replaced(alloc, &mut list, requirement, on_name(overrides, name))?;
    }
    Ok(list)
}

// Requirements after the constraints.
fn constrained_list(
    alloc: Global,
    constraints: &BTreeMap<Name, Requirements>,
    requirements: Vec<Requirement>,
) -> Result<Vec<Requirement>, AllocError>
    ensures { IfOk result (λ v. v.items
        ≡ Adjusted.constrained_list (at_name constraints.now.entries) requirements.items) }
{
    let mut list = Vec::new(alloc);
    for requirement in requirements {
        let name: &Name = &requirement.name;
        let on = on_name(constraints, name);
        add_followed(alloc, &mut list, requirement, on)?;
    }
    Ok(list)
}

/// Requirements after the overrides, then the constraints, and then the constraints that sources are.
pub(crate) fn adjusted_list(
    alloc: Global,
    constraints: &BTreeMap<Name, Requirements>,
    overrides: &BTreeMap<Name, Requirements>,
    sources: &BTreeMap<Name, Requirements>,
    requirements: &[Requirement],
) -> Result<Vec<Requirement>, AllocError>
    ensures { IfOk result (λ v. v.items ≡ Adjusted.adjusted_list (at_name constraints.now.entries)
        (at_name overrides.now.entries) (at_name sources.now.entries) requirements.now) }
{
    let list = overridden_list(alloc, overrides, requirements)?;
    let list = constrained_list(alloc, constraints, list)?;
    let list = constrained_list(alloc, sources, list)?;
    Ok(list)
}
