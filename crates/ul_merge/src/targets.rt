//! The targets of a release's requirements, and which leaves chose them.
ghost use Rattle.std.specs.Prelude.{◌≡◌, ◌++◌, IfOk, OnOk, map, option_map};
ghost use Rattle.ul_requirement.specs.Truth.{targets, with_extra};
ghost use Rattle.ul_merge.specs.Members.{AreUses};
ghost use Rattle.ul_merge.specs.Rows.{aim_of, aim_rows, aim_uses, aims_at, all_uses, chosen_use, use_row};

use crate::choices::{Choices, version_at};
use crate::gathering::{Entry, Group, groups_of};
use crate::keys::PickKey;
use crate::numbers::node_number;
use std::alloc::{AllocError, Global};
use ul_base::{Name, Node};
use ul_requirement::Requirement;
use ul_version::Version;

/// A target of the requirement at a place.
#[derive(Drop)]
pub(crate) struct Aim {
    pub(crate) target: Node,
    pub(crate) requirement: usize,
}

/// The places of a leaf that chose a target, and of a requirement that aims at it.
#[derive(Clone, Copy, Drop)]
pub(crate) struct Use {
    pub(crate) leaf: usize,
    pub(crate) requirement: usize,
}

// Adds a name's extras as targets.
fn put_extras(
    alloc: Global,
    aims: &mut Vec<Aim>,
    name: &Name,
    extras: &[Name],
    requirement: usize,
) -> Result<(), AllocError>
    ensures { OnOk result (map aim_of aims.new.items
        ≡ map aim_of aims.old.items ++ aims_at requirement (map (with_extra name.now) extras.now)) }
{
    for extra in extras {
        let target = Node {
            name: name.copy(alloc)?,
            extra: Some(extra.copy(alloc)?),
        };
        aims.push(Aim {
            target,
            requirement,
        })?;
    }
    Ok(())
}

// Adds the targets of a requirement.
fn put_targets(
    alloc: Global,
    aims: &mut Vec<Aim>,
    one: &Requirement,
    requirement: usize,
) -> Result<(), AllocError>
    ensures { OnOk result (map aim_of aims.new.items
        ≡ map aim_of aims.old.items ++ aims_at requirement (targets one.now)) }
{
    let name: &Name = &one.name;
    let extras: &Vec<Name> = &one.extras;
    let target = Node {
        name: name.copy(alloc)?,
        extra: None,
    };
    aims.push(Aim {
        target,
        requirement,
    })?;
    put_extras(alloc, aims, name, extras.as_slice(), requirement)?;
    Ok(())
}

/// The targets of requirements, in order.
pub(crate) fn aims_of(alloc: Global, requirements: &[&Requirement]) -> Result<Vec<Aim>, AllocError>
    ensures { IfOk result (λ v. map aim_of v.items ≡ aim_rows 0 (map (λ q. q.now) requirements.now)) }
{
    let mut aims = Vec::new(alloc);
    for place in 0..requirements.len() {
        put_targets(alloc, &mut aims, requirements[place], place)?;
    }
    Ok(aims)
}

// Adds a target, if it is chosen.
fn put_use<'a>(
    entries: &mut Vec<Entry<PickKey<'a>, Use>>,
    node: &'a Node,
    number: u64,
    version: Option<&'a Version>,
    value: Use,
) -> Result<(), AllocError>
    ensures { OnOk result (map use_row entries.new.items
        ≡ map use_row entries.old.items ++ chosen_use node.now value (option_map (λ v. v.now) version.entry)) }
{
    if let Some(version) = version {
        entries.push(Entry {
            key: PickKey {
                node,
                number,
                version,
            },
            value,
        })?;
    }
    Ok(())
}

// Adds a target where leaves chose it.
fn put_uses<'a>(
    entries: &mut Vec<Entry<PickKey<'a>, Use>>,
    choices: &[Choices<'a>],
    users: &[usize],
    aim: &'a Aim,
) -> Result<(), AllocError>
    ensures { OnOk result (map use_row entries.new.items
        ≡ map use_row entries.old.items ++ aim_uses choices.now (aim_of aim.now) users.now) }
{
    let number = node_number(&aim.target);
    for leaf in users {
        let version = version_at(choices, *leaf, &aim.target, number);
        let value = Use {
            leaf: *leaf,
            requirement: aim.requirement,
        };
        put_use(entries, &aim.target, number, version, value)?;
    }
    Ok(())
}

// The targets where leaves chose them.
fn use_entries<'a>(
    alloc: Global,
    choices: &[Choices<'a>],
    users: &[usize],
    aims: &'a [Aim],
) -> Result<Vec<Entry<PickKey<'a>, Use>>, AllocError>
    ensures { IfOk result (λ v. map use_row v.items ≡ all_uses choices.now users.now (map aim_of aims.now)) }
{
    let mut entries = Vec::new(alloc);
    for aim in aims {
        put_uses(&mut entries, choices, users, aim)?;
    }
    Ok(entries)
}

/// Where leaves chose targets, by the targets at their versions.
pub(crate) fn uses_of<'a>(
    alloc: Global,
    choices: &[Choices<'a>],
    users: &[usize],
    aims: &'a [Aim],
) -> Result<Vec<Group<PickKey<'a>, Use>>, AllocError>
    ensures { IfOk result (λ v. AreUses choices.now users.now (map aim_of aims.now) v.items) }
{
    let entries = use_entries(alloc, choices, users, aims)?;
    groups_of(alloc, entries)
}
