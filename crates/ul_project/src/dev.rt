//! `tool.uv.dev-dependencies`: requirements of the group `dev`.

ghost use Rattle.std.specs.Prelude.{◌≡◌, ◌++◌, [], IfOk, OnOk, map};
ghost use Rattle.std.specs.List.Sorted.{IsStrictlySortedBy};
ghost use Rattle.toml.specs.View.{items_view};
ghost use Rattle.ul_base.specs.Names.{name_cmp};
ghost use Rattle.ul_project.specs.Answers.{Gives, list_view, members_view, value_view, values_view};
ghost use Rattle.ul_project.specs.DevDependencies as spec;
ghost use Rattle.ul_project.specs.Lists.{names_of, put_list};
ghost use Rattle.ul_project.specs.Toml.{items_list};
ghost use Rattle.ul_project.specs.declared.group.GroupEntry.TheVariants.{Needs};

use crate::extras::Requirements;
use crate::groups::{Entries, groups_of};
use crate::lists::is_taken;
use crate::path::ArrayPlace;
use crate::requirements::requirements;
use crate::shapes::{at_key, optional_items_at, value_in};
use crate::{Group, GroupEntry, Profile, ProjectFault, ProjectKey};
use std::alloc::{AllocError, Global};
use std::collections::BTreeMap;
use toml::{Table, Value};
use ul_base::Name;
use ul_base::owned::{beside, with_one};
use ul_requirement::Requirement;

// The name of the group.
fn dev_name(alloc: Global) -> Result<Name, AllocError>
    ensures { IfOk result (λ n. n ≡ spec.dev) }
{
    match Name::read(alloc, "dev") {
        Ok(name) => Ok(name),
        Err(_) => Err(AllocError),
    }
}

// Entries, of which there are none where the group's extra is one of the project.
fn dev_allowed<'a>(
    alloc: Global,
    extras: &BTreeMap<Name, Requirements>,
    items: &'a [Value],
) -> Result<&'a [Value], ProjectFault>
    ensures { Gives values_view result (spec.dev_allowed (names_of extras.now.entries) (values_view items.entry)) }
{
    if items.is_empty() {
        return Ok(items);
    }
    let name = dev_name(alloc)?;
    if is_taken(alloc, extras, &name)? {
        return Err(ProjectFault::Shape(at_key(ProjectKey::DevDependencies)));
    }
    Ok(items)
}

// The requirements of the group, of an array.
#[tactic(auto, unfolding(crate::specs::DevDependencies::dev_dependencies_at))]
fn dev_dependencies_at(
    alloc: Global,
    extras: &BTreeMap<Name, Requirements>,
    value: Option<&Value>,
) -> Result<Vec<Requirement>, ProjectFault>
    ensures { Gives list_view result
        (spec.dev_dependencies_at (names_of extras.now.entries) (value_view value.entry)) }
{
    let place = ArrayPlace::Key(ProjectKey::DevDependencies);
    let items = optional_items_at(alloc, place, value)?;
    let allowed = dev_allowed(alloc, extras, items)?;
    requirements(alloc, Profile::Wide, place, allowed)
}

// The requirements of the group that a profile reads.
pub(crate) fn dev_dependencies_in(
    alloc: Global,
    profile: Profile,
    extras: &BTreeMap<Name, Requirements>,
    uv: Option<&Table>,
) -> Result<Vec<Requirement>, ProjectFault>
    ensures { Gives list_view result
        (spec.dev_dependencies_in profile (names_of extras.now.entries) (members_view uv.entry)) }
{
    match profile {
        Profile::Strict => Ok(Vec::new(alloc)),
        Profile::Wide => dev_dependencies_at(alloc, extras, value_in(uv, "dev-dependencies")),
    }
}

// Requirements behind the entries of a group.
fn with_needs(
    entries: Vec<GroupEntry>,
    requirements: Vec<Requirement>,
) -> Result<Vec<GroupEntry>, AllocError>
    ensures { IfOk result (λ v. v.items ≡ entries.items ++ map Needs requirements.items) }
{
    let mut entries = entries;
    for requirement in requirements {
        entries = with_one(entries, GroupEntry::Needs(requirement))?;
    }
    Ok(entries)
}

// The entries of the group `dev`, taken out: it stays among the lists, without entries.
fn taken_entries(
    alloc: Global,
    lists: &mut BTreeMap<Name, Entries>,
) -> Result<Vec<GroupEntry>, AllocError>
    ensures taken { IfOk result (λ v. v.items ≡ spec.entries_of spec.dev lists.old.entries) }
    ensures left { OnOk result (lists.new.entries ≡ put_list lists.old.entries (spec.dev, [])) }
{
    let name = dev_name(alloc)?;
    let none = Entries {
        list: Vec::new(alloc),
    };
    match lists.insert(name, none)? {
        Some(entries) => Ok(entries.list),
        None => Ok(Vec::new(alloc)),
    }
}

// Puts requirements behind the entries of the group `dev`, which is made where it isn't there.
fn add_dev(
    alloc: Global,
    lists: &mut BTreeMap<Name, Entries>,
    requirements: Vec<Requirement>,
) -> Result<(), AllocError>
    ensures { OnOk result (lists.new.entries ≡ spec.with_dev requirements.items lists.old.entries) }
{
    if requirements.is_empty() {
        drop(requirements);
        return Ok(());
    }
    let (requirements, entries) = beside(requirements, taken_entries(alloc, lists))?;
    let list = with_needs(entries, requirements)?;
    let (list, name) = beside(list, dev_name(alloc))?;
    drop(lists.insert(name, Entries { list })?);
    Ok(())
}

/// The groups of these lists, in byte order of their names, with requirements behind the entries of the group `dev`.
pub(crate) fn groups_with(
    alloc: Global,
    lists: BTreeMap<Name, Entries>,
    requirements: Vec<Requirement>,
) -> Result<Vec<Group>, AllocError>
    ensures groups { IfOk result (λ v. v.items ≡ spec.groups_with requirements.items lists.entries) }
    ensures rises { IfOk result (λ v. IsStrictlySortedBy name_cmp (map (λ g. g.name) v.items)) }
{
    let mut lists = lists;
    let added = add_dev(alloc, &mut lists, requirements);
    let (lists, _added) = beside(lists, added)?;
    let groups = groups_of(alloc, lists)?;
    Ok(groups)
}
