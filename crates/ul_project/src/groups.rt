//! The dependency groups of a project file.

ghost use Rattle.std.specs.Prelude.{◌≡◌, ◌==◌, IfOk, map};
ghost use Rattle.std.specs.List.Sorted.{IsStrictlySortedBy};
ghost use Rattle.toml.specs.View.{items_view, table_view, view};
ghost use Rattle.ul_base.specs.Names.{name_cmp};
ghost use Rattle.ul_project.specs.Answers.{Gives, list_view, value_view};
ghost use Rattle.ul_project.specs.GroupLists as GroupLists;
ghost use Rattle.ul_project.specs.Lists.{names_of};
ghost use Rattle.ul_project.specs.Results.{each_from, or_fault};
ghost use Rattle.ul_project.specs.Shapes.{shape};
ghost use Rattle.ul_project.specs.Toml.{items_list};
ghost use Rattle.ul_project.specs.declared.path.Place.{Place};
ghost use Rattle.ul_project.specs.declared.path.ProjectPath.{ProjectPath};

use crate::extras::Requirements;
use crate::kept::with_read;
use crate::lists::{NamedList, are_names, ordered_lists};
use crate::path::ArrayPlace;
use crate::requirements::requirement_at;
use crate::shapes::{at_key, items_at, optional_table_at, value_at};
use crate::{Group, GroupEntry, Profile, ProjectFault, ProjectKey};
use std::alloc::{AllocError, Global};
use std::collections::BTreeMap;
use std::marker::Model;
use toml::{Table, Value};
use ul_base::owned::with_one;
use ul_base::{Name, NameFault};

/// The entries of a group, which contracts see as their list.
#[derive(Drop)]
pub(crate) struct Entries {
    pub(crate) list: Vec<GroupEntry>,
}

impl Model for Entries {
    ghost use Rattle.std.specs.Coded.{codes};
    ghost use Rattle.std.specs.Prelude.{List};
    ghost use Rattle.ul_comparison.specs.Codes.{formula_code};
    ghost use Rattle.ul_project.specs.declared.group.GroupEntry.{GroupEntry};

    ghost Value = { List GroupEntry };

    ghost coded = { Prim.hlevel (codes, formula_code) };

    ghost view = { λ e. e.list.items };
}

// The name that a value is.
pub(crate) fn name_in(alloc: Global, value: Option<&Value>) -> Result<Option<Name>, AllocError>
    ensures { IfOk result (λ n. n ≡ GroupLists.name_in (value_view value.entry)) }
{
    let Some(Value::String(text)) = value else {
        return Ok(None);
    };
    match Name::read(alloc, text.as_str()) {
        Ok(name) => Ok(Some(name)),
        Err(NameFault::NoReading) => Ok(None),
        Err(NameFault::NoMemory) => Err(AllocError),
    }
}

// Whether a table has one key.
fn is_single(table: &Table) -> bool
    ensures { result ≡ (GroupLists.member_count (table_view table.now) == 1) }
{
    table.len() == 1
}

// The group that a table includes.
fn included(alloc: Global, table: &Table) -> Result<Option<Name>, AllocError>
    ensures { IfOk result (λ n. n ≡ GroupLists.included_group (table_view table.now)) }
{
    if !is_single(table) {
        return Ok(None);
    }
    name_in(alloc, value_at(table, "include-group"))
}

// The group that an entry includes.
fn include_at(alloc: Global, group: &Name, entry: u64, table: &Table) -> Result<Name, ProjectFault>
    ensures { Gives (λ n. n) result
        (or_fault (shape (ProjectPath.Entry (Place.Group group.now) entry))
        (GroupLists.included_group (table_view table.now))) }
{
    match included(alloc, table)? {
        Some(name) => Ok(name),
        None => Err(ProjectFault::Shape(ArrayPlace::Group(group).entry(alloc, entry)?)),
    }
}

// An entry of a group.
#[tactic(auto, unfolding(crate::specs::GroupLists::group_entry_at))]
fn group_entry_at(
    alloc: Global,
    profile: Profile,
    group: &Name,
    entry: u64,
    value: &Value,
) -> Result<GroupEntry, ProjectFault>
    ensures { Gives (λ e. e) result (GroupLists.group_entry_at profile group.now entry (view value.now)) }
{
    match value {
        Value::Table(table) => {
            let name = include_at(alloc, group, entry, table)?;
            Ok(GroupEntry::Include(name))
        }
        value => {
            let requirement = requirement_at(
                alloc,
                profile,
                ArrayPlace::Group(group),
                entry,
                value,
            )?;
            Ok(GroupEntry::Needs(requirement))
        }
    }
}

// The entries of a group, of the values of an array.
fn group_entries(
    alloc: Global,
    profile: Profile,
    group: &Name,
    items: &[Value],
) -> Result<Vec<GroupEntry>, ProjectFault>
    ensures { Gives list_view result
        (each_from (GroupLists.group_entry_at profile group.now) 0 (items_list (items_view items.now))) }
{
    let mut list = Vec::new(alloc);
    let mut number: u64 = 0;
    for item in items {
        list = with_read(list, group_entry_at(alloc, profile, group, number, item))?;
        number += 1;
    }
    Ok(list)
}

impl NamedList for Entries {
    ghost use Rattle.ul_project.specs.GroupLists.{group_entries_at};

    ghost list_at = { group_entries_at };

    #[tactic(auto, unfolding(crate::specs::GroupLists::group_entries_at))]
    fn read(
        alloc: Global,
        profile: Profile,
        name: &Name,
        value: &Value,
    ) -> Result<Entries, ProjectFault> {
        let items = items_at(alloc, ArrayPlace::Group(name), Some(value))?;
        let list = group_entries(alloc, profile, name, items)?;
        Ok(Entries { list })
    }
}

// The lists of the groups, in byte order of their names.
#[tactic(auto, unfolding(crate::specs::GroupLists::group_lists_at, crate::specs::Lists::lists_in))]
pub(crate) fn group_lists_at(
    alloc: Global,
    profile: Profile,
    extras: &BTreeMap<Name, Requirements>,
    value: Option<&Value>,
) -> Result<BTreeMap<Name, Entries>, ProjectFault>
    ensures { Gives (λ m. m.entries) result
        (GroupLists.group_lists_at profile (names_of extras.now.entries) (value_view value.entry)) }
{
    let Some(table) = optional_table_at(ProjectKey::DependencyGroups, value)? else {
        return Ok(BTreeMap::new(alloc));
    };
    if !are_names(alloc, extras, table)? {
        return Err(ProjectFault::Shape(at_key(ProjectKey::DependencyGroups)));
    }
    ordered_lists(alloc, profile, ProjectKey::DependencyGroups, table)
}

// Lists as groups.
pub(crate) fn groups_of(
    alloc: Global,
    lists: BTreeMap<Name, Entries>,
) -> Result<Vec<Group>, AllocError>
    ensures groups { IfOk result (λ v. v.items ≡ map GroupLists.group_of lists.entries) }
    ensures rises { IfOk result (λ v. IsStrictlySortedBy name_cmp (map (λ g. g.name) v.items)) }
{
    let _size = lists.len();
    let mut groups = Vec::new(alloc);
    for (name, entries) in lists {
        let group = Group {
            name,
            entries: entries.list,
        };
        groups = with_one(groups, group)?;
    }
    Ok(groups)
}
