//! Lists of requirements of dependency groups (PEP 735).

ghost use Rattle.std.specs.BTreeMap.{is_at};
ghost use Rattle.std.specs.Option.{option_or};
ghost use Rattle.std.specs.Prelude.{◌≡◌, ◌<◌, ◌≤◌, ◌++◌, ◌∷◌, ℕ, List, [], IfOk, OnOk, Some, cond, option_map};
ghost use Rattle.ul_base.specs.Names.{name_cmp};
ghost use Rattle.ul_requirement.specs.Fields.{RequirementFields};
ghost use Rattle.ul_groups.specs.Answers.{Gives};
ghost use Rattle.ul_groups.specs.Expanded as Expanded;
ghost use Rattle.ul_groups.specs.Expanded.{group_named, with_one};
ghost use Rattle.ul_groups.specs.GroupMaps.{HasGroups, groups_in, list_fields};
ghost use Rattle.ul_groups.specs.Opened.{AreNamed, Enters, GoesOn, left_of, opened, with_inner};
ghost use Rattle.ul_groups.specs.Turns.{turns_left};

use std::alloc::{AllocError, Global};
use std::collections::{BTreeMap, BTreeSet};
use ul_base::Name;
use ul_project::{Group, GroupEntry, Place, ProjectFault, ProjectPath};
use ul_requirement::Requirement;

// Puts a group at its name.
#[tactic(auto, using(crate::proofs::GroupMaps::group_listed_at))]
fn insert<'a>(
    alloc: Global,
    map: &mut BTreeMap<Name, &'a Group>,
    group: &'a Group,
) -> Result<(), AllocError>
    ensures { OnOk result ((name : List ℕ) → groups_in map.new.entries name
        ≡ cond (is_at (name_cmp group.now.name) name) (Some group.now) (groups_in map.old.entries name)) }
{
    let name: &Name = &group.name;
    drop(map.insert(name.copy(alloc)?, group)?);
    Ok(())
}

// Puts a group at its name, if no other stands there.
fn insert_new<'a>(
    alloc: Global,
    map: &mut BTreeMap<Name, &'a Group>,
    group: &'a Group,
) -> Result<(), AllocError>
    ensures { OnOk result ((name : List ℕ) → groups_in map.new.entries name
        ≡ option_or (groups_in map.old.entries name) (group_named (group.now ∷ []) name)) }
{
    let name: &Name = &group.name;
    if map.contains_key(name) {
        return Ok(());
    }
    insert(alloc, map, group)?;
    Ok(())
}

/// Groups by their names.
pub(crate) fn groups_by_name<'a>(
    alloc: Global,
    groups: &'a [Group],
) -> Result<BTreeMap<Name, &'a Group>, AllocError>
    ensures { IfOk result (λ m. HasGroups m.entries groups.now) }
{
    let mut map = BTreeMap::new(alloc);
    for group in groups {
        insert_new(alloc, &mut map, group)?;
    }
    Ok(map)
}

// The group of a name.
fn group_at<'a>(groups: &BTreeMap<Name, &'a Group>, name: &Name) -> Option<&'a Group>
    ensures { option_map (λ g. g.now) result ≡ groups_in groups.now.entries name.now }
{
    match groups.get(name) {
        Some(found) => Some(*found),
        None => None,
    }
}

// The fault of an include that is refused.
fn refused(alloc: Global, group: &Name, number: u64) -> Result<ProjectFault, AllocError>
    ensures { IfOk result (λ f. f ≡ ProjectFault.Shape (ProjectPath.Entry (Place.Group group.now) number)) }
{
    let place = Place::Group(group.copy(alloc)?);
    Ok(ProjectFault::Shape(ProjectPath::Entry(place, number)))
}

// A group whose entries are being added to a list, and the number of its next entry.
#[derive(Drop)]
pub(crate) struct Open<'a> {
    group: &'a Group,
    number: usize,
}

// Adds an entry of a group. A group that it includes is answered, so that its entries come next.
fn add_entry<'a>(
    alloc: Global,
    groups: &BTreeMap<Name, &'a Group>,
    group: &Name,
    number: u64,
    entry: &GroupEntry,
    list: &mut Vec<Requirement>,
    begun: &mut BTreeSet<Name>,
    done: &BTreeSet<Name>,
) -> Result<Option<&'a Group>, ProjectFault>
    requires { AreNamed (groups_in groups.now.entries) }
    ensures entry { Enters (groups_in groups.now.entries) group.now number entry.now
        (list_fields list.old.items begun.old.keys done.now.keys)
        (list_fields list.new.items begun.new.keys done.now.keys) result }
    ensures turns { IfOk result (λ inner. turns_left groups.now.entries (with_inner [] inner) begun.new.keys
        ≤ turns_left groups.now.entries [] begun.old.keys) }
{
    match entry {
        GroupEntry::Needs(requirement) => {
            list.push(requirement.copy(alloc)?)?;
            Ok(None)
        }
        GroupEntry::Include(name) => include(alloc, groups, group, number, name, begun, done),
    }
}

// Begins a group that is included, unless it is done.
fn include<'a>(
    alloc: Global,
    groups: &BTreeMap<Name, &'a Group>,
    group: &Name,
    number: u64,
    name: &Name,
    begun: &mut BTreeSet<Name>,
    done: &BTreeSet<Name>,
) -> Result<Option<&'a Group>, ProjectFault>
    requires { AreNamed (groups_in groups.now.entries) }
    ensures entry { (list : List RequirementFields)
        → Enters (groups_in groups.now.entries) group.now number (GroupEntry.Include name.now)
        (list_fields list begun.old.keys done.now.keys) (list_fields list begun.new.keys done.now.keys) result }
    ensures turns { IfOk result (λ inner. turns_left groups.now.entries (with_inner [] inner) begun.new.keys
        ≤ turns_left groups.now.entries [] begun.old.keys) }
{
    let Some(found) = group_at(groups, name) else {
        return Err(refused(alloc, group, number)?);
    };
    if done.contains(name) {
        return Ok(None);
    }
    if begun.contains(name) {
        return Err(refused(alloc, group, number)?);
    }
    let _new = begun.insert(name.copy(alloc)?)?;
    Ok(Some(found))
}

// Ends a group.
fn end(alloc: Global, group: &Group, done: &mut BTreeSet<Name>) -> Result<(), AllocError>
    ensures { OnOk result (done.new.keys ≡ with_one done.old.keys group.now.name) }
{
    let name: &Name = &group.name;
    let _new = done.insert(name.copy(alloc)?)?;
    Ok(())
}

// Opens a group that is included inside the others.
#[tactic(auto, using(crate::proofs::Opened::opened_more))]
fn open_inner<'a>(opens: &mut Vec<Open<'a>>, inner: Option<&'a Group>) -> Result<(), AllocError>
    ensures { OnOk result (opened opens.new.items ≡ with_inner (opened opens.old.items) inner.entry) }
{
    let Some(group) = inner else {
        return Ok(());
    };
    opens.push(Open { group, number: 0 })?;
    Ok(())
}

// Adds the next entry of the innermost group, which is open again after it, and inside it the group that the entry
// includes; or ends the innermost group.
fn add_next<'a>(
    alloc: Global,
    groups: &BTreeMap<Name, &'a Group>,
    innermost: Open<'a>,
    opens: &mut Vec<Open<'a>>,
    list: &mut Vec<Requirement>,
    begun: &mut BTreeSet<Name>,
    done: &mut BTreeSet<Name>,
) -> Result<(), ProjectFault>
    requires { AreNamed (groups_in groups.now.entries) }
    ensures list { GoesOn
        (left_of (groups_in groups.now.entries)
        (opened opens.old.items ++ (innermost.entry.group.now, innermost.entry.number) ∷ [])
        (list_fields list.old.items begun.old.keys done.old.keys))
        (left_of (groups_in groups.now.entries) (opened opens.new.items)
        (list_fields list.new.items begun.new.keys done.new.keys))
        result }
    ensures turns { OnOk result (turns_left groups.now.entries (opened opens.new.items) begun.new.keys
        < turns_left groups.now.entries
        (opened opens.old.items ++ (innermost.entry.group.now, innermost.entry.number) ∷ []) begun.old.keys) }
{
    let Open { group, number } = innermost;
    let entries: &Vec<GroupEntry> = &group.entries;
    let entries = entries.as_slice();
    if number >= entries.len() {
        end(alloc, group, done)?;
        return Ok(());
    }
    let entry = &entries[number];
    let name: &Name = &group.name;
    let included = add_entry(alloc, groups, name, number as u64, entry, list, begun, done)?;
    opens.push(Open {
        group,
        number: number + 1,
    })?;
    open_inner(opens, included)?;
    Ok(())
}

// Adds what is left of groups, the innermost first.
fn add_all<'a>(
    alloc: Global,
    groups: &BTreeMap<Name, &'a Group>,
    mut opens: Vec<Open<'a>>,
    list: &mut Vec<Requirement>,
    begun: &mut BTreeSet<Name>,
    done: &mut BTreeSet<Name>,
) -> Result<(), ProjectFault>
    requires { AreNamed (groups_in groups.now.entries) }
    ensures { Gives (λ _. list_fields list.new.items begun.new.keys done.new.keys) result
        (left_of (groups_in groups.now.entries) (opened opens.entry.items)
        (list_fields list.old.items begun.old.keys done.old.keys)) }
{
    while let Some(innermost) = opens.pop() {
        add_next(alloc, groups, innermost, &mut opens, list, begun, done)?;
    }
    Ok(())
}

// The group alone, of which no entry was added.
fn opening<'a>(alloc: Global, group: &'a Group) -> Result<Vec<Open<'a>>, AllocError>
    ensures { IfOk result (λ v. opened v.items ≡ (group.now, 0) ∷ []) }
{
    let mut opens = Vec::new(alloc);
    opens.push(Open { group, number: 0 })?;
    Ok(opens)
}

/// The list of a group.
pub(crate) fn group_list<'a>(
    alloc: Global,
    groups: &BTreeMap<Name, &'a Group>,
    group: &'a Group,
) -> Result<Vec<Requirement>, ProjectFault>
    requires { AreNamed (groups_in groups.now.entries) }
    ensures { Gives (λ v. v.items) result (Expanded.group_list (groups_in groups.now.entries) group.now) }
{
    let mut list = Vec::new(alloc);
    let mut begun = BTreeSet::new(alloc);
    let mut done = BTreeSet::new(alloc);
    let name: &Name = &group.name;
    let _new = begun.insert(name.copy(alloc)?)?;
    let opens = opening(alloc, group)?;
    add_all(alloc, groups, opens, &mut list, &mut begun, &mut done)?;
    Ok(list)
}
