//! Tables whose keys are names and whose values are lists.

ghost use Rattle.std.specs.Prelude.{◌≡◌, ℕ, List, Option, true, IfOk};
ghost use Rattle.std.specs.Map.{keys_of};
ghost use Rattle.toml.specs.Data.{Data};
ghost use Rattle.toml.specs.View.{table_view, view};
ghost use Rattle.ul_base.specs.Names.{name_of};
ghost use Rattle.ul_project.specs.Answers.{Gives, list_view};
ghost use Rattle.ul_project.specs.Lists as Lists;
ghost use Rattle.ul_project.specs.Shapes.{Reading, at_key, shape};
ghost use Rattle.ul_project.specs.declared.profile.Profile.{Profile};

use crate::kept::with_read;
use crate::shapes::at_key;
use crate::{Profile, ProjectFault, ProjectKey};
use std::alloc::{AllocError, Global};
use std::collections::{BTreeMap, BTreeSet};
use toml::{Table, Value};
use ul_base::{Name, NameFault};

/// The extra that a group becomes: `group-` and its name.
///
/// The only error is want of memory.
#[tactic(auto, using(crate::proofs::GroupExtras::extra_name))]
pub fn group_extra(alloc: Global, group: &Name) -> Result<Name, AllocError>
    ensures { IfOk result (λ n. n ≡ Lists.group_extra group.now) }
{
    let name = group.text();
    let text = format!(in alloc; "group-{name}")?;
    match Name::read(alloc, text.as_str()) {
        Ok(extra) => Ok(extra),
        Err(_) => Err(AllocError),
    }
}

// Whether a list of this name is there.
fn has_list<L: Drop>(lists: &BTreeMap<Name, L>, name: &Name) -> bool
    ensures { result ≡ Lists.has_name (Lists.names_of lists.now.entries) name.now }
{
    lists.contains_key(name)
}

// Whether the extra that a group becomes is there.
pub(crate) fn is_taken<L: Drop>(
    alloc: Global,
    extras: &BTreeMap<Name, L>,
    group: &Name,
) -> Result<bool, AllocError>
    ensures { IfOk result (λ b. b ≡ Lists.has_name (Lists.names_of extras.now.entries) (Lists.group_extra group.now)) }
{
    let extra = group_extra(alloc, group)?;
    let taken = has_list(extras, &extra);
    Ok(taken)
}

// The name of a key, where it is one.
fn key_name(alloc: Global, key: &str) -> Result<Option<Name>, AllocError>
    ensures { IfOk result (λ n. n ≡ name_of key.now) }
{
    match Name::read(alloc, key) {
        Ok(name) => Ok(Some(name)),
        Err(NameFault::NoReading) => Ok(None),
        Err(NameFault::NoMemory) => Err(AllocError),
    }
}

// Whether a key is a name that is new behind those of earlier keys; notes it.
fn add_key<L: Drop>(
    alloc: Global,
    extras: &BTreeMap<Name, L>,
    earlier: &mut BTreeSet<Name>,
    key: &str,
) -> Result<bool, AllocError>
    ensures new { IfOk result (λ b. b
        ≡ Lists.is_new (Lists.names_of extras.now.entries) earlier.old.keys (name_of key.now)) }
    ensures noted { IfOk result (λ b. b ≡ true
        → earlier.new.keys ≡ Lists.with_name earlier.old.keys (name_of key.now)) }
{
    let Some(name) = key_name(alloc, key)? else {
        return Ok(false);
    };
    if is_taken(alloc, extras, &name)? {
        return Ok(false);
    }
    let added = earlier.insert(name)?;
    Ok(added)
}

// Whether each key is a name of its own, and none that of a group whose extra is there.
pub(crate) fn are_names<L: Drop>(
    alloc: Global,
    extras: &BTreeMap<Name, L>,
    table: &Table,
) -> Result<bool, AllocError>
    ensures { IfOk result (λ b. b ≡ Lists.are_names (Lists.names_of extras.now.entries) (table_view table.now)) }
{
    let mut earlier = BTreeSet::new(alloc);
    for (key, _value) in table.iter() {
        let new = add_key(alloc, extras, &mut earlier, key.as_str())?;
        if !new {
            return Ok(false);
        }
    }
    Ok(true)
}

/// A list that stands under a name.
pub(crate) trait NamedList: Drop + Sized {
    /// What a profile reads the value at a key as, under the name of the key.
    ghost list_at: { Profile → List ℕ → Option Data → Reading Self };

    /// The list of a value.
    fn read(
        alloc: Global,
        profile: Profile,
        name: &Name,
        value: &Value,
    ) -> Result<Self, ProjectFault>
        ensures { Gives (λ l. l) result (list_at profile name.now (Some (view value.now))) };
}

// The name of a key, and the list there.
fn list_at<L: NamedList>(
    alloc: Global,
    profile: Profile,
    place: ProjectKey,
    key: &str,
    value: &Value,
) -> Result<(Name, L), ProjectFault>
    ensures { Gives (λ p. p) result (Lists.list_at (shape (at_key place)) (L.list_at profile) key.now (view value.now)) }
{
    match key_name(alloc, key)? {
        Some(name) => {
            let list = L::read(alloc, profile, &name, value)?;
            Ok((name, list))
        }
        None => Err(ProjectFault::Shape(at_key(place))),
    }
}

// The lists of a table, in byte order of its keys.
pub(crate) fn lists_in<L: NamedList>(
    alloc: Global,
    profile: Profile,
    place: ProjectKey,
    table: &Table,
) -> Result<Vec<(Name, L)>, ProjectFault>
    ensures { Gives list_view result
        (Lists.lists_in (shape (at_key place)) (L.list_at profile) (table_view table.now)) }
{
    let mut lists = Vec::new(alloc);
    for (key, value) in table.iter() {
        lists = with_read(lists, list_at(alloc, profile, place, key.as_str(), value))?;
    }
    Ok(lists)
}

// Lists in byte order of their names.
pub(crate) fn by_name<L: Drop>(
    alloc: Global,
    lists: Vec<(Name, L)>,
) -> Result<BTreeMap<Name, L>, AllocError>
    ensures { IfOk result (λ m. m.entries ≡ Lists.by_name lists.items) }
{
    let mut ordered = BTreeMap::new(alloc);
    for (name, list) in lists {
        drop(ordered.insert(name, list)?);
    }
    Ok(ordered)
}

// The lists of a table, in byte order of their names.
pub(crate) fn ordered_lists<L: NamedList>(
    alloc: Global,
    profile: Profile,
    place: ProjectKey,
    table: &Table,
) -> Result<BTreeMap<Name, L>, ProjectFault>
    ensures { Gives (λ m. m.entries) result
        (Lists.ordered_lists (shape (at_key place)) (L.list_at profile) (table_view table.now)) }
{
    let lists: Vec<(Name, L)> = lists_in(alloc, profile, place, table)?;
    let ordered = by_name(alloc, lists)?;
    Ok(ordered)
}
