//! Entries that are gathered by their keys.
//!
//! An entry goes into the group to which an index of numbers of keys leads, where that has its key, and else opens one.
//! Then the groups are ordered, so keys are compared once for each group and not once for each entry, and level
//! neighbours become one.
ghost use Rattle.std.specs.Prelude.{◌≡◌, ◌++◌, ◌∷◌, [], ◌<◌, IfOk, IfSome, OnOk, length, map, true, false, not};
ghost use Rattle.std.specs.Cmp.{IsTotalOrder};
ghost use Rattle.std.specs.List.Sorted.{IsSortedBy};
ghost use Rattle.std.specs.Ordering.{is_lt};
ghost use Rattle.std.specs.declared.cmp.Ordering.{Ordering};
ghost use Rattle.ul_merge.specs.Gathered.{AreGroups, AreRuns, HasPlace, HoldBundles, IsPut, IsRun, IsWithin, JoinsGroup, JoinsLast, OpensGroup, StandsAt, entry_bundle, group_bundle};

use std::alloc::{AllocError, Global};
use std::cmp::Ordering;
use std::collections::HashMap;
use ul_base::owned::made_from;

/// What entries are gathered by.
pub(crate) trait Key: Copy {
    ghost cmp: { Self → Self → Ordering };

    ghost total: { IsTotalOrder cmp };

    /// The order of keys.
    fn order(&self, other: &Self) -> Ordering
        ensures { result ≡ cmp self.now other.now };

    /// A number of the key: equal keys have equal ones, and others mostly not.
    fn number(&self) -> u64;
}

/// A value under a key.
#[derive(Clone, Copy, Drop)]
pub(crate) struct Entry<K, V> {
    pub(crate) key: K,
    pub(crate) value: V,
}

/// The values under a key.
#[derive(Drop)]
pub(crate) struct Group<K, V> {
    pub(crate) key: K,
    pub(crate) values: Vec<V>,
}

// Opens a group of one value behind the others.
fn open_group<K: Key + Drop, V: Copy + Drop>(
    alloc: Global,
    groups: &mut Vec<Group<K, V>>,
    entry: &Entry<K, V>,
) -> Result<(), AllocError>
    ensures { OnOk result (OpensGroup K.cmp groups.old.items (entry_bundle entry.now) groups.new.items) }
{
    let mut values = Vec::new(alloc);
    values.push(entry.value)?;
    groups.push(Group {
        key: entry.key,
        values,
    })?;
    Ok(())
}

// Adds a value to the group at a place.
fn grow_group<K: Key + Drop, V: Copy + Drop>(
    groups: &mut Vec<Group<K, V>>,
    place: usize,
    entry: &Entry<K, V>,
) -> Result<(), AllocError>
    requires { HasPlace K.cmp groups.old.items place entry.now.key }
    ensures { OnOk result (JoinsGroup K.cmp groups.old.items (entry_bundle entry.now) groups.new.items) }
{
    groups[place].values.push(entry.value)?;
    Ok(())
}

// The place of a group, if its key is level with this one.
fn level_at<K: Key + Drop, V: Copy + Drop>(
    groups: &[Group<K, V>],
    place: usize,
    key: &K,
) -> Option<usize>
    ensures { IfSome result (λ k. HasPlace K.cmp groups.now k key.now) }
{
    let group = groups.get(place)?;
    if group.key.order(key).is_eq() {
        return Some(place);
    }
    None
}

// Puts an entry into the group at a place, or into a new one.
fn put<K: Key + Drop, V: Copy + Drop>(
    alloc: Global,
    groups: &mut Vec<Group<K, V>>,
    place: Option<usize>,
    entry: &Entry<K, V>,
) -> Result<(), AllocError>
    requires { IfSome place (λ k. HasPlace K.cmp groups.old.items k entry.now.key) }
    ensures { OnOk result (IsPut K.cmp groups.old.items (entry_bundle entry.now) groups.new.items) }
{
    match place {
        Some(place) => grow_group(groups, place, entry),
        None => open_group(alloc, groups, entry),
    }
}

// The place to which an index leads for a key, which is set to the end of the groups where it leads to no level one.
fn place_in<K: Key + Drop, V: Copy + Drop>(
    index: &mut HashMap<u64, usize>,
    groups: &[Group<K, V>],
    key: &K,
) -> Result<Option<usize>, AllocError>
    ensures { IfOk result (λ p. IfSome p (λ k. HasPlace K.cmp groups.now k key.now)) }
{
    let number = key.number();
    let place = match index.get(&number) {
        Some(place) => level_at(groups, *place, key),
        None => None,
    };
    if place.is_none() {
        index.insert(number, groups.len())?;
    }
    Ok(place)
}

// The groups of entries, in any order; level keys may have several.
fn held_of<K: Key + Drop, V: Copy + Drop>(
    alloc: Global,
    entries: &[Entry<K, V>],
) -> Result<Vec<Group<K, V>>, AllocError>
    ensures { IfOk result (λ gs. HoldBundles K.cmp (map entry_bundle entries.now) gs.items) }
{
    let mut groups = Vec::new(alloc);
    let mut index = HashMap::new(alloc);
    for entry in entries {
        let place = place_in(&mut index, groups.as_slice(), &entry.key)?;
        put(alloc, &mut groups, place, entry)?;
    }
    Ok(groups)
}

// Whether there is no group yet, or the key stands above the last one's.
fn is_above<K: Key + Drop, V: Copy + Drop>(groups: &[Group<K, V>], key: &K) -> bool
    ensures { StandsAt K.cmp groups.now key.now result }
{
    match groups.last() {
        Some(last) => last.key.order(key).is_lt(),
        None => true,
    }
}

// Opens a group with the values of another behind the others.
fn open_run<K: Key + Drop, V: Copy + Drop>(
    alloc: Global,
    runs: &mut Vec<Group<K, V>>,
    group: &Group<K, V>,
) -> Result<(), AllocError>
    ensures { OnOk result (OpensGroup K.cmp runs.old.items (group_bundle group.now) runs.new.items) }
{
    let own: &Vec<V> = &group.values;
    let mut values = Vec::new(alloc);
    values.extend_from_slice(own.as_slice())?;
    runs.push(Group {
        key: group.key,
        values,
    })?;
    Ok(())
}

// Adds the values of a group to the last one.
fn grow_run<K: Key + Drop, V: Copy + Drop>(
    runs: &mut Vec<Group<K, V>>,
    group: &Group<K, V>,
) -> Result<(), AllocError>
    requires { IsWithin K.cmp runs.old.items group.now.key }
    ensures { OnOk result (JoinsLast K.cmp runs.old.items (group_bundle group.now) runs.new.items) }
{
    let own: &Vec<V> = &group.values;
    let last = runs.len() - 1;
    runs[last].values.extend_from_slice(own.as_slice())?;
    Ok(())
}

// Puts a group into the last one, or behind it.
fn put_run<K: Key + Drop, V: Copy + Drop>(
    alloc: Global,
    runs: &mut Vec<Group<K, V>>,
    group: &Group<K, V>,
) -> Result<(), AllocError>
    ensures { OnOk result (IsRun K.cmp runs.old.items (group_bundle group.now) runs.new.items) }
{
    if is_above(runs.as_slice(), &group.key) {
        return open_run(alloc, runs, group);
    }
    grow_run(runs, group)
}

// Groups in order, each with the values of all whose keys are level.
fn runs_of<K: Key + Drop, V: Copy + Drop>(
    alloc: Global,
    groups: &[Group<K, V>],
) -> Result<Vec<Group<K, V>>, AllocError>
    requires { IsSortedBy (λ a b. is_lt (K.cmp a.key b.key)) groups.now }
    ensures { IfOk result (λ gs. AreRuns K.cmp groups.now gs.items) }
{
    let mut runs = Vec::with_capacity(alloc, groups.len())?;
    for group in groups {
        put_run(alloc, &mut runs, group)?;
    }
    Ok(runs)
}

/// The groups of entries, by their keys, in order.
pub(crate) fn groups_of<K: Key + Drop, V: Copy + Drop>(
    alloc: Global,
    entries: Vec<Entry<K, V>>,
) -> Result<Vec<Group<K, V>>, AllocError>
    ensures { IfOk result (λ gs. AreGroups K.cmp entries.items gs.items) }
{
    let mut groups = made_from(held_of(alloc, entries.as_slice()), entries)?;
    groups.sort_by(|a, b| a.key.order(&b.key))?;
    made_from(runs_of(alloc, groups.as_slice()), groups)
}
