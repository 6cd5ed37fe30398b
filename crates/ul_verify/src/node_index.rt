//! Nodes with the places at which they stand, so that the places of one node are found by halves.
ghost use Rattle.std.specs.Prelude.{◌≡◌, ◌++◌, IfOk, OnOk, map, option_map};
ghost use Rattle.std.specs.List.Sorted.{IsPermutation, IsSortedBy};
ghost use Rattle.std.specs.Option.{option_cmp};
ghost use Rattle.ul_base.specs.Names.{name_cmp};
ghost use Rattle.ul_base.specs.Nodes.{node_cmp};
ghost use Rattle.ul_requirement.specs.Truth.{targets, with_extra};
ghost use Rattle.ul_verify.specs.NodeIndexes.{IsIndexOf, IsRunOf, edge_targets, entries_at, entry_node, is_before, node_of, view_of};

use std::alloc::{AllocError, Global};
use std::cmp::Ordering;
use ul_base::{Name, Node};
use ul_lock::Edge;
use ul_requirement::Requirement;

/// A node, and a place at which it stands.
#[derive(Drop)]
pub(crate) struct Entry<'a> {
    pub(crate) name: &'a Name,
    pub(crate) extra: Option<&'a Name>,
    pub(crate) place: usize,
}

/// Nodes with the places at which they stand, in the order of the nodes.
#[derive(Drop)]
pub(crate) struct NodeIndex<'a> {
    entries: Vec<Entry<'a>>,
}

// The order of extras: none comes before each.
fn extra_order(one: Option<&Name>, other: Option<&Name>) -> Ordering
    ensures { result ≡ option_cmp name_cmp (option_map (λ x. x.now) one.entry) (option_map (λ x. x.now) other.entry) }
{
    match (one, other) {
        (None, None) => Ordering::Equal,
        (None, Some(_)) => Ordering::Less,
        (Some(_), None) => Ordering::Greater,
        (Some(mine), Some(theirs)) => mine.cmp(theirs),
    }
}

// The order of an entry's node and another.
fn order(entry: &Entry<'_>, name: &Name, extra: Option<&Name>) -> Ordering
    ensures { result ≡ node_cmp (entry_node entry.now) (node_of name.now extra.entry) }
{
    match entry.name.cmp(name) {
        Ordering::Equal => extra_order(entry.extra, extra),
        differs => differs,
    }
}

impl<'a> NodeIndex<'a> {
    // The index of entries.
    fn of(entries: Vec<Entry<'a>>) -> NodeIndex<'a>
        ensures same { IsPermutation entries.entry.items result.entries.items }
        ensures sorted { IsSortedBy is_before result.entries.items }
    {
        let mut entries = entries;
        entries.sort_unstable_by(|a, b| order(a, b.name, b.extra));
        NodeIndex { entries }
    }

    /// The entries of a node.
    pub(crate) fn run(&self, name: &Name, extra: Option<&Name>) -> &[Entry<'a>]
        requires { IsSortedBy is_before self.now.entries.items }
        ensures { IsRunOf (node_of name.now extra.entry) self.now.entries.items result.now }
    {
        let entries: &[Entry<'a>] = self.entries.as_slice();
        let first = entries.partition_point(|entry| order(entry, name, extra).is_lt());
        let rest = &entries[first..];
        let count = rest.partition_point(|entry| !order(entry, name, extra).is_gt());
        &rest[..count]
    }
}

/// The extra of a node, if it has one.
pub(crate) fn extra_of(node: &Node) -> Option<&Name>
    ensures { option_map (λ x. x.now) result ≡ node.now.extra }
{
    match &node.extra {
        Some(extra) => Some(extra),
        None => None,
    }
}

// The entry of an edge's target.
fn edge_entry(edge: &Edge, place: usize) -> Entry<'_>
    ensures { view_of result ≡ (edge.now.target, place) }
{
    let target: &Node = &edge.target;
    let name: &Name = &target.name;
    let extra = extra_of(target);
    Entry { name, extra, place }
}

/// Edges by their targets.
///
/// # Errors
///
/// Only for want of memory.
pub(crate) fn edges_index(alloc: Global, edges: &[Edge]) -> Result<NodeIndex<'_>, AllocError>
    ensures { IfOk result (IsIndexOf (map edge_targets edges.now)) }
{
    let mut entries = Vec::with_capacity(alloc, edges.len())?;
    for place in 0..edges.len() {
        entries.push(edge_entry(&edges[place], place))?;
    }
    Ok(NodeIndex::of(entries))
}

fn name_of(requirement: &Requirement) -> &Name
    ensures { result.now ≡ requirement.now.name }
{
    let name: &Name = &requirement.name;
    name
}

fn extras_of(requirement: &Requirement) -> &[Name]
    ensures { result.now ≡ requirement.now.extras }
{
    let extras: &Vec<Name> = &requirement.extras;
    extras.as_slice()
}

// Adds the entries of a name's extras.
fn put_extras<'a>(
    entries: &mut Vec<Entry<'a>>,
    name: &'a Name,
    extras: &'a [Name],
    place: usize,
) -> Result<(), AllocError>
    ensures { OnOk result (map view_of entries.new.items
        ≡ map view_of entries.old.items ++ entries_at place (map (with_extra name.now) extras.now)) }
{
    for extra in extras {
        let extra = Some(extra);
        entries.push(Entry { name, extra, place })?;
    }
    Ok(())
}

// Adds the entries of a requirement's targets.
fn put_targets<'a>(
    entries: &mut Vec<Entry<'a>>,
    requirement: &'a Requirement,
    place: usize,
) -> Result<(), AllocError>
    ensures { OnOk result (map view_of entries.new.items
        ≡ map view_of entries.old.items ++ entries_at place (targets requirement.now)) }
{
    let name = name_of(requirement);
    let extras = extras_of(requirement);
    entries.push(Entry {
        name,
        extra: None,
        place,
    })?;
    put_extras(entries, name, extras, place)?;
    Ok(())
}

/// Requirements by their targets.
///
/// # Errors
///
/// Only for want of memory.
pub(crate) fn requirements_index(
    alloc: Global,
    requirements: &[Requirement],
) -> Result<NodeIndex<'_>, AllocError>
    ensures { IfOk result (IsIndexOf (map targets requirements.now)) }
{
    let mut entries = Vec::with_capacity(alloc, requirements.len())?;
    for place in 0..requirements.len() {
        put_targets(&mut entries, &requirements[place], place)?;
    }
    Ok(NodeIndex::of(entries))
}
