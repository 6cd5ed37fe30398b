//! The names and nodes that any requirement of an eligible release reaches, whatever the region.
ghost use Rattle.std.specs.Prelude.{◌≡◌, ◌<◌, All, Contains, Decides, IfOk, Some, bytes_eq, length, slice_get};
ghost use Rattle.std.specs.HashMap.{get};
ghost use Rattle.ul_requirement.specs.Fields.{WishFields};
ghost use Rattle.ul_requirement.specs.Truth.{base};
ghost use Rattle.ul_index.specs.Catalogs.{Packages};
ghost use Rattle.ul_problem.specs.Problems.{Increases};
ghost use Rattle.ul_prepared.specs.Gathered.{ComesAfter, HasPlace, IsGathered, IsKnown, IsNamedBy};
ghost use Rattle.ul_prepared.specs.Gathered.{IsPlacedNode, IsWhole, TakesMore};
ghost use Rattle.ul_prepared.specs.Lists.{lists_at};
ghost use Rattle.ul_prepared.specs.Places.{AreNodesOf, IsIndexOf};
ghost use Rattle.ul_prepared.specs.Prepared.{PlannedBefore};
ghost use Rattle.ul_prepared.specs.Targets.{HasTargets, HaveTargets};

use crate::names::{name_facts, releases_of};
use crate::prepared::{NameFacts, Planned};
use crate::releases::{Releases, listed_releases};
use crate::sources::Sources;
use std::alloc::{AllocError, Global};
use std::collections::{HashMap, HashSet};
use ul_base::owned::{beside, made_from, with_one};
use ul_base::{Name, Node};
use ul_index::Catalog;
use ul_requirement::{Requirement, Wish};

/// What was reached.
#[derive(Drop)]
pub(crate) struct Gathered<'a> {
    /// The names, in the order in which they were reached.
    pub(crate) names: Vec<NameFacts>,
    /// Of each name its releases.
    pub(crate) releases: Vec<Releases<'a>>,
    /// The place of each name.
    pub(crate) places: HashMap<Name, usize>,
    /// The nodes, each once.
    pub(crate) nodes: Vec<Node>,
    seen: HashSet<Node>,
}

// What is known of a name, and the releases of its eligible versions with the lists of their requirements.
fn known_of<'a>(
    alloc: Global,
    sources: &Sources<'a, '_>,
    name: &Name,
) -> Result<(NameFacts, Releases<'a>), AllocError>
    ensures known { IfOk result (λ k. IsKnown sources.now.0 sources.now.1 k.0 k.1) }
    ensures name { IfOk result (λ k. k.0.name ≡ name.now) }
{
    let direct = sources.is_direct(name);
    let list = releases_of(alloc, sources.catalog(), name, direct)?;
    let facts = name_facts(alloc, sources, name, list.as_slice())?;
    let listed = listed_releases(alloc, list.as_slice());
    beside(facts, made_from(listed, list))
}

/// The base of a name.
///
/// # Errors
///
/// Only for want of memory.
pub(crate) fn base_node(alloc: Global, name: &Name) -> Result<Node, AllocError>
    ensures { IfOk result (λ n. n ≡ base name.now) }
{
    let name = name.copy(alloc)?;
    Ok(Node { name, extra: None })
}

// In how many lists the requirements of the name at a place stand.
fn list_count(names: &[Releases<'_>], place: usize) -> usize
    requires { place < length names.now }
    ensures { result ≡ length (lists_at names.now place) }
{
    names[place].lists.len()
}

// One of these lists.
fn list_at<'a>(names: &[Releases<'a>], place: usize, k: usize) -> &'a [Requirement]
    requires there { place < length names.now }
    requires list { k < length (lists_at names.now place) }
    ensures { Some result.now ≡ slice_get (lists_at names.now place) k }
{
    names[place].lists[k]
}

impl<'a> Gathered<'a> {
    pub(crate) fn new(alloc: Global) -> Gathered<'a>
        ensures { (c : Packages) (wish : WishFields) → IsGathered c wish result }
    {
        Gathered {
            names: Vec::new(alloc),
            releases: Vec::new(alloc),
            places: HashMap::new(alloc),
            nodes: Vec::new(alloc),
            seen: HashSet::new(alloc),
        }
    }

    // Takes a name in, with its base, unless it was taken in before.
    fn meet_name(
        &mut self,
        alloc: Global,
        sources: &Sources<'a, '_>,
        name: &Name,
    ) -> Result<(), AllocError>
        requires { IsGathered sources.now.0 sources.now.1 self.old }
        ensures gathered { IfOk result (λ _. IsGathered sources.now.0 sources.now.1 self.new) }
        ensures more { IfOk result (λ _. TakesMore self.old self.new) }
        ensures placed { IfOk result (λ _. HasPlace self.new.places name.now) }
    {
        if self.places.contains_key(name) {
            return Ok(());
        }
        let own = name.copy(alloc)?;
        let place = self.names.len();
        self.places.insert(own, place)?;
        let base = base_node(alloc, name)?;
        self.nodes.push(base)?;
        self.names.reserve(1)?;
        self.releases.reserve(1)?;
        let (facts, releases) = known_of(alloc, sources, name)?;
        self.names.push_reserved(facts);
        self.releases.push_reserved(releases);
        Ok(())
    }

    // Takes a node in, with its name and its base, unless it was taken in before.
    fn meet(
        &mut self,
        alloc: Global,
        sources: &Sources<'a, '_>,
        node: &Node,
    ) -> Result<(), AllocError>
        requires { IsGathered sources.now.0 sources.now.1 self.old }
        ensures gathered { IfOk result (λ _. IsGathered sources.now.0 sources.now.1 self.new) }
        ensures more { IfOk result (λ _. TakesMore self.old self.new) }
        ensures taken { IfOk result (λ _. Contains self.new.nodes.items node.now) }
    {
        self.meet_name(alloc, sources, &node.name)?;
        if node.extra.is_none() {
            return Ok(());
        }
        if self.seen.contains(node) {
            return Ok(());
        }
        let own = node.copy(alloc)?;
        self.nodes.push(own)?;
        let own = node.copy(alloc)?;
        self.seen.insert(own)?;
        Ok(())
    }

    // Takes the targets of a requirement in.
    fn meet_targets(
        &mut self,
        alloc: Global,
        sources: &Sources<'a, '_>,
        requirement: &Requirement,
    ) -> Result<(), AllocError>
        requires { IsGathered sources.now.0 sources.now.1 self.old }
        ensures gathered { IfOk result (λ _. IsGathered sources.now.0 sources.now.1 self.new) }
        ensures more { IfOk result (λ _. TakesMore self.old self.new) }
        ensures targets { IfOk result (λ _. HasTargets (Contains self.new.nodes.items) requirement.now) }
    {
        if requirement.extras.is_empty() {
            // a name is taken in with its base
            self.meet_name(alloc, sources, &requirement.name)?;
            return Ok(());
        }
        let targets = requirement.targets(alloc)?;
        for target in &targets {
            self.meet(alloc, sources, target)?;
        }
        Ok(())
    }

    // Takes in what requirements aim at.
    fn meet_list(
        &mut self,
        alloc: Global,
        sources: &Sources<'a, '_>,
        requirements: &[Requirement],
    ) -> Result<(), AllocError>
        requires { IsGathered sources.now.0 sources.now.1 self.old }
        ensures gathered { IfOk result (λ _. IsGathered sources.now.0 sources.now.1 self.new) }
        ensures more { IfOk result (λ _. TakesMore self.old self.new) }
        ensures targets { IfOk result (λ _. HaveTargets (Contains self.new.nodes.items) requirements.now) }
    {
        for requirement in requirements {
            self.meet_targets(alloc, sources, requirement)?;
        }
        Ok(())
    }

    // Takes in what the releases of the name at a place aim at.
    fn meet_releases(
        &mut self,
        alloc: Global,
        sources: &Sources<'a, '_>,
        place: usize,
    ) -> Result<(), AllocError>
        requires gathered { IsGathered sources.now.0 sources.now.1 self.old }
        requires there { place < length self.old.releases.items }
        ensures gathered { IfOk result (λ _. IsGathered sources.now.0 sources.now.1 self.new) }
        ensures more { IfOk result (λ _. TakesMore self.old self.new) }
        ensures targets { IfOk result (λ _. All (HaveTargets (Contains self.new.nodes.items))
            (lists_at self.new.releases.items place)) }
    {
        let count = list_count(self.releases.as_slice(), place);
        for k in 0..count {
            let list = list_at(self.releases.as_slice(), place, k);
            self.meet_list(alloc, sources, list)?;
        }
        Ok(())
    }

    // Takes in all that is reached from the nodes that a region starts from.
    fn meet_all(
        &mut self,
        alloc: Global,
        sources: &Sources<'a, '_>,
        starts: &[Node],
    ) -> Result<(), AllocError>
        requires { IsGathered sources.now.0 sources.now.1 self.old }
        ensures gathered { IfOk result (λ _. IsGathered sources.now.0 sources.now.1 self.new) }
        ensures whole { IfOk result (λ _. IsWhole starts.now self.new) }
    {
        for start in starts {
            self.meet(alloc, sources, start)?;
        }
        let mut place = 0;
        while place < self.releases.len() {
            self.meet_releases(alloc, sources, place)?;
            place += 1;
        }
        Ok(())
    }
}

/// All that is reached from the nodes that a region starts from.
///
/// # Errors
///
/// Only for want of memory.
pub(crate) fn gather_all<'a>(
    alloc: Global,
    catalog: &'a Catalog,
    starts: &[Node],
    wish: &Wish,
) -> Result<Gathered<'a>, AllocError>
    ensures gathered { IfOk result (IsGathered catalog.now wish.now) }
    ensures whole { IfOk result (IsWhole starts.now) }
{
    let sources = Sources::of(alloc, catalog, wish)?;
    let mut all = Gathered::new(alloc);
    let met = made_from(all.meet_all(alloc, &sources, starts), sources);
    let both = beside(all, met)?;
    Ok(both.0)
}

// The place of a name that has one.
fn name_place(places: &HashMap<Name, usize>, name: &Name) -> usize
    requires { HasPlace places.now name.now }
    ensures { get bytes_eq places.now name.now ≡ Some result }
{
    places[name]
}

// Whether a node comes after the last one.
fn comes_after(bare: &[Planned<'_>], node: &Node) -> bool
    ensures { Decides result (ComesAfter bare.now node.now) }
{
    match bare.last() {
        Some(last) => last.node.cmp(node).is_lt(),
        None => true,
    }
}

// A node without its rows.
fn bare_node<'a>(alloc: Global, places: &HashMap<Name, usize>, node: Node) -> Planned<'a>
    requires { HasPlace places.now node.name }
    ensures node { result.node ≡ node }
    ensures named { IsNamedBy places.now result }
{
    let name = name_place(places, &node.name);
    Planned {
        node,
        base: None,
        name,
        rows: Vec::new(alloc),
        aims: Vec::new(alloc),
        lists: Vec::new(alloc),
    }
}

/// The nodes without their rows, in order, each once.
///
/// # Errors
///
/// Only for want of memory.
pub(crate) fn bare_nodes<'a>(
    alloc: Global,
    places: &HashMap<Name, usize>,
    nodes: Vec<Node>,
) -> Result<Vec<Planned<'a>>, AllocError>
    requires { All (IsPlacedNode places.now) nodes.items }
    ensures increasing { IfOk result (λ v. Increases PlannedBefore v.items) }
    ensures named { IfOk result (λ v. All (IsNamedBy places.now) v.items) }
    ensures nodes { IfOk result (λ v. AreNodesOf nodes.items v.items) }
{
    let mut nodes = nodes;
    nodes.sort()?;
    let mut bare: Vec<Planned<'a>> = Vec::new(alloc);
    for node in nodes {
        if comes_after(bare.as_slice(), &node) {
            let one = bare_node(alloc, places, node);
            bare = with_one(bare, one)?;
        }
    }
    Ok(bare)
}

/// Of each of so many names how many extras of it are nodes.
///
/// # Errors
///
/// Only for want of memory.
pub(crate) fn extra_counts(
    alloc: Global,
    names: usize,
    nodes: &[Planned<'_>],
) -> Result<Vec<usize>, AllocError> {
    let mut counts = vec![in alloc; 0usize; names]?;
    for planned in nodes {
        if planned.node.extra.is_some() && planned.name < counts.len() {
            counts[planned.name] = counts[planned.name].saturating_add(1);
        }
    }
    Ok(counts)
}

/// The place of each node.
///
/// # Errors
///
/// Only for want of memory.
pub(crate) fn index_of(
    alloc: Global,
    nodes: &[Planned<'_>],
) -> Result<HashMap<Node, usize>, AllocError>
    ensures { IfOk result (IsIndexOf nodes.now) }
{
    let mut index = HashMap::new(alloc);
    for place in 0..nodes.len() {
        let own: &Node = &nodes[place].node;
        let node = own.copy(alloc)?;
        index.insert(node, place)?;
    }
    Ok(index)
}
