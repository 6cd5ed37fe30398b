//! Nodes with what their releases ask in every region.
ghost use Rattle.std.specs.Prelude.{◌≡◌, ◌<◌, All, IfOk, get_or, length, map};
ghost use Rattle.std.specs.List.{AllZip};
ghost use Rattle.ul_algebra.specs.Answers.{IsDiagram};
ghost use Rattle.ul_region.specs.Rows.{AreAsked};
ghost use Rattle.ul_region.specs.Truths.{IsGrown};
ghost use Rattle.ul_prepared.specs.Gathered.{AreSameNodes, HasOwnRows, HasRows, IsNamed, node_in};
ghost use Rattle.ul_prepared.specs.Lists.{AreListed, releases_in};
ghost use Rattle.ul_prepared.specs.Permitted.{IsRising, IsSetOf};
ghost use Rattle.ul_prepared.specs.Places.{IsAmong, IsBased, IsBasePlace, IsFound, IsFoundAt, IsNodeIndex};
ghost use Rattle.ul_prepared.specs.Prepared.{AreNodesAt};
ghost use Rattle.ul_prepared.specs.Shared.{IsShared, releases_shared};
ghost use Rattle.ul_prepared.specs.Targets.{HaveTargets, ListsTargets, SharesTargets};
ghost use Rattle.ul_requirement.specs.Truth.{base};

use crate::aims::{list_aims, place_of};
use crate::gathering::{base_node, index_of};
use crate::permitted::Sets;
use crate::prepared::{NameFacts, Planned};
use crate::releases::Releases;
use crate::rows::{OwnRows, rows_of};
use crate::shared::{Fitted, Shared, shared_names};
use std::alloc::{AllocError, Global};
use std::collections::HashMap;
use std::sync::Wait;
use ul_algebra::Algebra;
use ul_base::Node;
use ul_base::owned::{beside, made_from, with_made};
use ul_ranges::SharedList;
use ul_region::{Asked, ByExtra, Truths, asked_at};

// Of each list of requirements those that may be true at a node.
fn asked_lists<'a, R: Wait>(
    rt: &R,
    alloc: Global,
    algebra: &mut Algebra<'_>,
    truths: &mut Truths,
    node: &Node,
    lists: &[ByExtra<'a>],
) -> Result<Vec<SharedList<Asked<'a>>>, AllocError>
    requires { All (IsDiagram algebra.old) truths.old.marks.items }
    ensures grown { IsGrown algebra.old truths.old.marks.items algebra.new truths.new.marks.items }
    ensures asked { IfOk result (λ v.
        AllZip (AreAsked algebra.new node.now truths.new.marks.items) lists.now v.items) }
{
    let mut list = Vec::with_capacity(alloc, lists.len())?;
    for requirements in lists {
        let asked = asked_at(rt, alloc, algebra, truths, node, requirements);
        list = with_made(list, asked)?;
    }
    Ok(list)
}

// The place of a node's base, where the node has an extra.
fn base_of(
    alloc: Global,
    index: &HashMap<Node, usize>,
    node: &Node,
) -> Result<Option<u64>, AllocError>
    requires { IsFound index.now (base node.now.name) }
    ensures { IfOk result (IsBasePlace index.now node.now) }
{
    if node.extra.is_none() {
        return Ok(None);
    }
    let base = base_node(alloc, &node.name)?;
    let place = place_of(index, &base);
    Ok(Some(place as u64))
}

// A node with the rows of its name's releases, and their needs.
fn planned_at<'a, R: Wait>(
    rt: &R,
    alloc: Global,
    algebra: &mut Algebra<'_>,
    truths: &mut Truths,
    sets: &mut Sets<'a>,
    index: &HashMap<Node, usize>,
    names: &[NameFacts],
    nodes: &[Planned<'_>],
    own: &Shared<'a>,
    planned: &Planned<'_>,
) -> Result<Planned<'a>, AllocError>
    requires index { IsNodeIndex names.now nodes.now index.now }
    requires based { IsBased nodes.now planned.now }
    requires targets { All (HaveTargets (IsAmong nodes.now)) own.now.lists.items }
    requires truths { All (IsDiagram algebra.old) truths.old.marks.items }
    requires rising { All IsRising names.now }
    requires sets { All (IsSetOf names.now) sets.old.list.items }
    requires shared { IsShared algebra.old truths.old.marks.items own.now }
    requires named { IsNamed names.now planned.now }
    ensures grown { IsGrown algebra.old truths.old.marks.items algebra.new truths.new.marks.items }
    ensures sets { All (IsSetOf names.now) sets.new.list.items }
    ensures node { IfOk result (λ p. node_in p ≡ node_in planned.now) }
    ensures rows { IfOk result (HasRows algebra.new names.now nodes.now truths.new.marks.items
        (releases_shared own.now)) }
{
    let base = base_of(alloc, index, &planned.node)?;
    let lists: &[ByExtra<'a>] = own.lists.as_slice();
    let asked = asked_lists(rt, alloc, algebra, truths, &planned.node, lists)?;
    let aims = list_aims(alloc, sets, index, names, nodes, asked.as_slice());
    let (asked, aims) = beside(asked, aims)?;
    let releases: &[Fitted<'a>] = own.releases.as_slice();
    let rows = rows_of(alloc, asked.as_slice(), aims.as_slice(), releases);
    let rows = made_from(rows, (asked, aims))?;
    let (rows, node) = beside(rows, planned.node.copy(alloc))?;
    let OwnRows { rows, aims, lists } = rows;
    Ok(Planned {
        node,
        base,
        name: planned.name,
        rows,
        aims,
        lists,
    })
}

// What the nodes of the name at a place share.
fn own_shared<'r, 'a>(shared: &'r [Shared<'a>], place: usize) -> &'r Shared<'a>
    requires { place < length shared.now }
    ensures { result.now ≡ get_or shared.now place result.now }
{
    &shared[place]
}

// The nodes with their rows, in the order of the bare ones; `sets` is what was found of specifiers so far.
fn planned_nodes<'a, R: Wait>(
    rt: &R,
    alloc: Global,
    algebra: &mut Algebra<'_>,
    truths: &mut Truths,
    sets: &mut Sets<'a>,
    index: &HashMap<Node, usize>,
    names: &[NameFacts],
    shared: &[Shared<'a>],
    bare: &[Planned<'_>],
) -> Result<Vec<Planned<'a>>, AllocError>
    requires index { IsNodeIndex names.now bare.now index.now }
    requires based { All (IsBased bare.now) bare.now }
    requires targets { All (SharesTargets (IsAmong bare.now)) shared.now }
    requires truths { All (IsDiagram algebra.old) truths.old.marks.items }
    requires rising { All IsRising names.now }
    requires sets { All (IsSetOf names.now) sets.old.list.items }
    requires shared { All (IsShared algebra.old truths.old.marks.items) shared.now }
    requires size { length shared.now ≡ length names.now }
    ensures grown { IsGrown algebra.old truths.old.marks.items algebra.new truths.new.marks.items }
    ensures same { IfOk result (λ v. AreSameNodes v.items bare.now) }
    ensures rows { IfOk result (λ v. All
        (HasOwnRows algebra.new names.now bare.now truths.new.marks.items
        (map releases_shared shared.now)) v.items) }
{
    let mut nodes = Vec::with_capacity(alloc, bare.len())?;
    for one in bare {
        let own = own_shared(shared, one.name);
        let made = planned_at(
            rt, alloc, algebra, truths, sets, index, names, bare, own, one,
        );
        nodes = with_made(nodes, made)?;
    }
    Ok(nodes)
}

// The places of nodes, in order.
fn places_of(
    alloc: Global,
    index: &HashMap<Node, usize>,
    starts: &[Node],
) -> Result<Vec<u64>, AllocError>
    requires { All (IsFound index.now) starts.now }
    ensures { IfOk result (λ v. AllZip (IsFoundAt index.now) starts.now v.items) }
{
    let mut places = Vec::with_capacity(alloc, starts.len())?;
    for start in starts {
        let place = place_of(index, start);
        places.push(place as u64)?;
    }
    Ok(places)
}

// The nodes with their rows, in the order of the bare ones, and the places of those that a region starts from.
fn nodes_over<'a, R: Wait>(
    rt: &R,
    alloc: Global,
    algebra: &mut Algebra<'_>,
    truths: &mut Truths,
    names: &[NameFacts],
    shared: &[Shared<'a>],
    bare: &[Planned<'_>],
    starts: &[Node],
) -> Result<(Vec<Planned<'a>>, Vec<u64>), AllocError>
    requires truths { All (IsDiagram algebra.old) truths.old.marks.items }
    requires rising { All IsRising names.now }
    requires shared { All (IsShared algebra.old truths.old.marks.items) shared.now }
    requires size { length shared.now ≡ length names.now }
    requires named { All (IsNamed names.now) bare.now }
    requires based { All (IsBased bare.now) bare.now }
    requires targets { All (SharesTargets (IsAmong bare.now)) shared.now }
    requires starts { All (IsAmong bare.now) starts.now }
    ensures grown { IsGrown algebra.old truths.old.marks.items algebra.new truths.new.marks.items }
    ensures same { IfOk result (λ both. AreSameNodes both.0.items bare.now) }
    ensures rows { IfOk result (λ both. All
        (HasOwnRows algebra.new names.now bare.now truths.new.marks.items
        (map releases_shared shared.now)) both.0.items) }
    ensures roots { IfOk result (λ both. AreNodesAt both.0.items both.1.items starts.now) }
{
    let index = index_of(alloc, bare)?;
    let mut sets = Sets::new(alloc);
    let planned = planned_nodes(
        rt, alloc, algebra, truths, &mut sets, &index, names, shared, bare,
    );
    let (places, nodes) = beside(index, made_from(planned, sets))?;
    let roots = places_of(alloc, &places, starts);
    beside(nodes, made_from(roots, places))
}

/// The nodes with their rows, in the order of the bare ones, and the places of those that a region starts from.
/// `releases` has of each name its releases.
///
/// # Errors
///
/// Only for want of memory.
pub(crate) fn placed_nodes<'a, R: Wait>(
    rt: &R,
    alloc: Global,
    algebra: &mut Algebra<'_>,
    truths: &mut Truths,
    names: &[NameFacts],
    releases: Vec<Releases<'a>>,
    bare: &[Planned<'_>],
    starts: &[Node],
) -> Result<(Vec<Planned<'a>>, Vec<u64>), AllocError>
    requires truths { All (IsDiagram algebra.old) truths.old.marks.items }
    requires rising { All IsRising names.now }
    requires listed { All AreListed releases.items }
    requires size { length releases.items ≡ length names.now }
    requires named { All (IsNamed names.now) bare.now }
    requires based { All (IsBased bare.now) bare.now }
    requires targets { All (ListsTargets (IsAmong bare.now)) releases.items }
    requires starts { All (IsAmong bare.now) starts.now }
    ensures grown { IsGrown algebra.old truths.old.marks.items algebra.new truths.new.marks.items }
    ensures same { IfOk result (λ both. AreSameNodes both.0.items bare.now) }
    ensures rows { IfOk result (λ both. All
        (HasOwnRows algebra.new names.now bare.now truths.new.marks.items
        (map releases_in releases.entry.items)) both.0.items) }
    ensures roots { IfOk result (λ both. AreNodesAt both.0.items both.1.items starts.now) }
{
    let shared = shared_names(rt, alloc, algebra, truths, releases, bare)?;
    let placed = nodes_over(
        rt,
        alloc,
        algebra,
        truths,
        names,
        shared.as_slice(),
        bare,
        starts,
    );
    made_from(placed, shared)
}
