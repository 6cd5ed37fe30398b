//! Edges of a lock.
ghost use Rattle.std.specs.Prelude.{◌≡◌, ◌++◌, ◌∷◌, [], IfOk, OnOk, All, Contains, map};
ghost use Rattle.ul_interner.specs.Known.{Knows};
ghost use Rattle.ul_algebra.specs.Answers.{IsDiagram};
ghost use Rattle.ul_algebra.specs.Spelled.{tree_of};
ghost use Rattle.ul_lock_write.specs.Markers.{edge_marker};
ghost use Rattle.ul_region.specs.Truths.{DiagramMark, IsRegion, IsTruth, region_at};
ghost use Rattle.ul_merge.specs.Edges.{AreTruths, IsEdgeBy, IsPartIn, LiesWithin, MakesEdge, both_hold, picked};
ghost use Rattle.ul_merge.specs.Made.{AreMade};
ghost use Rattle.ul_merge.specs.Over.{ItemsOrOver, OrOver, edge_by, markers_in};

use crate::gathering::Group;
use crate::keys::PickKey;
use crate::over::{as_item, with_item};
use crate::targets::Use;
use crate::truths::{simplified, union_of};
use std::alloc::{AllocError, Global};
use std::sync::Wait;
use ul_algebra::{Algebra, Diagram};
use ul_base::Node;
use ul_base::owned::{beside, made_from};
use ul_lock::{Edge, Region};
use ul_region::truth_at;
use ul_requirement::Requirement;
use ul_version::Version;

// Where in a region a truth holds.
fn part_in<R: Wait>(
    rt: &R,
    alloc: Global,
    algebra: &mut Algebra<'_>,
    region: &Diagram,
    truth: &Diagram,
) -> Result<Diagram, AllocError>
    requires region { IsRegion algebra.old region.now }
    requires truth { IsRegion algebra.old truth.now }
    ensures knows { Knows algebra.old algebra.new }
    ensures truth { IfOk result (IsPartIn algebra.new region.now truth.now) }
{
    algebra.and(rt, alloc, region, truth)
}

// An edge to a target.
fn edge_with(
    alloc: Global,
    target: &Node,
    version: &Version,
    marker: Region,
) -> Result<Edge, AllocError>
    ensures target { IfOk result (λ e. e.target ≡ target.now) }
    ensures version { IfOk result (λ e. e.version ≡ version.now) }
    ensures marker { IfOk result (λ e. e.marker ≡ marker) }
{
    let (marker, target) = beside(marker, target.copy(alloc))?;
    let (kept, version) = beside((marker, target), version.copy(alloc))?;
    let (marker, target) = kept;
    Ok(Edge {
        target,
        version,
        marker,
    })
}

// The edge with a marker, if that was made.
fn whole_edge(
    alloc: Global,
    target: &Node,
    version: &Version,
    marker: Option<Region>,
) -> Result<Option<Edge>, AllocError>
    ensures { IfOk result (λ e. e ≡ edge_by target.now version.now marker) }
{
    match marker {
        None => Ok(None),
        Some(marker) => {
            let edge = edge_with(alloc, target, version, marker)?;
            Ok(Some(edge))
        }
    }
}

// The edge to a target that is true in a part of the supported region, if it is true somewhere; none at all where its
// marker isn't printed.
fn edge_to<R: Wait>(
    rt: &R,
    alloc: Global,
    algebra: &mut Algebra<'_>,
    target: &Node,
    version: &Version,
    truth: &Diagram,
    supported: &Diagram,
) -> Result<Option<Option<Edge>>, AllocError>
    requires truth { IsRegion algebra.old truth.now }
    requires within { LiesWithin truth.now supported.now }
    requires supported { IsDiagram algebra.old supported.now }
    ensures knows { Knows algebra.old algebra.new }
    ensures edge { IfOk result (OrOver (markers_in edge_marker)
        (IsEdgeBy target.now version.now (region_at truth.now) (tree_of supported.now))) }
{
    if algebra.is_false(truth) {
        return Ok(Some(None));
    }
    let marker = simplified(rt, alloc, algebra, truth, supported)?;
    let edge = whole_edge(alloc, target, version, marker)?;
    Ok(as_item(edge))
}

// Adds the diagram at a place, if there is one.
fn put_mark(marks: &mut Vec<Diagram>, all: &[Diagram], place: usize) -> Result<(), AllocError>
    ensures { OnOk result (marks.new.items ≡ marks.old.items ++ picked all.now (place ∷ [])) }
{
    if let Some(mark) = all.get(place) {
        let mark = mark.share()?;
        marks.push(mark)?;
    }
    Ok(())
}

// The regions of the leaves.
fn regions_at(alloc: Global, regions: &[Diagram], uses: &[Use]) -> Result<Vec<Diagram>, AllocError>
    ensures { IfOk result (λ v. v.items ≡ picked regions.now (map (λ u. u.leaf) uses.now)) }
{
    let mut marks = Vec::with_capacity(alloc, uses.len())?;
    for one in uses {
        put_mark(&mut marks, regions, one.leaf)?;
    }
    Ok(marks)
}

// The truths of the requirements.
fn truths_at(alloc: Global, truths: &[Diagram], uses: &[Use]) -> Result<Vec<Diagram>, AllocError>
    ensures { IfOk result (λ v. v.items ≡ picked truths.now (map (λ u. u.requirement) uses.now)) }
{
    let mut marks = Vec::with_capacity(alloc, uses.len())?;
    for one in uses {
        put_mark(&mut marks, truths, one.requirement)?;
    }
    Ok(marks)
}

// Where some of the regions has a world and some of the truths holds there.
fn truth_in<R: Wait>(
    rt: &R,
    alloc: Global,
    algebra: &mut Algebra<'_>,
    regions: &[Diagram],
    truths: &[Diagram],
    uses: &[Use],
) -> Result<Diagram, AllocError>
    requires regions { All (IsRegion algebra.old) regions.now }
    requires truths { All (IsRegion algebra.old) truths.now }
    ensures knows { Knows algebra.old algebra.new }
    ensures truth { IfOk result (λ d. IsTruth algebra.new d (both_hold regions.now truths.now)) }
{
    let region = union_of(rt, alloc, algebra, regions, uses)?;
    let truth = union_of(rt, alloc, algebra, truths, uses)?;
    part_in(rt, alloc, algebra, &region, &truth)
}

// The edge to a target that leaves chose.
fn edge_of<R: Wait>(
    rt: &R,
    alloc: Global,
    algebra: &mut Algebra<'_>,
    supported: &Diagram,
    regions: &[Diagram],
    truths: &[Diagram],
    group: &Group<PickKey<'_>, Use>,
) -> Result<Option<Option<Edge>>, AllocError>
    requires supported { IsDiagram algebra.old supported.now }
    requires regions { All (IsRegion algebra.old) regions.now }
    requires within { All (λ m. LiesWithin m supported.now) regions.now }
    requires truths { All (IsRegion algebra.old) truths.now }
    ensures knows { Knows algebra.old algebra.new }
    ensures edge { IfOk result (OrOver (markers_in edge_marker)
        (MakesEdge regions.now truths.now (tree_of supported.now) group.now)) }
{
    let uses: &Vec<Use> = &group.values;
    let mine = regions_at(alloc, regions, uses.as_slice())?;
    let (kept, holds) = beside(mine, truths_at(alloc, truths, uses.as_slice()))?;
    let truth = truth_in(
        rt,
        alloc,
        algebra,
        kept.as_slice(),
        holds.as_slice(),
        uses.as_slice(),
    );
    let truth = made_from(truth, (kept, holds))?;
    let key = &group.key;
    let edge = edge_to(rt, alloc, algebra, key.node, key.version, &truth, supported);
    made_from(edge, truth)
}

/// The edges to targets that leaves chose, in order; none where not all of their markers are printed.
pub(crate) fn made_edges<R: Wait>(
    rt: &R,
    alloc: Global,
    algebra: &mut Algebra<'_>,
    supported: &Diagram,
    regions: &[Diagram],
    truths: &[Diagram],
    groups: &[Group<PickKey<'_>, Use>],
) -> Result<Option<Vec<Edge>>, AllocError>
    requires supported { IsDiagram algebra.old supported.now }
    requires regions { All (IsRegion algebra.old) regions.now }
    requires within { All (λ m. LiesWithin m supported.now) regions.now }
    requires truths { All (IsRegion algebra.old) truths.now }
    ensures knows { Knows algebra.old algebra.new }
    ensures edges { IfOk result (ItemsOrOver edge_marker
        (AreMade (MakesEdge regions.now truths.now (tree_of supported.now)) groups.now)) }
{
    let mut edges = Some(Vec::new(alloc));
    for group in groups {
        let edge = edge_of(rt, alloc, algebra, supported, regions, truths, group);
        let (kept, edge) = beside(edges, edge)?;
        edges = with_item(kept, edge)?;
    }
    Ok(edges)
}

/// The truths of requirements at a node, in order.
pub(crate) fn truths_of<R: Wait>(
    rt: &R,
    alloc: Global,
    algebra: &mut Algebra<'_>,
    node: &Node,
    requirements: &[&Requirement],
) -> Result<Vec<Diagram>, AllocError>
    ensures knows { Knows algebra.old algebra.new }
    ensures truths { IfOk result (λ v. AreTruths algebra.new node.now (map (λ q. q.now) requirements.now) v.items) }
{
    let mut truths = Vec::with_capacity(alloc, requirements.len())?;
    for one in requirements {
        let truth = truth_at(rt, alloc, algebra, node, one)?;
        truths.push(truth)?;
    }
    Ok(truths)
}
