//! Which nodes a region reaches: those that it starts from, and those that firm requirements of reached ones aim at.
ghost use Rattle.std.specs.Prelude.{◌≡◌, ◌<◌, ◌+◌, [], ◌∷◌, None, IfOk, flat_map, length, map, replicate};
ghost use Rattle.ul_region.specs.Asked.{IsInRegion};
ghost use Rattle.ul_region.specs.Truths.{region_at};
ghost use Rattle.ul_prepared.specs.Prepared.{IsPrepared};
ghost use Rattle.ul_placing.specs.Reach.{MarksPlaces, IsReached, IsReachTo, node_of, targets_of};
ghost use Rattle.ul_placing.specs.Runs.{rows_of};

use crate::aims::{NodeAims, Run, node_aims};
use std::alloc::{AllocError, Global};
use ul_algebra::Algebra;
use ul_prepared::Prepared;
use ul_problem::Need;
use ul_region::InRegion;

/// Which nodes are known to be reached, by their places.
#[derive(Drop)]
pub(crate) struct Reach {
    /// Of each node whether it is marked.
    pub(crate) marks: Vec<bool>,
    /// The places of the nodes that are marked, in the order in which they were.
    pub(crate) queue: Vec<u64>,
    /// Of each node that was looked at what it aims at.
    pub(crate) aims: Vec<Option<NodeAims>>,
}

// Marks a node, and puts it at the end of the queue, unless it was marked before.
fn mark(place: u64, marks: &mut Vec<bool>, queue: &mut Vec<u64>) -> Result<(), AllocError>
    ensures { IfOk result (λ _. MarksPlaces (place ∷ []) marks.old.items queue.old.items
        marks.new.items queue.new.items) }
{
    let at = place as usize;
    if at >= marks.len() {
        return Ok(());
    }
    if marks[at] {
        return Ok(());
    }
    marks[at] = true;
    queue.push(place)?;
    Ok(())
}

// Marks nodes by their places.
fn mark_places(
    places: &[u64],
    marks: &mut Vec<bool>,
    queue: &mut Vec<u64>,
) -> Result<(), AllocError>
    ensures { IfOk result (λ _. MarksPlaces places.now marks.old.items queue.old.items
        marks.new.items queue.new.items) }
{
    for place in places {
        mark(*place, marks, queue)?;
    }
    Ok(())
}

// Marks what needs aim at.
fn mark_needs(needs: &[Need], marks: &mut Vec<bool>, queue: &mut Vec<u64>) -> Result<(), AllocError>
    ensures { IfOk result (λ _. MarksPlaces (map node_of needs.now) marks.old.items queue.old.items
        marks.new.items queue.new.items) }
{
    for need in needs {
        mark(need.node, marks, queue)?;
    }
    Ok(())
}

// Marks what the versions of a node aim at, once for each run.
fn mark_runs(runs: &[Run], marks: &mut Vec<bool>, queue: &mut Vec<u64>) -> Result<(), AllocError>
    ensures { IfOk result (λ _. MarksPlaces (flat_map targets_of (rows_of runs.now)) marks.old.items queue.old.items
        marks.new.items queue.new.items) }
{
    for run in runs {
        mark_needs(run.needs.as_slice(), marks, queue)?;
    }
    Ok(())
}

// As many nodes as a size, none of which was looked at.
fn no_aims(alloc: Global, size: usize) -> Result<Vec<Option<NodeAims>>, AllocError>
    ensures { IfOk result (λ v. v.items ≡ replicate size None) }
{
    let mut aims = Vec::with_capacity(alloc, size)?;
    for _ in 0..size {
        aims.push(None)?;
    }
    Ok(aims)
}

// The nodes that a region starts from are marks, and none was looked at.
fn reach_from<'p, 'r>(
    alloc: Global,
    algebra: &Algebra<'_>,
    prepared: &'p Prepared<'r>,
    place: &'p InRegion<'p>,
) -> Result<Reach, AllocError>
    requires prepared { IsPrepared algebra.now prepared.now }
    ensures { IfOk result (λ r. IsReachTo (region_at place.now.region.now) prepared.now 0 r) }
{
    let size = prepared.nodes.len();
    let mut marks = vec![in alloc; false; size]?;
    let mut queue = Vec::with_capacity(alloc, size)?;
    mark_places(prepared.roots.as_slice(), &mut marks, &mut queue)?;
    let aims = no_aims(alloc, size)?;
    Ok(Reach { marks, queue, aims })
}

// Looks at the node at a place of the queue.
fn look_at<'p, 'r>(
    alloc: Global,
    algebra: &Algebra<'_>,
    prepared: &'p Prepared<'r>,
    place: &'p InRegion<'p>,
    step: usize,
    reach: &mut Reach,
) -> Result<(), AllocError>
    requires prepared { IsPrepared algebra.now prepared.now }
    requires place { IsInRegion algebra.now place.now }
    requires truths { place.now.truths.now ≡ prepared.now.truths.marks.items }
    requires step { step < length reach.old.queue.items }
    requires reach { IsReachTo (region_at place.now.region.now) prepared.now step reach.old }
    ensures { IfOk result (λ _. IsReachTo (region_at place.now.region.now) prepared.now (step + 1) reach.new) }
{
    let at = reach.queue[step] as usize;
    let aims = node_aims(alloc, algebra, place, &prepared.nodes[at])?;
    mark_runs(aims.runs.as_slice(), &mut reach.marks, &mut reach.queue)?;
    reach.aims[at] = Some(aims);
    Ok(())
}

/// The nodes that a region reaches, with what they aim at.
///
/// # Errors
///
/// Only for want of memory.
pub(crate) fn reach_of<'p, 'r>(
    alloc: Global,
    algebra: &Algebra<'_>,
    prepared: &'p Prepared<'r>,
    place: &'p InRegion<'p>,
) -> Result<Reach, AllocError>
    requires prepared { IsPrepared algebra.now prepared.now }
    requires place { IsInRegion algebra.now place.now }
    requires truths { place.now.truths.now ≡ prepared.now.truths.marks.items }
    ensures { IfOk result (λ r. IsReached (region_at place.now.region.now) prepared.now r.aims.items) }
{
    let mut reach = reach_from(alloc, algebra, prepared, place)?;
    for step in 0..prepared.nodes.len() + 1 {
        if step >= reach.queue.len() {
            return Ok(reach);
        }
        look_at(alloc, algebra, prepared, place, step, &mut reach)?;
    }
    unreachable!()
}
