//! The problem of a region: the nodes that its firm requirements reach, with what is known of them.
ghost use Rattle.std.specs.Prelude.{◌≡◌, IfOk};
ghost use Rattle.ul_interner.specs.Known.{Knows};
ghost use Rattle.ul_region.specs.Asked.{IsInRegion};
ghost use Rattle.ul_region.specs.Problem.{IsProblemOf};
ghost use Rattle.ul_region.specs.Truths.{IsRegion, region_at};
ghost use Rattle.ul_prepared.specs.Prepared.{IsPrepared};
ghost use Rattle.ul_prepared.specs.Project.{IsProjectOf};
ghost use Rattle.ul_placing.specs.Placed.{ArePlaced};

use crate::facts::reached_facts;
use crate::ranks::{places_of, ranks_at, ranks_of};
use crate::reach::reach_of;
use std::alloc::{AllocError, Global};
use std::sync::Wait;
use ul_algebra::{Algebra, Diagram};
use ul_base::Node;
use ul_index::Catalog;
use ul_prepared::Prepared;
use ul_problem::Problem;
use ul_region::InRegion;
use ul_requirement::Wish;

/// The problem of a region, with the places of its nodes among those that all regions share.
#[derive(Drop)]
pub struct Placed {
    pub problem: Problem,
    /// Of each node of the problem, in order, its place.
    pub places: Vec<u64>,
}

/// The problem of a region, from what all regions share.
///
/// # Errors
///
/// Only for want of memory.
pub fn problem_in<'p, 'r>(
    alloc: Global,
    prepared: &'p Prepared<'r>,
    algebra: &Algebra<'_>,
    place: &'p InRegion<'p>,
) -> Result<Placed, AllocError>
    requires prepared { IsPrepared algebra.now prepared.now }
    requires place { IsInRegion algebra.now place.now }
    requires truths { place.now.truths.now ≡ prepared.now.truths.marks.items }
    requires project { IsProjectOf prepared.now.catalog.now prepared.now.starts.now }
    ensures problem { IfOk result (λ r. IsProblemOf prepared.now.catalog.now prepared.now.starts.now
        prepared.now.wish.now (region_at place.now.region.now) r.problem) }
    ensures places { IfOk result (λ r. ArePlaced prepared.now r.problem r.places.items) }
{
    ul_requirement::laws::unnamed_never_applies();
    let reach = reach_of(alloc, algebra, prepared, place)?;
    let ranks = ranks_of(alloc, reach.aims.as_slice())?;
    let places = places_of(alloc, reach.aims.as_slice())?;
    let nodes = reached_facts(
        alloc,
        algebra,
        prepared,
        place,
        ranks.as_slice(),
        reach.aims,
    )?;
    let roots = ranks_at(alloc, ranks.as_slice(), prepared.roots.as_slice())?;
    let problem = Problem::of(roots, nodes);
    Ok(Placed { problem, places })
}

/// The problem of a region, from what all regions share: the truths are asked where they hold in the region.
///
/// # Errors
///
/// Only for want of memory.
pub fn problem_at<'p, R: Wait>(
    rt: &R,
    alloc: Global,
    prepared: &'p Prepared<'_>,
    algebra: &mut Algebra<'_>,
    region: &'p Diagram,
) -> Result<Problem, AllocError>
    requires region { IsRegion algebra.old region.now }
    requires prepared { IsPrepared algebra.old prepared.now }
    requires project { IsProjectOf prepared.now.catalog.now prepared.now.starts.now }
    ensures knows { Knows algebra.old algebra.new }
    ensures problem { IfOk result (IsProblemOf prepared.now.catalog.now prepared.now.starts.now prepared.now.wish.now
        (region_at region.now)) }
{
    let place = InRegion::of(rt, alloc, algebra, region, prepared.truths.marks())?;
    let placed = problem_in(alloc, &*prepared, algebra, &place)?;
    Ok(placed.problem)
}

/// The problem of a region.
///
/// # Errors
///
/// Only for want of memory.
pub fn problem_of<'p, R: Wait>(
    rt: &R,
    alloc: Global,
    catalog: &'p Catalog,
    starts: &'p [Node],
    wish: &'p Wish,
    algebra: &mut Algebra<'_>,
    region: &Diagram,
) -> Result<Problem, AllocError>
    requires region { IsRegion algebra.old region.now }
    requires project { IsProjectOf catalog.now starts.now }
    ensures knows { Knows algebra.old algebra.new }
    ensures problem { IfOk result (IsProblemOf catalog.now starts.now wish.now (region_at region.now)) }
{
    let prepared = Prepared::of(rt, alloc, algebra, catalog, starts, wish)?;
    let problem = problem_at(rt, alloc, &prepared, algebra, &*region)?;
    Ok(problem)
}
