//! Unions of regions.
ghost use Rattle.std.specs.Prelude.{IfOk, All, false, ◌||◌};
ghost use Rattle.ul_interner.specs.Known.{Knows};
ghost use Rattle.ul_region.specs.Truths.{IsRegion, IsTruth, region_at};
ghost use Rattle.ul_region.specs.Unions.{some_holds};

use std::alloc::{AllocError, Global};
use std::sync::Wait;
use ul_algebra::{Algebra, Diagram};
use ul_tree::Tree;

/// The region without a world.
pub fn nowhere<R: Wait>(
    rt: &R,
    alloc: Global,
    algebra: &mut Algebra<'_>,
) -> Result<Diagram, AllocError>
    ensures knows { Knows algebra.old algebra.new }
    ensures truth { IfOk result (λ d. IsTruth algebra.new d (λ w. false)) }
{
    let d = algebra.of_tree(rt, alloc, &Tree::Truth(false))?;
    Ok(d)
}

/// The worlds that are in one of two regions.
pub fn either<R: Wait>(
    rt: &R,
    alloc: Global,
    algebra: &mut Algebra<'_>,
    first: &Diagram,
    second: &Diagram,
) -> Result<Diagram, AllocError>
    requires first { IsRegion algebra.old first.now }
    requires second { IsRegion algebra.old second.now }
    ensures knows { Knows algebra.old algebra.new }
    ensures truth { IfOk result (λ d. IsTruth algebra.new d (λ w. region_at first.now w || region_at second.now w)) }
{
    algebra.or(rt, alloc, first, second)
}

/// The worlds that are in one of the regions. They are joined by halves, so that of many regions that differ each is
/// part of few joins.
pub fn union_of<R: Wait>(
    rt: &R,
    alloc: Global,
    algebra: &mut Algebra<'_>,
    parts: &[Diagram],
) -> Result<Diagram, AllocError>
    requires { All (IsRegion algebra.old) parts.now }
    ensures knows { Knows algebra.old algebra.new }
    ensures truth { IfOk result (λ d. IsTruth algebra.new d (some_holds parts.now)) }
{
    if parts.len() == 0 {
        let d = nowhere(rt, alloc, algebra)?;
        return Ok(d);
    }
    if parts.len() == 1 {
        let d = parts[0].share()?;
        return Ok(d);
    }
    let (front, back) = parts.split_at(parts.len() / 2);
    let first = union_of(rt, alloc, algebra, front)?;
    let second = union_of(rt, alloc, algebra, back)?;
    either(rt, alloc, algebra, &first, &second)
}
