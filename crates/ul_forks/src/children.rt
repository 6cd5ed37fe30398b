//! The two parts of a split region.
ghost use Rattle.std.specs.Prelude.{IfOk};
ghost use Rattle.ul_interner.specs.Known.{Knows};
ghost use Rattle.ul_algebra.specs.Answers.{IsDiagram};
ghost use Rattle.ul_region.specs.Truths.{IsRegion};
ghost use Rattle.ul_forks.specs.Children.{PartsBy};

use std::alloc::{AllocError, Global};
use std::sync::Wait;
use ul_algebra::{Algebra, Diagram};

/// The two parts of a region: first where a truth holds in it, then where the truth doesn't.
///
/// # Errors
///
/// Only for want of memory.
pub fn children_of<R: Wait>(
    rt: &R,
    alloc: Global,
    algebra: &mut Algebra<'_>,
    region: &Diagram,
    truth: &Diagram,
) -> Result<(Diagram, Diagram), AllocError>
    requires region { IsRegion algebra.old region.now }
    requires truth { IsDiagram algebra.old truth.now }
    ensures knows { Knows algebra.old algebra.new }
    ensures parts { IfOk result (λ c. PartsBy algebra.new region.now truth.now c.0 c.1) }
{
    let first = algebra.and(rt, alloc, region, truth)?;
    let other = algebra.not(rt, alloc, truth)?;
    let second = algebra.and(rt, alloc, region, &other)?;
    Ok((first, second))
}
