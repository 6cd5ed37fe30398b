//! Diagrams of markers.
ghost use Rattle.std.specs.Prelude.{IfOk};
ghost use Rattle.ul_comparison.specs.Formulas.{AreFormulas, IsFormula};
ghost use Rattle.ul_comparison.specs.Truth.{marker_holds};
ghost use Rattle.ul_interner.specs.Known.{Knows};
ghost use Rattle.ul_marker.specs.Views.{marker_view, markers_view};
ghost use Rattle.ul_algebra.specs.Answers.{IsDiagram};
ghost use Rattle.ul_algebra.specs.Truths.{HoldsJoined};
ghost use Rattle.ul_region.specs.Markers.{joining_of, parts_hold};
ghost use Rattle.ul_region.specs.Truths.{HoldsAs};

use std::alloc::{AllocError, Global};
use std::sync::Wait;
use ul_algebra::{Algebra, Diagram};
use ul_base::owned::made_from;
use ul_marker::Marker;
use ul_tree::{Tree, of_marker};

/// The diagram that is true everywhere, or false everywhere.
///
/// # Errors
///
/// Only for want of memory.
pub(crate) fn truth_diagram<R: Wait>(
    rt: &R,
    alloc: Global,
    algebra: &mut Algebra<'_>,
    value: bool,
) -> Result<Diagram, AllocError>
    ensures knows { Knows algebra.old algebra.new }
    ensures diagram { IfOk result (λ d. IsDiagram algebra.new d) }
    ensures truth { IfOk result (λ d. HoldsAs d (λ w x. value)) }
{
    let d = algebra.of_tree(rt, alloc, &Tree::Truth(value))?;
    Ok(d)
}

// The diagram of one comparison, by its tree.
fn comparison_diagram<R: Wait>(
    rt: &R,
    alloc: Global,
    algebra: &mut Algebra<'_>,
    marker: &Marker,
) -> Result<Diagram, AllocError>
    requires { IsFormula (marker_view marker.now) }
    ensures knows { Knows algebra.old algebra.new }
    ensures diagram { IfOk result (λ d. IsDiagram algebra.new d) }
    ensures truth { IfOk result (λ d. HoldsAs d (marker_holds (marker_view marker.now))) }
{
    let tree = of_marker(alloc, marker)?;
    made_from(algebra.of_tree(rt, alloc, &tree), tree)
}

// The diagram that is true where both are, or where one of them is, as is asked.
fn both_or_either<R: Wait>(
    rt: &R,
    alloc: Global,
    algebra: &mut Algebra<'_>,
    all: bool,
    first: &Diagram,
    second: &Diagram,
) -> Result<Diagram, AllocError>
    requires first { IsDiagram algebra.old first.now }
    requires second { IsDiagram algebra.old second.now }
    ensures knows { Knows algebra.old algebra.new }
    ensures diagram { IfOk result (λ d. IsDiagram algebra.new d) }
    ensures truth { IfOk result (λ d. HoldsJoined (joining_of all) first.now second.now d) }
{
    if all {
        return algebra.and(rt, alloc, first, second);
    }
    algebra.or(rt, alloc, first, second)
}

/// The diagram of a marker, made comparison by comparison: each is a tree by itself, and parts are joined as
/// diagrams, by halves. So a marker takes what its diagrams take, and no tree of the whole is made.
///
/// # Errors
///
/// Only for want of memory.
#[cycle(diagram_of)]
pub fn diagram_of<R: Wait>(
    rt: &R,
    alloc: Global,
    algebra: &mut Algebra<'_>,
    marker: &Marker,
) -> Result<Diagram, AllocError>
    requires { IsFormula (marker_view marker.now) }
    ensures knows { Knows algebra.old algebra.new }
    ensures diagram { IfOk result (λ d. IsDiagram algebra.new d) }
    ensures truth { IfOk result (λ d. HoldsAs d (marker_holds (marker_view marker.now))) }
{
    match marker {
        Marker::All(parts) => joined(rt, alloc, algebra, true, parts.as_slice()),
        Marker::Any(parts) => joined(rt, alloc, algebra, false, parts.as_slice()),
        _ => comparison_diagram(rt, alloc, algebra, marker),
    }
}

// The diagram that is true where all markers hold, or where some marker does.
#[cycle(diagram_of)]
fn joined<R: Wait>(
    rt: &R,
    alloc: Global,
    algebra: &mut Algebra<'_>,
    all: bool,
    parts: &[Marker],
) -> Result<Diagram, AllocError>
    requires { AreFormulas (markers_view parts.now) }
    ensures knows { Knows algebra.old algebra.new }
    ensures diagram { IfOk result (λ d. IsDiagram algebra.new d) }
    ensures truth { IfOk result (λ d. HoldsAs d (parts_hold all (markers_view parts.now))) }
{
    if parts.len() == 0 {
        let d = truth_diagram(rt, alloc, algebra, all)?;
        return Ok(d);
    }
    if parts.len() == 1 {
        let d = diagram_of(rt, alloc, algebra, &parts[0])?;
        return Ok(d);
    }
    let (front, back) = parts.split_at(parts.len() / 2);
    let first = joined(rt, alloc, algebra, all, front)?;
    let second = joined(rt, alloc, algebra, all, back)?;
    both_or_either(rt, alloc, algebra, all, &first, &second)
}
