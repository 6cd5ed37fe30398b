//! Truths of requirements and of releases as diagrams.
ghost use Rattle.std.specs.Prelude.{◌≡◌, [], IfOk, option_map};
ghost use Rattle.ul_interner.specs.Known.{Knows};
ghost use Rattle.ul_marker.specs.Views.{marker_view};
ghost use Rattle.ul_tree.specs.Laws.{and_of, at_extra_of, not_of};
ghost use Rattle.ul_algebra.specs.Answers.{IsDiagram};
ghost use Rattle.ul_algebra.specs.Spelled.{tree_of};
ghost use Rattle.ul_requirement.specs.Fields.{MayBeFormula};
ghost use Rattle.ul_requirement.specs.Truth.{applies_at, may_hold};
ghost use Rattle.ul_index.specs.Catalogs.{is_release_fit};
ghost use Rattle.ul_region.specs.Truths.{HoldsAs, IsTruth};

use crate::markers::{diagram_of, truth_diagram};
use std::alloc::{AllocError, Global};
use std::sync::Wait;
use ul_algebra::{Algebra, Diagram};
use ul_base::Node;
use ul_base::owned::made_from;
use ul_marker::Marker;
use ul_requirement::{Release, Requirement};
use ul_specifier::Specifiers;
use ul_tree::of_python;

// The diagram of a marker. Without a marker it is true.
fn optional_diagram<R: Wait>(
    rt: &R,
    alloc: Global,
    algebra: &mut Algebra<'_>,
    marker: &Option<Marker>,
) -> Result<Diagram, AllocError>
    requires { MayBeFormula (option_map marker_view marker.now) }
    ensures knows { Knows algebra.old algebra.new }
    ensures diagram { IfOk result (λ d. IsDiagram algebra.new d) }
    ensures truth { IfOk result (λ d. HoldsAs d (may_hold (option_map marker_view marker.now))) }
{
    match marker {
        None => truth_diagram(rt, alloc, algebra, true),
        Some(marker) => diagram_of(rt, alloc, algebra, marker),
    }
}

// The diagram of a requirement's marker.
fn marker_diagram<R: Wait>(
    rt: &R,
    alloc: Global,
    algebra: &mut Algebra<'_>,
    requirement: &Requirement,
) -> Result<Diagram, AllocError>
    ensures knows { Knows algebra.old algebra.new }
    ensures diagram { IfOk result (λ d. IsDiagram algebra.new d) }
    ensures truth { IfOk result (λ d. HoldsAs d (may_hold requirement.now.marker)) }
{
    optional_diagram(rt, alloc, algebra, &requirement.marker)
}

// The diagram that is true where the first is and the second isn't.
fn first_alone<R: Wait>(
    rt: &R,
    alloc: Global,
    algebra: &mut Algebra<'_>,
    first: &Diagram,
    second: &Diagram,
) -> Result<Diagram, AllocError>
    requires first { IsDiagram algebra.old first.now }
    requires second { IsDiagram algebra.old second.now }
    ensures knows { Knows algebra.old algebra.new }
    ensures diagram { IfOk result (λ d. IsDiagram algebra.new d) }
    ensures tree { IfOk result (λ d. tree_of d ≡ and_of (tree_of first.now) (not_of (tree_of second.now))) }
{
    let fails = algebra.not(rt, alloc, second)?;
    algebra.and(rt, alloc, first, &fails)
}

// The diagram of an extra, where the whole marker's is given: it holds with the extra, and not with the empty one.
fn extra_diagram<R: Wait>(
    rt: &R,
    alloc: Global,
    algebra: &mut Algebra<'_>,
    whole: &Diagram,
    extra: &str,
) -> Result<Diagram, AllocError>
    requires { IsDiagram algebra.old whole.now }
    ensures knows { Knows algebra.old algebra.new }
    ensures diagram { IfOk result (λ d. IsDiagram algebra.new d) }
    ensures tree { IfOk result (λ d. tree_of d
        ≡ and_of (at_extra_of (tree_of whole.now) extra.now) (not_of (at_extra_of (tree_of whole.now) []))) }
{
    let with = algebra.at_extra(whole, extra)?;
    let without = algebra.at_extra(whole, "")?;
    first_alone(rt, alloc, algebra, &with, &without)
}

/// The diagram of a requirement's truth at a node.
///
/// # Errors
///
/// Only for want of memory.
pub fn truth_at<R: Wait>(
    rt: &R,
    alloc: Global,
    algebra: &mut Algebra<'_>,
    node: &Node,
    requirement: &Requirement,
) -> Result<Diagram, AllocError>
    ensures knows { Knows algebra.old algebra.new }
    ensures truth { IfOk result (λ d. IsTruth algebra.new d (applies_at requirement.now node.now)) }
{
    let whole = marker_diagram(rt, alloc, algebra, requirement)?;
    match &node.extra {
        None => algebra.at_extra(&whole, ""),
        Some(extra) => extra_diagram(rt, alloc, algebra, &whole, extra.text()),
    }
}

/// The diagram of where a release is fit: the interpreters that meet the lower part of its Python bound.
///
/// # Errors
///
/// Only for want of memory.
pub fn fit_truth<R: Wait>(
    rt: &R,
    alloc: Global,
    algebra: &mut Algebra<'_>,
    release: &Release,
) -> Result<Diagram, AllocError>
    ensures knows { Knows algebra.old algebra.new }
    ensures truth { IfOk result (λ d. IsTruth algebra.new d (is_release_fit release.now)) }
{
    let python: &Specifiers = &release.python;
    let lower = python.lower_part(alloc)?;
    let tree = made_from(of_python(alloc, &lower), lower)?;
    made_from(algebra.of_tree(rt, alloc, &tree), tree)
}
