//! The worlds that a project supports.

ghost use Rattle.std.specs.Prelude.{IfOk, All, map};
ghost use Rattle.ul_comparison.specs.Formulas.{AreFormulas, IsFormula};
ghost use Rattle.ul_marker.specs.Views.{marker_view, markers_view};
ghost use Rattle.ul_tree.specs.Regions.{HasTruth};
ghost use Rattle.ul_tree.specs.TreeFacts.{HoldsAtWorlds, IsTree};
ghost use Rattle.ul_tree.specs.Views.{tree_view};
ghost use Rattle.ul_project.specs.Region.{holds_bare, some_holds, is_supported};
ghost use Rattle.ul_project.specs.Answers.{HoldAsEnvironments};

use std::alloc::{AllocError, Global};
use ul_base::owned::{beside, made_from, with_made};
use ul_marker::Marker;
use ul_specifier::Specifiers;
use ul_tree::markers::joined;
use ul_tree::{Tree, of_marker, of_python, plain_and, plain_at_extra};

// The tree of a marker with the empty extra.
fn environment_tree(alloc: Global, marker: &Marker) -> Result<Tree, AllocError>
    requires { IsFormula (marker_view marker.now) }
    ensures reduced { IfOk result IsTree }
    ensures truth { IfOk result (λ t. HoldsAtWorlds t (λ w x. holds_bare w (marker_view marker.now))) }
{
    let marked = of_marker(alloc, marker)?;
    made_from(plain_at_extra(alloc, &marked, ""), marked)
}

// The trees of environments, in order.
fn environment_trees(alloc: Global, environments: &[Marker]) -> Result<Vec<Tree>, AllocError>
    requires { AreFormulas (markers_view environments.now) }
    ensures reduced { IfOk result (λ ts. All IsTree ts.items) }
    ensures truth { IfOk result (λ ts. HoldAsEnvironments ts.items environments.now) }
{
    let mut trees = Vec::new(alloc);
    for marker in environments {
        trees = with_made(trees, environment_tree(alloc, marker))?;
    }
    Ok(trees)
}

// The tree of the worlds in which some environment holds.
fn some_environment(alloc: Global, environments: &[Marker]) -> Result<Tree, AllocError>
    requires { AreFormulas (markers_view environments.now) }
    ensures reduced { IfOk result IsTree }
    ensures truth { IfOk result (λ t. HoldsAtWorlds t (λ w x. some_holds (map marker_view environments.now) w)) }
{
    let trees = environment_trees(alloc, environments)?;
    joined(alloc, false, trees)
}

// The tree of the worlds that a project supports.
pub(crate) fn region(
    alloc: Global,
    python: &Specifiers,
    environments: &[Marker],
) -> Result<Tree, AllocError>
    requires { AreFormulas (markers_view environments.now) }
    ensures { IfOk result (λ t. HasTruth (tree_view t) (is_supported python.now (map marker_view environments.now))) }
{
    let python = of_python(alloc, python)?;
    if environments.is_empty() {
        return Ok(python);
    }
    let (python, some) = beside(python, some_environment(alloc, environments))?;
    let region = plain_and(alloc, &python, &some);
    made_from(region, (python, some))
}
