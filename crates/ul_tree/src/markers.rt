//! Trees of markers and of specifiers.
ghost use Rattle.std.specs.Prelude.{◌≡◌, ◌<◌, ◌≤◌, ◌-◌, ◌∷◌, [], ℕ, List, IfOk, All, map, take, drop, length, true, if◌then◌else◌, false};
ghost use Rattle.ul_tree.specs.TreeFacts.{IsTree, HoldsAs, HoldsAtWorlds, HoldsByPython, HoldAsMarkers, listed_truth, meets_release};
ghost use Rattle.ul_tree.specs.Sample.{asks_extra};
ghost use Rattle.ul_nodes.specs.Apply.{same_bool};
ghost use Rattle.ul_version.specs.Fields.{IsVersion, plain};
ghost use Rattle.ul_specifier.specs.Meaning.{meets_clause, meets_list};
ghost use Rattle.ul_comparison.specs.Formulas.{AreFormulas, IsFormula};
ghost use Rattle.ul_comparison.specs.Truth.{as_asked, equal_to, is_listed, marker_holds};
ghost use Rattle.ul_marker.specs.Views.{marker_view, markers_view};
ghost use Rattle.ul_tree.specs.Joining.{joint, truths_of, first_trees, last_trees};
ghost use Rattle.ul_tree.specs.Values.{tree_holds};
ghost use Rattle.ul_tree.specs.Views.{tree_view};

use crate::Tree;
use crate::leaf::{extra_tree, opaque_tree, text_tree};
use crate::operations::{plain_and, plain_not, plain_or};
use crate::pairs::kept;
use crate::part::truth_value;
use crate::python::clause_tree;
use std::alloc::{AllocError, Global};
use ul_base::owned::{beside, made_from, with_made};
use ul_marker::Marker;
use ul_specifier::{Clause, Op, Specifiers};
use ul_version::Version;

/// The tree of a marker, which has the marker's truth at every world and extra.
///
/// Each comparison gives a tree by itself, and parts are joined in halves. The marker is one that a text can
/// spell. The only error is want of memory.
#[cycle(of_marker)]
pub fn of_marker(alloc: Global, marker: &Marker) -> Result<Tree, AllocError>
    requires { IsFormula (marker_view marker.now) }
    ensures reduced { IfOk result IsTree }
    ensures truth { IfOk result (λ t. HoldsAtWorlds t (marker_holds (marker_view marker.now))) }
{
    match marker {
        Marker::Extra { literal, equal } => extra_tree(alloc, literal.as_str(), *equal),
        Marker::Python { full, clause } => clause_tree(alloc, clause, *full),
        Marker::PythonList {
            full,
            versions,
            within,
        } => list_tree(alloc, versions, *full, *within),
        Marker::Text {
            variable,
            literal,
            equal,
        } => text_tree(alloc, *variable, literal.as_str(), *equal),
        Marker::Opaque { atom, positive } => opaque_tree(alloc, atom, *positive),
        Marker::All(parts) => {
            let trees = of_markers(alloc, parts)?;
            joined(alloc, true, trees)
        }
        Marker::Any(parts) => {
            let trees = of_markers(alloc, parts)?;
            joined(alloc, false, trees)
        }
    }
}

// The trees of markers, in order.
#[cycle(of_marker)]
fn of_markers(alloc: Global, parts: &[Marker]) -> Result<Vec<Tree>, AllocError>
    requires { AreFormulas (markers_view parts.now) }
    ensures reduced { IfOk result (λ ts. All IsTree ts.items) }
    ensures truth { IfOk result (λ ts. HoldAsMarkers ts.items parts.now) }
{
    let mut trees = Vec::new(alloc);
    for part in parts {
        trees = with_made(trees, of_marker(alloc, part))?;
    }
    Ok(trees)
}

/// The tree of the interpreters whose version meets every clause of a specifier.
///
/// An interpreter's version is `python_full_version`, which has all three of its numbers. The only error is want
/// of memory.
pub fn of_python(alloc: Global, specifiers: &Specifiers) -> Result<Tree, AllocError>
    ensures reduced { IfOk result IsTree }
    ensures truth { IfOk result (λ t. HoldsByPython t true (λ release. meets_list specifiers.now (plain release))) }
    ensures no_extra { IfOk result (λ t. asks_extra (tree_view t) ≡ false) }
{
    let mut trees = Vec::new(alloc);
    for clause in &specifiers.clauses {
        trees = with_made(trees, clause_tree(alloc, clause, true))?;
    }
    joined(alloc, true, trees)
}

// The tree of the interpreters whose version is one of a list, or isn't.
fn list_tree(
    alloc: Global,
    versions: &[Version],
    full: bool,
    within: bool,
) -> Result<Tree, AllocError>
    requires { All IsVersion versions.now }
    ensures reduced { IfOk result IsTree }
    ensures truth { IfOk result (λ t. HoldsByPython t full (listed_truth versions.now within)) }
{
    let mut trees = Vec::new(alloc);
    for version in versions {
        trees = with_made(trees, version_tree(alloc, version, full))?;
    }
    let tree = joined(alloc, false, trees)?;
    within_or_not(alloc, within, tree)
}

// A tree itself where it is asked for, else its negation.
fn within_or_not(alloc: Global, within: bool, tree: Tree) -> Result<Tree, AllocError>
    requires { IsTree tree }
    ensures reduced { IfOk result IsTree }
    ensures truth { IfOk result (λ t. HoldsAs t (λ w x. as_asked within (tree_holds (tree_view tree) w x))) }
{
    if within {
        return Ok(tree);
    }
    made_from(plain_not(alloc, &tree), tree)
}

// The tree of the interpreters whose version equals another.
fn version_tree(alloc: Global, version: &Version, full: bool) -> Result<Tree, AllocError>
    requires { IsVersion version.now }
    ensures reduced { IfOk result IsTree }
    ensures truth { IfOk result (λ t. HoldsByPython t full (meets_release (equal_to version.now))) }
{
    let clause = Clause {
        op: Op::Equal,
        version: version.copy(alloc)?,
        prefix: false,
    };
    made_from(clause_tree(alloc, &clause, full), clause)
}

/// The tree that is true where all trees are, or where some tree is, joined by halves. The trees are moved.
pub fn joined(alloc: Global, all: bool, trees: Vec<Tree>) -> Result<Tree, AllocError>
    requires { All IsTree trees.items }
    ensures reduced { IfOk result IsTree }
    ensures truth { IfOk result (λ t. HoldsAs t (λ w x. joint all (truths_of trees.items w x))) }
{
    let mut trees = trees;
    let count = trees.len();
    if count == 0 {
        return Ok(Tree::Truth(all));
    }
    made_from(joined_last(alloc, all, &mut trees, count), trees)
}

// The last so many trees of a row, taken away and joined.
fn joined_last(
    alloc: Global,
    all: bool,
    trees: &mut Vec<Tree>,
    count: usize,
) -> Result<Tree, AllocError>
    requires some { 0 < count }
    requires within { count ≤ length trees.old.items }
    requires reduced { All IsTree trees.old.items }
    ensures left { IfOk result (λ t. trees.new.items ≡ first_trees count trees.old.items) }
    ensures reduced { IfOk result IsTree }
    ensures truth { IfOk result (λ t. HoldsAs t (λ w x. joint all (truths_of (last_trees count trees.old.items) w x))) }
{
    if count == 1 {
        return match trees.pop() {
            Some(tree) => Ok(tree),
            None => unreachable!(),
        };
    }
    let half = count / 2;
    let last = joined_last(alloc, all, trees, half)?;
    let (back, front) = beside(last, joined_last(alloc, all, trees, count - half))?;
    pair(alloc, all, front, back)
}

// The tree that is true where both trees are, or where one of them is. A truth that settles the joined truth is the
// answer, and one that doesn't count leaves it to the other tree.
fn pair(alloc: Global, all: bool, front: Tree, back: Tree) -> Result<Tree, AllocError>
    requires front_reduced { IsTree front }
    requires back_reduced { IsTree back }
    ensures reduced { IfOk result IsTree }
    ensures truth { IfOk result (λ t. HoldsAs t (λ w x. joint all (truths_of (front ∷ back ∷ []) w x))) }
{
    if let Some(value) = truth_value(&front) {
        return Ok(past_neutral(all, value, front, back));
    }
    if let Some(value) = truth_value(&back) {
        return Ok(past_neutral(all, value, back, front));
    }
    made_from(both_or_either(alloc, all, &front, &back), (front, back))
}

// The tree that is true where both trees are, or where one of them is, as is asked.
fn both_or_either(alloc: Global, all: bool, front: &Tree, back: &Tree) -> Result<Tree, AllocError>
    requires front_reduced { IsTree front.now }
    requires back_reduced { IsTree back.now }
    ensures reduced { IfOk result IsTree }
    ensures truth { IfOk result (λ t. HoldsAs t (λ w x. joint all (truths_of (front.now ∷ back.now ∷ []) w x))) }
{
    if all {
        return plain_and(alloc, front, back);
    }
    plain_or(alloc, front, back)
}

// The other tree where a truth is neutral, else the tree of the truth, which settles the joined one.
fn past_neutral(neutral: bool, value: bool, settles: Tree, other: Tree) -> Tree
    ensures { tree_view result ≡ (if same_bool value neutral then tree_view other else tree_view settles) }
{
    if value == neutral {
        return kept(other, settles);
    }
    kept(settles, other)
}
