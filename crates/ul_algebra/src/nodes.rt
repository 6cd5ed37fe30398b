//! Diagrams as nodes of decision trees: the top level, the part without a key, and the branches.
ghost use Rattle.std.specs.Prelude.{◌≡◌, ◌<◌, option_map, true};
ghost use Rattle.ul_nodes.specs.Reduced.{IsReduced};
ghost use Rattle.ul_nodes.specs.Keys.{IsBranchAt, level_view, key_view, top_of, rest_of, branches_of, branch_count, is_key_of};
ghost use Rattle.ul_nodes.specs.Apply.{leaf_truth as known_plain, truth_value as truth_value_plain};
ghost use Rattle.ul_tree.specs.FirstParts.{is_false as is_false_plain};
ghost use Rattle.ul_algebra.specs.Made.{KnownWith};
ghost use Rattle.ul_algebra.specs.Spelled.{tree_of};

use crate::Diagram;
use crate::labels::DiagramLabel;
use ul_nodes::level::{Key, Level};
use ul_nodes::nodes::{Branch, Nodes};

/// The truth that a diagram is; false for a node.
pub(crate) fn known(d: &Diagram) -> bool
    requires { IsReduced (tree_of d.now) }
    ensures { result ≡ known_plain (tree_of d.now) }
{
    match d.label() {
        DiagramLabel::Truth(value) => *value,
        DiagramLabel::Extra { .. } => false,
        DiagramLabel::Python { .. } => false,
        DiagramLabel::Text { .. } => false,
        DiagramLabel::Opaque { .. } => false,
    }
}

/// The truth that a diagram is, if it is one.
pub(crate) fn truth_value(d: &Diagram) -> Option<bool>
    requires { IsReduced (tree_of d.now) }
    ensures { result ≡ truth_value_plain (tree_of d.now) }
{
    match d.label() {
        DiagramLabel::Truth(value) => Some(*value),
        DiagramLabel::Extra { .. } => None,
        DiagramLabel::Python { .. } => None,
        DiagramLabel::Text { .. } => None,
        DiagramLabel::Opaque { .. } => None,
    }
}

/// Whether a diagram is false.
pub(crate) fn is_false(d: &Diagram) -> bool
    requires { IsReduced (tree_of d.now) }
    ensures { result ≡ is_false_plain (tree_of d.now) }
{
    match d.label() {
        DiagramLabel::Truth(value) => !*value,
        DiagramLabel::Extra { .. } => false,
        DiagramLabel::Python { .. } => false,
        DiagramLabel::Text { .. } => false,
        DiagramLabel::Opaque { .. } => false,
    }
}

/// The top level of a diagram, if it is a node.
pub(crate) fn level_of(d: &Diagram) -> Option<Level<'_>>
    requires { IsReduced (tree_of d.now) }
    ensures { option_map level_view result ≡ top_of (tree_of d.now) }
{
    match d.label() {
        DiagramLabel::Truth(_) => None,
        DiagramLabel::Extra { .. } => Some(Level::Extra),
        DiagramLabel::Python { .. } => Some(Level::Python),
        DiagramLabel::Text { variable, .. } => Some(Level::Text(*variable)),
        DiagramLabel::Opaque { atom } => Some(Level::Opaque(atom)),
    }
}

/// The part without a key; a truth is its own part.
pub(crate) fn rest_of(d: &Diagram) -> &Diagram
    requires { IsReduced (tree_of d.now) }
    ensures part { tree_of result.now ≡ rest_of (tree_of d.now) }
    ensures known { KnownWith d.now result.now }
{
    match d.label() {
        DiagramLabel::Truth(_) => d,
        DiagramLabel::Extra { points } => d.part(points.len()),
        DiagramLabel::Python { .. } => d.part(0),
        DiagramLabel::Text { points, .. } => d.part(points.len()),
        DiagramLabel::Opaque { .. } => d.part(1),
    }
}

/// How many branches a diagram has beside the part without a key.
pub(crate) fn branch_count(d: &Diagram) -> usize
    requires { IsReduced (tree_of d.now) }
    ensures { result ≡ branch_count (branches_of (tree_of d.now)) }
{
    match d.label() {
        DiagramLabel::Truth(_) => 0,
        DiagramLabel::Extra { points } => points.len(),
        DiagramLabel::Python { starts } => starts.len() - 1,
        DiagramLabel::Text { points, .. } => points.len(),
        DiagramLabel::Opaque { .. } => 1,
    }
}

/// The branch at a place.
pub(crate) fn branch_at(d: &Diagram, index: usize) -> Branch<'_, Diagram>
    requires reduced { IsReduced (tree_of d.now) }
    requires within { index < branch_count (branches_of (tree_of d.now)) }
    ensures found { IsBranchAt (branches_of (tree_of d.now)) index (key_view result.key) (tree_of result.part.now) }
    ensures kind { is_key_of (tree_of d.now) result.key ≡ true }
    ensures known { KnownWith d.now result.part.now }
{
    match d.label() {
        DiagramLabel::Truth(_) => unreachable!(),
        DiagramLabel::Extra { points } => Branch {
            key: Key::Literal(points.get(index)),
            part: d.part(index),
        },
        DiagramLabel::Python { starts } => {
            let (number, place) = starts.after(index);
            Branch {
                key: Key::Number(number),
                part: d.part(place),
            }
        }
        DiagramLabel::Text { points, .. } => Branch {
            key: Key::Literal(points.get(index)),
            part: d.part(index),
        },
        DiagramLabel::Opaque { .. } => Branch {
            key: Key::Holds,
            part: d.part(0),
        },
    }
}

/// Diagrams, as nodes of decision trees.
pub(crate) struct Diagrams;

impl Nodes for Diagrams {
    ghost use Rattle.ul_algebra.specs.Made.{KnownWith};
    ghost use Rattle.ul_algebra.specs.Spelled.{tree_of};

    type Node = Diagram;

    ghost tree = { tree_of };

    ghost below = { KnownWith };

    ghost below_itself = { λ d h k. k };

    fn leaf_truth(node: &Diagram) -> bool {
        known(node)
    }

    fn level_of(node: &Diagram) -> Option<Level<'_>> {
        level_of(node)
    }

    fn rest_of(node: &Diagram) -> &Diagram {
        rest_of(node)
    }

    fn branch_count(node: &Diagram) -> usize {
        branch_count(node)
    }

    fn branch_at(node: &Diagram, index: usize) -> Branch<'_, Diagram> {
        branch_at(node, index)
    }
}
