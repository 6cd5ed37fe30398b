//! Trees as nodes: the top level, the part without a key, and the branches.
ghost use Rattle.std.specs.Prelude.{◌≡◌, ◌<◌, suc, length, option_map, true};
ghost use Rattle.ul_nodes.specs.Keys.{IsBranchAt, level_view, key_view, top_of, rest_of, branches_of, branch_count, is_key_of, is_literal_key};
ghost use Rattle.ul_tree.specs.TreeFacts.{IsTree, IsTreeBranch};
ghost use Rattle.ul_nodes.specs.Apply.{leaf_truth as known_plain, truth_value as truth_value_plain};
ghost use Rattle.ul_tree.specs.FirstParts.{is_false as is_false_plain};
ghost use Rattle.ul_tree.specs.Sample.{asks_extra as asks_extra_plain};
ghost use Rattle.ul_tree.specs.Views.{tree_view, points_view};

use crate::Tree;
use crate::copy::same;
use ul_nodes::branches::Sameness;
use ul_nodes::level::{Key, Level};
use ul_nodes::nodes::{Branch, Nodes};

/// Trees, as nodes of decision trees.
pub struct Trees;

impl Nodes for Trees {
    ghost use Rattle.ul_tree.specs.Views.{tree_view};

    type Node = Tree;

    ghost tree = { tree_view };

    ghost below = { λ t p. Unit {0} };

    ghost below_itself = { λ t. tt };

    fn leaf_truth(node: &Tree) -> bool {
        known(node)
    }

    fn level_of(node: &Tree) -> Option<Level<'_>> {
        level_of(node)
    }

    fn rest_of(node: &Tree) -> &Tree {
        rest_of(node)
    }

    fn branch_count(node: &Tree) -> usize {
        branch_count(node)
    }

    fn branch_at(node: &Tree, index: usize) -> Branch<'_, Tree> {
        branch_at(node, index)
    }
}

impl Sameness for Trees {
    ghost use Rattle.ul_tree.specs.Views.{tree_view};

    type Part = Tree;

    ghost tree = { tree_view };

    ghost known = { λ trees t. Unit {0} };

    fn is_same(&self, left: &Tree, right: &Tree) -> bool {
        same(left, right)
    }
}

/// The truth that a tree is; false for a node.
pub fn known(tree: &Tree) -> bool
    ensures { result ≡ known_plain (tree_view tree.now) }
{
    match tree {
        Tree::Truth(value) => *value,
        Tree::Extra { .. } => false,
        Tree::Python { .. } => false,
        Tree::Text { .. } => false,
        Tree::Opaque { .. } => false,
    }
}

/// The truth that a tree is, if it is one.
pub fn truth_value(tree: &Tree) -> Option<bool>
    ensures { result ≡ truth_value_plain (tree_view tree.now) }
{
    match tree {
        Tree::Truth(value) => Some(*value),
        Tree::Extra { .. } => None,
        Tree::Python { .. } => None,
        Tree::Text { .. } => None,
        Tree::Opaque { .. } => None,
    }
}

/// Whether a tree is false.
pub fn is_false(tree: &Tree) -> bool
    ensures { result ≡ is_false_plain (tree_view tree.now) }
{
    matches!(tree, Tree::Truth(false))
}

/// Whether a tree asks for the extra.
pub fn asks_extra(tree: &Tree) -> bool
    ensures { result ≡ asks_extra_plain (tree_view tree.now) }
{
    matches!(tree, Tree::Extra { .. })
}

/// The top level of a tree, if it is a node.
pub fn level_of(tree: &Tree) -> Option<Level<'_>>
    ensures { option_map level_view result ≡ top_of (tree_view tree.now) }
{
    match tree {
        Tree::Truth(_) => None,
        Tree::Extra { .. } => Some(Level::Extra),
        Tree::Python { .. } => Some(Level::Python),
        Tree::Text { variable, .. } => Some(Level::Text(*variable)),
        Tree::Opaque { atom, .. } => Some(Level::Opaque(atom)),
    }
}

/// The part without a key; a truth is its own part.
pub fn rest_of(tree: &Tree) -> &Tree
    requires { IsTree tree.now }
    ensures { tree_view result.now ≡ rest_of (tree_view tree.now) }
{
    match tree {
        Tree::Truth(_) => tree,
        Tree::Extra { other, .. } => other,
        Tree::Python { parts, .. } => &parts[0],
        Tree::Text { other, .. } => other,
        Tree::Opaque { no, .. } => no,
    }
}

/// How many branches a tree has beside the part without a key.
pub fn branch_count(tree: &Tree) -> usize
    requires { IsTree tree.now }
    ensures { result ≡ branch_count (branches_of (tree_view tree.now)) }
{
    match tree {
        Tree::Truth(_) => 0,
        Tree::Extra { points, .. } => points.len(),
        Tree::Python { starts, .. } => starts.len() - 1,
        Tree::Text { points, .. } => points.len(),
        Tree::Opaque { .. } => 1,
    }
}

/// The branch at a place.
pub fn branch_at(tree: &Tree, index: usize) -> Branch<'_, Tree>
    requires reduced { IsTree tree.now }
    requires within { index < branch_count (branches_of (tree_view tree.now)) }
    ensures found { IsTreeBranch tree.now index result.key result.part.now }
    ensures kind { is_key_of (tree_view tree.now) result.key ≡ true }
{
    match tree {
        Tree::Truth(_) => unreachable!(),
        Tree::Extra { points, .. } => point_at(points, index),
        Tree::Python { starts, parts } => {
            let place = index + 1;
            Branch {
                key: Key::Number(starts[place]),
                part: &parts[place],
            }
        }
        Tree::Text { points, .. } => point_at(points, index),
        Tree::Opaque { yes, .. } => Branch {
            key: Key::Holds,
            part: yes,
        },
    }
}

// The branch of a point.
fn point_at(points: &[(String, Tree)], index: usize) -> Branch<'_, Tree>
    requires { index < length points.now }
    ensures found { IsBranchAt (points_view points.now) index (key_view result.key) (tree_view result.part.now) }
    ensures kind { is_literal_key result.key ≡ true }
{
    let point = &points[index];
    Branch {
        key: Key::Literal(point.0.as_str()),
        part: &point.1,
    }
}
