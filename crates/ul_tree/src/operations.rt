//! The truth of trees joined: `and`, `or`, `not`, and a tree at an extra.
ghost use Rattle.std.specs.Prelude.{◌≡◌, ℕ, List, IfOk, not, false};
ghost use Rattle.ul_tree.specs.TreeFacts.{IsTree, HoldsAs, HoldsJoined};
ghost use Rattle.ul_tree.specs.Sample.{asks_extra};
ghost use Rattle.ul_nodes.specs.Apply.{both, either};
ghost use Rattle.ul_tree.specs.Values.{tree_holds};
ghost use Rattle.ul_tree.specs.Views.{tree_view};

use crate::Tree;
use crate::copy::copy;
use crate::join::{Join, joined};
use crate::part::Trees;
use std::alloc::{AllocError, Global};
use ul_nodes::level::{Key, Level};
use ul_nodes::nodes::part_at;

/// The tree that is true where both are.
///
/// # Errors
///
/// Only for want of memory.
pub fn plain_and(alloc: Global, left: &Tree, right: &Tree) -> Result<Tree, AllocError>
    requires left_reduced { IsTree left.now }
    requires right_reduced { IsTree right.now }
    ensures reduced { IfOk result IsTree }
    ensures truth { IfOk result (λ t. HoldsJoined both left.now right.now t) }
{
    joined(alloc, Join::Both, left, right)
}

/// The tree that is true where one of two is.
///
/// # Errors
///
/// Only for want of memory.
pub fn plain_or(alloc: Global, left: &Tree, right: &Tree) -> Result<Tree, AllocError>
    requires left_reduced { IsTree left.now }
    requires right_reduced { IsTree right.now }
    ensures reduced { IfOk result IsTree }
    ensures truth { IfOk result (λ t. HoldsJoined either left.now right.now t) }
{
    joined(alloc, Join::Either, left, right)
}

/// The tree that is true where this one is false.
///
/// # Errors
///
/// Only for want of memory.
pub fn plain_not(alloc: Global, whole: &Tree) -> Result<Tree, AllocError>
    requires { IsTree whole.now }
    ensures reduced { IfOk result IsTree }
    ensures truth { IfOk result (λ t. HoldsAs t (λ w x. not (tree_holds (tree_view whole.now) w x))) }
{
    joined(alloc, Join::NotFirst, whole, &Tree::Truth(false))
}

/// The tree of one extra, which may be empty: it asks for no extra.
///
/// # Errors
///
/// Only for want of memory.
pub fn plain_at_extra(alloc: Global, whole: &Tree, extra: &str) -> Result<Tree, AllocError>
    requires { IsTree whole.now }
    ensures reduced { IfOk result IsTree }
    ensures truth { IfOk result (λ t. HoldsAs t (λ w x. tree_holds (tree_view whole.now) w extra.now)) }
    ensures no_extra { IfOk result (λ t. asks_extra (tree_view t) ≡ false) }
{
    copy(
        alloc,
        part_at::<Trees>(whole, Level::Extra, Key::Literal(extra)),
    )
}
