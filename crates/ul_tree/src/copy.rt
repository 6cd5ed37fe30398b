//! Equal trees made, and trees compared.
ghost use Rattle.std.specs.Prelude.{◌≡◌, ◌↔◌, IfOk, IsTrue, map};
ghost use Rattle.ul_tree.specs.TreeFacts.{IsTree};
ghost use Rattle.ul_nodes.specs.Apply.{same as same_plain};
ghost use Rattle.ul_tree.specs.Views.{tree_view, points_view};
ghost use Rattle.ul_nodes.specs.Keys.{same_tops};

use crate::Tree;
use crate::pairs::made_both;
use crate::part::{branch_at, branch_count, known, level_of, rest_of, truth_value};
use crate::tree::{DEEPEST, deeper};
use std::alloc::{AllocError, Global};
use ul_base::owned::{boxed, named, with_made};

impl Tree {
    /// An equal tree.
    ///
    /// # Errors
    ///
    /// Only for want of memory.
    pub fn copy(&self, alloc: Global) -> Result<Tree, AllocError>
        ensures { IfOk result (λ t. tree_view t ≡ tree_view self.now) }
    {
        copy(alloc, self)
    }

    /// Whether two trees are equal.
    pub fn same(&self, other: &Tree) -> bool
        requires own_reduced { IsTree self.now }
        requires other_reduced { IsTree other.now }
        ensures { IsTrue result ↔ (tree_view self.now ≡ tree_view other.now) }
    {
        same(self, other)
    }
}

/// An equal tree.
pub fn copy(alloc: Global, tree: &Tree) -> Result<Tree, AllocError>
    ensures { IfOk result (λ t. tree_view t ≡ tree_view tree.now) }
{
    copy_within(alloc, tree, DEEPEST)
}

/// An equal tree; want of memory where a path has more levels than `room`.
#[cycle(copy)]
pub fn copy_within(alloc: Global, tree: &Tree, room: usize) -> Result<Tree, AllocError>
    ensures { IfOk result (λ t. tree_view t ≡ tree_view tree.now) }
{
    if let Some(value) = truth_value(tree) {
        return Ok(Tree::Truth(value));
    }
    let room = deeper(room)?;
    copy_node(alloc, tree, room)
}

// An equal tree of equal parts, with this room for each.
#[cycle(copy)]
fn copy_node(alloc: Global, tree: &Tree, room: usize) -> Result<Tree, AllocError>
    ensures { IfOk result (λ t. tree_view t ≡ tree_view tree.now) }
{
    match tree {
        Tree::Truth(value) => Ok(Tree::Truth(*value)),
        Tree::Extra { points, other } => {
            let (points, other) = made_both(
                copy_points(alloc, points, room),
                boxed(alloc, copy_within(alloc, other, room)),
            )?;
            Ok(Tree::Extra { points, other })
        }
        Tree::Python { starts, parts } => {
            let (starts, parts) = made_both(
                Vec::from_slice(alloc, starts.as_slice()),
                copy_parts(alloc, parts, room),
            )?;
            Ok(Tree::Python { starts, parts })
        }
        Tree::Text {
            variable,
            points,
            other,
        } => {
            let (points, other) = made_both(
                copy_points(alloc, points, room),
                boxed(alloc, copy_within(alloc, other, room)),
            )?;
            Ok(Tree::Text {
                variable: *variable,
                points,
                other,
            })
        }
        Tree::Opaque { atom, yes, no } => {
            let sides = made_both(
                boxed(alloc, copy_within(alloc, yes, room)),
                boxed(alloc, copy_within(alloc, no, room)),
            );
            let (atom, sides) = made_both(atom.copy(alloc), sides)?;
            let (yes, no) = sides;
            Ok(Tree::Opaque { atom, yes, no })
        }
    }
}

// Equal points.
#[cycle(copy)]
fn copy_points(
    alloc: Global,
    points: &[(String, Tree)],
    room: usize,
) -> Result<Vec<(String, Tree)>, AllocError>
    ensures { IfOk result (λ ps. points_view ps.items ≡ points_view points.now) }
{
    let mut copied = Vec::new(alloc);
    for point in points {
        let made = named(alloc, point.0.as_str(), copy_within(alloc, &point.1, room));
        copied = with_made(copied, made)?;
    }
    Ok(copied)
}

// Equal parts.
#[cycle(copy)]
fn copy_parts(alloc: Global, parts: &[Tree], room: usize) -> Result<Vec<Tree>, AllocError>
    ensures { IfOk result (λ ts. map tree_view ts.items ≡ map tree_view parts.now) }
{
    let mut copied = Vec::new(alloc);
    for part in parts {
        copied = with_made(copied, copy_within(alloc, part, room))?;
    }
    Ok(copied)
}

/// Whether two trees are equal.
pub fn same(left: &Tree, right: &Tree) -> bool
    requires left_reduced { IsTree left.now }
    requires right_reduced { IsTree right.now }
    ensures { result ≡ same_plain (tree_view left.now) (tree_view right.now) }
{
    if !same_top(left, right) {
        return false;
    }
    if level_of(left).is_none() {
        return true;
    }
    if branch_count(left) != branch_count(right) {
        return false;
    }
    if !same(rest_of(left), rest_of(right)) {
        return false;
    }
    for index in 0..branch_count(left) {
        let one = branch_at(left, index);
        let other = branch_at(right, index);
        if !one.key.cmp(other.key).is_eq() {
            return false;
        }
        if !same(one.part, other.part) {
            return false;
        }
    }
    true
}

// Whether two trees have equal top levels, or are both truths and equal.
fn same_top(left: &Tree, right: &Tree) -> bool
    ensures { result ≡ same_tops (tree_view left.now) (tree_view right.now) }
{
    match level_of(left) {
        None => match level_of(right) {
            None => known(left) == known(right),
            Some(_) => false,
        },
        Some(level) => match level_of(right) {
            None => false,
            Some(found) => level.cmp(found).is_eq(),
        },
    }
}
