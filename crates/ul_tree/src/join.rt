//! A tree made of two, part by part.
ghost use Rattle.std.specs.Prelude.{◌≡◌, length, map, string_bytes, IfOk, Some};
ghost use Rattle.ul_tree.specs.TreeFacts.{IsTree};
ghost use Rattle.ul_nodes.specs.Plain.{truth};
ghost use Rattle.ul_nodes.specs.Reduced.{IsReduced};
ghost use Rattle.ul_nodes.specs.Apply.{close, first_of};
ghost use Rattle.ul_tree.specs.Views.{tree_view, points_view};
ghost use Rattle.ul_nodes.specs.Closing.{keyed_branches};
ghost use Rattle.ul_nodes.specs.Keys.{level_view, KeysOf};
ghost use Rattle.ul_nodes.specs.Rows.{IfSome};
ghost use Rattle.ul_tree.specs.Joins.{truth_of, IsJoined, at_once_view, past_truth, trees_made, IsClosed, AreJoined};
ghost use Rattle.ul_tree.specs.JoinSteps.{JoinsTo};

use crate::Tree;
use crate::copy::copy_within;
use crate::pairs::made_both;
use crate::part::{Trees, known, truth_value};
use crate::tree::{DEEPEST, deeper};
use std::alloc::{AllocError, Global};
use ul_base::owned::{beside, boxed};
use ul_nodes::branches::add;
use ul_nodes::closing::{Closed, closed_level};
use ul_nodes::level::{Key, Level};
use ul_nodes::nodes::{first_level, level_keys, part_at, rest_at};

/// How two truths are joined.
#[derive(Clone, Copy)]
pub enum Join {
    Both,
    Either,
    NotFirst,
}

impl Join {
    fn truth(self, left: bool, right: bool) -> bool
        ensures { result ≡ truth_of self left right }
    {
        match self {
            Join::Both => left && right,
            Join::Either => left || right,
            Join::NotFirst => !left,
        }
    }
}

// Points: texts with their parts.
fn points_of(
    alloc: Global,
    texts: Vec<String>,
    parts: Vec<Tree>,
) -> Result<Vec<(String, Tree)>, AllocError>
    requires { length texts.items ≡ length parts.items }
    ensures { IfOk result (λ ps. points_view ps.items
        ≡ keyed_branches (map string_bytes texts.items) (map tree_view parts.items)) }
{
    let mut points = Vec::new(alloc);
    let mut left = parts.into_iter();
    for text in texts {
        match left.next() {
            None => unreachable!(),
            Some(part) => points.push((text, part))?,
        }
    }
    Ok(points)
}

// A node of a level that has these branches; its other part where it has none.
pub fn closed(
    alloc: Global,
    level: Level<'_>,
    other: Tree,
    made: Vec<(Key<'_>, Tree)>,
) -> Result<Tree, AllocError>
    requires kinds { KeysOf (level_view level) made.items }
    requires reduced { IsReduced (close (level_view level) (tree_view other) (trees_made made.items)) }
    ensures { IfOk result (IsClosed (level_view level.entry) other made.entry.items) }
{
    let lists = closed_level(alloc, level, other, made)?;
    match lists {
        Closed::Part(part) => Ok(part),
        Closed::Extra {
            texts,
            parts,
            other,
        } => {
            let (points, other) = made_both(
                points_of(alloc, texts, parts),
                boxed(alloc, Ok(other)),
            )?;
            Ok(Tree::Extra { points, other })
        }
        Closed::Python { starts, parts } => Ok(Tree::Python { starts, parts }),
        Closed::Text {
            variable,
            texts,
            parts,
            other,
        } => {
            let (points, other) = made_both(
                points_of(alloc, texts, parts),
                boxed(alloc, Ok(other)),
            )?;
            Ok(Tree::Text {
                variable,
                points,
                other,
            })
        }
        Closed::Opaque { atom, holds, fails } => {
            let sides = made_both(boxed(alloc, Ok(holds)), boxed(alloc, Ok(fails)));
            let (atom, sides) = made_both(atom.copy(alloc), sides)?;
            let (yes, no) = sides;
            Ok(Tree::Opaque { atom, yes, no })
        }
    }
}

/// What the join of two trees is at once: a truth, or one of its sides.
pub enum AtOnce<'a> {
    Truth(bool),
    Side(&'a Tree),
}

// The join of a truth and another tree: the other where the truth is neutral, else the truth.
fn past_truth<'a>(neutral: bool, value: bool, other: &'a Tree) -> AtOnce<'a>
    ensures { at_once_view result ≡ past_truth neutral value (tree_view other.now) }
{
    if value == neutral {
        return AtOnce::Side(other);
    }
    AtOnce::Truth(value)
}

// The join of a truth and a tree after it.
fn after_truth<'a>(operation: Join, value: bool, right: &'a Tree) -> AtOnce<'a>
    requires { IsTree right.now }
    ensures { JoinsTo (truth_of operation) (truth value) (tree_view right.now) (at_once_view result) }
{
    match operation {
        Join::Both => past_truth(true, value, right),
        Join::Either => past_truth(false, value, right),
        Join::NotFirst => AtOnce::Truth(!value),
    }
}

// The join of a tree and a truth after it, where it is known at once.
fn before_truth<'a>(operation: Join, left: &'a Tree, value: bool) -> Option<AtOnce<'a>>
    requires { IsTree left.now }
    ensures { IfSome (λ k. JoinsTo (truth_of operation) (tree_view left.now) (truth value) (at_once_view k)) result }
{
    match operation {
        Join::Both => Some(past_truth(true, value, left)),
        Join::Either => Some(past_truth(false, value, left)),
        Join::NotFirst => None,
    }
}

/// The join of two trees, one of which is a truth, where it is known at once: a truth that settles the joined
/// truth is the answer, and one that doesn't count leaves it to the other side.
pub fn at_once<'a>(operation: Join, left: &'a Tree, right: &'a Tree) -> Option<AtOnce<'a>>
    requires left_reduced { IsTree left.now }
    requires right_reduced { IsTree right.now }
    ensures { IfSome (λ k. JoinsTo (truth_of operation)
        (tree_view left.now) (tree_view right.now) (at_once_view k)) result }
{
    match truth_value(left) {
        Some(value) => Some(after_truth(operation, value, right)),
        None => match truth_value(right) {
            Some(value) => before_truth(operation, left, value),
            None => None,
        },
    }
}

// The tree that a join is at once; want of memory where a path has more levels than `room`.
fn made(alloc: Global, known: AtOnce<'_>, room: usize) -> Result<Tree, AllocError>
    ensures { IfOk result (λ t. tree_view t ≡ at_once_view known.entry) }
{
    match known {
        AtOnce::Truth(value) => Ok(Tree::Truth(value)),
        AtOnce::Side(tree) => copy_within(alloc, tree, room),
    }
}

/// The tree that has the joined truth of two.
pub fn joined(alloc: Global, operation: Join, left: &Tree, right: &Tree) -> Result<Tree, AllocError>
    requires left_reduced { IsTree left.now }
    requires right_reduced { IsTree right.now }
    ensures joined { IfOk result (λ t. IsJoined operation (tree_view left.now) (tree_view right.now) (tree_view t)) }
    ensures reduced { IfOk result IsTree }
{
    joined_within(alloc, operation, left, right, DEEPEST)
}

/// The tree that has the joined truth of two; want of memory where a path has more levels than `room`.
#[cycle(joined)]
pub fn joined_within(
    alloc: Global,
    operation: Join,
    left: &Tree,
    right: &Tree,
    room: usize,
) -> Result<Tree, AllocError>
    requires left_reduced { IsTree left.now }
    requires right_reduced { IsTree right.now }
    ensures joined { IfOk result (λ t. IsJoined operation (tree_view left.now) (tree_view right.now) (tree_view t)) }
    ensures reduced { IfOk result IsTree }
{
    if let Some(known) = at_once(operation, left, right) {
        return made(alloc, known, room);
    }
    joined_parts(alloc, operation, left, right, room)
}

// The same, part by part.
#[cycle(joined)]
fn joined_parts(
    alloc: Global,
    operation: Join,
    left: &Tree,
    right: &Tree,
    room: usize,
) -> Result<Tree, AllocError>
    requires left_reduced { IsTree left.now }
    requires right_reduced { IsTree right.now }
    ensures joined { IfOk result (λ t. IsJoined operation (tree_view left.now) (tree_view right.now) (tree_view t)) }
    ensures reduced { IfOk result IsTree }
{
    let room = deeper(room)?;
    match first_level::<Trees>(left, right) {
        None => Ok(Tree::Truth(operation.truth(known(left), known(right)))),
        Some(level) => {
            let rest = joined_within(
                alloc,
                operation,
                rest_at::<Trees>(left, level),
                rest_at::<Trees>(right, level),
                room,
            )?;
            let branches = joined_branches(alloc, operation, left, right, level, &rest, room);
            let (other, made) = beside(rest, branches)?;
            closed(alloc, level, other, made)
        }
    }
}

// The branches of the joined tree at a level, beside its other part.
#[cycle(joined)]
fn joined_branches<'x>(
    alloc: Global,
    operation: Join,
    left: &'x Tree,
    right: &'x Tree,
    level: Level<'_>,
    other: &Tree,
    room: usize,
) -> Result<Vec<(Key<'x>, Tree)>, AllocError>
    requires left_reduced { IsTree left.now }
    requires right_reduced { IsTree right.now }
    requires first { Some (level_view level) ≡ first_of (tree_view left.now) (tree_view right.now) }
    requires other_reduced { IsTree other.now }
    ensures branches { IfOk result (λ bs. AreJoined operation level.entry left.now right.now other.now bs.items) }
    ensures kinds { IfOk result (λ bs. KeysOf (level_view level.entry) bs.items) }
{
    let keys = level_keys::<Trees>(alloc, level, left, right)?;
    let carried = level.is_carried();
    let mut made: Vec<(Key<'x>, Tree)> = Vec::new(alloc);
    for key in &keys {
        let next = joined_within(
            alloc,
            operation,
            part_at::<Trees>(left, level, *key),
            part_at::<Trees>(right, level, *key),
            room,
        )?;
        add(&Trees, &mut made, other, carried, *key, next)?;
    }
    Ok(made)
}
