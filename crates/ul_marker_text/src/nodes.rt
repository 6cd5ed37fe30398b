//! Nodes that are made of their parts, if they are reduced.
ghost use Rattle.std.specs.Prelude.{◌≡◌, ◌∷◌, ◌↔◌, ℕ, List, [], IfOk, IsTrue, Some, All, map, true, false, option_map};
ghost use Rattle.std.specs.Ordering.{is_lt};
ghost use Rattle.ul_comparison.specs.Atoms.{IsAtom};
ghost use Rattle.ul_tree.specs.Fans.{filled_points, listed_points, node_of as node_of_parts, opening_node, other_part, pieces_from, pointed_at};
ghost use Rattle.ul_tree.specs.Joins.{trees_made};
ghost use Rattle.ul_nodes.specs.Keys.{level_view, key_view, then_branches, KeysOf};
ghost use Rattle.ul_nodes.specs.Levels.{IsExtra, python_level};
ghost use Rattle.ul_nodes.specs.Plain.{Plain, branch, node, carries, text_cmp};
ghost use Rattle.ul_nodes.specs.Reduced.{Fits};
ghost use Rattle.ul_tree.specs.TreeFacts.{IsTree};
ghost use Rattle.ul_tree.specs.Views.{tree_view};
ghost use Rattle.ul_marker_text.specs.IfRead as if_read;
ghost use Rattle.ul_marker_text.specs.NodeViews as Views;
ghost use Rattle.ul_marker_text.specs.NodeViews.{first_level, keys_of_other, others_view, KeyAnswer, KeysAnswer, LiteralAnswer};
ghost use Rattle.ul_marker_text.specs.Nodes as Nodes;
ghost use Rattle.ul_marker_text.specs.Nodes.{gap, is_after, key_branches, number_branches, parts_view, AreKeys, BranchesFit, Keeps, PartsFit};
ghost use Rattle.ul_marker_text.specs.StepViews.{above_view, comparison_key};

use crate::printing::END;
use crate::steps::{Step, has_key, key_of};
use std::alloc::{AllocError, Global};
use std::collections::VecDeque;
use ul_base::owned::{beside, refused, with_one};
use ul_base::{Name, NameFault};
use ul_marker::printed::Comparison;
use ul_marker::{Atom, is_literal};
use ul_nodes::level::{Key, Level};
use ul_tree::Tree;
use ul_tree::copy::same;
use ul_tree::join::closed;

// ---- keys

// Whether a text is the normal form of the name that was read of it.
fn normal_if_read(text: &str, read: Result<Name, NameFault>) -> Result<bool, AllocError>
    ensures { result ≡ if_read.normal_if_read text.now read }
{
    match read {
        Ok(name) => Ok(name.text() == text),
        Err(NameFault::NoReading) => Ok(false),
        Err(NameFault::NoMemory) => Err(AllocError),
    }
}

// Whether a text is an extra: empty, or a name in its normal form.
fn is_extra(alloc: Global, text: &str) -> Result<bool, AllocError>
    ensures { IfOk result (λ b. IsTrue b ↔ IsExtra text.now) }
{
    if text.is_empty() {
        return Ok(true);
    }
    normal_if_read(text, Name::read(alloc, text))
}

// The literal of a comparison, if it has one.
fn literal_of<'m>(comparison: Comparison<'m>) -> Option<&'m str>
    ensures { LiteralAnswer (comparison_key comparison.entry) result }
{
    match comparison {
        Comparison::Bound { .. } => None,
        Comparison::Extra { literal, .. } => Some(literal),
        Comparison::Text { literal, .. } => Some(literal),
        Comparison::Opaque { .. } => None,
    }
}

// An atom is one that a marker's text can spell: a look at a field tells what its type keeps.
fn tell_atom(atom: &Atom)
    ensures { IsAtom atom.now }
{
    let _ = &atom.kind;
}

// The key of a comparison, as one of a level, if it is one.
fn point_key<'m>(
    alloc: Global,
    level: Level<'_>,
    comparison: Comparison<'m>,
) -> Result<Option<Key<'m>>, AllocError>
    requires { carries (level_view level) ≡ false }
    ensures { IfOk result (KeyAnswer (level_view level.entry) (comparison_key comparison.entry)) }
{
    match level {
        Level::Extra => match literal_of(comparison) {
            Some(text) => {
                if is_extra(alloc, text)? {
                    return Ok(Some(Key::Literal(text)));
                }
                Ok(None)
            }
            None => Ok(None),
        },
        Level::Python => unreachable!(),
        Level::Text(variable) => match literal_of(comparison) {
            Some(text) => {
                if variable.is_text() && is_literal(text.as_bytes()) {
                    return Ok(Some(Key::Literal(text)));
                }
                Ok(None)
            }
            None => Ok(None),
        },
        Level::Opaque(atom) => {
            tell_atom(atom);
            if key_of(comparison).cmp(Key::Holds).is_eq() {
                return Ok(Some(Key::Holds));
            }
            Ok(None)
        }
    }
}

// The branches of points, if each has a key of a level.
fn point_keys<'m>(
    alloc: Global,
    level: Level<'_>,
    points: Vec<(Comparison<'m>, Tree)>,
) -> Result<Option<Vec<(Key<'m>, Tree)>>, AllocError>
    requires { carries (level_view level) ≡ false }
    ensures { IfOk result (KeysAnswer (level_view level.entry) (key_branches points.entry.items)) }
{
    let mut made = Vec::new(alloc);
    for (comparison, tree) in points {
        let (tree, key) = beside(tree, point_key(alloc, level, comparison))?;
        match key {
            None => return Ok(refused((made, tree))),
            Some(key) => made = with_one(made, (key, tree))?,
        }
    }
    Ok(Some(made))
}

// The key of a number, if it is an interpreter above the first.
fn number_key<'m>(number: u128) -> Option<Key<'m>>
    ensures { KeyAnswer python_level (number ∷ []) result }
{
    if number == 0 {
        return None;
    }
    if number < END {
        return Some(Key::Number(number));
    }
    None
}

// The branches of pieces, if each starts at an interpreter above the first.
fn number_keys<'m>(
    alloc: Global,
    pieces: Vec<(u128, Tree)>,
) -> Result<Option<Vec<(Key<'m>, Tree)>>, AllocError>
    ensures { IfOk result (KeysAnswer python_level (number_branches pieces.items)) }
{
    let mut made = Vec::new(alloc);
    for (number, tree) in pieces {
        match number_key(number) {
            None => return Ok(refused((made, tree))),
            Some(key) => made = with_one(made, (key, tree))?,
        }
    }
    Ok(Some(made))
}

// ---- reduced nodes

// Whether a level comes after another, if there is one.
fn is_below(above: Option<Level<'_>>, level: Level<'_>) -> bool
    ensures { result ≡ is_lt (text_cmp (above_view above.entry) (level_view level.entry)) }
{
    match above {
        None => true,
        Some(other) => other.cmp(level).is_lt(),
    }
}

// Whether a key comes after another, if there is one.
fn is_after_key(last: Option<Key<'_>>, key: Key<'_>) -> bool
    ensures { result ≡ is_after (option_map key_view last.entry) (key_view key.entry) }
{
    match last {
        None => true,
        Some(other) => other.cmp(key).is_lt(),
    }
}

// Whether keys increase, and each part differs from the one that stands before it.
fn are_apart(made: &[(Key<'_>, Tree)], other: &Tree, carried: bool) -> bool
    requires other_reduced { IsTree other.now }
    requires made_reduced { All (λ e. IsTree e.1) made.now }
    ensures { result ≡ Nodes.are_apart None carried (tree_view other.now) (trees_made made.now) }
{
    let mut last: Option<Key<'_>> = None;
    let mut standing = other;
    for entry in made {
        if !is_after_key(last, entry.0) {
            return false;
        }
        if same(&entry.1, standing) {
            return false;
        }
        last = Some(entry.0);
        if carried {
            standing = &entry.1;
        }
    }
    true
}

// The node of a level with these branches, if it is reduced below another; else the false tree.
fn closed_if_reduced(
    alloc: Global,
    above: Option<Level<'_>>,
    level: Level<'_>,
    other: Tree,
    made: Vec<(Key<'_>, Tree)>,
) -> Result<Tree, AllocError>
    requires kinds { KeysOf (level_view level) made.items }
    requires keys { AreKeys (level_view level) (trees_made made.items) }
    requires parts { BranchesFit (level_view level) (trees_made made.items) }
    requires other { Fits (tree_view other) (level_view level) }
    ensures { IfOk result (λ t. Keeps (above_view above.entry) (node (level_view level.entry)
        (tree_view other) (trees_made made.entry.items)) (tree_view t)) }
{
    if made.is_empty() {
        drop((other, made));
        return Ok(Tree::Truth(false));
    }
    if !is_below(above, level) {
        drop((other, made));
        return Ok(Tree::Truth(false));
    }
    if !are_apart(&made, &other, level.is_carried()) {
        drop((other, made));
        return Ok(Tree::Truth(false));
    }
    closed(alloc, level, other, made)
}

// ---- pieces of the interpreter

// Pieces, and behind them a false one from one number up to another, unless they are equal.
fn with_gap(
    made: Vec<(u128, Tree)>,
    next: u128,
    start: u128,
) -> Result<Vec<(u128, Tree)>, AllocError>
    ensures { IfOk result (λ all. number_branches all.items
        ≡ then_branches (number_branches made.items) (gap next start)) }
{
    if next == start {
        return Ok(made);
    }
    with_one(made, (next, Tree::Truth(false)))
}

// The pieces of the interpreter, from the first interpreter on: false where there is no part.
fn pieces(
    alloc: Global,
    mut parts: VecDeque<(Step<'_, '_>, Tree)>,
) -> Result<Vec<(u128, Tree)>, AllocError>
    ensures { IfOk result (λ v. number_branches v.items ≡ pieces_from 0 (parts_view parts.entry.items)) }
{
    let mut made = Vec::new(alloc);
    let mut next = 0u128;
    while let Some((step, tree)) = parts.pop_front() {
        match step {
            Step::Interval(start, end) => {
                let (tree, closed) = beside(tree, with_gap(made, next, start))?;
                made = with_one(closed, (start, tree))?;
                next = end;
            }
            Step::Point(_) => {
                drop(tree);
                return Ok(made);
            }
            Step::Others(_, _) => {
                drop(tree);
                return Ok(made);
            }
        }
    }
    with_gap(made, next, END)
}

// The node of the interpreter with these parts.
fn pieces_node(
    alloc: Global,
    above: Option<Level<'_>>,
    parts: VecDeque<(Step<'_, '_>, Tree)>,
) -> Result<Tree, AllocError>
    requires { PartsFit python_level (parts_view parts.items) }
    ensures { IfOk result (λ t. Keeps (above_view above.entry) (opening_node (pieces_from 0
        (parts_view parts.entry.items))) (tree_view t)) }
{
    let mut pieces = pieces(alloc, parts)?;
    if pieces.is_empty() {
        return Ok(Tree::Truth(false));
    }
    let (_, other) = pieces.remove(0);
    let (other, made) = beside(other, number_keys(alloc, pieces))?;
    match made {
        None => {
            drop(other);
            Ok(Tree::Truth(false))
        }
        Some(made) => closed_if_reduced(alloc, above, Level::Python, other, made),
    }
}

// ---- points

// The keys of the other part, if there is one after the points.
fn other_keys<'r, 'm>(
    parts: &VecDeque<(Step<'r, 'm>, Tree)>,
) -> Option<(Comparison<'m>, &'r [Comparison<'m>])>
    ensures { others_view result ≡ keys_of_other (other_part (parts_view parts.now.items)) }
{
    for index in 0..parts.len() {
        match parts[index].0 {
            Step::Point(_) => continue,
            Step::Interval(_, _) => return None,
            Step::Others(first, row) => return Some((first, row)),
        }
    }
    None
}

// The other part, after the points.
fn take_other(mut parts: VecDeque<(Step<'_, '_>, Tree)>) -> Tree
    ensures { (keys : List (List ℕ)) (p : Plain) → other_part (parts_view parts.entry.items) ≡ Some (keys, p)
        → tree_view result ≡ p }
{
    while let Some((step, tree)) = parts.pop_front() {
        match step {
            Step::Point(_) => drop(tree),
            Step::Interval(_, _) => {
                drop(tree);
                return Tree::Truth(false);
            }
            Step::Others(_, _) => return tree,
        }
    }
    Tree::Truth(false)
}

// Whether the first part is at a point with this key.
fn has_point(parts: &VecDeque<(Step<'_, '_>, Tree)>, key: Comparison<'_>) -> bool
    ensures { result ≡ Views.has_point (comparison_key key.entry) (parts_view parts.now.items) }
{
    match parts.front() {
        None => false,
        Some(part) => match part.0 {
            Step::Interval(_, _) => false,
            Step::Point(found) => has_key(key, found),
            Step::Others(_, _) => false,
        },
    }
}

// The part of a key: false where it isn't listed.
fn take_point(parts: &mut VecDeque<(Step<'_, '_>, Tree)>, key: Comparison<'_>) -> Tree
    ensures branch { (keys : List (List ℕ))
        → filled_points (comparison_key key.entry ∷ keys) (parts_view parts.old.items)
        ≡ branch (comparison_key key.entry) (tree_view result) (filled_points keys (parts_view parts.new.items)) }
    ensures other { other_part (parts_view parts.new.items) ≡ other_part (parts_view parts.old.items) }
{
    if !has_point(parts, key) {
        return Tree::Truth(false);
    }
    match parts.pop_front() {
        None => Tree::Truth(false),
        Some((_, tree)) => tree,
    }
}

// The points of keys: false where one isn't listed.
fn filled<'m>(
    alloc: Global,
    parts: &mut VecDeque<(Step<'_, 'm>, Tree)>,
    first: Comparison<'m>,
    row: &[Comparison<'m>],
) -> Result<Vec<(Comparison<'m>, Tree)>, AllocError>
    ensures branches { IfOk result (λ v. key_branches v.items
        ≡ filled_points (comparison_key first.entry ∷ map comparison_key row.now) (parts_view parts.old.items)) }
    ensures other { IfOk result (λ v. other_part (parts_view parts.new.items)
        ≡ other_part (parts_view parts.old.items)) }
{
    let mut made = with_one(Vec::new(alloc), (first, take_point(parts, first)))?;
    for key in row {
        made = with_one(made, (*key, take_point(parts, *key)))?;
    }
    Ok(made)
}

// The points that are listed.
fn listed<'m>(
    alloc: Global,
    mut parts: VecDeque<(Step<'_, 'm>, Tree)>,
) -> Result<Vec<(Comparison<'m>, Tree)>, AllocError>
    ensures { IfOk result (λ v. key_branches v.items ≡ listed_points (parts_view parts.entry.items)) }
{
    let mut made = Vec::new(alloc);
    while let Some((step, tree)) = parts.pop_front() {
        match step {
            Step::Interval(_, _) => {
                drop(tree);
                return Ok(made);
            }
            Step::Point(comparison) => made = with_one(made, (comparison, tree))?,
            Step::Others(_, _) => {
                drop(tree);
                return Ok(made);
            }
        }
    }
    Ok(made)
}

// The node of a level with these points.
fn points_closed(
    alloc: Global,
    above: Option<Level<'_>>,
    level: Level<'_>,
    other: Tree,
    points: Vec<(Comparison<'_>, Tree)>,
) -> Result<Tree, AllocError>
    requires level { carries (level_view level) ≡ false }
    requires parts { BranchesFit (level_view level) (key_branches points.items) }
    requires other { Fits (tree_view other) (level_view level) }
    ensures { IfOk result (λ t. Keeps (above_view above.entry) (node (level_view level.entry)
        (tree_view other) (key_branches points.entry.items)) (tree_view t)) }
{
    let (other, made) = beside(other, point_keys(alloc, level, points))?;
    match made {
        None => {
            drop(other);
            Ok(Tree::Truth(false))
        }
        Some(made) => closed_if_reduced(alloc, above, level, other, made),
    }
}

// The node of a level of points with these parts.
fn points_node(
    alloc: Global,
    above: Option<Level<'_>>,
    level: Level<'_>,
    mut parts: VecDeque<(Step<'_, '_>, Tree)>,
) -> Result<Tree, AllocError>
    requires level { carries (level_view level) ≡ false }
    requires parts { PartsFit (level_view level) (parts_view parts.items) }
    ensures { IfOk result (λ t. Keeps (above_view above.entry) (pointed_at (level_view level.entry)
        (parts_view parts.entry.items) (other_part (parts_view parts.entry.items))) (tree_view t)) }
{
    match other_keys(&parts) {
        None => {
            let points = listed(alloc, parts)?;
            points_closed(alloc, above, level, Tree::Truth(false), points)
        }
        Some((first, row)) => {
            let points = filled(alloc, &mut parts, first, row)?;
            points_closed(alloc, above, level, take_other(parts), points)
        }
    }
}

// Whether the first part is at an interval.
fn has_interval(parts: &VecDeque<(Step<'_, '_>, Tree)>) -> bool
    ensures { result ≡ Views.has_interval (parts_view parts.now.items) }
{
    match parts.front() {
        None => false,
        Some(part) => match part.0 {
            Step::Interval(_, _) => true,
            Step::Point(_) => false,
            Step::Others(_, _) => false,
        },
    }
}

/// The node of these parts, if it is reduced below a level; else some reduced tree.
pub fn node_of(
    alloc: Global,
    above: Option<Level<'_>>,
    level: Level<'_>,
    parts: VecDeque<(Step<'_, '_>, Tree)>,
) -> Result<Tree, AllocError>
    requires level { first_level (parts_view parts.items) ≡ Some (level_view level) }
    requires parts { PartsFit (level_view level) (parts_view parts.items) }
    ensures { IfOk result (λ t. Keeps (above_view above.entry) (node_of_parts (parts_view parts.entry.items))
        (tree_view t)) }
{
    if has_interval(&parts) {
        return pieces_node(alloc, above, parts);
    }
    points_node(alloc, above, level, parts)
}
