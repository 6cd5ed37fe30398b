//! Trees made simpler where only a region counts.
ghost use Rattle.std.specs.Prelude.{◌≡◌, ◌<◌, ◌≤◌, ◌-◌, [], IfOk, All, List, ℕ, Some, option_map, true, false};
ghost use Rattle.ul_tree.specs.TreeFacts.{IsTree, AgreesWithin};
ghost use Rattle.ul_nodes.specs.Apply.{leaf_truth};
ghost use Rattle.ul_nodes.specs.Plain.{truth};
ghost use Rattle.ul_tree.specs.Views.{tree_view};
ghost use Rattle.ul_nodes.specs.Keys.{level_view, top_of, branches_of, branch_count, AreKeysOf, KeysOf};
ghost use Rattle.ul_tree.specs.Simplify.{Simplifies, Piece};
ghost use Rattle.ul_tree.specs.SimplifyViews.{HoldsParts, is_above as is_above_plain, earlier_level, parts_top, region_view, union_parts, result_trees, IsLowered, StandsFor, StandsInParts, PiecesAre, ResultFits, ResultsFit, SettlesAs};

use crate::Tree;
use crate::copy::copy;
use crate::join::{Join, joined};
use crate::part::{Trees, branch_at, branch_count, is_false, known, level_of, rest_of};
use crate::settle::settled;
use crate::tree::{DEEPEST, deeper};
use std::alloc::{AllocError, Global};
use std::cmp::Ordering;
use ul_base::owned::{beside, made_from, with_made};
use ul_nodes::level::{Key, Level};
use ul_nodes::nodes::{is_at, level_keys, part_at, rest_at};

/// A tree made simpler where only the region `within` counts, which isn't false: reduced, and with `whole`'s truth
/// wherever `within` holds. It also depends on `whole` outside of `within`; the rule determines it:
///
/// - Where `whole` is a truth value or `within` is true, the result is `whole`.
/// - Where `within`'s top level is above `whole`'s, `within` is replaced by the union of its parts.
/// - Where `whole`'s top level is above `within`'s, each part of `whole` is simplified by `within`.
/// - At one level, both are cut by the pieces of both: intervals ascending; points ascending, then the other
///   part; where an opaque comparison holds, then where it doesn't. A piece where `within` is false takes the result of
///   the nearest earlier piece where it isn't, else of the nearest later one; every other piece is simplified.
///
/// What says the same twice is then left out.
///
/// # Errors
///
/// Only for want of memory.
pub fn plain_simplify(alloc: Global, whole: &Tree, within: &Tree) -> Result<Tree, AllocError>
    requires whole_reduced { IsTree whole.now }
    requires within_reduced { IsTree within.now }
    requires not_false { tree_view within.now ≡ truth false → ⊥ }
    ensures rule { IfOk result (λ t. Simplifies (tree_view whole.now) (tree_view within.now) (tree_view t)) }
    ensures reduced { IfOk result IsTree }
    ensures agrees { IfOk result (λ t. AgreesWithin (tree_view within.now) (tree_view whole.now) (tree_view t)) }
{
    simplified(alloc, whole, within, DEEPEST)
}

// Whether a tree's top level is above another level.
fn is_above(tree: &Tree, level: Level<'_>) -> bool
    ensures { result ≡ is_above_plain (level_view level.entry) (tree_view tree.now) }
{
    match level_of(tree) {
        None => false,
        Some(own) => own.cmp(level).is_lt(),
    }
}

// The union of a tree's parts.
fn union(alloc: Global, tree: &Tree) -> Result<Tree, AllocError>
    requires { IsTree tree.now }
    ensures { IfOk result (λ t. tree_view t ≡ union_parts (tree_view tree.now)) }
{
    let count = branch_count(tree);
    if count == 0 {
        return copy(alloc, rest_of(tree));
    }
    let parts = union_of(alloc, tree, 0, count)?;
    made_from(joined(alloc, Join::Either, rest_of(tree), &parts), parts)
}

// The union of the parts of the branches from one place up to another, by halves.
fn union_of(alloc: Global, tree: &Tree, low: usize, high: usize) -> Result<Tree, AllocError>
    requires reduced { IsTree tree.now }
    requires some { low < high }
    requires within { high ≤ branch_count (branches_of (tree_view tree.now)) }
    ensures reduced { IfOk result IsTree }
    ensures truth { IfOk result (λ t. HoldsParts (branches_of (tree_view tree.now)) low (high - low) (tree_view t)) }
{
    let count = high - low;
    if count == 1 {
        return copy(alloc, branch_at(tree, low).part);
    }
    let middle = low + count / 2;
    let first = union_of(alloc, tree, low, middle)?;
    let (front, back) = beside(first, union_of(alloc, tree, middle, high))?;
    made_from(joined(alloc, Join::Either, &front, &back), (front, back))
}

// The union of the parts of a tree that is let go.
fn union_from(alloc: Global, tree: Tree) -> Result<Tree, AllocError>
    requires { IsTree tree }
    ensures { IfOk result (λ t. tree_view t ≡ union_parts (tree_view tree)) }
{
    made_from(union(alloc, &tree), tree)
}

// A region without its levels above a tree's: each is taken away by the union of its parts. None where there is
// no such level.
fn lowered(alloc: Global, region: &Tree, level: Level<'_>) -> Result<Option<Tree>, AllocError>
    requires reduced { IsTree region.now }
    requires not_false { tree_view region.now ≡ truth false → ⊥ }
    ensures { IfOk result (IsLowered level.entry region.now) }
{
    if !is_above(region, level) {
        return Ok(None);
    }
    let mut made = union(alloc, region)?;
    while is_above(&made, level) {
        made = union_from(alloc, made)?;
    }
    Ok(Some(made))
}

// The earlier of two levels, where there are.
fn earlier<'a>(one: Option<Level<'a>>, other: Option<Level<'a>>) -> Option<Level<'a>>
    ensures { option_map level_view result ≡ earlier_level one.entry other.entry }
{
    match one {
        None => other,
        Some(level) => match other {
            None => Some(level),
            Some(found) => match level.cmp(found) {
                Ordering::Less => Some(level),
                Ordering::Equal => Some(level),
                Ordering::Greater => Some(found),
            },
        },
    }
}

// The first top level of a node's parts; none where all are truths.
fn first_part_level(tree: &Tree) -> Option<Level<'_>>
    requires { IsTree tree.now }
    ensures { option_map level_view result ≡ parts_top (tree_view tree.now) }
{
    let mut first = level_of(rest_of(tree));
    for index in 0..branch_count(tree) {
        first = earlier(first, level_of(branch_at(tree, index).part));
    }
    first
}

// A region of later levels alone, for all parts of a node: without its levels above theirs, which are so taken away
// once. None where the region stands for itself.
fn lowered_for_parts(
    alloc: Global,
    whole: &Tree,
    region: &Tree,
    level: Level<'_>,
) -> Result<Option<Tree>, AllocError>
    requires whole_reduced { IsTree whole.now }
    requires top { Some (level_view level) ≡ top_of (tree_view whole.now) }
    requires region_reduced { IsTree region.now }
    requires not_false { tree_view region.now ≡ truth false → ⊥ }
    requires not_above { is_above_plain (level_view level) (tree_view region.now) ≡ false }
    ensures { IfOk result (StandsInParts level.entry whole.now region.now) }
{
    if is_at::<Trees>(region, level) {
        return Ok(None);
    }
    match first_part_level(whole) {
        None => Ok(None),
        Some(first) => lowered(alloc, region, first),
    }
}

// A tree that was made, or else the one that stands.
fn standing_region<'a>(made: &'a Option<Tree>, stands: &'a Tree) -> &'a Tree
    ensures { tree_view result.now ≡ region_view tree_view made.now (tree_view stands.now) }
{
    match made {
        Some(tree) => tree,
        None => stands,
    }
}

// A tree made simpler under a region; want of memory where a path has more levels than `room`.
#[cycle(simplify)]
fn simplified(alloc: Global, whole: &Tree, within: &Tree, room: usize) -> Result<Tree, AllocError>
    requires whole_reduced { IsTree whole.now }
    requires within_reduced { IsTree within.now }
    requires not_false { tree_view within.now ≡ truth false → ⊥ }
    ensures { IfOk result (λ t. Simplifies (tree_view whole.now) (tree_view within.now) (tree_view t)) }
{
    match level_of(whole) {
        None => copy(alloc, whole),
        Some(level) => {
            let room = deeper(room)?;
            let made = lowered(alloc, within, level)?;
            let region = standing_region(&made, within);
            made_from(simplified_at(alloc, whole, region, level, room), made)
        }
    }
}

// A node made simpler under a region without levels above the node's.
#[cycle(simplify)]
fn simplified_at<'x>(
    alloc: Global,
    whole: &'x Tree,
    region: &'x Tree,
    level: Level<'_>,
    room: usize,
) -> Result<Tree, AllocError>
    requires whole_reduced { IsTree whole.now }
    requires top { Some (level_view level) ≡ top_of (tree_view whole.now) }
    requires region_reduced { IsTree region.now }
    requires not_false { tree_view region.now ≡ truth false → ⊥ }
    requires not_above { is_above_plain (level_view level) (tree_view region.now) ≡ false }
    ensures { IfOk result (λ t. Simplifies (tree_view whole.now) (tree_view region.now) (tree_view t)) }
{
    if known(region) {
        return copy(alloc, whole);
    }
    let made = lowered_for_parts(alloc, whole, region, level)?;
    let lower = standing_region(&made, region);
    let found = pieces(alloc, whole, region, lower, level, room);
    let (results, rest) = made_from(found, made)?;
    settled(alloc, level, results, rest, rest_at::<Trees>(whole, level))
}

// The results of all pieces of a node, with that of the piece without a key; `lower` stands for the region in them.
#[cycle(simplify)]
fn pieces<'x>(
    alloc: Global,
    whole: &'x Tree,
    region: &'x Tree,
    lower: &Tree,
    level: Level<'_>,
    room: usize,
) -> Result<(Vec<(Key<'x>, Option<Tree>)>, Option<Tree>), AllocError>
    requires whole_reduced { IsTree whole.now }
    requires top { Some (level_view level) ≡ top_of (tree_view whole.now) }
    requires region_reduced { IsTree region.now }
    requires not_false { tree_view region.now ≡ truth false → ⊥ }
    requires not_true { leaf_truth (tree_view region.now) ≡ false }
    requires not_above { is_above_plain (level_view level) (tree_view region.now) ≡ false }
    requires lower { StandsFor (level_view level) (tree_view whole.now) (tree_view region.now) (tree_view lower.now) }
    ensures settled { IfOk result (λ both. SettlesAs level.entry whole.now region.now both.0.items both.1) }
    ensures kinds { IfOk result (λ both. KeysOf (level_view level.entry) both.0.items) }
    ensures results_reduced { IfOk result (λ both. ResultsFit (result_trees both.0.items) []) }
    ensures rest_reduced { IfOk result (λ both. ResultFits (option_map tree_view both.1) []) }
{
    let keys = level_keys::<Trees>(alloc, level, whole, region)?;
    let results = made_from(results(alloc, whole, lower, level, &keys, room), keys)?;
    let rest = piece(
        alloc,
        rest_at::<Trees>(whole, level),
        rest_at::<Trees>(lower, level),
        room,
    );
    beside(results, rest)
}

// The results of the pieces at keys of a level.
#[cycle(simplify)]
fn results<'x>(
    alloc: Global,
    whole: &Tree,
    region: &Tree,
    level: Level<'_>,
    keys: &[Key<'x>],
    room: usize,
) -> Result<Vec<(Key<'x>, Option<Tree>)>, AllocError>
    requires whole_reduced { IsTree whole.now }
    requires top { Some (level_view level) ≡ top_of (tree_view whole.now) }
    requires region_reduced { IsTree region.now }
    requires not_above { is_above_plain (level_view level) (tree_view region.now) ≡ false }
    requires kinds { AreKeysOf (level_view level) keys.now }
    ensures pieces { IfOk result (λ rs. PiecesAre level.entry whole.now region.now keys.now rs.items) }
    ensures kinds { IfOk result (λ rs. KeysOf (level_view level.entry) rs.items) }
{
    let mut made = Vec::new(alloc);
    for key in keys {
        let result = piece(
            alloc,
            part_at::<Trees>(whole, level, *key),
            part_at::<Trees>(region, level, *key),
            room,
        );
        made = with_made(made, beside(*key, result))?;
    }
    Ok(made)
}

// A piece made simpler; none where the region is false.
#[cycle(simplify)]
fn piece(
    alloc: Global,
    whole: &Tree,
    within: &Tree,
    room: usize,
) -> Result<Option<Tree>, AllocError>
    requires whole_reduced { IsTree whole.now }
    requires within_reduced { IsTree within.now }
    ensures { IfOk result (λ o. Piece (tree_view whole.now) (tree_view within.now) (option_map tree_view o)) }
{
    if is_false(within) {
        return Ok(None);
    }
    let tree = simplified(alloc, whole, within, room)?;
    Ok(Some(tree))
}
