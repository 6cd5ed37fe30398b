//! A level put together from the results of its pieces.
ghost use Rattle.std.specs.Prelude.{◌≡◌, IfOk, All, [], option_map};
ghost use Rattle.ul_tree.specs.TreeFacts.{IsTree};
ghost use Rattle.ul_tree.specs.Views.{tree_view};
ghost use Rattle.ul_nodes.specs.Reduced.{IsReduced};
ghost use Rattle.ul_nodes.specs.Keys.{level_view, KeysOf};
ghost use Rattle.ul_nodes.specs.Rows.{own_or, KeepsLevel};
ghost use Rattle.ul_tree.specs.SimplifyViews.{ResultFits, ResultsFit, result_trees, part_trees, left_out, kept_trees, kept_rest, reduced_tree, settled_tree};

use crate::Tree;
use crate::copy::copy;
use crate::join::closed;
use crate::part::Trees;
use std::alloc::{AllocError, Global};
use ul_base::owned::{beside, made_from, with_made};
use ul_nodes::branches::reduced_branches;
use ul_nodes::level::{Key, Level};
use ul_nodes::results::{earliest, last_part, latest};

// A piece's own result, or a copy of another tree where it has none.
fn kept_or_copied(alloc: Global, own: Option<Tree>, otherwise: &Tree) -> Result<Tree, AllocError>
    ensures { IfOk result (λ t. tree_view t ≡ own_or (option_map tree_view own) (tree_view otherwise.now)) }
{
    match own {
        Some(tree) => Ok(tree),
        None => copy(alloc, otherwise),
    }
}

// Whether a piece is left out at once: it has no result, and where branches are carried the part before it stands.
fn is_left_out(carried: bool, own: &Option<Tree>) -> bool
    ensures { result ≡ left_out carried (option_map tree_view own.now) }
{
    match own {
        Some(_) => false,
        None => carried,
    }
}

// The parts of keys: each piece's own result, or a copy of the part before it, `first` before all. What is left out
// at once isn't copied.
fn kept_parts<'a>(
    alloc: Global,
    carried: bool,
    results: Vec<(Key<'a>, Option<Tree>)>,
    first: &Tree,
) -> Result<Vec<(Key<'a>, Tree)>, AllocError>
    ensures parts { IfOk result (λ ps. part_trees ps.items ≡ kept_trees carried results.entry.items first.now) }
    ensures kinds { IfOk result (λ ps. KeepsLevel results.entry.items ps.items) }
{
    let mut parts: Vec<(Key<'a>, Tree)> = Vec::new(alloc);
    for (key, own) in results {
        if is_left_out(carried, &own) {
            drop(own);
            continue;
        }
        let part = kept_or_copied(alloc, own, last_part(&parts, first));
        parts = with_made(parts, beside(key, part))?;
    }
    Ok(parts)
}

// The part of the piece without a key, and the parts of keys.
fn kept_level<'a>(
    alloc: Global,
    carried: bool,
    results: Vec<(Key<'a>, Option<Tree>)>,
    rest: Option<Tree>,
    first: &Tree,
) -> Result<(Tree, Vec<(Key<'a>, Tree)>), AllocError>
    ensures other { IfOk result (λ kept. tree_view kept.0 ≡ kept_rest carried results.entry.items rest first.now) }
    ensures parts { IfOk result (λ kept. part_trees kept.1.items ≡ kept_trees carried results.entry.items first.now) }
    ensures kinds { IfOk result (λ kept. KeepsLevel results.entry.items kept.1.items) }
{
    let other = kept_or_copied(alloc, rest, latest(carried, &results, first))?;
    beside(other, kept_parts(alloc, carried, results, first))
}

// A level of these parts, in which nothing says the same twice.
fn closed_parts(
    alloc: Global,
    level: Level<'_>,
    other: Tree,
    parts: Vec<(Key<'_>, Tree)>,
) -> Result<Tree, AllocError>
    requires kinds { KeysOf (level_view level) parts.items }
    requires parts_reduced { All (λ p. IsTree p.1) parts.items }
    requires other_reduced { IsTree other }
    requires reduced { IsReduced (reduced_tree level parts.items other) }
    ensures { IfOk result (λ t. tree_view t ≡ reduced_tree level.entry parts.entry.items other) }
{
    let made = reduced_branches(&Trees, alloc, parts, &other, level.is_carried());
    let (other, made) = beside(other, made)?;
    closed(alloc, level, other, made)
}

/// A level put together from the results of its pieces: a piece without one takes that of the nearest earlier
/// piece with one, else of the nearest later, else `otherwise`.
pub fn settled(
    alloc: Global,
    level: Level<'_>,
    results: Vec<(Key<'_>, Option<Tree>)>,
    rest: Option<Tree>,
    otherwise: &Tree,
) -> Result<Tree, AllocError>
    requires kinds { KeysOf (level_view level) results.items }
    requires results_reduced { ResultsFit (result_trees results.items) [] }
    requires rest_reduced { ResultFits (option_map tree_view rest) [] }
    requires otherwise_reduced { IsTree otherwise.now }
    requires reduced { IsReduced (settled_tree level results.items rest otherwise.now) }
    ensures { IfOk result (λ t. tree_view t ≡ settled_tree level.entry results.entry.items rest otherwise.now) }
{
    let carried = level.is_carried();
    let first = copy(alloc, earliest(carried, &results, &rest, otherwise))?;
    let kept = kept_level(alloc, carried, results, rest, &first);
    let (other, parts) = made_from(kept, first)?;
    closed_parts(alloc, level, other, parts)
}
