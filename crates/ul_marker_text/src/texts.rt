//! The text of a tree, both ways.
ghost use Rattle.std.specs.Prelude.{◌≡◌, ◌≢◌, ◌≤◌, ◌<◌, ◌&&◌, ℕ, List, [], IfOk, IfErr, Err, Some, true, false, length, not, string_bytes, option_map};
ghost use Rattle.std.specs.Str.{bytes_eq};
ghost use Rattle.ul_marker.specs.Reading.{printed_marker_of};
ghost use Rattle.ul_marker.specs.Views.{marker_view};
ghost use Rattle.ul_marker.specs.declared.fault.MarkerFault.TheVariants.{NoReading};
ghost use Rattle.ul_tree.specs.FirstParts.{is_false as is_false_plain};
ghost use Rattle.ul_tree.specs.Paths.{is_printable as is_printable_plain};
ghost use Rattle.ul_nodes.specs.Plain.{Plain, truth};
ghost use Rattle.ul_nodes.specs.Reduced.{IsReduced};
ghost use Rattle.ul_tree.specs.TreeFacts.{IsTree};
ghost use Rattle.ul_tree.specs.Views.{tree_view};
ghost use Rattle.ul_marker_text.specs.Faults.{IsTextFault};
ghost use Rattle.ul_marker_text.specs.IfRead as if_read;
ghost use Rattle.ul_marker_text.specs.MarkerOfText as spec;
ghost use Rattle.ul_marker_text.specs.MarkerOfText.{is_readable, marker_of_text};
ghost use Rattle.ul_marker_text.specs.MarkerText.{marker_text};
ghost use Rattle.ul_marker_text.specs.Nodes.{Keeps};
ghost use Rattle.ul_marker_text.specs.StepViews.{paths_view, rows_tree, rows_steps};
ghost use Rattle.ul_marker_text.specs.TextFacts.{AreWithin, IsFound, IsNodeText};

use crate::TextFault;
use crate::building::build;
use crate::printing::print;
use crate::rows::rows;
use crate::steps::{Step, steps};
use std::alloc::{AllocError, Global};
use ul_base::owned::refused;
use ul_marker::printed::Comparison;
use ul_marker::{Marker, MarkerFault};
use ul_tree::part::{asks_extra, is_false, known, truth_value};
use ul_tree::{MOST_LEVELS, Tree, is_printable, paths};

// The text of a tree, however long.
fn whole_text(alloc: Global, tree: &Tree) -> Result<String, AllocError>
    requires { IsTree tree.now }
    ensures { IfOk result (λ s. string_bytes s ≡ marker_text (tree_view tree.now)) }
{
    if known(tree) {
        return String::from_str(alloc, "*");
    }
    let mut out = String::new(alloc);
    print(alloc, &mut out, "", tree)?;
    Ok(out)
}

/// The text of a tree: `*` where it is true everywhere, else its paths to true, joined by ` or `, each the
/// comparisons on it, joined by ` and `. The tree isn't false everywhere.
///
/// # Errors
///
/// `TooLong` exactly where more than 4,096 paths lead to true, or one has more than 512 nodes: no memory is taken before
/// that is known.
pub fn text(alloc: Global, tree: &Tree) -> Result<String, TextFault>
    requires reduced { IsReduced (tree_view tree.now) }
    requires not_false { tree_view tree.now ≢ truth false }
    ensures text { IfOk result (λ s. string_bytes s ≡ marker_text (tree_view tree.now)) }
    ensures fits { IfOk result (λ s. is_printable_plain (tree_view tree.now) ≡ true) }
    ensures refused { IfErr result (λ e. IsTextFault (tree_view tree.now) e) }
{
    if !is_printable(tree) {
        return Err(TextFault::TooLong { paths: paths(tree) });
    }
    let text = whole_text(alloc, tree)?;
    Ok(text)
}

// A path, if it hasn't too many steps.
fn path_if_short<'r, 'm>(path: Vec<Step<'r, 'm>>) -> Result<Vec<Step<'r, 'm>>, MarkerFault>
    ensures short { IfOk result (λ short. (short ≡ path.entry) × (length short.items ≤ 512)) }
    ensures long { IfErr result (λ fault. (fault ≡ NoReading) × (512 < length path.entry.items)) }
{
    if path.len() > MOST_LEVELS {
        return Err(MarkerFault::NoReading);
    }
    Ok(path)
}

// The steps of paths, if none has too many.
fn paths_of_rows<'r, 'm>(
    alloc: Global,
    rows: &'r [Vec<Comparison<'m>>],
) -> Result<Vec<Vec<Step<'r, 'm>>>, MarkerFault>
    ensures paths { IfOk result (λ v. paths_view v.items ≡ rows_steps rows.now) }
    ensures within { IfOk result (λ v. AreWithin 512 (paths_view v.items)) }
    ensures refused { result ≡ Err NoReading → AreWithin 512 (rows_steps rows.now) → ⊥ }
{
    let mut found = Vec::new(alloc);
    for row in rows {
        let path = steps(alloc, row)?;
        let short = match path_if_short(path) {
            Ok(short) => short,
            Err(fault) => return Err(fault),
        };
        found.push(short)?;
    }
    Ok(found)
}

// The tree of rows of comparisons, if it is reduced, else some reduced tree; refused where a row has too many steps.
fn tree_of_rows(alloc: Global, rows: &[Vec<Comparison<'_>>]) -> Result<Tree, MarkerFault>
    ensures tree { IfOk result (λ t. Keeps [] (rows_tree rows.now) (tree_view t)) }
    ensures within { IfOk result (λ t. AreWithin 512 (rows_steps rows.now)) }
    ensures refused { result ≡ Err NoReading → AreWithin 512 (rows_steps rows.now) → ⊥ }
{
    let paths = match paths_of_rows(alloc, rows) {
        Ok(paths) => paths,
        Err(fault) => return Err(fault),
    };
    let tree = build(alloc, &paths, 0, None, MOST_LEVELS)?;
    Ok(tree)
}

// The tree of a marker's paths: where a tree's text spells the marker, that tree.
fn tree_of_marker(alloc: Global, marker: &Marker) -> Result<Tree, MarkerFault>
    ensures reduced { IfOk result IsTree }
    ensures tree { IfOk result (λ r. (text : List ℕ) (t : Plain) → IsNodeText text t
        → printed_marker_of text ≡ Some (marker_view marker.now) → IsFound (tree_view r) t) }
    ensures refused { result ≡ Err NoReading → (text : List ℕ) (t : Plain) → IsNodeText text t
        → printed_marker_of text ≡ Some (marker_view marker.now) → is_readable t ≡ true → ⊥ }
{
    let rows = match rows(alloc, marker) {
        Ok(rows) => rows,
        Err(fault) => return Err(fault),
    };
    tree_of_rows(alloc, &rows)
}

// A tree that has this text, if it is one of a tree that may be read.
fn regrouped(alloc: Global, text: &str) -> Result<Tree, MarkerFault>
    ensures reduced { IfOk result IsTree }
    ensures tree { IfOk result (λ r. (t : Plain) → IsNodeText text.now t → IsFound (tree_view r) t) }
    ensures refused { result ≡ Err NoReading → (t : Plain) → IsNodeText text.now t → is_readable t ≡ true → ⊥ }
{
    match Marker::read_printed(alloc, text) {
        Ok(marker) => {
            let tree = tree_of_marker(alloc, &marker);
            drop(marker);
            tree
        }
        Err(fault) => Err(fault),
    }
}

// Whether a tree has this text; one that is false everywhere has none.
fn has_text(alloc: Global, tree: &Tree, text: &str) -> Result<bool, AllocError>
    requires { IsTree tree.now }
    ensures { IfOk result (λ b. b ≡ not (is_false_plain (tree_view tree.now))
        && bytes_eq (marker_text (tree_view tree.now)) text.now) }
{
    if is_false(tree) {
        return Ok(false);
    }
    let again = whole_text(alloc, tree)?;
    Ok(again.as_str() == text)
}

// A tree, if it was told to have the text that is read.
fn tree_if_spelled(tree: Tree, told: Result<bool, AllocError>) -> Result<Tree, MarkerFault>
    ensures { result ≡ if_read.tree_if_spelled tree told }
{
    match told {
        Ok(true) => Ok(tree),
        Ok(false) => {
            drop(tree);
            Err(MarkerFault::NoReading)
        }
        Err(_) => {
            drop(tree);
            Err(MarkerFault::NoMemory)
        }
    }
}

/// The tree whose text this is.
///
/// # Errors
///
/// `NoReading` exactly where it is the text of no tree that has at most 512 nodes on each path. There is no limit of
/// paths.
pub fn read(alloc: Global, text: &str) -> Result<Tree, MarkerFault>
    ensures reduced { IfOk result (λ t. IsReduced (tree_view t)) }
    ensures not_false { IfOk result (λ t. tree_view t ≢ truth false) }
    ensures text { IfOk result (λ t. marker_text (tree_view t) ≡ text.now) }
    ensures readable { IfOk result (λ t. is_readable (tree_view t) ≡ true) }
    ensures refused { result ≡ Err NoReading → (t : Plain) → IsReduced t → t ≢ truth false
        → is_readable t ≡ true → marker_text t ≡ text.now → ⊥ }
{
    if text == "*" {
        return Ok(Tree::Truth(true));
    }
    let tree = match regrouped(alloc, text) {
        Ok(tree) => tree,
        Err(fault) => return Err(fault),
    };
    let told = has_text(alloc, &tree, text);
    tree_if_spelled(tree, told)
}

// Whether a tree is neither true nor false everywhere, and asks for no extra.
fn is_region(tree: &Tree) -> bool
    ensures { result ≡ spec.is_region (tree_view tree.now) }
{
    truth_value(tree).is_none() && !asks_extra(tree)
}

// The tree that was read, if it is a region.
fn region_if_read(read: Result<Tree, MarkerFault>) -> Result<Option<Tree>, AllocError>
    ensures { result ≡ if_read.region_if_read read }
{
    match read {
        Ok(tree) => {
            if is_region(&tree) {
                return Ok(Some(tree));
            }
            Ok(refused(tree))
        }
        Err(MarkerFault::NoReading) => Ok(None),
        Err(MarkerFault::NoMemory) => Err(AllocError),
    }
}

/// The tree whose text this is, where it is neither true nor false everywhere, asks for no extra, and has at most 512
/// nodes on each path: that of a marker or of a fork in a lock. The text may be any bytes.
///
/// # Errors
///
/// Only for want of memory.
pub fn read_marker(alloc: Global, bytes: &[u8]) -> Result<Option<Tree>, AllocError>
    ensures { IfOk result (λ t. option_map tree_view t ≡ marker_of_text bytes.now) }
{
    let Ok(text) = str::from_utf8(bytes) else {
        return Ok(None);
    };
    region_if_read(read(alloc, text))
}
