//! Trees of many comparisons, wide and deep.
ghost use Rattle.ul_comparison.specs.Formulas.{IsFormula};
ghost use Rattle.ul_marker.specs.Views.{marker_view};
ghost use Rattle.ul_tree.specs.TreeFacts.{IsTree};

use std::alloc::Global;
use tests_rows::{cells, letter, put, put_number};
use ul_marker::Marker;
use ul_tree::part::{asks_extra, is_false};
use ul_tree::{
    DEEPEST, Tree, holds, of_marker, paths, plain_and, plain_not, plain_simplify, sample,
};

const VARIABLES: &str = "os_name sys_platform platform_machine platform_python_implementation \
    platform_release platform_system platform_version implementation_name";

// So many opaque comparisons, joined by `or`: as many levels.
fn opaque(alloc: Global, count: usize) -> String {
    let mut text = String::new(alloc);
    put(&mut text, "'0' in os_name");
    for i in 1..count {
        put(&mut text, " or '");
        put_number(&mut text, i as u64);
        put(&mut text, "' in os_name");
    }
    text
}

// Puts 60 points of a text variable, with `or` before each.
fn put_points(text: &mut String, variable: &str) {
    for i in 0..60 {
        put(text, " or ");
        put(text, variable);
        put(text, " == 'p");
        put_number(text, i);
        put(text, "'");
    }
}

// 60 points of each text variable, joined by `or`.
fn points(alloc: Global) -> String {
    let mut text = String::new(alloc);
    put(&mut text, "os_name == 'none'");
    for variable in VARIABLES.split(' ') {
        put_points(&mut text, variable);
    }
    text
}

// A text of many comparisons, by the letter of its name: the deepest has as many levels as a tree may have, the further
// one more, and the hostile one so many that the stack would end. Each other text is one of two comparisons.
fn text_of(alloc: Global, name: &str) -> String {
    match letter(name) {
        b'm' => opaque(alloc, 500),
        b'p' => points(alloc),
        b'd' => opaque(alloc, DEEPEST),
        b'f' => opaque(alloc, DEEPEST + 1),
        b'h' => opaque(alloc, 100_000),
        _ => {
            let mut text = String::new(alloc);
            put(&mut text, name);
            text
        }
    }
}

// How many paths to true the tree of a text has, and its negation; `none` where there is no tree for want of memory.
const SIZES: &str = "2 1 os_name == 'nt' or sys_platform == 'linux'|\
    500 1 many|\
    481 1 points|\
    2048 1 deepest|\
    none 0 further|\
    none 0 hostile";

// Whether a tree has so many paths to true.
fn has_paths(tree: &Tree, count: &str) -> bool
    requires { IsTree tree.now }
{
    count.parse::<u128>().unwrap_or(u128::MAX) == paths(tree)
}

fn comes_back(alloc: Global, tree: &Tree, other: &Tree) -> bool
    requires tree_reduced { IsTree tree.now }
    requires other_reduced { IsTree other.now }
{
    match plain_not(alloc, other) {
        Ok(back) => {
            let is_same = back.same(tree);
            drop(back);
            is_same
        }
        Err(_) => false,
    }
}

fn is_excluded(alloc: Global, tree: &Tree, other: &Tree) -> bool
    requires tree_reduced { IsTree tree.now }
    requires other_reduced { IsTree other.now }
{
    match plain_and(alloc, tree, other) {
        Ok(both) => {
            let is_excluded = is_false(&both) && paths(&both) == 0;
            drop(both);
            is_excluded
        }
        Err(_) => false,
    }
}

// Whether a tree's negation has so many paths to true, the tree is the negation of that, and they are false together.
fn is_negated(alloc: Global, tree: &Tree, count: &str) -> bool
    requires { IsTree tree.now }
{
    match plain_not(alloc, tree) {
        Ok(other) => {
            let is_negated = has_paths(&other, count)
                && comes_back(alloc, tree, &other)
                && is_excluded(alloc, tree, &other);
            drop(other);
            is_negated
        }
        Err(_) => false,
    }
}

// Whether a tree is true under itself.
fn is_simple(alloc: Global, tree: &Tree) -> bool
    requires { IsTree tree.now }
{
    if is_false(tree) {
        return false;
    }
    match plain_simplify(alloc, tree, tree) {
        Ok(everywhere) => {
            let is_simple = paths(&everywhere) == 1;
            drop(everywhere);
            is_simple
        }
        Err(_) => false,
    }
}

// Whether a tree holds at its sample.
fn has_sample(alloc: Global, tree: &Tree) -> bool
    requires { IsTree tree.now }
{
    if is_false(tree) || asks_extra(tree) {
        return false;
    }
    match sample(alloc, tree) {
        Ok(world) => {
            let holds = holds(tree, &world, "");
            drop(world);
            holds
        }
        Err(_) => false,
    }
}

fn is_copied(alloc: Global, tree: &Tree) -> bool
    requires { IsTree tree.now }
{
    match tree.copy(alloc) {
        Ok(copy) => {
            let is_same = copy.same(tree);
            drop(copy);
            is_same
        }
        Err(_) => false,
    }
}

// Whether a tree is negated, copied, compared, made simpler, and has a sample.
fn is_handled(alloc: Global, tree: &Tree, other_count: &str) -> bool
    requires { IsTree tree.now }
{
    is_negated(alloc, tree, other_count)
        && is_copied(alloc, tree)
        && is_simple(alloc, tree)
        && has_sample(alloc, tree)
}

fn is_told(alloc: Global, marker: &Marker, count: &str, other_count: &str) -> bool
    requires { IsFormula (marker_view marker.now) }
{
    match of_marker(alloc, marker) {
        Ok(tree) => {
            let is_told = has_paths(&tree, count) && is_handled(alloc, &tree, other_count);
            drop(tree);
            is_told
        }
        Err(_) => count == "none",
    }
}

fn is_read(alloc: Global, text: &str, count: &str, other_count: &str) -> bool {
    match Marker::read(alloc, text) {
        Ok(marker) => {
            let is_told = is_told(alloc, &marker, count, other_count);
            drop(marker);
            is_told
        }
        Err(_) => false,
    }
}

fn is_row(alloc: Global, line: &str) -> bool {
    let (count, rest) = cells(line, ' ');
    let (other_count, text) = cells(rest, ' ');
    is_read(alloc, text_of(alloc, text).as_str(), count, other_count)
}

#[test]
fn trees_are_wide_and_deep(rt: HostRuntime) {
    for line in SIZES.split('|') {
        assert!(rt; is_row(rt.alloc(), line), "{line}");
    }
}
