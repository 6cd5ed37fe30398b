//! Trees and worlds of texts, which the tests share. A text that isn't read is answered as want of memory.
ghost use Rattle.std.specs.Prelude.{IfOk};
ghost use Rattle.ul_tree.specs.TreeFacts.{IsTree};

use std::alloc::{AllocError, Global};
use tests_rows::put;
use ul_marker::{Atom, Marker, World};
use ul_tree::{Tree, of_marker, plain_not};

fn marker_tree(alloc: Global, text: &str) -> Result<Tree, AllocError>
    ensures { IfOk result IsTree }
{
    match Marker::read_printed(alloc, text) {
        Ok(marker) => {
            let tree = of_marker(alloc, &marker);
            drop(marker);
            tree
        }
        Err(_) => Err(AllocError),
    }
}

fn negated_tree(alloc: Global, text: &str) -> Result<Tree, AllocError>
    ensures { IfOk result IsTree }
{
    match marker_tree(alloc, text) {
        Ok(tree) => {
            let negated = plain_not(alloc, &tree);
            drop(tree);
            negated
        }
        Err(fault) => Err(fault),
    }
}

/// The tree of a marker's text, or of the negation of one after `not_of`.
pub(crate) fn tree_of(alloc: Global, text: &str) -> Result<Tree, AllocError>
    ensures { IfOk result IsTree }
{
    match text.strip_prefix("not_of ") {
        Some(text) => negated_tree(alloc, text),
        None => marker_tree(alloc, text),
    }
}

/// How many trees a tree and that of a text are: `one` or `two`.
pub(crate) fn tree_count(alloc: Global, tree: &Tree, text: &str) -> &'static str
    requires { IsTree tree.now }
{
    match tree_of(alloc, text) {
        Ok(other) => {
            let is_same = tree.same(&other);
            drop(other);
            if is_same { "one" } else { "two" }
        }
        Err(_) => "none",
    }
}

fn push_text(alloc: Global, texts: &mut Vec<String>, text: &str) {
    let mut owned = String::new(alloc);
    put(&mut owned, text);
    let _ = texts.push(owned);
}

/// The world of an interpreter, of a system and a platform, whose six other texts are empty, and of the comparisons
/// that hold.
pub(crate) fn world_of(
    alloc: Global,
    python: (u32, u32, u32),
    system: &str,
    platform: &str,
    truths: Vec<Atom>,
) -> Option<World> {
    let mut texts = Vec::new(alloc);
    push_text(alloc, &mut texts, system);
    push_text(alloc, &mut texts, platform);
    for _ in 0..6 {
        push_text(alloc, &mut texts, "");
    }
    World::of(python, texts, truths)
}
