//! The truth of a tree at a world, and how many of its paths lead to true.
ghost use Rattle.std.specs.Prelude.{◌≡◌, ◌^◌, min};
ghost use Rattle.ul_tree.specs.TreeFacts.{IsTree};
ghost use Rattle.ul_tree.specs.Values.{value_of, tree_holds};
ghost use Rattle.ul_tree.specs.Paths.{paths_of};
ghost use Rattle.ul_tree.specs.Views.{tree_view};
ghost use Rattle.ul_nodes.specs.Keys.{level_view, key_view};

use crate::Tree;
use crate::part::{Trees, branch_at, branch_count, known, level_of, rest_of};
use ul_marker::World;
use ul_nodes::level::{Key, Level};
use ul_nodes::nodes::part_at;

// The count at which paths are no longer counted.
const MOST_COUNTED: u128 = 1 << 127;

/// Whether a tree holds at a world with an extra, which may be empty. Takes no memory.
pub fn holds(root: &Tree, world: &World, extra: &str) -> bool
    requires { IsTree root.now }
    ensures { result ≡ tree_holds (tree_view root.now) world.now extra.now }
{
    let mut tree = root;
    while let Some(level) = level_of(tree) {
        tree = part_at::<Trees>(tree, level, value_at(world, extra, level));
    }
    known(tree)
}

// The value of a level at a world with an extra.
fn value_at<'a>(world: &'a World, extra: &'a str, level: Level<'_>) -> Key<'a>
    ensures { key_view result ≡ value_of world.now extra.now (level_view level.entry) }
{
    match level {
        Level::Extra => Key::Literal(extra),
        Level::Python => {
            let (major, minor, patch) = world.python;
            Key::Number((u128::from(major) << 64) + (u128::from(minor) << 32) + u128::from(patch))
        }
        Level::Text(variable) => Key::Literal(world.text(variable)),
        Level::Opaque(atom) => {
            if world.has(atom) {
                Key::Holds
            } else {
                Key::Number(0)
            }
        }
    }
}

/// How many paths of a tree lead to true; 2^127 where there are more. Takes no memory.
pub fn paths(tree: &Tree) -> u128
    requires { IsTree tree.now }
    ensures { result ≡ min (paths_of (tree_view tree.now)) (2 ^ 127) }
{
    if level_of(tree).is_none() {
        return u128::from(known(tree));
    }
    let mut count = paths(rest_of(tree));
    for index in 0..branch_count(tree) {
        count = count
            .saturating_add(paths(branch_at(tree, index).part))
            .min(MOST_COUNTED);
    }
    count
}
