//! The tree of paths, level by level: paths with one step lead to one part.
ghost use Rattle.std.specs.Prelude.{◌≡◌, ◌≤◌, ◌+◌, IfOk, length};
ghost use Rattle.ul_tree.specs.Fans.{parts_of, tree_of};
ghost use Rattle.ul_nodes.specs.Keys.{level_view};
ghost use Rattle.ul_tree.specs.Views.{tree_view};
ghost use Rattle.ul_marker_text.specs.Nodes.{front_count, parts_view, starts, KeepFirst, KeepParts, Keeps};
ghost use Rattle.ul_marker_text.specs.StepViews.{above_view, fan_from, path_from, paths_from, paths_view, step_view};
ghost use Rattle.ul_marker_text.specs.TextFacts.{AreWithin};

use crate::nodes::node_of;
use crate::steps::{Step, same_step, step_level};
use std::alloc::{AllocError, Global};
use std::collections::VecDeque;
use ul_nodes::level::Level;
use ul_tree::Tree;

// Whether a path has a step at a place.
fn starts_with(path: &Vec<Step<'_, '_>>, place: usize, step: &Step<'_, '_>) -> bool
    ensures { result ≡ starts (step_view step.now) (path_from place path.now) }
{
    if path.len() <= place {
        return false;
    }
    same_step(step, &path[place])
}

// How many paths in front have a step at a place.
fn group_len(paths: &[Vec<Step<'_, '_>>], place: usize, step: &Step<'_, '_>) -> usize
    ensures count { result ≡ front_count (step_view step.now) (paths_from place paths.now) }
    ensures within { result ≤ length paths.now }
{
    for index in 0..paths.len() {
        if !starts_with(&paths[index], place, step) {
            return index;
        }
    }
    paths.len()
}

// The parts of a node, by the steps of its paths at a place.
#[cycle(build)]
fn parts<'r, 'm>(
    alloc: Global,
    paths: &[Vec<Step<'r, 'm>>],
    place: usize,
    level: Level<'m>,
    room: usize,
) -> Result<VecDeque<(Step<'r, 'm>, Tree)>, AllocError>
    requires { AreWithin (place + 1 + room) (paths_view paths.now) }
    ensures { IfOk result (λ q. KeepParts (level_view level.entry) (parts_of (fan_from place paths.now))
        (parts_view q.items)) }
{
    let mut made = VecDeque::new(alloc);
    let mut from = 0;
    while from < paths.len() {
        let path = &paths[from];
        if path.len() <= place {
            return Ok(made);
        }
        let step = path[place];
        let count = group_len(&paths[from..], place, &step);
        let end = from + count;
        let tree = build(alloc, &paths[from..end], place + 1, Some(level), room)?;
        made.push_back((step, tree))?;
        from = end;
    }
    Ok(made)
}

/// The tree of paths from one of their steps on, if it is reduced below a level; else some reduced tree. No path has
/// more than `room` steps from there on.
#[cycle(build)]
pub fn build<'m>(
    alloc: Global,
    paths: &[Vec<Step<'_, 'm>>],
    place: usize,
    above: Option<Level<'m>>,
    room: usize,
) -> Result<Tree, AllocError>
    requires { AreWithin (place + room) (paths_view paths.now) }
    ensures { IfOk result (λ t. Keeps (above_view above.entry) (tree_of (fan_from place paths.now)) (tree_view t)) }
{
    let [first, ..] = paths else {
        return Ok(Tree::Truth(false));
    };
    if first.len() <= place {
        return Ok(Tree::Truth(true));
    }
    let step = first[place];
    let level = step_level(&step);
    let parts = parts(alloc, paths, place, level, room - 1)?;
    node_of(alloc, above, level, parts)
}
