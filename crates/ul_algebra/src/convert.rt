//! Diagrams of trees, and trees of diagrams.
ghost use Rattle.std.specs.Prelude.{◌≡◌, IfOk, Some};
ghost use Rattle.ul_interner.specs.Known.{Known, Knows};
ghost use Rattle.ul_nodes.specs.Reduced.{IsReduced};
ghost use Rattle.ul_tree.specs.Views.{tree_view};
ghost use Rattle.ul_nodes.specs.Keys.{level_view, top_of, branches_of, KeysOf};
ghost use Rattle.ul_tree.specs.Joins.{trees_made};
ghost use Rattle.ul_algebra.specs.Made.{diagrams_made, PartsKnown};
ghost use Rattle.ul_algebra.specs.Spelled.{tree_of};
ghost use Rattle.ul_algebra.specs.Answers.{IsDiagram};

use crate::algebra::Algebra;
use crate::depth::DEEPEST;
use crate::join::closed;
use crate::{Diagram, nodes};
use std::alloc::{AllocError, Global};
use std::sync::Wait;
use ul_base::owned::{beside, made_from, with_made};
use ul_nodes::level::{Key, Level};
use ul_tree::join::closed as closed_tree;
use ul_tree::{Tree, deeper, part};

impl<'a> Algebra<'a> {
    /// The diagram of a tree.
    ///
    /// # Errors
    ///
    /// Only for want of memory.
    pub fn of_tree<R: Wait>(
        &mut self,
        rt: &R,
        alloc: Global,
        tree: &Tree,
    ) -> Result<Diagram, AllocError>
        requires { IsReduced (tree_view tree.now) }
        ensures knows { Knows self.old self.new }
        ensures diagram { IfOk result (IsDiagram self.new) }
        ensures tree { IfOk result (λ d. tree_of d ≡ tree_view tree.now) }
    {
        diagram_of(self, rt, alloc, tree, DEEPEST)
    }

    /// The tree that a diagram stands for.
    ///
    /// # Errors
    ///
    /// Only for want of memory.
    pub fn tree(&self, alloc: Global, diagram: &Diagram) -> Result<Tree, AllocError>
        requires { IsDiagram self.now diagram.now }
        ensures { IfOk result (λ t. tree_view t ≡ tree_of diagram.now) }
    {
        spelled_tree(alloc, diagram, DEEPEST)
    }
}

// The diagram of a tree, part by part; want of memory where a path has more levels than `room`.
#[cycle(diagram_of)]
fn diagram_of<R: Wait>(
    algebra: &mut Algebra<'_>,
    rt: &R,
    alloc: Global,
    tree: &Tree,
    room: usize,
) -> Result<Diagram, AllocError>
    requires { IsReduced (tree_view tree.now) }
    ensures knows { Knows algebra.old algebra.new }
    ensures tree { IfOk result (λ d. tree_of d ≡ tree_view tree.now) }
    ensures known { IfOk result (Known algebra.new) }
{
    match part::level_of(tree) {
        None => algebra.truth(rt, alloc, part::known(tree)),
        Some(level) => {
            let room = deeper(room)?;
            let made = diagrams_in(algebra, rt, alloc, tree, level, room)?;
            let rest = diagram_of(algebra, rt, alloc, part::rest_of(tree), room);
            let (branches, other) = beside(made, rest)?;
            made_from(closed(algebra, rt, alloc, level, &other, branches), other)
        }
    }
}

// The diagrams of a tree's branches.
#[cycle(diagram_of)]
fn diagrams_in<'x, R: Wait>(
    algebra: &mut Algebra<'_>,
    rt: &R,
    alloc: Global,
    tree: &'x Tree,
    level: Level<'_>,
    room: usize,
) -> Result<Vec<(Key<'x>, Diagram)>, AllocError>
    requires reduced { IsReduced (tree_view tree.now) }
    requires top { Some (level_view level) ≡ top_of (tree_view tree.now) }
    ensures knows { Knows algebra.old algebra.new }
    ensures made { IfOk result (λ bs. diagrams_made bs.items ≡ branches_of (tree_view tree.now)) }
    ensures kinds { IfOk result (λ bs. KeysOf (level_view level.entry) bs.items) }
    ensures parts { IfOk result (λ bs. PartsKnown algebra.new bs.items) }
{
    let mut made: Vec<(Key<'x>, Diagram)> = Vec::new(alloc);
    for index in 0..part::branch_count(tree) {
        let branch = part::branch_at(tree, index);
        let next = diagram_of(algebra, rt, alloc, branch.part, room);
        made = with_made(made, beside(branch.key, next))?;
    }
    Ok(made)
}

// The tree of a diagram, part by part; want of memory where a path has more levels than `room`.
#[cycle(spelled_tree)]
fn spelled_tree(alloc: Global, diagram: &Diagram, room: usize) -> Result<Tree, AllocError>
    requires { IsReduced (tree_of diagram.now) }
    ensures { IfOk result (λ t. tree_view t ≡ tree_of diagram.now) }
{
    match nodes::level_of(diagram) {
        None => Ok(Tree::Truth(nodes::known(diagram))),
        Some(level) => {
            let room = deeper(room)?;
            let made = trees_in(alloc, diagram, level, room)?;
            let rest = spelled_tree(alloc, nodes::rest_of(diagram), room);
            let (branches, other) = beside(made, rest)?;
            closed_tree(alloc, level, other, branches)
        }
    }
}

// The trees of a diagram's branches.
#[cycle(spelled_tree)]
fn trees_in<'x>(
    alloc: Global,
    diagram: &'x Diagram,
    level: Level<'_>,
    room: usize,
) -> Result<Vec<(Key<'x>, Tree)>, AllocError>
    requires reduced { IsReduced (tree_of diagram.now) }
    requires top { Some (level_view level) ≡ top_of (tree_of diagram.now) }
    ensures made { IfOk result (λ bs. trees_made bs.items ≡ branches_of (tree_of diagram.now)) }
    ensures kinds { IfOk result (λ bs. KeysOf (level_view level.entry) bs.items) }
{
    let mut made: Vec<(Key<'x>, Tree)> = Vec::new(alloc);
    for index in 0..nodes::branch_count(diagram) {
        let branch = nodes::branch_at(diagram, index);
        let next = spelled_tree(alloc, branch.part, room);
        made = with_made(made, beside(branch.key, next))?;
    }
    Ok(made)
}
