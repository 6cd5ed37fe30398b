//! Trees and diagrams of texts, which the tests share.
ghost use Rattle.std.specs.Prelude.{IfOk};
ghost use Rattle.ul_tree.specs.TreeFacts.{IsTree};
ghost use Rattle.ul_interner.specs.Known.{Knows};
ghost use Rattle.ul_algebra.specs.Answers.{IsDiagram};

use std::alloc::{AllocError, Global};
use std::sync::Wait;
use std::test::Fail;
use ul_algebra::{Algebra, Diagram};
use ul_marker::Marker;
use ul_tree::{Tree, of_marker};

/// The tree of a marker's text.
pub(crate) fn tree_of(alloc: Global, text: &str) -> Result<Tree, Fail>
    ensures { IfOk result IsTree }
{
    let marker = Marker::read(alloc, text).ok().ok_or(AllocError)?;
    let tree = of_marker(alloc, &marker)?;
    Ok(tree)
}

/// The diagram of a marker's text.
pub(crate) fn diagram_of<R: Wait>(
    algebra: &mut Algebra<'_>,
    rt: &R,
    alloc: Global,
    text: &str,
) -> Result<Diagram, Fail>
    ensures knows { Knows algebra.old algebra.new }
    ensures diagram { IfOk result (λ d. IsDiagram algebra.new d) }
{
    let tree = tree_of(alloc, text)?;
    let diagram = algebra.of_tree(rt, alloc, &tree)?;
    Ok(diagram)
}
