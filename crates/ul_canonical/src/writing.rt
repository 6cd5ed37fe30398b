//! Writing the canonical texts of diagrams.
ghost use Rattle.std.specs.Prelude.{◌≡◌, ◌≢◌, ◌++◌, All, IfOk, OnOk, map, string_bytes, false, true};
ghost use Rattle.std.specs.List.{AllPass};
ghost use Rattle.ul_algebra.specs.Answers.{IsDiagram};
ghost use Rattle.ul_algebra.specs.Spelled.{tree_of};
ghost use Rattle.ul_marker_text.specs.MarkerText.{marker_text};
ghost use Rattle.ul_nodes.specs.Plain.{truth};
ghost use Rattle.ul_tree.specs.Paths.{is_printable};
ghost use Rattle.ul_tree.specs.TreeFacts.{IsTree};
ghost use Rattle.ul_tree.specs.Views.{tree_view};
ghost use Rattle.ul_canonical.specs.Answers.{Tells, printed_trees, short_text};
ghost use Rattle.ul_canonical.specs.Trees.{tree_line, trees_text};

use crate::CanonicalFault;
use crate::diagrams::are_printable;
use std::alloc::{AllocError, Global};
use ul_algebra::{Algebra, Diagram};
use ul_base::owned::made_from;
use ul_lock_write::TEXT_BYTES;
use ul_marker_text::TextFault;
use ul_tree::Tree;

// The text of a tree, whose marker is printed.
fn tree_text(alloc: Global, tree: &Tree) -> Result<String, AllocError>
    requires reduced { IsTree tree.now }
    requires not_false { tree_view tree.now ≢ truth false }
    requires printed { is_printable (tree_view tree.now) ≡ true }
    ensures { IfOk result (λ s. string_bytes s ≡ marker_text (tree_view tree.now)) }
{
    match ul_marker_text::text(alloc, tree) {
        Ok(text) => Ok(text),
        Err(fault) => match fault {
            TextFault::TooLong { paths: _ } => unreachable!(),
            TextFault::NoMemory => Err(AllocError),
        },
    }
}

// The text of a diagram's marker, which holds somewhere and is printed.
fn marker_bytes(
    alloc: Global,
    algebra: &Algebra<'_>,
    diagram: &Diagram,
) -> Result<String, AllocError>
    requires diagram { IsDiagram algebra.now diagram.now }
    requires not_false { tree_of diagram.now ≢ truth false }
    requires printed { is_printable (tree_of diagram.now) ≡ true }
    ensures { IfOk result (λ s. string_bytes s ≡ marker_text (tree_of diagram.now)) }
{
    let tree = algebra.tree(alloc, diagram)?;
    made_from(tree_text(alloc, &tree), tree)
}

// Puts the line of a diagram, whose marker is printed, behind others.
fn put_line(
    alloc: Global,
    algebra: &Algebra<'_>,
    out: &mut Vec<u8>,
    diagram: &Diagram,
) -> Result<(), AllocError>
    requires diagram { IsDiagram algebra.now diagram.now }
    requires printed { is_printable (tree_of diagram.now) ≡ true }
    ensures { OnOk result (out.new.items ≡ out.old.items ++ tree_line (tree_of diagram.now)) }
{
    if algebra.is_false(diagram) {
        out.extend_from_slice(b"never\n")?;
        return Ok(());
    }
    let text = marker_bytes(alloc, algebra, diagram)?;
    out.extend_from_slice(text.as_str().as_bytes())?;
    out.extend_from_slice(b"\n")?;
    Ok(())
}

// The lines, or that they are too long. What was written is looked at behind each line, so that no text is made that is
// longer than the limit by more than a line.
fn lines_text(
    alloc: Global,
    algebra: &Algebra<'_>,
    diagrams: &[Diagram],
) -> Result<Vec<u8>, CanonicalFault>
    requires diagrams { All (IsDiagram algebra.now) diagrams.now }
    requires printed { AllPass (λ m. is_printable (tree_of m)) diagrams.now }
    ensures { Tells (λ r. r ≡ short_text (trees_text (map tree_of diagrams.now))) result }
{
    let mut out = Vec::new(alloc);
    for diagram in diagrams {
        put_line(alloc, algebra, &mut out, diagram)?;
        if out.len() > TEXT_BYTES {
            return Err(CanonicalFault::TooLong);
        }
    }
    Ok(out)
}

/// The canonical texts of diagrams, a line for each. Whether all are printed is looked at before anything is written.
pub(crate) fn printed(
    alloc: Global,
    algebra: &Algebra<'_>,
    diagrams: &[Diagram],
) -> Result<Vec<u8>, CanonicalFault>
    requires { All (IsDiagram algebra.now) diagrams.now }
    ensures { Tells (λ r. r ≡ printed_trees (map tree_of diagrams.now)) result }
{
    if !are_printable(algebra, diagrams) {
        return Err(CanonicalFault::TooManyPaths);
    }
    lines_text(alloc, algebra, diagrams)
}
