//! The diagrams of markers, and whether each is printed.
ghost use Rattle.std.specs.Prelude.{◌≡◌, All, IfOk, map};
ghost use Rattle.std.specs.List.{list_all};
ghost use Rattle.ul_algebra.specs.Answers.{IsDiagram};
ghost use Rattle.ul_algebra.specs.Spelled.{tree_of};
ghost use Rattle.ul_interner.specs.Known.{Knows};
ghost use Rattle.ul_marker.specs.Views.{marker_view};
ghost use Rattle.ul_tree.specs.Paths.{is_printable};
ghost use Rattle.ul_canonical.specs.Diagrams.{AreDiagramsOf};
ghost use Rattle.ul_canonical.specs.Lines.{ArePlain};

use std::alloc::{AllocError, Global};
use std::sync::Wait;
use ul_algebra::{Algebra, Diagram};
use ul_marker::Marker;
use ul_region::diagram_of;

/// The diagrams of markers. Equal truths share one, so a file that says one thing often takes the room of one.
///
/// # Errors
///
/// Only for want of memory.
pub(crate) fn diagrams_of<R: Wait>(
    rt: &R,
    alloc: Global,
    algebra: &mut Algebra<'_>,
    markers: &[Marker],
) -> Result<Vec<Diagram>, AllocError>
    requires { ArePlain (map marker_view markers.now) }
    ensures knows { Knows algebra.old algebra.new }
    ensures diagrams { IfOk result (λ v. AreDiagramsOf algebra.new (map marker_view markers.now) v.items) }
{
    let mut diagrams = Vec::new(alloc);
    for marker in markers {
        let diagram = diagram_of(rt, alloc, algebra, marker)?;
        diagrams.push(diagram)?;
    }
    Ok(diagrams)
}

/// Whether the marker of each diagram is printed. No tree is made.
pub(crate) fn are_printable(algebra: &Algebra<'_>, diagrams: &[Diagram]) -> bool
    requires { All (IsDiagram algebra.now) diagrams.now }
    ensures { result ≡ list_all (λ m. is_printable (tree_of m)) diagrams.now }
{
    for diagram in diagrams {
        if !algebra.is_printable(diagram) {
            return false;
        }
    }
    true
}
