//! The laws of diagrams, each on a function that does nothing.
ghost use Rattle.ul_algebra.specs.Headline.{DiagramPromises};
ghost use Rattle.ul_algebra.specs.Vectors.{DiagramVectors};

use crate::labels::DiagramLabel;
use ul_interner::laws::interner_promises;

/// The promises of diagrams, which follow from the interner's.
pub fn diagram_promises()
    ensures { DiagramPromises }
{
    interner_promises::<DiagramLabel>()
}

/// Worked examples of what nodes spell, and of labels' hashes.
pub fn diagram_vectors()
    ensures { DiagramVectors }
{}
