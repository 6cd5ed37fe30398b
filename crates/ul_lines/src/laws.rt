//! What the definitions say of examples.

ghost use Rattle.ul_lines.specs.Examples.{PieceExamples, LineExamples};

/// Pieces of a line, and lines of a text, computed by the definitions.
pub fn line_examples()
    ensures pieces { PieceExamples }
    ensures lines { LineExamples }
{}
