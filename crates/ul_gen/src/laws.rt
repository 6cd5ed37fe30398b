//! Worked examples.

ghost use Rattle.ul_gen.specs.Examples.{Examples};

/// Worked examples of the numbers and the texts.
pub fn examples()
    ensures { Examples }
{}
