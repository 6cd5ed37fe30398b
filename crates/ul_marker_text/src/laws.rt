//! Laws of texts, and worked examples: each function's contract is proved, and its body does nothing.
ghost use Rattle.ul_marker_text.specs.Examples.{TextExamples};
ghost use Rattle.ul_marker_text.specs.Headline.{MarkerTexts};

/// Reduced trees with one text are one tree, and the text of a tree is read as a marker that has the tree's truth.
pub fn marker_texts()
    ensures { MarkerTexts }
{}

/// Worked examples of texts.
pub fn text_examples()
    ensures { TextExamples }
{}
