//! The law of canonical texts, and worked examples: each function's contract is proved, and its body does nothing.
ghost use Rattle.ul_canonical.specs.Examples.{LineExamples};
ghost use Rattle.ul_canonical.specs.Headline.{CanonicalMarkers};

/// Each printed line has the truth of its line in each world, and two printed lines are equal exactly where their lines
/// are true in the same worlds.
pub fn canonical_markers()
    ensures { CanonicalMarkers }
{}

/// Worked examples of what lines say.
pub fn line_examples()
    ensures { LineExamples }
{}
