//! Laws of loading. Each function's contract is a law, and its body does nothing.
ghost use Rattle.ul_load.specs.Laws.{LoadingEnds, TurnsAgree};
ghost use Rattle.ul_load.specs.Vectors.{ConditionExamples, LoadingExamples};

/// Two numbers of turns that suffice give one answer and the same reads.
pub fn turns_agree()
    ensures { TurnsAgree }
{}

/// Loading ends: some number of turns suffices.
pub fn loading_ends()
    ensures { LoadingEnds }
{}

/// Worked examples: the documents that are read, in order, and the names of the packages, or the first fault.
pub fn loading_examples()
    ensures { LoadingExamples }
{}

/// Worked examples: how many comparisons of sources' conditions count as the project's own.
pub fn condition_examples()
    ensures { ConditionExamples }
{}
