//! Laws of a region's problem. Each function's contract is a law, and its body does nothing.
ghost use Rattle.ul_placing.specs.Laws.{EqualProblems};

/// Regions that agree at every world have equal problems: so a problem doesn't depend on how its region is kept.
pub fn equal_problems()
    ensures { EqualProblems }
{}
