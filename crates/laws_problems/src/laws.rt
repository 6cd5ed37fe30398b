//! The problem of a region. The function's contract is the law, and its body does nothing.
ghost use Rattle.laws_problems.specs.Exists.{ProblemExists};

/// Each region that has a tree has a problem.
pub fn problem_exists()
    ensures { ProblemExists }
{
    laws_trees::laws::truth_trees();
    laws_trees::laws::regions_decide();
    ul_index::laws::eligible_rises();
    ul_index::laws::preference_same();
}
