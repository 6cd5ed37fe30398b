//! Verdicts exist. The function's contract is the law, and its body does nothing.
ghost use Rattle.laws_verdicts.specs.Exists.{VerdictExists};

/// Each lock is verified, or has a first part that isn't right.
pub fn verdict_exists()
    ensures { VerdictExists }
{
    laws_trees::laws::truth_trees();
    laws_walks::laws::reach_tree_exists();
}
