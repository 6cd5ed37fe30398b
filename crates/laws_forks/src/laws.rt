//! Outcomes and fork answers exist. None of these functions does anything.
ghost use Rattle.laws_forks.specs.Exists.{BestWhereServed, ForkAnswerExists, OutcomeExists};

/// One selection is the best of a region exactly where some selection serves it.
pub fn best_where_served()
    ensures { BestWhereServed }
{
    laws_problems::laws::problem_exists();
    ul_region::laws::best_serves();
    ul_region::laws::serving_places();
    ul_region::laws::best_names();
    ul_solver::laws::best_exists();
}

/// Each region has an outcome.
pub fn outcome_exists()
    ensures { OutcomeExists }
{
    best_where_served();
    laws_trees::laws::truth_trees();
    laws_trees::laws::regions_decide();
    laws_problems::laws::problem_exists();
    ul_index::laws::eligible_same();
    ul_index::laws::preference_same();
    ul_region::laws::nothing_serves();
    ul_region::laws::serving_names();
    ul_blame::laws::core_laws();
}

/// Each question has a fork answer.
pub fn fork_answer_exists()
    ensures { ForkAnswerExists }
{
    outcome_exists();
}
