//! Each question has an answer. None of these functions does anything but name the laws that it rests on.
ghost use Rattle.laws_existence.specs.Answers.{AnswersExist};
ghost use Rattle.laws_existence.specs.Inputs.{GivenHasNoExtras, GivenIsAskable, InputsAreGiven};

/// Each input of a command is given by the files: a value, or a refusal.
pub fn inputs_are_given()
    ensures { InputsAreGiven }
{
    ul_marker::laws::reading_is_grammar();
    laws_trees::laws::truth_trees();
    laws_trees::laws::regions_decide();
    ul_tree::laws::sample_holds();
    ul_load::laws::loading_ends();
}

/// What files give can be asked of: each region of it has a problem.
pub fn given_is_askable()
    ensures { GivenIsAskable }
{
    ul_marker::laws::reading_is_grammar();
    laws_given::laws::given_is_resolution();
}

/// What files give compares no `extras`.
pub fn given_has_no_extras()
    ensures { GivenHasNoExtras }
{}

/// Each question has an answer on every map of files.
pub fn answers_exist()
    ensures { AnswersExist }
{
    inputs_are_given();
    given_is_askable();
    laws_trees::laws::truth_trees();
    ul_load::laws::loading_ends();
    laws_given::laws::given_is_resolution();
    laws_given::laws::given_has_texts();
    laws_forks::laws::fork_answer_exists();
    laws_problems::laws::problem_exists();
    ul_commands::laws::refused_are_unserved();
    ul_region::laws::nothing_serves();
    laws_commands::laws::forks_merge();
    laws_locks::laws::lock_exists();
    ul_blame::laws::core_laws();
    laws_refutations::laws::derivation_exists();
    laws_refutations::laws::steps_are_judged();
    laws_walks::laws::few_extras();
    laws_walks::laws::picks_exist();
    laws_walks::laws::rows_exist();
    laws_verdicts::laws::verdict_exists();
    ul_tree::laws::no_extra();
}
