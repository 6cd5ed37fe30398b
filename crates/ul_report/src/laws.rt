//! Worked examples of the texts: each function's contract is proved, and its body does nothing.

ghost use Rattle.ul_report.specs.Examples.{RefusalExamples, StepExamples};
ghost use Rattle.ul_report.specs.Laws.{RightHaveNames};

/// The lines of refused forks, and of the steps of derivations.
pub fn report_examples()
    ensures refusals { RefusalExamples }
    ensures steps { StepExamples }
{}

/// Each derivation whose steps are right can be printed: its places and sets are the problem's.
pub fn right_steps_have_names()
    ensures { RightHaveNames }
{}
