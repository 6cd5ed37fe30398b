//! The laws of the trail. None of these functions does anything.
ghost use Rattle.ul_trail.specs.Laws.{FactsFollow, ExcludedArePassed, FinishedServes, CutIsHeld, PushKeeps, BackKeeps};

/// The facts up to any place hold of each serving selection that agrees with the decisions up to it.
pub fn facts_follow()
    ensures { FactsFollow }
{}

/// A version that the facts exclude is in no serving selection that agrees with them.
pub fn excluded_are_passed()
    ensures { ExcludedArePassed }
{}

/// The roots and decisions of a finished trail without a conflict serve.
pub fn finished_serves()
    ensures { FinishedServes }
{}

/// A cut takes a fact away.
pub fn cut_is_held()
    ensures { CutIsHeld }
{}

/// A fact that follows keeps the facts those of the problem.
pub fn push_keeps()
    ensures { PushKeeps }
{}

/// So does going back with learned steps.
pub fn back_keeps()
    ensures { BackKeeps }
{}
