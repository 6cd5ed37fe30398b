//! What the definitions say, as laws for all values. None of these functions does anything.
ghost use Rattle.ul_problem.specs.Laws.{RightForbids, RightIsWithin, WithinSays};
ghost use Rattle.ul_problem.specs.Terms.{JoinHolds, MeetHolds, NegationHolds, RelationIsExact};
ghost use Rattle.ul_problem.specs.Best.{BestIsOne, BestServes, TrailedIsBest};

/// A met term holds where both do.
pub fn meet_holds()
    ensures { MeetHolds }
{}

/// A joined term holds where one of the two does.
pub fn join_holds()
    ensures { JoinHolds }
{}

/// What a known term tells is told exactly.
pub fn relation_is_exact()
    ensures { RelationIsExact }
{}

/// At most one list is best.
pub fn best_is_one()
    ensures { BestIsOne }
{}

/// The map of a best list serves.
pub fn best_serves()
    ensures { BestServes }
{}

/// A list whose picks are each the first version that nothing passes over is best where some serving selection has them all.
pub fn trailed_is_best()
    ensures { TrailedIsBest }
{}

/// A negation holds where the term doesn't.
pub fn negation_holds()
    ensures { NegationHolds }
{}

/// A right step's places and sets are the problem's; what such a step says is an incompatibility of the problem's terms; and no
/// serving selection has all that a right step says.
pub fn right_steps()
    ensures within { RightIsWithin }
    ensures says { WithinSays }
    ensures forbids { RightForbids }
{}
