//! What is true of best lists, as laws for all problems. None of these functions does anything.
ghost use Rattle.ul_problem.specs.Best.{BestIsOne, BestServes};
ghost use Rattle.ul_solver.specs.Laws.{BestExists};
ghost use Rattle.ul_solver.specs.Measure.{NumberFalls};

/// At most one list is best.
pub fn best_is_one()
    ensures { BestIsOne }
{}

/// The map of a best list serves.
pub fn best_serves()
    ensures { BestServes }
{}

/// One list is best exactly where some selection serves.
pub fn best_exists()
    ensures { BestExists }
{}

/// Where a list of digits is lower than another, so is its number.
pub fn number_falls()
    ensures { NumberFalls }
{}
