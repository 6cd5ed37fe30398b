//! Laws of a region and its problem. Each function's contract is a law, and its body does nothing.
ghost use Rattle.ul_region.specs.Laws.{ServeAlike, ServingPlaces, ServingNames, NothingServes, BestNames, BestOnce, BestServes};

/// Selections that say the same serve alike: the one of places the problem, the other one the region.
pub fn serve_alike()
    ensures { ServeAlike }
{}

/// What serves the region gives places that serve the problem.
pub fn serving_places()
    ensures { ServingPlaces }
{}

/// Places that serve the problem give a selection that serves the region.
pub fn serving_names()
    ensures { ServingNames }
{}

/// Nothing serves the problem exactly where nothing serves the region.
pub fn nothing_serves()
    ensures { NothingServes }
{}

/// The best picks of the problem are, by their names, the best selection of the region.
pub fn best_names()
    ensures { BestNames }
{}

/// A region has at most one best selection.
pub fn best_once()
    ensures { BestOnce }
{}

/// The best selection serves its region.
pub fn best_serves()
    ensures { BestServes }
{}
