//! What a lock gives. None of these functions does anything.
ghost use Rattle.laws_walks.specs.Exists.{FewExtras, PicksExist, ReachTreeExists, RowsExist};

/// Each node of a lock has the tree of the worlds in which the lock gives it.
pub fn reach_tree_exists()
    ensures { ReachTreeExists }
{}

/// A lock has picks in each world, where the extras of each package are few.
pub fn picks_exist()
    ensures { PicksExist }
{}

/// A lock whose text isn't too long has few extras.
pub fn few_extras()
    ensures { FewExtras }
{}

/// A lock has rows.
pub fn rows_exist()
    ensures { RowsExist }
{}
