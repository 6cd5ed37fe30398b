//! Leaves merge into a lock. The function's contract is the law, and its body does nothing.
ghost use Rattle.laws_locks.specs.Exists.{LockExists};

/// Leaves that can be merged have a lock, if the versions of each package differ.
pub fn lock_exists()
    ensures { LockExists }
{
    laws_trees::laws::truth_trees();
    ul_index::laws::eligible_rises();
}
