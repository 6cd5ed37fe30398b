//! The laws of what a lock gives in a world.

ghost use Rattle.ul_lock.specs.Walk.{WalkIsLeast, WalksAgree};

/// What a lock gives in a world is the least set of nodes at versions that has the root's nodes, and with a node the
/// target of each of its edges that hold; and it is the same in worlds that agree on the lock's comparisons.
pub fn walk_laws()
    ensures least { WalkIsLeast }
    ensures agree { WalksAgree }
{}
