//! Laws of opaque comparisons. None of these functions does anything.
ghost use Rattle.laws_comparisons.specs.Comparisons.{AskedHaveNoExtras, FilesSayMachines, LocksHaveAtoms};
ghost use Rattle.laws_comparisons.specs.Comparisons.{MachinesHaveWorlds, MergedAskTheirs, TreesAskTheirs, WalksAskTheirs};

/// A reduced tree has no comparisons but those that its truth looks at, and neither has what it is simplified to.
pub fn trees_ask_theirs()
    ensures { TreesAskTheirs }
{}

/// A lock that the leaves of a fork answer merge into asks no comparisons but those that its project and its documents ask.
pub fn merged_ask_theirs()
    ensures { MergedAskTheirs }
{}

/// What a lock gives at a node asks no comparisons but the lock's.
pub fn walks_ask_theirs()
    ensures { WalksAskTheirs }
{}

/// Where no marker of a project and its documents compares `extras`, none of what they ask is such a comparison.
pub fn asked_have_no_extras()
    ensures { AskedHaveNoExtras }
{}

/// A machine file says a machine, whose worlds are worlds.
pub fn machines_have_worlds()
    ensures files { FilesSayMachines }
    ensures worlds { MachinesHaveWorlds }
{}

/// The comparisons of a well formed lock are such as a marker's text can spell.
pub fn locks_have_atoms()
    ensures { LocksHaveAtoms }
{}
