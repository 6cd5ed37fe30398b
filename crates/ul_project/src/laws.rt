//! Laws of project files, and worked examples: each function's contract is proved, and its body does nothing.

ghost use Rattle.ul_project.specs.Laws.{OneProject};
ghost use Rattle.ul_project.specs.Vectors.{FirstFaults, LaterFaults, SaidFiles, SupportedWorlds, WideFaults, WideFiles};

/// Bytes say at most one project, and none where it would support no world.
pub fn one_project()
    ensures { OneProject }
{}

/// Worked examples: what files say.
pub fn said_files()
    ensures { SaidFiles }
{}

/// Worked examples: the first of two faults, up to the extras.
pub fn first_faults()
    ensures { FirstFaults }
{}

/// Worked examples: the first of two faults, from the groups on.
pub fn later_faults()
    ensures { LaterFaults }
{}

/// Worked examples: what files of the profile `wide` say.
pub fn wide_files()
    ensures { WideFiles }
{}

/// Worked examples: the first of two faults in files of the profile `wide`, or with a profile that isn't known.
pub fn wide_faults()
    ensures { WideFaults }
{}

/// Worked examples: worlds that are supported, and others.
pub fn supported_worlds()
    ensures { SupportedWorlds }
{}
