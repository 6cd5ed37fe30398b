//! Laws and worked examples: each function's contract is proved, and its body does nothing.

ghost use Rattle.ul_groups.specs.GroupVectors.{ExpandedGroups};
ghost use Rattle.ul_groups.specs.Negated.{NegationIsNot, Negations};
ghost use Rattle.ul_groups.specs.Sourced.{ClausesAreSources, SourcesAreConstraints};
ghost use Rattle.ul_groups.specs.SourceVectors.{SourceConstraints};
ghost use Rattle.ul_groups.specs.Vectors.{AdjustedRequirements};

/// The negation of a marker is true exactly where the marker isn't.
pub fn negation_is_not()
    ensures { NegationIsNot }
{}

/// Worked examples: negations of markers.
pub fn negations()
    ensures { Negations }
{}

/// Of releases of different versions, those meet the clauses of a source that come from there.
pub fn clauses_are_sources()
    ensures { ClausesAreSources }
{}

/// Of releases of different versions, in each world, those meet the constraints that sources are that come from where the
/// sources want them.
pub fn sources_are_constraints()
    ensures { SourcesAreConstraints }
{}

/// Worked examples: the constraints that sources are.
pub fn source_constraints()
    ensures { SourceConstraints }
{}

/// Worked examples: requirements adjusted by overrides, constraints and sources.
pub fn adjusted_requirements()
    ensures { AdjustedRequirements }
{}

/// Worked examples: the lists of groups, and includes that are refused.
pub fn expanded_groups()
    ensures { ExpandedGroups }
{}
