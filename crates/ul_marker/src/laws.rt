//! Laws of readings, and worked examples: each function's contract is proved, and its body does nothing.

ghost use Rattle.ul_marker.specs.PartLaws.{NamesAreLiterals, TruthIsPlain};
ghost use Rattle.ul_marker.specs.PrintedPaths.{ComparisonReads, ComparisonsAreTold, PathsRead};
ghost use Rattle.ul_marker.specs.ReadingLaws.{DialectsAgree, GroupingIsFree, MirroredIsSame, NegatedRelations, NotInIsNegation, OrderIsFree, ReadingIsGrammar, ReadIsFormula, SpelledOnce};
ghost use Rattle.ul_marker.specs.ReadingVectors.{LockedReadings, NoReadings, Readings};

/// A text is read as a formula exactly where the grammar spells it so, which is one formula at most.
pub fn reading_is_grammar()
    ensures grammar { ReadingIsGrammar }
    ensures once { SpelledOnce }
    ensures formula { ReadIsFormula }
{}

/// Of what is printed a document reads what doesn't ask for `extras`, and a lock what doesn't ask for `extra`.
pub fn dialects_agree()
    ensures { DialectsAgree }
{}

/// A comparison with its sides exchanged reads as the mirrored one. `!=` is the negation of `==`, `>=` of
/// `<`, `>` of `<=`, and `not in` of `in`.
pub fn comparisons_are_related()
    ensures mirrored { MirroredIsSame }
    ensures negated { NegatedRelations }
    ensures not_in { NotInIsNegation }
{}

/// Formulas joined by `and`, or by `or`, are true in any grouping and any order alike.
pub fn joining_is_free()
    ensures grouping { GroupingIsFree }
    ensures order { OrderIsFree }
{}

/// A marker without a comparison with `extra` has one truth at every extra, and a name's normal form can stand in a
/// literal.
pub fn parts_are_told()
    ensures plain { TruthIsPlain }
    ensures names { NamesAreLiterals }
{}

/// Printed comparisons, alone or joined by ` and ` and by ` or `, are read as what they say, and those that say the
/// same are one.
pub fn printed_is_read()
    ensures one { ComparisonReads }
    ensures joined { PathsRead }
    ensures told { ComparisonsAreTold }
{}

/// Worked examples of readings, and of texts without one.
pub fn readings()
    ensures read { Readings }
    ensures locked { LockedReadings }
    ensures not_read { NoReadings }
{}
