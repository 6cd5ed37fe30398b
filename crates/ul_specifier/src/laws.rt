//! Laws of clauses, and worked examples: each function's contract is proved, and its body does nothing.

ghost use Rattle.ul_specifier.specs.GrammarLaws.{EveryClauseIsRead, ReadingIsGrammar, SpelledOnce};
ghost use Rattle.ul_specifier.specs.Laws.{CompatibleIsTwoParts, DistinctIsOther, LessIsNegation, LowerIsSettled, LowerIsWeaker, MoreIsNegation, ReadsClauses, UnequalIsNegation};
ghost use Rattle.ul_specifier.specs.Vectors.{Exclusions, Meetings, NoReadings, Readings, Summaries};

/// `!=` is the negation of `==`, an exclusion is it but for local parts, and `~=V` is `>=V` and the `==` of V's
/// release without its last number with `.*`.
pub fn operators_are_related()
    ensures unequal { UnequalIsNegation }
    ensures compatible { CompatibleIsTwoParts }
    ensures distinct { DistinctIsOther }
{}

/// `>=V` and `<V` part the versions that are no pre-releases and have no local part, and `<=V` and `>V`
/// those that are no post-releases and have no local part.
pub fn bounds_part_the_order()
    ensures less { LessIsNegation }
    ensures more { MoreIsNegation }
{}

/// A list's lower bounds ask for no more than the list, and are their own lower bounds.
pub fn lower_bounds_are_weaker()
    ensures weaker { LowerIsWeaker }
    ensures settled { LowerIsSettled }
{}

/// A text is read as the clauses that the grammar spells it as, which are one list at most.
pub fn reading_is_grammar()
    ensures grammar { ReadingIsGrammar }
    ensures once { SpelledOnce }
{}

/// Every clause but an exclusion, and every list of such clauses, is read from some text.
pub fn every_clause_is_read()
    ensures { EveryClauseIsRead }
{}

/// What is read are clauses and no exclusions: `.*`, local parts and the length of a release are as the operators allow.
pub fn read_is_clauses()
    ensures { ReadsClauses }
{}

/// Worked examples of meaning, readings, texts without a reading, lower bounds, pre-releases, pins and exclusions.
pub fn examples()
    ensures meetings { Meetings }
    ensures readings { Readings }
    ensures no_readings { NoReadings }
    ensures summaries { Summaries }
    ensures exclusions { Exclusions }
{}
