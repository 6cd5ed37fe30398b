//! Laws of requirements, and worked examples: each function's contract is proved, and its body does nothing.

ghost use Rattle.ul_requirement.specs.Laws.{ReadingIsGrammar, SpelledOnce, UnnamedNeverApplies};
ghost use Rattle.ul_requirement.specs.Vectors.{Addresses, MayBeTrue, NoAddresses, NoReadings, Readings, Truths};

/// A text is read as a requirement, or as one by a URL, exactly where the grammar spells it so, and it spells one at
/// most.
pub fn reading_is_grammar()
    ensures grammar { ReadingIsGrammar }
    ensures once { SpelledOnce }
{}

/// A requirement whose marker doesn't name a node's extra is true there in no world.
pub fn unnamed_never_applies()
    ensures { UnnamedNeverApplies }
{}

/// Worked examples: requirements and their texts, requirements by a URL and texts that aren't of their form, texts
/// without a reading, where requirements apply, and where they may.
pub fn examples()
    ensures readings { Readings }
    ensures addresses { Addresses }
    ensures no_addresses { NoAddresses }
    ensures no_readings { NoReadings }
    ensures truths { Truths }
    ensures may_be_true { MayBeTrue }
{}
