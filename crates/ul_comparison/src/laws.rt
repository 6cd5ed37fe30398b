//! Laws of truths, and worked examples: each function's contract is proved, and its body does nothing.

ghost use Rattle.ul_comparison.specs.MachineLaws.{NoExtrasOnMachine, PartIsBetween, TruthsIncrease, TruthsOfMachine};
ghost use Rattle.ul_comparison.specs.TruthVectors.{Truths};

/// The world of a machine has, in increasing order, exactly those of the given opaque comparisons that hold on the
/// machine, and none with `extras`. A text is part of another exactly where it stands between two others.
pub fn machine_truths()
    ensures truths { TruthsOfMachine }
    ensures no_extras { NoExtrasOnMachine }
    ensures increase { TruthsIncrease }
    ensures part { PartIsBetween }
{}

/// Worked truths of markers at worlds, and which texts stand beside `extras`.
pub fn truth_examples()
    ensures { Truths }
{}
