//! Laws of trees, and worked examples: each function's contract is proved, and its body does nothing.
ghost use Rattle.ul_tree.specs.Laws.{OneTruthOneTree, Operations};
ghost use Rattle.ul_tree.specs.JoinSteps.{ApplySteps, ImpliesByJoin, JoinShortcuts};
ghost use Rattle.ul_tree.specs.PathLaws.{ListedAreCounted, PathsTellTruth, SampleIsFirst, TreeOfPaths};
ghost use Rattle.ul_tree.specs.Regions.{NoExtra};
ghost use Rattle.ul_tree.specs.Sample.{SampleHolds, HoldsSomewhere};
ghost use Rattle.ul_tree.specs.SampleVectors.{SampleExamples};
ghost use Rattle.ul_tree.specs.SimplifyLaws.{SimplifyExamples, SimplifyLaws};

/// Two reduced trees that hold at the same worlds and extras are equal.
pub fn one_truth()
    ensures { OneTruthOneTree }
{}

/// Trees joined, and a tree at an extra, are reduced and have the truth that is asked for.
pub fn tree_operations()
    ensures { Operations }
{}

/// An operation on two nodes is the operation on their parts, which are smaller, and a reduced tree of the joined
/// truth is the joined tree.
pub fn apply_steps()
    ensures { ApplySteps }
{}

/// A joined tree that is known at once: an absorbing or a neutral truth, equal sides, a double negation.
pub fn join_shortcuts()
    ensures { JoinShortcuts }
{}

/// One tree implies another exactly where the first without the second is false.
pub fn implies_by_join()
    ensures { ImpliesByJoin }
{}

/// A reduced tree whose truth doesn't depend on the extra asks for none.
pub fn no_extra()
    ensures { NoExtra }
{}

/// As many paths to true are listed as are counted.
pub fn listed_are_counted()
    ensures { ListedAreCounted }
{}

/// A tree is true exactly where all comparisons of some path to true hold.
pub fn paths_tell_truth()
    ensures { PathsTellTruth }
{}

/// The path of a reduced tree's sample is the first of its paths to true.
pub fn sample_is_first()
    ensures { SampleIsFirst }
{}

/// A reduced tree is the tree of its paths to true.
pub fn tree_of_paths()
    ensures { TreeOfPaths }
{}

/// The sample of a reduced tree that isn't false and asks for no extra is a world, and the tree holds there with
/// every extra.
pub fn sample_holds()
    ensures { SampleHolds }
{}

/// A reduced tree that isn't false holds at some world with some extra, and one that asks for no extra at some
/// world with every extra.
pub fn has_world()
    ensures { HoldsSomewhere }
{}

/// Worked examples of samples.
pub fn sample_examples()
    ensures { SampleExamples }
{}

/// A tree made simpler under a region is reduced and has its truth wherever the region holds, and there is one.
pub fn simplify_laws()
    ensures { SimplifyLaws }
{}

/// Trees made simpler under a region.
pub fn simplify_examples()
    ensures { SimplifyExamples }
{}
