//! Which truths have trees, and what is decided of them. None of these functions does anything.
ghost use Rattle.laws_trees.specs.Decided.{RegionsDecide};
ghost use Rattle.laws_trees.specs.Trees.{TruthTrees};

/// Each truth that a marker, a requirement, a release or a project says has a reduced tree.
pub fn truth_trees()
    ensures { TruthTrees }
{}

/// What holds somewhere in a region that has a tree is decided.
pub fn regions_decide()
    ensures { RegionsDecide }
{
    truth_trees();
}
