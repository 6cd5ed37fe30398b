//! The laws of the fork answer over a catalog. Each function's contract is a law, and its body does nothing.
ghost use Rattle.ul_forks.specs.Headline.{ForkLaws};
ghost use Rattle.ul_forks.specs.Judged.{JudgedLaws};

/// A region has at most one outcome, and the supported region at most one fork answer. Each world of it is in exactly
/// one leaf, whose selection is the best of its region and serves it whole; nothing serves a refused region.
pub fn fork_laws()
    ensures { ForkLaws }
{
    ul_tree::laws::one_truth();
    ul_region::laws::best_once();
    ul_region::laws::best_serves();
    ul_split::laws::split_once();
    ul_split::laws::children();
    ul_split::laws::unsplit_serves_whole();
    ul_region::laws::nothing_serves();
    ul_placing::laws::equal_problems();
    ul_blame::laws::core_laws();
    ul_split::laws::core_split_once();
    ul_split::laws::core_children();
    ul_split::laws::none_at_worlds();
}

/// The fork answer over diagrams, each refused region with an accepted derivation, is the fork answer over their trees.
pub fn judged_laws()
    ensures { JudgedLaws }
{
    ul_derivation::laws::accepted_law();
    ul_region::laws::nothing_serves();
}
