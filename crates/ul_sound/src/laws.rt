//! The laws of merged locks. The function's contract is the law, and its body does nothing.
ghost use Rattle.ul_sound.specs.Headline.{MergePromises};

/// Leaves that have no world in common and cover the supported region, each with a selection that serves it whole,
/// merge into a sound lock, in which each version is spelled as the catalog spells it; leaves merge into at most one
/// lock; and it is well formed.
pub fn merge_laws()
    ensures { MergePromises }
{
    ul_index::laws::eligible_same();
}
