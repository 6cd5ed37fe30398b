//! Laws of splits. Each function's contract is a law, and its body does nothing.
ghost use Rattle.ul_split.specs.CoreLaws.{CoreChildren, CoreSplitOnce, NoneAtWorlds};
ghost use Rattle.ul_split.specs.Laws.{Children, SplitOnce, UnsplitServesWhole};

/// At most one truth splits a region.
pub fn split_once()
    ensures { SplitOnce }
{}

/// The children of a split have worlds, have none in common, and together are the region.
pub fn children()
    ensures { Children }
{}

/// What serves a region that nothing splits serves it whole.
pub fn unsplit_serves_whole()
    ensures { UnsplitServesWhole }
{
    ul_index::laws::unsplit_whole();
}

/// At most one truth splits a region by a core, and none where the core holds throughout.
pub fn core_split_once()
    ensures { CoreSplitOnce }
{}

/// Both parts of a region that is split by a core have a world.
pub fn core_children()
    ensures { CoreChildren }
{}

/// Where a core holds throughout its region, no selection serves a single world of it.
pub fn none_at_worlds()
    ensures { NoneAtWorlds }
{
    ul_blame::laws::core_laws();
}
