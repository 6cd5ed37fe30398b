//! By which truth a region is split.
ghost use Rattle.std.specs.Prelude.{◌≡◌, ◌<◌, IfOk, All, Decides, length, get_or, map};
ghost use Rattle.ul_region.specs.Truths.{region_at};
ghost use Rattle.ul_region.specs.Asked.{IsInRegion};
ghost use Rattle.ul_split.specs.Split.{IsUnfit};
ghost use Rattle.ul_split.specs.Answers.{FitsBy, GroupsBy, IsChosen, PartsAt, SplitGives, decided_of};

use std::alloc::AllocError;
use ul_algebra::{Algebra, Diagram};
use ul_base::Node;
use ul_region::{AtNode, InRegion, Row};

/// A decided node, with its release and the release's requirements.
#[derive(Drop)]
pub struct Chosen<'a, 'r> {
    pub node: &'a Node,
    pub row: &'a Row<'r>,
}

// Whether a decided release isn't fit at some world of the region.
fn is_unfit(algebra: &Algebra<'_>, place: &InRegion<'_>, one: &Chosen<'_, '_>) -> bool
    requires place { IsInRegion algebra.now place.now }
    requires one { IsChosen algebra.now place.now.truths.now one.now }
    ensures { Decides result (IsUnfit (region_at place.now.region.now) (decided_of one.now)) }
{
    let at = AtNode {
        place,
        node: one.node,
        row: one.row,
    };
    !at.is_fit_throughout(algebra)
}

// The first release that isn't fit throughout the region.
fn first_unfit<'s, 'a, 'r>(
    algebra: &Algebra<'_>,
    place: &InRegion<'_>,
    chosen: &'s [Chosen<'a, 'r>],
) -> Option<&'s Chosen<'a, 'r>>
    requires place { IsInRegion algebra.now place.now }
    requires chosen { All (IsChosen algebra.now place.now.truths.now) chosen.now }
    ensures { FitsBy (region_at place.now.region.now) chosen.now (map decided_of chosen.now) result }
{
    for one in chosen {
        if is_unfit(algebra, place, one) {
            return Some(one);
        }
    }
    None
}

// What parts the region at a decided node.
fn parting_at(
    algebra: &Algebra<'_>,
    place: &InRegion<'_>,
    one: &Chosen<'_, '_>,
) -> Result<Option<Diagram>, AllocError>
    requires place { IsInRegion algebra.now place.now }
    requires one { IsChosen algebra.now place.now.truths.now one.now }
    ensures { IfOk result (PartsAt algebra.now (region_at place.now.region.now) (decided_of one.now)) }
{
    let at = AtNode {
        place,
        node: one.node,
        row: one.row,
    };
    let Some(truth) = at.parting(algebra) else {
        return Ok(None);
    };
    let truth = truth.share()?;
    Ok(Some(truth))
}

// What parts the region at the first decided node that has a split group.
fn first_parting(
    algebra: &Algebra<'_>,
    place: &InRegion<'_>,
    chosen: &[Chosen<'_, '_>],
) -> Result<Option<Diagram>, AllocError>
    requires place { IsInRegion algebra.now place.now }
    requires chosen { All (IsChosen algebra.now place.now.truths.now) chosen.now }
    ensures { IfOk result (GroupsBy algebra.now (region_at place.now.region.now) (map decided_of chosen.now)) }
{
    for one in chosen {
        if let Some(truth) = parting_at(algebra, place, one)? {
            return Ok(Some(truth));
        }
    }
    Ok(None)
}

// Where a decided release is fit.
fn fit_of(place: &InRegion<'_>, one: &Chosen<'_, '_>) -> Result<Diagram, AllocError>
    requires { one.now.row.now.fit < length place.now.truths.now }
    ensures { IfOk result (λ d. d ≡ get_or place.now.truths.now one.now.row.now.fit d) }
{
    let truth = place.truths[one.row.fit].share()?;
    Ok(truth)
}

/// The truth by which a region is split, for the decided nodes in the order of decision; none exactly where nothing splits it.
///
/// # Errors
///
/// Only for want of memory.
pub fn split_in(
    algebra: &Algebra<'_>,
    place: &InRegion<'_>,
    chosen: &[Chosen<'_, '_>],
) -> Result<Option<Diagram>, AllocError>
    requires place { IsInRegion algebra.now place.now }
    requires chosen { All (IsChosen algebra.now place.now.truths.now) chosen.now }
    ensures { IfOk result (SplitGives algebra.now (region_at place.now.region.now) (map decided_of chosen.now)) }
{
    if let Some(one) = first_unfit(algebra, place, chosen) {
        let truth = fit_of(place, one)?;
        return Ok(Some(truth));
    }
    let found = first_parting(algebra, place, chosen)?;
    Ok(found)
}
