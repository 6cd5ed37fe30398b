//! Where a region that nothing serves is split further: by a need of its core.
ghost use Rattle.std.specs.Prelude.{◌≡◌, IfOk, All};
ghost use Rattle.ul_requirement.specs.declared.wish.Strategy.TheVariants.{Deep};
ghost use Rattle.ul_problem.specs.Serving.{HasNone};
ghost use Rattle.ul_region.specs.Truths.{region_at};
ghost use Rattle.ul_split.specs.CoreAnswers.{CoreGives};
ghost use Rattle.ul_forks.specs.Deeper.{HasVersion, IsPlaced, NeedGives, SplitsDeeper};
ghost use Rattle.ul_forks.specs.Judge.{IsReady, question_with};

use crate::picks::chosen_at;
use std::alloc::{AllocError, Global};
use ul_algebra::{Algebra, Diagram};
use ul_base::Name;
use ul_blame::{CoreNeed, core_by};
use ul_placing::Placed;
use ul_prepared::Prepared;
use ul_problem::Derivation;
use ul_region::{AtNode, InRegion};
use ul_requirement::{Strategy, Wish};
use ul_split::failing_truth;

// The truth of the requirement that a need comes from, where it fails at some world of the region.
fn failing_need<'p, 'r>(
    algebra: &Algebra<'_>,
    prepared: &'p Prepared<'r>,
    place: &'p InRegion<'p>,
    placed: &'p Placed,
    need: CoreNeed,
) -> Result<Option<Diagram>, AllocError>
    requires placed { IsPlaced algebra.now prepared.now place.now placed.now }
    requires need { HasVersion placed.now.problem need }
    ensures { IfOk result (NeedGives algebra.now prepared.now.catalog.now (region_at place.now.region.now)
        placed.now.problem need) }
{
    let chosen = chosen_at(prepared, placed, need.node, need.version);
    let at = AtNode {
        place,
        node: chosen.node,
        row: chosen.row,
    };
    let Some(truth) = failing_truth(algebra, &at, need.place) else {
        return Ok(None);
    };
    let truth = truth.share()?;
    Ok(Some(truth))
}

// The truth of the first need whose requirement fails at some world of the region.
fn first_failing<'p, 'r>(
    algebra: &Algebra<'_>,
    prepared: &'p Prepared<'r>,
    place: &'p InRegion<'p>,
    placed: &'p Placed,
    needs: &[CoreNeed],
) -> Result<Option<Diagram>, AllocError>
    requires placed { IsPlaced algebra.now prepared.now place.now placed.now }
    requires needs { All (HasVersion placed.now.problem) needs.now }
    ensures { IfOk result (CoreGives algebra.now prepared.now.catalog.now (region_at place.now.region.now)
        placed.now.problem needs.now) }
{
    for need in needs {
        if let Some(truth) = failing_need(algebra, prepared, place, placed, *need)? {
            return Ok(Some(truth));
        }
    }
    Ok(None)
}

// The truth by which the core of a region that nothing serves splits it; none where the core holds throughout. The
// derivation is one that nothing serves it.
fn core_truth<'p, 'r>(
    alloc: Global,
    algebra: &Algebra<'_>,
    prepared: &'p Prepared<'r>,
    extras: &[Name],
    place: &'p InRegion<'p>,
    placed: &'p Placed,
    derivation: &Derivation,
) -> Result<Option<Diagram>, AllocError>
    requires ready { IsReady algebra.now prepared.now extras.now }
    requires placed { IsPlaced algebra.now prepared.now place.now placed.now }
    requires none { HasNone placed.now.problem }
    requires deep { prepared.now.wish.now.strategy ≡ Deep }
    ensures { IfOk result (SplitsDeeper algebra.now (question_with prepared.now extras.now) place.now.region.now) }
{
    ul_blame::laws::core_laws();
    let needs = core_by(alloc, &placed.problem, derivation)?;
    let truth = first_failing(algebra, prepared, place, placed, needs.as_slice())?;
    Ok(truth)
}

// The truth by which a region that nothing serves is split further, where the strategy says so.
pub(crate) fn deeper_truth<'p, 'r>(
    alloc: Global,
    algebra: &Algebra<'_>,
    prepared: &'p Prepared<'r>,
    extras: &[Name],
    place: &'p InRegion<'p>,
    placed: &'p Placed,
    derivation: &Derivation,
) -> Result<Option<Diagram>, AllocError>
    requires ready { IsReady algebra.now prepared.now extras.now }
    requires placed { IsPlaced algebra.now prepared.now place.now placed.now }
    requires none { HasNone placed.now.problem }
    ensures { IfOk result (SplitsDeeper algebra.now (question_with prepared.now extras.now) place.now.region.now) }
{
    let wish: &Wish = prepared.wish;
    match wish.strategy {
        Strategy::Fewest | Strategy::RequiresPython => Ok(None),
        Strategy::Deep => {
            let truth = core_truth(alloc, algebra, prepared, extras, place, placed, derivation)?;
            Ok(truth)
        }
    }
}
