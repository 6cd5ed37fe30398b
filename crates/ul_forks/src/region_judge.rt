//! The judge of regions: what becomes of one region, by its problem.
ghost use Rattle.std.specs.Prelude.{◌≡◌, IfOk};
ghost use Rattle.ul_interner.specs.Known.{Knows};
ghost use Rattle.ul_problem.specs.Best.{IsBest as IsBestOf};
ghost use Rattle.ul_problem.specs.Serving.{HasNone};
ghost use Rattle.ul_problem.specs.Steps.{Accepts};
ghost use Rattle.ul_generations.specs.Outcomes.{IsKnown};
ghost use Rattle.ul_region.specs.Asked.{IsInRegion};
ghost use Rattle.ul_region.specs.Truths.{IsRegion, region_at};
ghost use Rattle.ul_placing.specs.Placed.{ArePlaced};
ghost use Rattle.ul_forks.specs.Judged.{IsJudged};
ghost use Rattle.ul_forks.specs.Judge.{IsProblemIn, IsReadyJudge, question_in};

use crate::children::children_of;
use crate::core_split::deeper_truth;
use crate::fork::Decisions;
use crate::picks::{chosen_of, named_picks};
use std::alloc::{AllocError, Global};
use std::sync::Wait;
use ul_algebra::{Algebra, Diagram, DiagramLabel, DiagramPass};
use ul_base::Name;
use ul_base::owned::beside;
use ul_generations::{Judge, Outcome};
use ul_interner::Interner;
use ul_placing::{Placed, problem_in};
use ul_prepared::Prepared;
use ul_problem::Derivation;
use ul_region::InRegion;
use ul_solver::{Answer, solve};
use ul_split::split_in;

// What becomes of one region.
type Judged = Outcome<Diagram, Decisions, Derivation>;

// Judges regions by the problems that it makes of what all regions share.
#[derive(Drop)]
pub(crate) struct RegionJudge<'a, 'p> {
    pub(crate) prepared: &'a Prepared<'p>,
    // The project's extras that are asked for.
    pub(crate) extras: &'a [Name],
}

// What becomes of a region whose problem has these best picks: it is done, or split.
fn judge_picks<R: Wait>(
    rt: &R,
    alloc: Global,
    judge: &RegionJudge<'_, '_>,
    algebra: &mut Algebra<'_>,
    place: &InRegion<'_>,
    placed: &Placed,
    picks: &[(u64, u32)],
) -> Result<Judged, AllocError>
    requires ready { IsReadyJudge algebra.old judge.now }
    requires place { IsInRegion algebra.old place.now }
    requires truths { place.now.truths.now ≡ judge.now.prepared.now.truths.marks.items }
    requires problem { IsProblemIn judge.now (region_at place.now.region.now) placed.now.problem }
    requires places { ArePlaced judge.now.prepared.now placed.now.problem placed.now.places.items }
    requires best { IsBestOf placed.now.problem picks.now }
    ensures knows { Knows algebra.old algebra.new }
    ensures outcome { IfOk result (IsJudged (question_in judge.now) place.now.region.now) }
    ensures known { IfOk result (IsKnown (IsRegion algebra.new) (λ _. Unit {0}) (λ _. Unit {0})) }
{
    ul_region::laws::best_names();
    let chosen = chosen_of(alloc, judge.prepared, placed, picks)?;
    let found = split_in(algebra, place, chosen.as_slice())?;
    match found {
        None => {
            let decisions = named_picks(alloc, &placed.problem, picks)?;
            Ok(Outcome::Done(decisions))
        }
        Some(truth) => {
            let (first, second) = children_of(rt, alloc, algebra, place.region, &truth)?;
            Ok(Outcome::Split(first, second))
        }
    }
}

// What becomes of a region that nothing serves, by a derivation: it is split by its core where the strategy says so,
// and refused otherwise.
fn judge_refused<R: Wait>(
    rt: &R,
    alloc: Global,
    judge: &RegionJudge<'_, '_>,
    algebra: &mut Algebra<'_>,
    place: &InRegion<'_>,
    placed: &Placed,
    derivation: Derivation,
) -> Result<Judged, AllocError>
    requires ready { IsReadyJudge algebra.old judge.now }
    requires place { IsInRegion algebra.old place.now }
    requires truths { place.now.truths.now ≡ judge.now.prepared.now.truths.marks.items }
    requires problem { IsProblemIn judge.now (region_at place.now.region.now) placed.now.problem }
    requires places { ArePlaced judge.now.prepared.now placed.now.problem placed.now.places.items }
    requires none { HasNone placed.now.problem }
    requires accepted { Accepts placed.now.problem derivation }
    ensures knows { Knows algebra.old algebra.new }
    ensures outcome { IfOk result (IsJudged (question_in judge.now) place.now.region.now) }
    ensures known { IfOk result (IsKnown (IsRegion algebra.new) (λ _. Unit {0}) (λ _. Unit {0})) }
{
    let found = deeper_truth(
        alloc,
        algebra,
        judge.prepared,
        judge.extras,
        place,
        placed,
        &derivation,
    );
    let (derivation, found) = beside(derivation, found)?;
    match found {
        None => Ok(Outcome::Refused(derivation)),
        Some(truth) => {
            drop(derivation);
            let (first, second) = children_of(rt, alloc, algebra, place.region, &truth)?;
            Ok(Outcome::Split(first, second))
        }
    }
}

// What becomes of a region, by its problem.
fn judge_problem<R: Wait>(
    rt: &R,
    alloc: Global,
    judge: &RegionJudge<'_, '_>,
    algebra: &mut Algebra<'_>,
    place: &InRegion<'_>,
    placed: &Placed,
) -> Result<Judged, AllocError>
    requires ready { IsReadyJudge algebra.old judge.now }
    requires place { IsInRegion algebra.old place.now }
    requires truths { place.now.truths.now ≡ judge.now.prepared.now.truths.marks.items }
    requires problem { IsProblemIn judge.now (region_at place.now.region.now) placed.now.problem }
    requires places { ArePlaced judge.now.prepared.now placed.now.problem placed.now.places.items }
    ensures knows { Knows algebra.old algebra.new }
    ensures outcome { IfOk result (IsJudged (question_in judge.now) place.now.region.now) }
    ensures known { IfOk result (IsKnown (IsRegion algebra.new) (λ _. Unit {0}) (λ _. Unit {0})) }
{
    match solve(alloc, &placed.problem)? {
        Answer::Nothing(derivation) => {
            let judged = judge_refused(rt, alloc, judge, algebra, place, placed, derivation)?;
            Ok(judged)
        }
        Answer::Best { picks, trail: _ } => {
            let judged = judge_picks(rt, alloc, judge, algebra, place, placed, picks.as_slice())?;
            Ok(judged)
        }
    }
}

// What becomes of a region, on an algebra that is the job's own.
fn judge_in<R: Wait>(
    rt: &R,
    alloc: Global,
    judge: &RegionJudge<'_, '_>,
    algebra: &mut Algebra<'_>,
    region: &Diagram,
) -> Result<Judged, AllocError>
    requires ready { IsReadyJudge algebra.old judge.now }
    requires region { IsRegion algebra.old region.now }
    ensures knows { Knows algebra.old algebra.new }
    ensures outcome { IfOk result (IsJudged (question_in judge.now) region.now) }
    ensures known { IfOk result (IsKnown (IsRegion algebra.new) (λ _. Unit {0}) (λ _. Unit {0})) }
{
    let prepared = judge.prepared;
    let place = InRegion::of(rt, alloc, algebra, region, prepared.truths.marks())?;
    let placed = problem_in(alloc, prepared, algebra, &place)?;
    let judged = judge_problem(rt, alloc, judge, algebra, &place, &placed)?;
    Ok(judged)
}

impl<'a, 'p> Judge<DiagramLabel> for RegionJudge<'a, 'p> {
    type Region = Diagram;

    type Done = Decisions;

    type Refusal = Derivation;

    ghost use Rattle.ul_region.specs.Truths.{IsRegion, region_at};
    ghost use Rattle.ul_region.proofs.ForCallers.{truth_still};
    ghost use Rattle.ul_forks.specs.Judged.{IsJudged};
    ghost use Rattle.ul_forks.specs.Judge.{IsReadyJudge, question_in};
    ghost use Rattle.ul_prepared.proofs.ForCallers.{prepared_still};

    ghost ready = { λ j h. IsReadyJudge h j };

    ghost may = { λ _ _. Unit {0} };

    ghost outcome = { λ j m o. IsJudged (question_in j) m o };

    ghost region_known = { λ h m. IsRegion h m };

    ghost done_known = { λ _ _. Unit {0} };

    ghost refusal_known = { λ _ _. Unit {0} };

    ghost ready_stays = { λ j g h more r. record {
      prepared = prepared_still g h j.prepared.now more r.prepared;
      starts = r.starts;
      project = r.project;
    } };

    ghost region_stays = { λ g h m more r. truth_still g h m (region_at m) more r };

    ghost done_stays = { λ g h d more r. r };

    ghost refusal_stays = { λ g h f more r. r };

    fn judge<R: Wait>(
        &self,
        rt: &R,
        alloc: Global,
        interner: &Interner<DiagramLabel>,
        pass: &mut DiagramPass,
        region: &Diagram,
    ) -> Result<Judged, AllocError> {
        let own = interner.split(pass);
        let mut algebra = Algebra::begin(alloc, interner, own);
        let judged = judge_in(rt, alloc, self, &mut algebra, region);
        let own = algebra.end();
        interner.join(pass, own);
        judged
    }
}
