//! Conflict analysis: from the conflict down the facts, a cut at each fact that takes part, until the resolvent derives something at a
//! lower level, or forbids the roots.
ghost use Rattle.std.specs.Prelude.{◌≡◌, ◌≤◌, ◌<◌, List, Some, length, slice_get, IfOk};
ghost use Rattle.ul_problem.specs.Steps.{AreRootTerms, AreTermsOf, Accepts};
ghost use Rattle.ul_problem.specs.declared.term.Term.{Term};
ghost use Rattle.ul_trail.specs.Propagation.{IsTrailOf, IsConflict};
ghost use Rattle.ul_conflict.specs.Headline.{IsOutcome};
ghost use Rattle.ul_conflict.specs.Resolved.{IsResolvedBy, IsTurned, IsCut, IsLevelBefore, LeadsBackOf};

use crate::held::place_of;
use crate::pruning::derivation_of;
use crate::satisfier::satisfier;
use std::alloc::{AllocError, Global};
use ul_problem::{Derivation, Incompat, Problem, Step, resolvent};
use ul_trail::{Fact, Trail};

/// What conflict analysis comes to.
#[derive(Drop)]
pub enum Outcome {
    /// The level to go back to, and the steps learned. The last of them derives something new there.
    Backjump { level: u64, learned: Vec<Step> },
    /// An accepted derivation.
    Closed(Derivation),
}

/// The present resolvent: its terms, the number of the step that says it, and the steps learned.
#[derive(Drop)]
pub struct Resolvent {
    pub terms: Incompat,
    pub number: u64,
    pub learned: Vec<Step>,
}

/// What a turn comes to.
#[derive(Clone, Copy)]
pub enum Turn {
    /// The facts before this place hold the new resolvent.
    Down(usize),
    /// The resolvent derives something at this level.
    Jump(u64),
    /// The resolvent forbids the roots.
    Close,
}

// The resolvent with the incompatibility at the place `cause`, on a node. Where a held step says it already, none is learned.
fn cut(
    alloc: Global,
    problem: &Problem,
    trail: &Trail,
    resolved: &mut Resolvent,
    node: u64,
    cause: u64,
) -> Result<(), AllocError>
    requires right { IsTrailOf problem.now trail.now }
    requires cause { cause < length trail.now.terms }
    requires step { cause < length trail.now.steps }
    requires left { AreTermsOf problem.now resolved.old.terms }
    requires fits { (ts : List Term) → slice_get trail.now.terms cause ≡ Some ts → AreTermsOf problem.now ts }
    ensures { IfOk result (λ _. IsCut problem.now trail.now node cause resolved.old resolved.new) }
{
    let count = trail.count();
    let terms = resolvent(alloc, node, &resolved.terms, trail.terms(cause))?;
    let found = place_of(problem, trail, &terms);
    match found {
        Some(place) => {
            resolved.number = place + 1;
        }
        None => {
            let copy = terms.to_terms(alloc)?;
            let left = resolved.number;
            resolved.learned.push(Step::Cut {
                left,
                right: cause + 1,
                node,
                terms: copy,
            })?;
            resolved.number = (count + resolved.learned.len()) as u64;
        }
    }
    resolved.terms = terms;
    Ok(())
}

// The level of the fact before a place, or 0.
fn level_before(facts: &[Fact], place: usize) -> u64
    requires { place ≤ length facts.now }
    ensures { IsLevelBefore facts.now place result }
{
    if place == 0 {
        0
    } else {
        facts[place - 1].level
    }
}

// One turn: down to the fact that holds the resolvent. Where all other terms hold at a lower level, that's where to go back to; else the
// fact is cut away.
fn advance(
    alloc: Global,
    problem: &Problem,
    trail: &Trail,
    resolved: &mut Resolvent,
    place: usize,
) -> Result<Turn, AllocError>
    requires right { IsTrailOf problem.now trail.now }
    requires state { IsResolvedBy problem.now trail.now resolved.old place }
    ensures { IfOk result (λ r. IsTurned problem.now trail.now resolved.new place r) }
{
    let _ = problem.roots();
    let at = satisfier(problem, trail, resolved.terms.terms(), None, place);
    if at == 0 {
        return Ok(Turn::Close);
    }
    let fact = &trail.facts()[at - 1];
    let node = fact.term.node();
    let before = satisfier(problem, trail, resolved.terms.terms(), Some(node), at - 1);
    let level = level_before(trail.facts(), before);
    if level < fact.level {
        return Ok(Turn::Jump(level));
    }
    match fact.cause {
        None => Ok(Turn::Close),
        Some(cause) => {
            cut(alloc, problem, trail, resolved, node, cause)?;
            Ok(Turn::Down(at - 1))
        }
    }
}

// The conflict itself as the first resolvent.
fn start(
    alloc: Global,
    problem: &Problem,
    trail: &Trail,
    conflict: u64,
) -> Result<Resolvent, AllocError>
    requires right { IsTrailOf problem.now trail.now }
    requires conflict { IsConflict problem.now trail.now conflict }
    requires place { conflict < length trail.now.terms }
    requires step { conflict < length trail.now.steps }
    ensures { IfOk result (λ r. IsResolvedBy problem.now trail.now r (length trail.now.facts)) }
{
    let _ = problem.roots();
    let count = trail.count() as u64;
    let terms = trail.terms(conflict).copy(alloc)?;
    Ok(Resolvent {
        terms,
        number: (conflict + 1).min(count),
        learned: Vec::new(alloc),
    })
}

// The backjump to a level. The last learned step says the resolvent: where a held step does, it's learned once more.
fn jump(
    alloc: Global,
    problem: &Problem,
    trail: &Trail,
    level: u64,
    resolved: Resolvent,
) -> Result<Outcome, AllocError>
    requires right { IsTrailOf problem.now trail.now }
    requires jump { LeadsBackOf problem.now trail.now level resolved }
    ensures { IfOk result (λ o. IsOutcome problem.now trail.now o) }
{
    let _ = problem.roots();
    let number = resolved.number as usize;
    let mut learned = resolved.learned;
    if number > trail.count() {
        return Ok(Outcome::Backjump { level, learned });
    }
    let again = trail.step(alloc, number - 1)?;
    learned.push(again)?;
    Ok(Outcome::Backjump { level, learned })
}

// The derivation that the resolvent, which forbids the roots, ends.
fn closed(
    alloc: Global,
    problem: &Problem,
    trail: &Trail,
    resolved: Resolvent,
    place: usize,
) -> Result<Derivation, AllocError>
    requires right { IsTrailOf problem.now trail.now }
    requires state { IsResolvedBy problem.now trail.now resolved place }
    requires roots { AreRootTerms problem.now resolved.terms }
    ensures { IfOk result (λ d. Accepts problem.now d) }
{
    let _ = place;
    let held = trail.steps(alloc)?;
    let learned = resolved.learned.as_slice();
    let derivation = derivation_of(alloc, problem, held.as_slice(), learned, resolved.number)?;
    Ok(derivation)
}

/// What a conflict comes to: a level to go back to with the steps learned, or an accepted derivation.
pub fn resolve(
    alloc: Global,
    problem: &Problem,
    trail: &Trail,
    conflict: u64,
) -> Result<Outcome, AllocError>
    requires right { IsTrailOf problem.now trail.now }
    requires conflict { IsConflict problem.now trail.now conflict }
    ensures { IfOk result (λ o. IsOutcome problem.now trail.now o) }
{
    let mut resolved = start(alloc, problem, trail, conflict)?;
    let mut place = trail.facts().len();
    loop {
        let turn = advance(alloc, problem, trail, &mut resolved, place)?;
        match turn {
            Turn::Down(next) => {
                place = next;
            }
            Turn::Jump(level) => {
                let outcome = jump(alloc, problem, trail, level, resolved)?;
                return Ok(outcome);
            }
            Turn::Close => {
                let derivation = closed(alloc, problem, trail, resolved, place)?;
                return Ok(Outcome::Closed(derivation));
            }
        }
    }
}
