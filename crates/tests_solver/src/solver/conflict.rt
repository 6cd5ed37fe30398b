//! What conflicts come to.
ghost use Rattle.std.specs.Prelude.{IfOk};
ghost use Rattle.ul_trail.specs.Propagation.{IsTrailOf, IsConflict};
ghost use Rattle.ul_conflict.specs.Headline.{IsOutcome};

use crate::solver::runs::{begun, decided, pass, run};
use crate::solver::shapes::problem_of;
use crate::solver::told::put;
use std::alloc::{AllocError, Global};
use ul_conflict::{Outcome, resolve};
use ul_derivation::accepts;
use ul_problem::{Derivation, Problem, Step};
use ul_trail::Trail;

// A problem, and what its first conflict comes to. In `crossed` the first decision is a at 2, whose steps are held only
// then, against a need that b at 1 has; its own need is learned once more. In `distant_40` the conflict goes back to a:
// x is 3 or 4, which b clashes with at once. In `pigeons` three cuts lead back from the third decision. The other two
// are closed by two needs and their cut.
const ROWS: &str = "crossed: 0 decisions, back to 0 by 1 steps with 0 cuts, 3 decisions;\
    distant_40: 42 decisions, back to 1 by 1 steps with 1 cuts, 0 decisions;\
    pigeons: 3 decisions, back to 2 by 3 steps with 3 cuts, 0 decisions;\
    opposed: 0 decisions, closed by 3 steps with 1 cuts;\
    hopeless: 0 decisions, closed by 3 steps with 1 cuts";

fn cuts(steps: &[Step]) -> u64 {
    let mut count = 0u64;
    for step in steps {
        if let Step::Cut { .. } = step {
            count = count.saturating_add(1);
        }
    }
    count
}

// Tells how many steps there are, and how many cuts among them.
fn tell_steps(steps: &[Step], told: &mut String) {
    put(told, " by ", steps.len() as u64);
    put(told, " steps with ", cuts(steps));
    let _ = told.push_str(" cuts");
}

fn tell_closed(alloc: Global, problem: &Problem, derivation: &Derivation, told: &mut String) {
    if accepts(alloc, problem, derivation).is_ok() {
        let _ = told.push_str(" decisions, closed");
        tell_steps(derivation.as_slice(), told);
    }
}

fn tell_outcome(
    alloc: Global,
    problem: &Problem,
    trail: &mut Trail,
    outcome: Outcome,
    told: &mut String,
) -> Result<(), AllocError>
    requires right { IsTrailOf problem.now trail.old }
    requires outcome { IsOutcome problem.now trail.old outcome }
{
    match outcome {
        Outcome::Closed(derivation) => {
            tell_closed(alloc, problem, &derivation, told);
            drop(derivation);
        }
        Outcome::Backjump { level, learned } => {
            put(told, " decisions, back to ", level);
            tell_steps(learned.as_slice(), told);
            trail.back(alloc, problem, level, learned)?;
            put(told, ", ", run(alloc, problem, trail, 100)?.count);
            let _ = told.push_str(" decisions");
        }
    }
    Ok(())
}

// Tells the first conflict. Where there is a wish, it is what is decided first, behind two passes.
fn tell_conflict(
    alloc: Global,
    problem: &Problem,
    trail: &mut Trail,
    wish: Option<u32>,
    told: &mut String,
) -> Result<(), AllocError>
    requires { IsTrailOf problem.now trail.old }
{
    if wish.is_some() {
        pass(alloc, problem, trail)?;
        pass(alloc, problem, trail)?;
        let _ = decided(alloc, problem, trail, wish)?;
    }
    let before = run(alloc, problem, trail, 100)?;
    put(told, "", before.count);
    match before.conflict {
        None => Ok(()),
        Some(place) => {
            let outcome = resolve(alloc, problem, trail, place)?;
            tell_outcome(alloc, problem, trail, outcome, told)
        }
    }
}

// A trail that holds the steps of all versions, or with a wish those of none.
fn trail_of(alloc: Global, problem: &Problem, wish: Option<u32>) -> Result<Trail, AllocError>
    ensures { IfOk result (λ t. IsTrailOf problem.now t) }
{
    if wish.is_some() {
        Trail::begin(alloc, problem)
    } else {
        begun(alloc, problem)
    }
}

fn is_told(alloc: Global, problem: &Problem, wish: Option<u32>, want: &str) -> bool {
    let mut told = String::new(alloc);
    if let Ok(trail) = trail_of(alloc, problem, wish) {
        let mut trail = trail;
        let _ = tell_conflict(alloc, problem, &mut trail, wish, &mut told);
    }
    told.as_str() == want
}

fn is_row(alloc: Global, line: &str) -> bool {
    let (shape, want) = line.split_once(": ").unwrap_or((line, ""));
    let wish = if shape == "crossed" { Some(1) } else { None };
    match problem_of(alloc, shape, "newest") {
        Some(problem) => is_told(alloc, &problem, wish, want),
        None => false,
    }
}

#[test]
fn a_conflict_is_learned_from_or_closes(rt: HostRuntime) {
    for line in ROWS.split(';') {
        assert!(rt; is_row(rt.alloc(), line), "{line}");
    }
}
