//! The trail, call by call.
ghost use Rattle.std.specs.Prelude.{IfOk};
ghost use Rattle.ul_trail.specs.Propagation.{IsTrailOf};

use crate::solver::runs::{begun, pass, run};
use crate::solver::shapes::problem_of;
use crate::solver::told::put;
use std::alloc::{AllocError, Global};
use tests_rows::cells;
use ul_problem::{Problem, Step, Term};
use ul_trail::{Fact, Progress, Trail};

// What is told of a trail on a problem: at its beginning; after one propagation and after two, which find that a isn't
// 2 and that c is 1; after passes, which hold no step of a's versions; and of its decisions before going back to the
// first level, and after it.
const ROWS: &str = "crossed begins: 5 steps, 5 needs, 1 facts, 3 on c, 2 on demo, next 0;\
    crossed passes: 0 excluded, 1 derived, 4 facts;\
    crossed once: 1 excluded, 1 derived, 5 facts;\
    crossed twice: 1 excluded, 1 derived, 5 facts;\
    distant_300 goes back: 200 decisions, next 203, back at 0 with fewer facts, 302 decisions";

// Whether a fact says that a node has, or hasn't, a version.
fn says(fact: &Fact, node: u64, version: u32, positive: bool) -> bool {
    match &fact.term {
        Term::In(other, set) => positive && *other == node && set.has(version),
        Term::NotIn(other, set) => !positive && *other == node && set.has(version),
    }
}

// How many facts of a trail say so.
fn facts_on(facts: &[Fact], node: u64, version: u32, positive: bool) -> usize {
    let mut count = 0usize;
    for fact in facts {
        if says(fact, node, version, positive) {
            count = count.saturating_add(1);
        }
    }
    count
}

fn count_needs(steps: &[Step]) -> u64 {
    let mut count = 0u64;
    for step in steps {
        if let Step::Need { .. } = step {
            count = count.saturating_add(1);
        }
    }
    count
}

// How many needs a trail holds, or the greatest number.
fn needs_of(alloc: Global, trail: &Trail) -> u64 {
    match trail.steps(alloc) {
        Ok(steps) => count_needs(steps.as_slice()),
        Err(_) => u64::MAX,
    }
}

// How many held incompatibilities have a term on a node.
fn watched_on(problem: &Problem, trail: &Trail, node: u64) -> usize
    requires { IsTrailOf problem.now trail.now }
{
    if node as usize >= problem.nodes().len() {
        return 0;
    }
    trail.watched(node).len()
}

// The number of the next node, or the greatest number.
fn next(problem: &Problem, trail: &Trail) -> u64
    requires { IsTrailOf problem.now trail.now }
{
    trail.next(problem).unwrap_or(u64::MAX)
}

fn tell_beginning(alloc: Global, problem: &Problem, trail: &Trail, told: &mut String)
    requires { IsTrailOf problem.now trail.now }
{
    put(told, "", trail.count() as u64);
    put(told, " steps, ", needs_of(alloc, trail));
    put(told, " needs, ", trail.facts().len() as u64);
    put(told, " facts, ", watched_on(problem, trail, 2) as u64);
    put(told, " on c, ", watched_on(problem, trail, 3) as u64);
    put(told, " on demo, next ", next(problem, trail));
}

// Whether a propagation is quiet.
fn is_quiet(alloc: Global, problem: &Problem, trail: &mut Trail) -> Result<bool, AllocError>
    requires { IsTrailOf problem.now trail.old }
    ensures { IfOk result (λ _. IsTrailOf problem.now trail.new) }
{
    let progress = trail.propagate(alloc, problem)?;
    Ok(matches!(progress, Progress::Quiet))
}

// Tells the facts that a isn't 2, those that c is 1, and all facts.
fn tell_facts(facts: &[Fact], told: &mut String) {
    put(told, "", facts_on(facts, 0, 1, false) as u64);
    put(told, " excluded, ", facts_on(facts, 2, 0, true) as u64);
    put(told, " derived, ", facts.len() as u64);
    let _ = told.push_str(" facts");
}

// Tells what a trail has after one propagation or two, if they are quiet.
fn tell_propagated(
    alloc: Global,
    problem: &Problem,
    trail: &mut Trail,
    twice: bool,
    told: &mut String,
) -> Result<(), AllocError>
    requires { IsTrailOf problem.now trail.old }
{
    let once = is_quiet(alloc, problem, trail)?;
    if once && (!twice || is_quiet(alloc, problem, trail)?) {
        tell_facts(trail.facts().as_slice(), told);
    }
    Ok(())
}

// Tells what a trail has after three passes.
fn tell_passed(
    alloc: Global,
    problem: &Problem,
    trail: &mut Trail,
    told: &mut String,
) -> Result<(), AllocError>
    requires { IsTrailOf problem.now trail.old }
{
    for _ in 0..3 {
        pass(alloc, problem, trail)?;
    }
    tell_facts(trail.facts().as_slice(), told);
    Ok(())
}

// Goes to the first level, and tells the next node, and whether facts were taken back.
fn tell_rewound(
    alloc: Global,
    problem: &Problem,
    trail: &mut Trail,
    told: &mut String,
) -> Result<(), AllocError>
    requires { IsTrailOf problem.now trail.old }
    ensures { IfOk result (λ _. IsTrailOf problem.now trail.new) }
{
    let before = trail.facts().len();
    trail.back(alloc, problem, 0, Vec::new(alloc))?;
    put(told, ", back at ", next(problem, trail));
    let fewer = trail.facts().len() < before;
    let _ = told.push_str(if fewer {
        " with fewer facts"
    } else {
        " with no fewer facts"
    });
    Ok(())
}

fn tell_returned(
    alloc: Global,
    problem: &Problem,
    trail: &mut Trail,
    told: &mut String,
) -> Result<(), AllocError>
    requires { IsTrailOf problem.now trail.old }
{
    put(told, "", run(alloc, problem, trail, 200)?.count);
    put(told, " decisions, next ", next(problem, trail));
    tell_rewound(alloc, problem, trail, told)?;
    put(told, ", ", run(alloc, problem, trail, 400)?.count);
    let _ = told.push_str(" decisions");
    Ok(())
}

fn tell(alloc: Global, problem: &Problem, trail: &mut Trail, word: &str, told: &mut String)
    requires { IsTrailOf problem.now trail.old }
{
    let _ = match word {
        "begins" => Ok(tell_beginning(alloc, problem, trail, told)),
        "once" => tell_propagated(alloc, problem, trail, false, told),
        "twice" => tell_propagated(alloc, problem, trail, true, told),
        "passes" => tell_passed(alloc, problem, trail, told),
        _ => tell_returned(alloc, problem, trail, told),
    };
}

// The trail of a case: one that holds no version's steps, or one that holds those of all.
fn trail_of(alloc: Global, problem: &Problem, word: &str) -> Result<Trail, AllocError>
    ensures { IfOk result (λ t. IsTrailOf problem.now t) }
{
    if word == "passes" {
        Trail::begin(alloc, problem)
    } else {
        begun(alloc, problem)
    }
}

fn is_told(alloc: Global, problem: &Problem, word: &str, want: &str) -> bool {
    let mut told = String::new(alloc);
    if let Ok(trail) = trail_of(alloc, problem, word) {
        let mut trail = trail;
        tell(alloc, problem, &mut trail, word, &mut told);
    }
    told.as_str() == want
}

fn is_row(alloc: Global, line: &str) -> bool {
    let (case, want) = line.split_once(": ").unwrap_or((line, ""));
    let (shape, word) = cells(case, ' ');
    match problem_of(alloc, shape, "newest") {
        Some(problem) => is_told(alloc, &problem, word, want),
        None => false,
    }
}

#[test]
fn trails_propagate_and_go_back(rt: HostRuntime) {
    for line in ROWS.split(';') {
        assert!(rt; is_row(rt.alloc(), line), "{line}");
    }
}
