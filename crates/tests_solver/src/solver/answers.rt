//! The solver on problems.
use crate::solver::shapes::problem_of;
use crate::solver::told::put;
use std::alloc::Global;
use tests_rows::cells;
use ul_derivation::accepts;
use ul_problem::Problem;
use ul_solver::{Answer, solve};

// The order of versions, a problem, and the answer on it: the decisions in their order, each a node's place and its
// version's; `far`, those on the problem with a clash behind many packages, a at 1 and then each u at 2; or nothing, by
// an accepted derivation. An order that is a number puts that version first. In `at_once` a version clashes with what
// was known before it is decided; in `chained` the clash comes of b and c, which are certain once a is decided.
const ROWS: &str = "newest crossed 3:0 0:0 1:0 2:0;\
    newest chained 4:0 0:0 5:1 3:0;\
    newest alone 1:0 0:0;\
    newest extra 0:0 1:1 2:1 3:0;\
    newest extra_below_2 0:0 1:0 2:0 3:0;\
    newest pins 1:0 4:1 2:0 0:1 3:1;\
    newest at_once 1:0 0:0 2:0;\
    oldest at_once 1:0 0:0 2:0;\
    2 at_once 1:0 0:0 2:0;\
    newest spare 1:0 0:7 2:0;\
    newest three 1:0 0:2;\
    oldest three 1:0 0:0;\
    1 three 1:0 0:1;\
    0 later 1:0 0:2;\
    oldest crossed 3:0 0:0 1:0 2:0;\
    oldest chained 4:0 0:0 5:0 3:0;\
    newest missed nothing;\
    newest opposed nothing;\
    newest hopeless nothing;\
    newest no_extra nothing;\
    newest pigeons nothing;\
    newest distant_40 far;\
    newest distant_2000 far";

// A problem, and how many steps the trail of its best selection holds: for demo's needs, and for those of the versions
// of a that were about to be decided.
const HELD: &str = "alone 1;spare 2;at_once 4";

fn put_pick(told: &mut String, node: u64, version: u64) {
    put(told, if told.is_empty() { "" } else { " " }, node);
    put(told, ":", version);
}

fn picks_text(alloc: Global, picks: &[(u64, u32)]) -> String {
    let mut told = String::new(alloc);
    for (node, version) in picks {
        put_pick(&mut told, *node, *version as u64);
    }
    told
}

// The far decisions on as many nodes: not on b, e and x.
fn far_text(alloc: Global, count: usize) -> String {
    let mut told = String::new(alloc);
    put_pick(&mut told, 2, 0);
    put_pick(&mut told, 0, 0);
    for node in 4..count.saturating_sub(1) {
        put_pick(&mut told, node as u64, 1);
    }
    told
}

fn are_picks(alloc: Global, problem: &Problem, picks: &[(u64, u32)], want: &str) -> bool {
    let told = picks_text(alloc, picks);
    if want == "far" {
        return told.as_str() == far_text(alloc, problem.nodes().len()).as_str();
    }
    told.as_str() == want
}

fn is_told(alloc: Global, problem: &Problem, answer: &Answer, want: &str) -> bool {
    match answer {
        Answer::Best { picks, .. } => are_picks(alloc, problem, picks.as_slice(), want),
        Answer::Nothing(derivation) => {
            want == "nothing" && accepts(alloc, problem, derivation).is_ok()
        }
    }
}

fn is_answer(alloc: Global, problem: &Problem, want: &str) -> bool {
    match solve(alloc, problem) {
        Ok(answer) => is_told(alloc, problem, &answer, want),
        Err(_) => false,
    }
}

fn is_row(alloc: Global, line: &str) -> bool {
    let (order, rest) = cells(line, ' ');
    let (shape, want) = cells(rest, ' ');
    match problem_of(alloc, shape, order) {
        Some(problem) => is_answer(alloc, &problem, want),
        None => false,
    }
}

fn is_held(alloc: Global, problem: &Problem, want: &str) -> bool {
    match solve(alloc, problem) {
        Ok(Answer::Best { trail, .. }) => want.parse::<usize>() == Ok(trail.count()),
        _ => false,
    }
}

#[test]
fn steps_of_few_versions_are_held(rt: HostRuntime) {
    for line in HELD.split(';') {
        let (shape, want) = cells(line, ' ');
        let told = match problem_of(rt.alloc(), shape, "newest") {
            Some(problem) => is_held(rt.alloc(), &problem, want),
            None => false,
        };
        assert!(rt; told, "{line}");
    }
}

#[test]
fn the_best_selection_or_a_derivation_is_answered(rt: HostRuntime) {
    for line in ROWS.split(';') {
        assert!(rt; is_row(rt.alloc(), line), "{line}");
    }
}
