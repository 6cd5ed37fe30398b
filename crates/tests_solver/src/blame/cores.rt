//! Cores of problems and their lines.
ghost use Rattle.ul_blame.specs.Core.{IsCore};

use crate::problem_texts::read_problem;
use std::alloc::{AllocError, Global};
use tests_rows::put;
use ul_blame::{CoreNeed, core, core_by, lines};
use ul_problem::Problem;
use ul_solver::{Answer, solve};

// A problem and its core's lines, or `served`.
//
// The first two are a package of which each version lacks its need, and a package without a version that is permitted.
// Of the need of an extra none is met, and the one of its base is left out; where the base may have other versions than
// the extra alone, both stay. In the next the first pair of needs that clash is left out, since the second clashes as
// well: a derivation that used the first is replaced. Then a chain, a need that only what isn't fit would meet, two
// packages whose versions all clash, and two problems that are served.
const ROWS: &str =
    "0 demo|1 2 0 1;q|2 0 0 0|2 0 0 0;z => core: 2, demo 1 needs q {1}, q 1 needs z {}\n\
    1 a|;demo|0 1 1 1 => core: 1, demo 1 needs a {}\n\
    0 demo|1 3 0 3,2 3 0 0;p 2|||;p/x 2|3 1 0 1|3 1 0 1|;q| => core: 1, demo 1 needs p[x] {}\n\
    0 demo|1 2 0 1,2 2 1 2;p||;p/x|| => core: 2, demo 1 needs p {1}, demo 1 needs p[x] {2}\n\
    2 a||;b||;demo|0 2 0 1,0 2 1 2,1 2 0 1,1 2 1 2 => core: 2, demo 1 needs b {1}, demo 1 needs b {2}\n\
    4 a|1 1 0 1;b|2 1 0 1;c|3 1 0 1;d|5 2 0 1;demo|0 1 0 1,5 2 1 2;x|| => core: 6, a 1 needs b {1}, b 1 needs c {1}, \
    c 1 needs d {1}, d 1 needs x {1}, demo 1 needs a {1}, demo 1 needs x {2}\n\
    1 a 1||;demo|0 2 1 2 => core: 1, demo 1 needs a {2}\n\
    3 a|2 2 0 1|2 2 0 1;b|2 2 1 2|2 2 1 2;c||;demo|0 2 0 2,1 2 0 2 => core: 6, a 1 needs c {1}, a 2 needs c {1}, \
    b 1 needs c {2}, b 2 needs c {2}, demo 1 needs a {1,2}, demo 1 needs b {1,2}\n\
    1 a||;demo|0 2 0 2 => served\n\
    0 demo|1 3 0 3,2 3 0 1;p 2|||;p/x 2|3 1 0 1|3 1 0 1|;q| => served";

// The parts of a text, each on a line of its own.
fn text_of(alloc: Global, parts: &str) -> String {
    let mut text = String::new(alloc);
    for part in parts.split(", ") {
        put(&mut text, part);
        put(&mut text, "\n");
    }
    text
}

// The lines of a core.
fn are_lines(alloc: Global, problem: &Problem, core: &[CoreNeed], want: &str) -> bool
    requires { IsCore problem.now core.now }
{
    ul_blame::laws::core_laws();
    match lines(alloc, problem, core) {
        Ok(lines) => lines.as_slice() == text_of(alloc, want).as_str().as_bytes(),
        Err(AllocError) => false,
    }
}

// Whether the core by the solver's derivation has the lines too.
fn is_by(alloc: Global, problem: &Problem, want: &str) -> bool {
    match solve(alloc, problem) {
        Ok(Answer::Nothing(derivation)) => match core_by(alloc, problem, &derivation) {
            Ok(core) => are_lines(alloc, problem, core.as_slice(), want),
            Err(AllocError) => false,
        },
        _ => false,
    }
}

/// Whether the core of a problem has the lines, or some selection serves.
pub(crate) fn is_core(alloc: Global, problem: &Problem, want: &str) -> bool {
    match core(alloc, problem) {
        Ok(Some(core)) => are_lines(alloc, problem, core.as_slice(), want)
            && is_by(alloc, problem, want),
        Ok(None) => want == "served",
        Err(AllocError) => false,
    }
}

fn is_row(alloc: Global, line: &str) -> bool {
    let (text, want) = line.split_once(" => ").unwrap_or((line, ""));
    match read_problem(alloc, text, "newest") {
        Some(problem) => is_core(alloc, &problem, want),
        None => false,
    }
}

#[test]
fn the_core_of_a_problem_has_its_lines(rt: HostRuntime) {
    for line in ROWS.split('\n') {
        assert!(rt; is_row(rt.alloc(), line), "{line}");
    }
}
