//! The lines of derivations.
use crate::report::problems::{problem_of, steps_of};
use std::alloc::{AllocError, Global};
use std::fmt::Write;
use ul_problem::{Derivation, Problem};
use ul_report::{fits, steps};

// demo with one version, p and p[x] with three, z without versions.
const NODES: &str = "demo 0 1 1.#+local.;p 0 3 1.#+local.;p/x 0 3 1.#+local.;z 0 0";

// The same with 300 versions of p and p[x].
const WIDE: &str = "demo 0 1 1.#+local.;p 0 300 1.#+local.;p/x 0 300 1.#+local.;z 0 0";

// Derivations with a step of each kind, and their lines, or that there are none: of a derivation whose sets of p have
// another size. Then one of many steps.
const ROWS: &str = "need 0 1 0 1>1 3 1 3;python 1 3 0 1;base 2 3 0 0;\
    cut 1 18446744073709551615 1,in 0 1 0 1,not 1 3 0 0,not 2 3 2 3,in 3 0 0 0;cut 3 10 2\n\
    1 need demo {1.0+local.0} p {1.1+local.1,1.2+local.2}\n\
    2 python p {1.0+local.0}\n\
    3 base p[x] {}\n\
    4 cut 1 18446744073709551615 on p: demo {1.0+local.0}, not p[x] {1.2+local.2}, z {}\n\
    5 cut 3 10 on p[x]:\n\
    #need 0 1 0 1>1 4 1 3;python 1 4 0 1;base 2 4 0 0;\
    cut 1 18446744073709551615 1,in 0 1 0 1,not 1 4 0 0,not 2 4 2 3,in 3 0 0 0;cut 3 10 2\n\
    none\
    #long";

// The lines of a derivation; none where it can't be printed.
fn lines_of(alloc: Global, problem: &Problem, text: &str) -> Result<Option<Vec<u8>>, AllocError> {
    let derivation = Derivation::of(steps_of(alloc, text)?);
    if !fits(problem, &derivation) {
        return Ok(None);
    }
    Ok(Some(steps(alloc, problem, &derivation)?))
}

/// Whether these are the lines of a derivation of a problem, or `none`.
pub(crate) fn are_lines(alloc: Global, nodes: &str, text: &str, want: &[u8]) -> bool {
    let Some(problem) = problem_of(alloc, nodes) else {
        return false;
    };
    match lines_of(alloc, &problem, text) {
        Ok(Some(lines)) => lines.as_slice() == want,
        Ok(None) => want == "none".as_bytes(),
        Err(_) => false,
    }
}

// A derivation of 300 steps, each of the versions of p[x] from another one on.
fn long_steps(alloc: Global) -> Result<String, AllocError> {
    let mut text = String::new(alloc);
    for low in 0..300 {
        write!(text, "base 2 300 {low} 300;")?;
    }
    Ok(text)
}

fn count(bytes: &[u8], wanted: u8) -> usize {
    let mut count = 0usize;
    for byte in bytes {
        if *byte == wanted {
            count = count.saturating_add(1);
        }
    }
    count
}

fn long_lines(alloc: Global, problem: &Problem) -> Result<Option<Vec<u8>>, AllocError> {
    let text = long_steps(alloc)?;
    lines_of(alloc, problem, text.as_str())
}

fn has_size(lines: &[u8]) -> bool {
    lines.len() == 716882 && count(lines, b'\n') == 300 && count(lines, b',') == 44850
}

fn is_long(alloc: Global) -> bool {
    let Some(problem) = problem_of(alloc, WIDE) else {
        return false;
    };
    match long_lines(alloc, &problem) {
        Ok(Some(lines)) => has_size(lines.as_slice()),
        _ => false,
    }
}

fn is_row(alloc: Global, row: &str) -> bool {
    match row.split_once('\n') {
        Some((text, want)) => are_lines(alloc, NODES, text, want.as_bytes()),
        None => is_long(alloc),
    }
}

#[test]
fn steps_have_their_lines(rt: HostRuntime) {
    for row in ROWS.split('#') {
        assert!(rt; is_row(rt.alloc(), row), "{row}");
    }
}
