//! Reading derivation files, and judging what was read.
use crate::report::problems::{front, number, problem_of};
use crate::report::texts::{FORK, text_of};
use crate::report::{printed, refused};
use std::alloc::{AllocError, Global};
use std::fmt::Write;
use ul_derivation::AcceptFault;
use ul_problem::Problem;
use ul_report::Steps;
use ul_report_judge::judge;
use ul_report_read::{ProofFault, read};

// demo 0.1 needs q {1}, both versions of q, 1 and 2, need z {}, and z has no versions.
const NODES: &str = "demo 1 1 0.,1 2 0 1;q 1 2,2 0 0 0;z 1 0";

// The same with 300 versions of q.
const WIDE: &str = "demo 1 1 0.,1 300 0 1;q 1 300,2 0 0 0;z 1 0";

// What is tried, a case a row, each a text: `@` is the four lines of a fork, and `|` ends a line. The first word says
// what the next one is:
//
// line: the first wrong line, or 0.
// step: the faulty step, or 0 where the derivation is accepted.
// printed: the same, and the text is printed so.
// long: the same of a text of 60 steps of 300 versions each.
// deep: the first wrong line of three lines whose region has so many nodes on a path.
const ROWS: &str = "line 0 @\n\
    line 0 @1 need demo {0.1} q {1}|2 need q {1} z {}|3 cut 1 2 on q: demo {0.1}|\n\
    line 0 @1 python p {}|2 base p[x-1] {1!2a3.post4.dev5+local.6,2!0}|\n\
    line 0 @1 cut 0 18446744073709551615 on q:|\n\
    line 0 @1 cut 9 9 on p: p {}, not p[x] {1}, q {1,2}|\n\
    line 0 @1 cut 1 1 on not: not {1}|2 cut 1 1 on not: not not {1}|\n\
    line 1\n\
    line 1 no selection serves this fork\n\
    line 1 no selection serves this fork |\n\
    line 2 no selection serves this fork|\n\
    line 2 no selection serves this fork|fork: |\n\
    line 2 no selection serves this fork|fork: 2|\n\
    line 2 no selection serves this fork|fork: -0|\n\
    line 3 no selection serves this fork|fork: -|\n\
    line 3 no selection serves this fork|fork: 01|region: sys_platform=='win32'|\n\
    line 3 no selection serves this fork|fork: 01|region: extra == 'a'|\n\
    line 4 no selection serves this fork|fork: 01|region: *|\n\
    line 4 no selection serves this fork|fork: 01|region: *|world: |\n\
    line 5 @2 need demo {0.1} q {1}|\n\
    line 5 @01 need demo {0.1} q {1}|\n\
    line 5 @1 need demo {0.1} q {1}\n\
    line 5 @1 need demo {0.1} q {1} |\n\
    line 5 @1 need demo {0.1}  q {1}|\n\
    line 5 @1 need demo {2,1} q {1}|\n\
    line 5 @1 need demo {1,1.0} q {1}|\n\
    line 5 @1 need demo {1, 2} q {1}|\n\
    line 5 @1 need demo {01} q {1}|\n\
    line 5 @1 need Demo {1} q {1}|\n\
    line 5 @1 need demo q {1}|\n\
    line 5 @1 needs demo {1} q {1}|\n\
    line 5 @1 base p[x]] {1}|\n\
    line 5 @1 base p[] {1}|\n\
    line 5 @1 cut 00 1 on q:|\n\
    line 5 @1 cut 1 18446744073709551616 on q:|\n\
    line 5 @1 cut 1 2 on q: |\n\
    line 5 @1 cut 1 2 on q: demo {1},|\n\
    line 5 @1 cut 1 2 on q: demo {1},q {1}|\n\
    line 5 @1 cut 1 2 on q: q {1}, demo {1}|\n\
    line 5 @1 cut 1 2 on q: q {1}, not q {2}|\n\
    line 5 @1 cut 1 2 on q: not q {}|\n\
    line 6 @1 python p {}||\n\
    step 0 @1 need demo {0.1} q {1}|2 need q {1} z {}|3 cut 1 2 on q: demo {0.1}|\n\
    step 0 @1 need demo {0.1.0} q {1.0.0}|2 need q {1.0} z {}|3 cut 1 2 on q: demo {0.1}|\n\
    step 0 @1 need demo {0.1} q {1,2}|2 need q {1,2} z {}|3 cut 2 1 on q: demo {0.1}|\n\
    step 1 @\n\
    step 1 @1 need demo {2} q {1}|2 need q {1} z {}|3 cut 1 2 on q: demo {0.1}|\n\
    step 1 @1 need demo {0.1} r {1}|\n\
    step 1 @1 need demo {0.1} q {}|\n\
    step 1 @1 base q {1}|\n\
    step 1 @1 python q {1}|\n\
    step 2 @1 need demo {0.1} q {1}|\n\
    step 2 @1 need demo {0.1} q {1}|2 need q {1} z {0}|3 cut 1 2 on q: demo {0.1}|\n\
    step 3 @1 need demo {0.1} q {1}|2 need q {1} z {}|3 cut 1 2 on q:|\n\
    step 3 @1 need demo {0.1} q {1}|2 need q {1} z {}|3 cut 1 2 on q: not demo {0.1}|\n\
    step 3 @1 need demo {0.1} q {1}|2 need q {1} z {}|3 cut 1 2 on demo: demo {0.1}|\n\
    step 3 @1 need demo {0.1} q {1}|2 need q {1} z {}|3 cut 0 2 on q: demo {0.1}|\n\
    step 3 @1 need demo {0.1} q {1}|2 need q {1} z {}|3 cut 1 3 on q: demo {0.1}|\n\
    step 3 @1 need demo {0.1} q {1}|2 need q {1} z {}|3 cut 1 2 on q: demo {0.1}, r {1}|\n\
    step 4 @1 need demo {0.1} q {1}|2 need q {1} z {}|3 need q {1} z {}|\n\
    printed 0 @1 need demo {0.1} q {1}|2 need q {1} z {}|3 cut 1 2 on q: demo {0.1}|\n\
    long 61\n\
    deep 4 512\n\
    deep 3 513";

// What the printed row is printed of: the two needs, and their cut.
const STEPS: &str = "need 0 1 0 1>1 2 0 1;need 1 2 0 1>2 0 0 0;cut 1 2 1,in 0 1 0 1";

// The numbers from 1 to 300, between commas.
fn numbers(alloc: Global) -> Result<String, AllocError> {
    let mut list = String::from_str(alloc, "1")?;
    for number in 2..301 {
        write!(list, ",{number}")?;
    }
    Ok(list)
}

fn long_text(alloc: Global) -> Result<String, AllocError> {
    let set = numbers(alloc)?;
    let mut out = String::from_str(alloc, FORK)?;
    for number in 1..61 {
        write!(out, "{number} need q {{{set}}} z {{}}\n")?;
    }
    Ok(out)
}

fn deep_text(alloc: Global, count: u64) -> Result<String, AllocError> {
    let marker = refused::deep(alloc, count)?;
    let mut out = String::new(alloc);
    write!(
        out,
        "no selection serves this fork\nfork: 0\nregion: {marker}\n"
    )?;
    Ok(out)
}

// The first wrong line, or 0.
fn wrong_line(alloc: Global, bytes: &[u8]) -> Option<u64> {
    match read(alloc, bytes) {
        Ok(_) => Some(0),
        Err(ProofFault::Line(line)) => Some(line),
        Err(ProofFault::NoMemory) => None,
    }
}

// The faulty step, or 0.
fn judged_step(alloc: Global, problem: &Problem, steps: &Steps) -> Option<u64> {
    match judge(alloc, problem, steps) {
        Ok(()) => Some(0),
        Err(AcceptFault::StepFault { step }) => Some(step),
        Err(AcceptFault::NoMemory) => None,
    }
}

// That of a text.
fn faulty_step(alloc: Global, problem: &Problem, bytes: &[u8]) -> Option<u64> {
    match read(alloc, bytes) {
        Ok(proof) => judged_step(alloc, problem, &proof.steps),
        Err(_) => None,
    }
}

// That of a text for a problem of nodes.
fn faulty_step_of(alloc: Global, nodes: &str, bytes: &[u8]) -> Option<u64> {
    let problem = problem_of(alloc, nodes)?;
    faulty_step(alloc, &problem, bytes)
}

// Whether these are the lines of the refused fork, and those of the steps.
fn is_printed(alloc: Global, bytes: &[u8]) -> bool {
    match refused::lines_of(alloc, "0", "sys_platform == 'win32'") {
        Some(Ok(lines)) => match bytes.strip_prefix(lines.as_slice()) {
            Some(rest) => printed::are_lines(alloc, NODES, STEPS, rest),
            None => false,
        },
        _ => false,
    }
}

fn fault(alloc: Global, kind: &str, bytes: &[u8]) -> Option<u64> {
    match kind {
        "line" | "deep" => wrong_line(alloc, bytes),
        "long" if bytes.len() == 66863 => faulty_step_of(alloc, WIDE, bytes),
        "printed" if is_printed(alloc, bytes) => faulty_step_of(alloc, NODES, bytes),
        "step" => faulty_step_of(alloc, NODES, bytes),
        _ => None,
    }
}

fn is_row(alloc: Global, line: &str) -> Result<bool, AllocError> {
    let (kind, rest) = front(line);
    let (want, row) = front(rest);
    let text = match kind {
        "long" => long_text(alloc)?,
        "deep" => deep_text(alloc, number(row))?,
        _ => text_of(alloc, row)?,
    };
    Ok(fault(alloc, kind, text.as_bytes()) == Some(number(want)))
}

#[test]
fn derivations_are_read_and_judged(rt: HostRuntime) {
    for line in ROWS.split('\n') {
        assert!(rt; is_row(rt.alloc(), line) == Ok(true), "{line}");
    }
}
