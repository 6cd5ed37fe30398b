//! Derivations over small problems, and large ones.

use crate::problem::texts::{number, problem_of, push_made, set_of, term};
use std::alloc::{AllocError, Global};
use tests_rows::{cells, letter, put, put_number};
use ul_base::owned::beside;
use ul_derivation::{AcceptFault, accepts};
use ul_problem::{Derivation, Problem, Step, Term, Terms};

// demo 1 needs q {1}; q 1 and q 2 need z {}; q[x] has no needs; z has no versions.
const CLASH: &str = "demo 1,1 2 0 1;q 2,3 0 0 0;q/x 2;z 0";

// demo 1 needs demo {}.
const OWN: &str = "demo 1,0 1 0 0";

// The two needs of the worked derivation.
const NEEDS: &str = "need 0 1 0 1>1 2 0 1;need 1 2 0 1>3 0 0 0";

// A problem, by the letter of its name, the faulty step, or 0 where the derivation is accepted, and the last step, if
// there is one; `needs` are of the problem `clash`, and stand behind its two needs; `long` are the chain's many steps,
// and `broad` fewer, with cuts of 100 terms.
// A step is, by the letter of its first word,
//
// `need NODE SIZE LOW HIGH>TARGET SIZE LOW HIGH`,
// `cut LEFT RIGHT NODE`, and after commas its terms, `in` or `not`, `NODE SIZE LOW HIGH`,
// `base NODE SIZE LOW HIGH` or `python NODE SIZE LOW HIGH`.
const ROWS: &str = "needs 0 cut 1 2 1,in 0 1 0 1\n\
    needs 0 cut 2 1 1,in 0 1 0 1\n\
    needs 3 cut 1 2 1,in 0 1 1 1\n\
    needs 3 cut 1 2 3,in 0 1 0 1\n\
    needs 3 cut 1 2 7,in 0 1 0 1\n\
    needs 3 cut 3 2 1,in 0 1 0 1\n\
    needs 3 cut 1 3 1,in 0 1 0 1\n\
    needs 3 cut 0 2 1,in 0 1 0 1\n\
    needs 3 cut 1 4 1,in 0 1 0 1\n\
    needs 3 cut 1 1 1,in 0 1 0 1\n\
    needs 3 cut 1 2 1\n\
    needs 3 cut 1 2 1,in 0 2 0 1\n\
    needs 3 cut 1 2 1,not 0 1 0 1\n\
    needs 3 \n\
    clash 2 need 0 1 0 1>1 2 0 1\n\
    clash 2 need 0 1 0 1>1 2 0 2\n\
    clash 1 need 0 1 0 1>1 2 0 0\n\
    clash 1 need 4 1 0 1>1 2 0 1\n\
    clash 1 need 0 1 0 1>4 0 0 0\n\
    clash 1 need 0 2 0 2>1 2 0 1\n\
    clash 1 need 0 1 0 1>1 3 0 1\n\
    clash 1 need 0 1 0 1>3 0 0 0\n\
    clash 2 need 1 2 0 2>3 0 0 0\n\
    clash 1 need 2 2 0 2>3 0 0 0\n\
    clash 2 base 2 2 0 1\n\
    clash 1 base 1 2 0 1\n\
    clash 1 base 2 1 0 1\n\
    clash 1 base 4 0 0 0\n\
    clash 2 python 0 1 0 0\n\
    clash 1 python 0 1 0 1\n\
    clash 1 python 1 1 0 0\n\
    clash 1 python 4 0 0 0\n\
    clash 1 \n\
    own 0 need 0 1 0 1>0 1 0 0\n\
    own 2 need 0 1 0 0>0 1 0 0\n\
    own 2 need 0 1 0 1>0 1 0 1\n\
    wide 2 need 0 1 0 1>1 2 0 1\n\
    wide 2 need 0 1 0 1>1 2 1 2\n\
    wide 2 need 0 1 0 1>2 2 0 1\n\
    wide 2 need 0 1 0 1>2 2 0 2\n\
    wide 1 need 0 1 0 1>2 2 1 2\n\
    wide 2 need 0 1 0 1>299 2 0 1\n\
    wide 1 need 0 1 0 1>0 2 0 0\n\
    long 0 \n\
    broad 0 ";

fn terms(alloc: Global, text: &str) -> Terms {
    let mut terms = Vec::new(alloc);
    for part in text.split(',') {
        if !part.is_empty() {
            push_made(&mut terms, term(alloc, part).ok());
        }
    }
    Terms::of(terms)
}

fn cut(alloc: Global, text: &str) -> Step {
    let (head, rest) = cells(text, ',');
    let (left, head) = cells(head, ' ');
    let (right, node) = cells(head, ' ');
    Step::Cut {
        left: number(left) as u64,
        right: number(right) as u64,
        node: number(node) as u64,
        terms: terms(alloc, rest),
    }
}

fn need(alloc: Global, text: &str) -> Result<Step, AllocError> {
    let (from, to) = cells(text, '>');
    let (node, from) = cells(from, ' ');
    let (target, to) = cells(to, ' ');
    let (versions, permitted) = beside(set_of(alloc, from)?, set_of(alloc, to))?;
    Ok(Step::Need {
        node: number(node) as u64,
        versions,
        target: number(target) as u64,
        permitted,
    })
}

fn fact(alloc: Global, kind: u8, text: &str) -> Result<Step, AllocError> {
    let (node, rest) = cells(text, ' ');
    let node = number(node) as u64;
    let versions = set_of(alloc, rest)?;
    Ok(if kind == b'b' {
        Step::Base { node, versions }
    } else {
        Step::Python { node, versions }
    })
}

fn step(alloc: Global, text: &str) -> Result<Step, AllocError> {
    let (kind, rest) = cells(text, ' ');
    match letter(kind) {
        b'c' => Ok(cut(alloc, rest)),
        b'n' => need(alloc, rest),
        kind => fact(alloc, kind, rest),
    }
}

// Pushes a step of a text, if there is one.
fn push_step(alloc: Global, steps: &mut Vec<Step>, text: &str) {
    if !text.is_empty() {
        push_made(steps, step(alloc, text).ok());
    }
}

// Puts a piece, and a number behind it.
fn put_piece(text: &mut String, piece: &str, number: u64) {
    put(text, piece);
    put_number(text, number);
}

// demo needs each of 299 nodes, from the last on, and the first of them again with its other version; they need
// nothing.
fn wide(alloc: Global) -> String {
    let mut text = String::new(alloc);
    put(&mut text, "p1000000 1");
    for k in (1u64..300).rev() {
        put_piece(&mut text, ",", k);
        put(&mut text, " 2 0 1");
    }
    put(&mut text, ",1 2 1 2");
    for k in 1u64..300 {
        put_piece(&mut text, ";p", 1000000 + k);
        put(&mut text, " 2");
    }
    text
}

// The last of a chain's nodes. The first has one version, the others have two, and the last 20,000; each needs the next
// with all its versions, and the last needs itself with none.
const LAST: u64 = 999;

fn size(k: u64) -> &'static str {
    match k {
        0 => " 1",
        LAST => " 20000",
        _ => " 2",
    }
}

// The node before which those stand whose second versions a broad cut speaks of, beside two other terms.
const BROAD: u64 = 99;

// Puts a need of the chain: its target, and the target's versions.
fn put_target(text: &mut String, k: u64) {
    put_number(text, if k < LAST { k + 1 } else { k });
    put(
        text,
        match k {
            998 => " 20000 0 20000",
            LAST => " 20000 0 0",
            _ => " 2 0 2",
        },
    );
}

fn chain(alloc: Global) -> String {
    let mut text = String::new(alloc);
    for k in 0..LAST + 1 {
        put_piece(&mut text, if k == 0 { "p" } else { ";p" }, 1000000 + k);
        put(&mut text, size(k));
        put(&mut text, ",");
        put_target(&mut text, k);
    }
    text
}

// A need of the chain, of the versions before one.
fn link(alloc: Global, k: u64, high: u64) -> String {
    let mut text = String::new(alloc);
    put_piece(&mut text, "need ", k);
    put(&mut text, size(k));
    put_piece(&mut text, " 0 ", high);
    put(&mut text, ">");
    put_target(&mut text, k);
    text
}

// Puts the terms of the second versions of nodes.
fn put_seconds(text: &mut String, low: u64, high: u64) {
    for k in low..high {
        put_piece(text, ",not ", k);
        put(text, " 2 1 2");
    }
}

// The cut of a need of the chain with the step before it; what is known then speaks of the next node, where there is
// one, and of the second versions of some nodes before it or behind it.
fn link_cut(alloc: Global, k: u64, left: u64, low: u64, high: u64) -> String {
    let mut text = String::new(alloc);
    put_piece(&mut text, "cut ", left);
    put_piece(&mut text, " ", left.saturating_add(1));
    put_piece(&mut text, " ", k);
    put(&mut text, ",in 0 1 0 1");
    put_seconds(&mut text, low, high.min(k.saturating_add(1)));
    if k < LAST {
        put(&mut text, ",not ");
        put_target(&mut text, k);
    }
    put_seconds(&mut text, low.max(k.saturating_add(2)), high);
    text
}

// The chain's needs, from the second on each cut with what is known so far, over and over.
fn push_links(alloc: Global, steps: &mut Vec<Step>) {
    for place in 0..101 * (LAST + 1) {
        let k = place % (LAST + 1);
        let left = steps.len() as u64;
        push_step(alloc, steps, link(alloc, k, 20000).as_str());
        if k > 0 {
            push_step(alloc, steps, link_cut(alloc, k, left, 0, 0).as_str());
        }
    }
}

// A need of the chain, and its cut with the step before it.
fn push_cut(alloc: Global, steps: &mut Vec<Step>, k: u64, versions: u64, low: u64, high: u64) {
    let left = steps.len() as u64;
    push_step(alloc, steps, link(alloc, k, versions).as_str());
    push_step(alloc, steps, link_cut(alloc, k, left, low, high).as_str());
}

// The chain's needs, each cut with what is known so far: first without the second versions of some nodes, of which what
// is known then speaks until the needs come again with all versions.
fn push_broad(alloc: Global, steps: &mut Vec<Step>) {
    push_step(alloc, steps, link(alloc, 0, 1).as_str());
    for k in 1..LAST + 1 {
        let versions = if k < BROAD { 1 } else { 20000 };
        push_cut(alloc, steps, k, versions, 1, BROAD.min(k + 1));
    }
    for k in 1..LAST + 1 {
        push_cut(alloc, steps, k, 20000, k + 2, BROAD);
    }
}

fn problem(alloc: Global, kind: u8) -> Option<Problem> {
    match kind {
        b'o' => problem_of(alloc, 0, OWN),
        b'w' => problem_of(alloc, 0, wide(alloc).as_str()),
        b'b' | b'l' => problem_of(alloc, 0, chain(alloc).as_str()),
        _ => problem_of(alloc, 0, CLASH),
    }
}

fn derivation(alloc: Global, kind: u8, text: &str) -> Derivation {
    let mut steps = Vec::new(alloc);
    if kind == b'l' {
        push_links(alloc, &mut steps);
    }
    if kind == b'b' {
        push_broad(alloc, &mut steps);
    }
    if kind == b'n' {
        for part in NEEDS.split(';') {
            push_step(alloc, &mut steps, part);
        }
    }
    push_step(alloc, &mut steps, text);
    Derivation::of(steps)
}

// Whether this is the faulty step, or 0 where the derivation is accepted.
fn is_fault(alloc: Global, problem: &Problem, derivation: &Derivation, want: u32) -> bool {
    match accepts(alloc, problem, derivation) {
        Ok(()) => want == 0,
        Err(AcceptFault::StepFault { step }) => step == want as u64,
        Err(AcceptFault::NoMemory) => false,
    }
}

fn is_judged(alloc: Global, problem: &Problem, kind: u8, row: &str) -> bool {
    let (want, text) = cells(row, ' ');
    let derivation = derivation(alloc, kind, text);
    let sized = kind != b'l' || derivation.as_slice().len() > 200000;
    sized && is_fault(alloc, problem, &derivation, number(want))
}

fn is_row(alloc: Global, line: &str) -> bool {
    let (word, rest) = cells(line, ' ');
    match problem(alloc, letter(word)) {
        Some(problem) => is_judged(alloc, &problem, letter(word), rest),
        None => false,
    }
}

#[test]
fn derivations_are_judged(rt: HostRuntime) {
    for line in ROWS.split('\n') {
        assert!(rt; is_row(rt.alloc(), line), "{line}");
    }
}
