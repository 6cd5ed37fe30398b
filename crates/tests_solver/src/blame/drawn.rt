//! Small problems at random: their cores are those of the definition.
use crate::blame::plain::plain_core;
use crate::problem_texts::read_problem;
use std::alloc::{AllocError, Global};
use tests_rows::{put, put_number};
use ul_blame::{CoreNeed, core};
use ul_problem::Problem;

// Draws a number below a bound.
fn draw(seed: &mut u64, bound: u64) -> u64 {
    *seed = seed
        .wrapping_mul(6364136223846793005)
        .wrapping_add(1442695040888963407);
    if bound == 0 {
        return 0;
    }
    (*seed >> 33) % bound
}

// The sizes of nodes a, b, b[x], c and demo.
#[derive(Drop)]
struct Sizes {
    a: u64,
    b: u64,
    c: u64,
}

fn size_at(sizes: &Sizes, node: u64) -> u64 {
    match node {
        0 => sizes.a,
        3 => sizes.c,
        4 => 1,
        _ => sizes.b,
    }
}

// Puts a need of a node.
fn put_need(seed: &mut u64, text: &mut String, target: u64, size: u64) {
    let low = draw(seed, size.saturating_add(1));
    let high = low.saturating_add(draw(seed, size.saturating_add(1)));
    put_number(text, target);
    put(text, " ");
    put_number(text, size);
    put(text, " ");
    put_number(text, low);
    put(text, " ");
    put_number(text, high);
}

// Puts the needs of a version. One of b[x] comes behind one of b.
fn put_row(seed: &mut u64, text: &mut String, sizes: &Sizes, share: u64) {
    put(text, "|");
    let mut last = 4u64;
    for target in 0u64..4 {
        let asked = draw(seed, 10) < share && (target != 2 || last == 1);
        if asked {
            put(text, if last == 4 { "" } else { "," });
            put_need(seed, text, target, size_at(sizes, target));
            last = target;
        }
    }
}

fn put_node(seed: &mut u64, text: &mut String, sizes: &Sizes, node: u64, name: &str, share: u64) {
    put(text, name);
    let size = size_at(sizes, node);
    if draw(seed, 4) == 0 {
        put(text, " ");
        put_number(text, size.saturating_sub(1));
    }
    for _ in 0..size {
        put_row(seed, text, sizes, share);
    }
}

// A problem of five nodes.
fn drawn(alloc: Global, number: u64) -> String {
    let mut seed = number;
    let sizes = Sizes {
        a: draw(&mut seed, 4),
        b: draw(&mut seed, 3).saturating_add(1),
        c: draw(&mut seed, 2).saturating_add(1),
    };
    let mut text = String::new(alloc);
    put_node(&mut seed, &mut text, &sizes, 0, "4 a", 4);
    put_node(&mut seed, &mut text, &sizes, 1, ";b", 4);
    put_node(&mut seed, &mut text, &sizes, 2, ";b/x", 4);
    put_node(&mut seed, &mut text, &sizes, 3, ";c", 4);
    put(&mut text, ";demo");
    put_row(&mut seed, &mut text, &sizes, 7);
    text
}

fn is_same(core: &[CoreNeed], other: &[CoreNeed]) -> bool {
    if core.len() != other.len() {
        return false;
    }
    for k in 0..core.len() {
        if core[k].node != other[k].node
            || core[k].version != other[k].version
            || core[k].place != other[k].place
        {
            return false;
        }
    }
    true
}

// What a problem comes to: 1 where its core is the plain one, 2 where some selection serves, 0 where the two differ.
fn kind_of(alloc: Global, problem: &Problem) -> Result<u64, AllocError> {
    let found = core(alloc, problem)?;
    let plain = plain_core(alloc, problem)?;
    match (&found, &plain) {
        (Some(core), Some(other)) => Ok(is_same(core.as_slice(), other.as_slice()) as u64),
        (None, None) => Ok(2),
        _ => Ok(0),
    }
}

// How many of the problems have the core that they should have, of those that have one; none where one hasn't.
fn cores_of(alloc: Global, count: u64) -> u64 {
    let mut cores = 0u64;
    for number in 0..count {
        let text = drawn(alloc, number);
        let kind = match read_problem(alloc, text.as_str(), "newest") {
            Some(problem) => kind_of(alloc, &problem).unwrap_or(0),
            None => 0,
        };
        if kind == 0 {
            return 0;
        }
        cores = cores.saturating_add(kind % 2);
    }
    cores
}

#[test]
fn cores_of_drawn_problems_are_those_of_the_definition(rt: HostRuntime) {
    let cores = cores_of(rt.alloc(), 300);
    assert!(rt; cores > 100, "{cores}");
}
