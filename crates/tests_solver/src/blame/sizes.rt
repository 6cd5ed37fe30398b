//! Cores of large problems: of many needs, of many nodes, and at the end of a long way.
use crate::blame::cores::is_core;
use crate::problem_texts::read_problem;
use std::alloc::Global;
use tests_rows::{put, put_number};

// Puts a text, and the numbers from 1 on between two pieces, as often as is said.
fn put_times(text: &mut String, count: u64, front: &str, back: &str) {
    for k in 0..count {
        put(text, front);
        put_number(text, k.saturating_add(1));
        put(text, back);
    }
}

// Puts a piece as often as is said.
fn put_rows(text: &mut String, count: u64, piece: &str) {
    for _ in 0..count {
        put(text, piece);
    }
}

// Puts the numbers up to one, in braces.
fn put_all(text: &mut String, count: u64) {
    put(text, "{1");
    for k in 1..count {
        put(text, ",");
        put_number(text, k.saturating_add(1));
    }
    put(text, "}");
}

// Nodes a, b, c, demo: each version of a needs the first of c, and each of b the second.
fn wide(alloc: Global, count: u64) -> String {
    let mut text = String::new(alloc);
    put(&mut text, "3 a");
    put_rows(&mut text, count, "|2 2 0 1");
    put(&mut text, ";b");
    put_rows(&mut text, count, "|2 2 1 2");
    put(&mut text, ";c||;demo|0 ");
    put_number(&mut text, count);
    put(&mut text, " 0 1000,1 ");
    put_number(&mut text, count);
    put(&mut text, " 0 1000");
    text
}

// All its needs.
fn wide_core(alloc: Global, count: u64) -> String {
    let mut text = String::new(alloc);
    put(&mut text, "core: ");
    put_number(&mut text, count.saturating_mul(2).saturating_add(2));
    put_times(&mut text, count, ", a ", " needs c {1}");
    put_times(&mut text, count, ", b ", " needs c {2}");
    put(&mut text, ", demo 1 needs a ");
    put_all(&mut text, count);
    put(&mut text, ", demo 1 needs b ");
    put_all(&mut text, count);
    text
}

// Nodes c, demo, and u00001 and so on: demo needs each u, and two versions of c; each u needs the next.
fn long(alloc: Global, count: u64) -> String {
    let mut text = String::new(alloc);
    put(&mut text, "1 c||;demo|0 2 0 1,0 2 1 2");
    put_needs(&mut text, count);
    for k in 0..count {
        put_link(&mut text, k, count);
    }
    text
}

fn put_needs(text: &mut String, count: u64) {
    for k in 0..count {
        put_number_behind(text, ",", k.saturating_add(2));
        put(text, " 2 0 2");
    }
}

fn put_number_behind(text: &mut String, piece: &str, number: u64) {
    put(text, piece);
    put_number(text, number);
}

// A node of a chain, with two versions; the last needs nothing.
fn put_link(text: &mut String, k: u64, count: u64) {
    put_number_behind(text, ";u", k.saturating_add(10000));
    let next = k.saturating_add(1);
    if next < count {
        put_number_behind(text, "|", next.saturating_add(2));
        put_number_behind(text, " 2 0 2|", next.saturating_add(2));
        put(text, " 2 1 2");
    } else {
        put(text, "||");
    }
}

// Nodes demo, and u10000 and so on without a version: demo needs each of them, so that each need clashes alone.
fn absent(alloc: Global, count: u64) -> String {
    let mut text = String::new(alloc);
    put(&mut text, "0 demo|1 0 0 0");
    for k in 1..count {
        put_number_behind(&mut text, ",", k.saturating_add(1));
        put(&mut text, " 0 0 0");
    }
    for k in 0..count {
        put_number_behind(&mut text, ";u", k.saturating_add(10000));
    }
    text
}

// Nodes c10000 and so on, demo, z: demo needs each of the others, and each of their versions one that z lacks.
fn clashing(alloc: Global, count: u64) -> String {
    let mut text = String::new(alloc);
    put_number(&mut text, count);
    put(&mut text, " ");
    for k in 0..count {
        put_number_behind(&mut text, "c", k.saturating_add(10000));
        put_lacking(&mut text, count);
    }
    put(&mut text, "demo");
    for k in 0..count {
        put_number_behind(&mut text, if k == 0 { "|" } else { "," }, k);
        put_number_behind(&mut text, " ", count);
        put_number_behind(&mut text, " 0 ", count);
    }
    put(&mut text, ";z");
    put_rows(&mut text, count, "|");
    text
}

// As many versions, each of which needs one that the node behind demo lacks.
fn put_lacking(text: &mut String, count: u64) {
    for _ in 0..count {
        put_number_behind(text, "|", count.saturating_add(1));
        put_number_behind(text, " ", count);
        put(text, " 0 0");
    }
    put(text, ";");
}

// The needs of the last of them.
fn clashing_core(alloc: Global, count: u64) -> String {
    let mut text = String::new(alloc);
    let last = count.saturating_add(9999);
    put_number_behind(&mut text, "core: ", count.saturating_add(1));
    for k in 0..count {
        put_number_behind(&mut text, ", c", last);
        put_number_behind(&mut text, " ", k.saturating_add(1));
        put(&mut text, " needs z {}");
    }
    put_number_behind(&mut text, ", demo 1 needs c", last);
    put(&mut text, " ");
    put_all(&mut text, count);
    text
}

fn is_size(alloc: Global, text: &str, want: &str) -> bool {
    match read_problem(alloc, text, "newest") {
        Some(problem) => is_core(alloc, &problem, want),
        None => false,
    }
}

// Two needs of 20,000 that are chosen; the last of 20,000 that each clash alone; forty and two hundred needs.
#[test]
fn the_core_of_a_large_problem_has_its_lines(rt: HostRuntime) {
    let alloc = rt.alloc();
    let few = "core: 2, demo 1 needs c {1}, demo 1 needs c {2}";
    assert!(rt; is_size(alloc, long(alloc, 20000).as_str(), few));
    let last = "core: 1, demo 1 needs u29999 {}";
    assert!(rt; is_size(alloc, absent(alloc, 20000).as_str(), last));
    assert!(rt;
        is_size(
            alloc,
            wide(alloc, 19).as_str(),
            wide_core(alloc, 19).as_str()
        )
    );
    assert!(rt;
        is_size(
            alloc,
            wide(alloc, 99).as_str(),
            wide_core(alloc, 99).as_str()
        )
    );
}

// Of packages that each clash alone the last, with the needs of each of its versions.
#[test]
fn the_core_of_packages_that_clash_is_the_last_one(rt: HostRuntime) {
    let alloc = rt.alloc();
    let want = clashing_core(alloc, 50);
    assert!(rt; is_size(alloc, clashing(alloc, 50).as_str(), want.as_str()));
}
