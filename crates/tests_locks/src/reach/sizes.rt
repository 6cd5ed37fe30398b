//! Large locks: many ways into one package, a long chain, a long ring, and a chain that leads both ways.

use crate::reach::rows::told;
use std::alloc::Global;
use std::fmt::Write;
use std::sync::Wait;
use tests_rows::{cells, put};
use ul_algebra::{Algebra, DiagramLabel};
use ul_interner::Interner;

// A kind of lock, how many packages it has beside the root and the one that all lead to, and how many lines are printed
// of it; or how many paths too many a marker has. Along `back` what comes in at the end goes back a package in a round.
const ROWS: &str = "ways 300 301
ways 4096 4097
ways 4097 paths 4097
chain 300 300
ring 300 300
back 300 300";

const HEAD: &str = "version = 2\nroot = \"a\"\n";

// Puts the head of a package of a number.
fn put_package(text: &mut String, number: u64) {
    let _ = write!(
        text,
        "\n[[package]]\nname = \"p{number}\"\nversion = \"1\"\ndependencies = [\n"
    );
}

// Puts an edge to a package of a number.
fn put_edge(text: &mut String, number: u64) {
    let _ = write!(text, "    {{ name = \"p{number}\", version = \"1\" }},\n");
}

// A root that leads to so many packages, each of which leads to one more under a marker of its own.
fn ways(alloc: Global, count: u64) -> String {
    let mut text = String::new(alloc);
    put(&mut text, HEAD);
    put(
        &mut text,
        "\n[[package]]\nname = \"a\"\nversion = \"1\"\ndependencies = [\n",
    );
    for place in 0..count {
        put_edge(&mut text, place.wrapping_add(100_000));
    }
    put(&mut text, "]\n");
    for place in 0..count {
        let number = place.wrapping_add(100_000);
        put_package(&mut text, number);
        let _ = write!(
            text,
            "    {{ name = \"q\", version = \"1\", marker = \"os_name == '{number}'\" }},\n]\n"
        );
    }
    put(&mut text, "\n[[package]]\nname = \"q\"\nversion = \"1\"\n");
    text
}

// A root that leads to the first of so many packages, each of which leads to the next; the last leads to one.
fn line(alloc: Global, count: u64, last: u64) -> String {
    let mut text = String::new(alloc);
    put(&mut text, HEAD);
    put(
        &mut text,
        "\n[[package]]\nname = \"a\"\nversion = \"1\"\ndependencies = [\n    \
        { name = \"p100000\", version = \"1\", marker = \"os_name == 'nt'\" },\n]\n",
    );
    for place in 0..count {
        let number = place.wrapping_add(100_000);
        put_package(&mut text, number);
        let next = number.wrapping_add(1);
        let next = if place.wrapping_add(1) == count {
            last
        } else {
            next
        };
        put_edge(&mut text, next);
        put(&mut text, "]\n");
    }
    text
}

// A line whose last package leads to one behind it, which leads nowhere.
fn chain(alloc: Global, count: u64) -> String {
    let last = count.wrapping_add(99_999);
    let mut text = line(alloc, count.saturating_sub(1), last);
    let _ = write!(text, "\n[[package]]\nname = \"p{last}\"\nversion = \"1\"\n");
    text
}

// A root that leads to the first and to the last of so many packages, each of which leads to those beside it.
fn both_ways(alloc: Global, count: u64) -> String {
    let mut text = String::new(alloc);
    put(&mut text, HEAD);
    let last = count.wrapping_add(99_999);
    let _ = write!(
        text,
        "\n[[package]]\nname = \"a\"\nversion = \"1\"\ndependencies = [\n    \
        {{ name = \"p100000\", version = \"1\", marker = \"os_name == 'nt'\" }},\n    \
        {{ name = \"p{last}\", version = \"1\", marker = \"os_name == 'posix'\" }},\n]\n"
    );
    for place in 0..count {
        let number = place.wrapping_add(100_000);
        put_package(&mut text, number);
        if place > 0 {
            put_edge(&mut text, number.wrapping_sub(1));
        }
        if number < last {
            put_edge(&mut text, number.wrapping_add(1));
        }
        put(&mut text, "]\n");
    }
    text
}

fn text_of(alloc: Global, kind: &str, count: u64) -> String {
    match kind {
        "ways" => ways(alloc, count),
        "ring" => line(alloc, count, 100_000),
        "back" => both_ways(alloc, count),
        _ => chain(alloc, count),
    }
}

// Whether so many lines are printed, or what is printed is what is wanted.
fn is_wanted(printed: &str, want: &str) -> bool {
    let mut count: u64 = 0;
    for _ in printed.split('\n') {
        count = count.wrapping_add(1);
    }
    match want.parse::<u64>() {
        Ok(lines) => count.wrapping_sub(1) == lines,
        Err(_) => printed == want,
    }
}

fn is_row<R: Wait>(rt: &R, alloc: Global, row: &str) -> bool {
    let (kind, rest) = cells(row, ' ');
    let (count, want) = cells(rest, ' ');
    let text = text_of(alloc, kind, count.parse::<u64>().unwrap_or(0));
    let Ok((interner, pass)) = Interner::<DiagramLabel>::begin(alloc) else {
        return false;
    };
    let mut algebra = Algebra::begin(alloc, &interner, pass);
    let printed = told(rt, alloc, &mut algebra, text.as_str(), &[]);
    is_wanted(printed.as_str(), want)
}

#[test]
fn large_locks_are_exported(rt: HostRuntime) {
    for row in ROWS.split('\n') {
        assert!(rt; is_row(&rt, rt.alloc(), row), "{row}");
    }
}
