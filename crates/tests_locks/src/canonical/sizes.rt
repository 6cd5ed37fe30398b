//! Files of many lines, with many comparisons, paths and bytes.

use std::alloc::Global;
use std::fmt::Write;
use std::sync::Wait;
use tests_rows::{cells, put};
use ul_canonical::{CanonicalFault, canonical};

// How many lines say how many pairs of comparisons, of each of which one holds, and what is told: whether there are
// texts, or which limit is passed. As many paths to true as 2 to the power of the pairs.
const ROWS: &str = "1 12 texts
20 12 texts
60 12 text-bytes
1 13 marker-paths
1 128 marker-paths
1 129 comparisons
196 10 texts
197 10 text-bytes";

// Puts a line of pairs.
fn put_pairs(told: &mut String, pairs: usize) {
    for pair in 0..pairs {
        let and = if pair == 0 { "" } else { " and " };
        let _ = write!(
            told,
            "{and}('k{pair}a' in os_name or 'k{pair}b' in os_name)"
        );
    }
    put(told, "\n");
}

// What is told of a file.
fn outcome<R: Wait>(rt: &R, alloc: Global, lines: &str) -> &'static str {
    match canonical(rt, alloc, lines.as_bytes()) {
        Ok(_) => "texts",
        Err(CanonicalFault::Line(_)) => "line",
        Err(CanonicalFault::TooManyComparisons) => "comparisons",
        Err(CanonicalFault::TooManyPaths) => "marker-paths",
        Err(CanonicalFault::TooLong) => "text-bytes",
        Err(CanonicalFault::NoMemory) => "no memory",
    }
}

// What is told of a row's lines.
fn told<R: Wait>(rt: &R, alloc: Global, lines: &str, pairs: &str) -> &'static str {
    let count = lines.parse::<usize>().unwrap_or(0);
    let pairs = pairs.parse::<usize>().unwrap_or(0);
    let mut text = String::new(alloc);
    for _ in 0..count {
        put_pairs(&mut text, pairs);
    }
    outcome(rt, alloc, text.as_str())
}

#[test]
fn limits_are_told(rt: HostRuntime) {
    for row in ROWS.split('\n') {
        let (lines, rest) = cells(row, ' ');
        let (pairs, wanted) = cells(rest, ' ');
        assert!(rt; told(&rt, rt.alloc(), lines, pairs) == wanted, "{row}");
    }
}

// A hundred thousand lines with five hundred different markers.
#[test]
fn long_files_are_read(rt: HostRuntime) {
    let alloc = rt.alloc();
    let mut lines = String::new(alloc);
    let mut wanted = String::new(alloc);
    for line in 0..100_000u64 {
        let minor = line % 500;
        let _ = write!(lines, "'3.{minor}' <= python_version\n");
        let _ = write!(wanted, "python_full_version >= '3.{minor}.0'\n");
    }
    match canonical(&rt, alloc, lines.as_str().as_bytes()) {
        Ok(text) => assert!(rt; text.as_slice() == wanted.as_str().as_bytes()),
        Err(_) => assert!(rt; false),
    }
}
