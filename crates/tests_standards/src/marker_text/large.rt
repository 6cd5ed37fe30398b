//! Texts of many paths, and of deep ones.
use crate::marker_text::outcomes::{has_text, is_told, number, text_of};
use std::alloc::{AllocError, Global};
use std::fmt::Write;
use tests_rows::cells;

// Rows of what is tried. The first word says what the others are:
//
// pairs FIRST|COUNT|SIZE: the text of so many pairs behind a comparison is read again, and has so many bytes, if that
// isn't 0.
// long FIRST|COUNT|TEXT: what there is in place of a text of too many paths.
// many BEFORE|SEPARATOR|COUNT|OUTCOME: what is made of so many comparisons.
// deep COUNT|OUTCOME: what is made of a path of so many levels.
// printed COUNT, unprinted COUNT: whether the tree of a marker with such a path has a text, or too many nodes on it.

// Letters, in pairs.
const PAIRS: &str = "a|b c|d e|f g|h i|j k|l m|n o|p q|r s|t u|v w|x y|z";

// So many comparisons with a number each, joined.
fn numbered(
    alloc: Global,
    before: &str,
    after: &str,
    separator: &str,
    count: usize,
) -> Result<String, AllocError> {
    let mut made = String::new(alloc);
    for i in 0..count {
        let between = if i == 0 { "" } else { separator };
        write!(made, "{between}{before}{i:06}{after}")?;
    }
    Ok(made)
}

// A path of so many levels.
fn deep(alloc: Global, count: usize) -> Result<String, AllocError> {
    numbered(alloc, "'", "' in os_name", " and ", count)
}

// A comparison, or one of so many pairs of opaque comparisons.
fn pairs(alloc: Global, first: &str, count: usize) -> Result<String, AllocError> {
    let mut made = String::from_str(alloc, first)?;
    let mut left = count;
    for pair in PAIRS.split(' ') {
        if left > 0 {
            let (one, other) = cells(pair, '|');
            let between = if left == count { "" } else { " or " };
            write!(
                made,
                "{between}('{one}' in os_name and '{other}' in os_name)"
            )?;
            left -= 1;
        }
    }
    Ok(made)
}

// Whether the text of so many pairs has so many bytes, and is read again.
fn is_again(alloc: Global, marker: &str, size: usize) -> bool {
    match text_of(alloc, marker) {
        Ok(spelled) => {
            (size == 0 || spelled.len() == size) && is_told(alloc, spelled.as_str(), "again")
        }
        Err(_) => false,
    }
}

fn are_pairs(alloc: Global, kind: &str, row: &str) -> Result<bool, AllocError> {
    let (first, rest) = cells(row, '|');
    let (count, want) = cells(rest, '|');
    let marker = pairs(alloc, first, number(count))?;
    Ok(if kind == "long" {
        has_text(alloc, marker.as_str(), want)
    } else {
        is_again(alloc, marker.as_str(), number(want))
    })
}

fn are_many(alloc: Global, row: &str) -> Result<bool, AllocError> {
    let (before, rest) = cells(row, '|');
    let (separator, rest) = cells(rest, '|');
    let (count, outcome) = cells(rest, '|');
    let spelled = numbered(alloc, before, "'", separator, number(count))?;
    Ok(is_told(alloc, spelled.as_str(), outcome))
}

fn is_deep(alloc: Global, kind: &str, row: &str) -> Result<bool, AllocError> {
    let (count, outcome) = cells(row, '|');
    let spelled = deep(alloc, number(count))?;
    Ok(match kind {
        "deep" => is_told(alloc, spelled.as_str(), outcome),
        "unprinted" => has_text(alloc, spelled.as_str(), "1 paths"),
        _ => has_text(alloc, spelled.as_str(), spelled.as_str()),
    })
}

fn is_row(alloc: Global, line: &str) -> Result<bool, AllocError> {
    let (kind, row) = line.split_once(' ').unwrap_or((line, ""));
    match kind {
        "pairs" | "long" => are_pairs(alloc, kind, row),
        "many" => are_many(alloc, row),
        _ => is_deep(alloc, kind, row),
    }
}

fn are_rows(alloc: Global, rows: &str) -> bool {
    for line in rows.split('\n') {
        if is_row(alloc, line) != Ok(true) {
            return false;
        }
    }
    true
}

// The text of twelve pairs is written and read.
#[test]
fn twelve_pairs_are_printed_and_read(rt: HostRuntime) {
    assert!(rt; are_rows(rt.alloc(), "pairs |12|1482776"));
}

// As many paths as a text may have are printed, and read again; one pair more is too long.
#[test]
fn longest_text_is_printed_and_read(rt: HostRuntime) {
    let rows = "pairs sys_platform == 'x' or |12|0\nlong |13|8191 paths";
    assert!(rt; are_rows(rt.alloc(), rows));
}

// There is no limit of paths in reading.
#[test]
fn many_paths_are_read(rt: HostRuntime) {
    let rows = "many os_name == '| or |5000|5000\n\
        many os_name != '| and |5000|again\n\
        many python_full_version >= '3.8.0' and os_name == '| or |1000|again";
    assert!(rt; are_rows(rt.alloc(), rows));
}

// A path of 512 nodes is printed and read; a deeper one is the text of no tree, however deep.
#[test]
fn deep_paths_end_in_an_answer(rt: HostRuntime) {
    let rows = "deep 500|again\ndeep 512|again\ndeep 513|refused\ndeep 600|refused\n\
        deep 2000|refused\ndeep 100000|refused";
    assert!(rt; are_rows(rt.alloc(), rows));
}

// A tree with a path of 512 nodes is printed; one with a deeper path is too long, though one path leads to true.
#[test]
fn deep_trees_end_in_an_answer(rt: HostRuntime) {
    assert!(rt; are_rows(rt.alloc(), "printed 512\nunprinted 513\nunprinted 600"));
}

// So is a tree with a path of two thousand nodes.
#[test]
fn deepest_trees_end_in_an_answer(rt: HostRuntime) {
    assert!(rt; are_rows(rt.alloc(), "unprinted 2000"));
}
