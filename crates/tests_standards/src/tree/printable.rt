//! Which trees are printed as the text of a marker, as a table.
use crate::tree::texts::tree_of;
use std::alloc::Global;
use tests_rows::{cells, letter, put, put_number};
use ul_tree::is_printable;

// How many comparisons of a kind are joined by `or`, and whether their tree is printed. Wide ones are points of one
// variable and deep ones are levels, which have as many paths to true; n pairs have 2^n - 1.
const PRINTED: &str =
    "wide 4096 yes|wide 4097 no|deep 512 yes|deep 513 no|pairs 12 yes|pairs 13 no";

fn put_comparison(text: &mut String, kind: &str, number: u64) {
    if letter(kind) == b'w' {
        put(text, "os_name == 'p");
        put_number(text, number);
        put(text, "'");
        return;
    }
    put(text, "'");
    put_number(text, number);
    put(text, "a' in os_name");
    if letter(kind) == b'p' {
        put(text, " and '");
        put_number(text, number);
        put(text, "b' in os_name");
    }
}

fn text_of(alloc: Global, kind: &str, count: u64) -> String {
    let mut text = String::new(alloc);
    put_comparison(&mut text, kind, 0);
    for number in 1..count {
        put(&mut text, " or ");
        put_comparison(&mut text, kind, number);
    }
    text
}

fn is_told(alloc: Global, text: &str, is_printed: bool) -> bool {
    match tree_of(alloc, text) {
        Ok(tree) => {
            let is_told = is_printable(&tree) == is_printed;
            drop(tree);
            is_told
        }
        Err(_) => false,
    }
}

fn is_row(alloc: Global, line: &str) -> bool {
    let (kind, rest) = cells(line, ' ');
    let (count, is_printed) = cells(rest, ' ');
    let count = count.parse::<u64>().unwrap_or(0);
    is_told(
        alloc,
        text_of(alloc, kind, count).as_str(),
        is_printed == "yes",
    )
}

#[test]
fn trees_with_few_paths_are_printed(rt: HostRuntime) {
    for line in PRINTED.split('|') {
        assert!(rt; is_row(rt.alloc(), line), "{line}");
    }
}
