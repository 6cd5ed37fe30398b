//! Whole texts, texts that are cut off, and large ones.

use crate::lock::sizes::{chain, deep, long, systems};
use crate::lock::texts::{text_named, told, written};
use std::alloc::Global;
use tests_rows::cells;

// What is told of a text: what is written of each lock, `whole`; of one of version 1, which has no files, beside that
// of version 2, `first`; of a chain of packages; of so many paths to true; of so many nodes on a path; and of so many
// bytes. And what is read of the first lines of two leaves and of pins, cut off behind so many bytes.
const ROWS: &str = "whole empty same\n\
    whole pins same\n\
    whole leaves same\n\
    whole extras same\n\
    whole files same\n\
    whole quoted same\n\
    whole platforms same\n\
    whole cycle same\n\
    whole asking same\n\
    first empty same\n\
    first pins same\n\
    first leaves same\n\
    first extras same\n\
    first quoted same\n\
    first platforms same\n\
    first cycle same\n\
    first asking same\n\
    packages 20000 same\n\
    paths 4096 same\n\
    paths 4097 paths 4097\n\
    nodes 512 same\n\
    nodes 513 line 3\n\
    bytes 67108864 same\n\
    bytes 67108865 long\n\
    0 leaves line 1\n\
    141 leaves line 6\n\
    181 leaves root\n\
    224 leaves read\n\
    413 leaves target 0\n\
    60 pins line 6";

fn first_told(alloc: Global, text: &str) -> String {
    match text.replace(alloc, "version = 2\n", "version = 1\n") {
        Ok(first) => written(alloc, first.as_str(), text),
        Err(_) => String::new(alloc),
    }
}

fn cut_told(alloc: Global, text: &[u8], count: u64) -> String {
    let count = (count as usize).min(text.len());
    told(alloc, &text[..count])
}

fn made_told(alloc: Global, text: String) -> String {
    written(alloc, text.as_str(), text.as_str())
}

fn number(cell: &str) -> u64 {
    cell.parse::<u64>().unwrap_or(0)
}

fn case_told(alloc: Global, kind: &str, cell: &str) -> String {
    match kind {
        "whole" => written(alloc, text_named(cell), text_named(cell)),
        "first" => first_told(alloc, text_named(cell)),
        "packages" => made_told(alloc, chain(alloc, number(cell))),
        "paths" => made_told(alloc, systems(alloc, number(cell))),
        "nodes" => made_told(alloc, deep(alloc, number(cell))),
        "bytes" => made_told(alloc, long(alloc, number(cell) as usize)),
        count => cut_told(alloc, text_named(cell).as_bytes(), number(count)),
    }
}

fn is_row(alloc: Global, line: &str) -> bool {
    let (kind, rest) = cells(line, ' ');
    let (cell, want) = cells(rest, ' ');
    case_told(alloc, kind, cell).as_str() == want
}

#[test]
fn texts_are_read_and_written(rt: HostRuntime) {
    for line in ROWS.split('\n') {
        assert!(rt; is_row(rt.alloc(), line), "{line}");
    }
}
