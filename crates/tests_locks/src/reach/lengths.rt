//! Requirements files of as many bytes as may be, and of one more.

use std::alloc::Global;
use std::fmt::Write;
use tests_rows::{cells, put};
use ul_base::{Name, Node};
use ul_lock::Region;
use ul_reach::{ExportFault, Reached, export_text};
use ul_version::Version;

// How many rows have a line of 1,048,576 bytes, how many letters the name of one more has, and what is told: the count
// of the text's bytes, or that it is too long.
const ROWS: &str = "63 1048572 67108864
63 1048573 long
64 1 long
0 1048572 1048576";

const LETTERS: usize = 1_048_572;

// A row with a name of so many letters; its line has four bytes more.
fn row_of(alloc: Global, letters: usize) -> Option<Reached> {
    let bytes = Vec::from_elem(alloc, b'a', letters).ok()?;
    let text = str::from_utf8(bytes.as_slice()).ok()?;
    let name = Name::read(alloc, text).ok()?;
    let version = Version::read(alloc, "1").ok()?;
    Some(Reached {
        node: Node { name, extra: None },
        version,
        marker: Region::all(),
    })
}

// So many rows with a long name, and one behind them.
fn rows_of(alloc: Global, count: usize, letters: usize) -> Option<Vec<Reached>> {
    let mut rows = Vec::new(alloc);
    for _ in 0..count {
        rows.push(row_of(alloc, LETTERS)?).ok()?;
    }
    rows.push(row_of(alloc, letters)?).ok()?;
    Some(rows)
}

fn told(alloc: Global, count: usize, letters: usize) -> String {
    let mut told = String::new(alloc);
    let Some(rows) = rows_of(alloc, count, letters) else {
        return told;
    };
    match export_text(alloc, rows.as_slice()) {
        Ok(text) => {
            let _ = write!(told, "{}", text.len());
        }
        Err(ExportFault::TooLong) => put(&mut told, "long"),
        Err(_) => put(&mut told, "another fault"),
    }
    told
}

fn is_row(alloc: Global, row: &str) -> bool {
    let (count, rest) = cells(row, ' ');
    let (letters, want) = cells(rest, ' ');
    let count = count.parse::<usize>().unwrap_or(0);
    let letters = letters.parse::<usize>().unwrap_or(0);
    told(alloc, count, letters).as_str() == want
}

#[test]
fn long_files_are_written(rt: HostRuntime) {
    for row in ROWS.split('\n') {
        assert!(rt; is_row(rt.alloc(), row), "{row}");
    }
}
