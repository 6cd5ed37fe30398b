//! The lines of refused forks.
ghost use Rattle.std.specs.Prelude.{IfOk};
ghost use Rattle.ul_tree.specs.TreeFacts.{IsTree};

use crate::report::problems::{front, number};
use std::alloc::{AllocError, Global};
use std::fmt::Write;
use ul_marker::{Marker, MarkerFault};
use ul_marker_text::TextFault;
use ul_report::refusal;
use ul_tree::part::{asks_extra, is_false};
use ul_tree::{Tree, of_marker};

// Refused forks, and how large the lines of some are. A fork is its path, `-` for none, and the marker of its region;
// behind it stand its lines. A size is that of `pairs`, and a depth that of `deep`: how many there are, how many bytes
// the lines have at least, and how many paths there are where they aren't printed, or 0.
const ROWS: &str = "fork 0 sys_platform == 'win32'\n\
    no selection serves this fork\nfork: 0\nregion: sys_platform == 'win32'\n\
    world: python_full_version == '0.0.0' and os_name == '' and sys_platform == 'win32' \
    and platform_machine == '' and platform_python_implementation == '' \
    and platform_release == '' and platform_system == '' and platform_version == '' \
    and implementation_name == ''\n\
    #fork - os_name == 'a' or os_name != 'a'\n\
    no selection serves this fork\nfork: -\nregion: *\n\
    world: python_full_version == '0.0.0' and os_name == '' and sys_platform == '' \
    and platform_machine == '' and platform_python_implementation == '' \
    and platform_release == '' and platform_system == '' and platform_version == '' \
    and implementation_name == ''\n\
    #fork 101 'linux' in sys_platform and python_version >= '3.8'\n\
    no selection serves this fork\nfork: 101\n\
    region: python_full_version >= '3.8.0' and 'linux' in sys_platform\n\
    world: python_full_version == '3.8.0' and os_name == '' and sys_platform == '' \
    and platform_machine == '' and platform_python_implementation == '' \
    and platform_release == '' and platform_system == '' and platform_version == '' \
    and implementation_name == '' and 'linux' in sys_platform\n\
    #fork 1 os_name != '' and platform_version == \"it's\" and platform_release < '5'\n\
    no selection serves this fork\nfork: 1\n\
    region: os_name != '' and platform_version == \"it's\" and platform_release < '5'\n\
    world: python_full_version == '0.0.0' and os_name == 'x' and sys_platform == '' \
    and platform_machine == '' and platform_python_implementation == '' \
    and platform_release == '' and platform_system == '' and platform_version == \"it's\" \
    and implementation_name == '' and platform_release < '5'\n\
    #size 2 401 0\
    #size 12 1000001 0\
    #size 13 0 8191\
    #depth 512 1000 0\
    #depth 513 0 1";

// The tree of a marker.
fn tree_of(alloc: Global, marker: &str) -> Result<Tree, MarkerFault>
    ensures { IfOk result IsTree }
{
    let marker = Marker::read(alloc, marker)?;
    let tree = of_marker(alloc, &marker)?;
    Ok(tree)
}

fn path_of(text: &str) -> &'static [bool] {
    match text {
        "0" => &[false],
        "1" => &[true],
        "101" => &[true, false, true],
        _ => &[],
    }
}

/// The lines of a marker's region, or how many paths are too many.
pub(crate) fn lines_of(alloc: Global, path: &str, marker: &str) -> Option<Result<Vec<u8>, u128>> {
    let Ok(tree) = tree_of(alloc, marker) else {
        return None;
    };
    if is_false(&tree) || asks_extra(&tree) {
        return None;
    }
    match refusal(alloc, path_of(path), &tree) {
        Ok(lines) => Some(Ok(lines)),
        Err(TextFault::TooLong { paths }) => Some(Err(paths)),
        Err(TextFault::NoMemory) => None,
    }
}

fn is_fork(alloc: Global, row: &str) -> bool {
    let (head, want) = row.split_once('\n').unwrap_or((row, ""));
    let (path, marker) = front(head);
    match lines_of(alloc, path, marker) {
        Some(Ok(lines)) => lines.as_slice() == want.as_bytes(),
        _ => false,
    }
}

// So many pairs of opaque comparisons, of which one pair holds.
fn pairs(alloc: Global, count: u64) -> Result<String, AllocError> {
    let mut made = String::from_str(alloc, "os_name == 'a' and os_name != 'a'")?;
    for i in 0..count {
        write!(made, " or ('{i:02}a' in os_name and '{i:02}b' in os_name)")?;
    }
    Ok(made)
}

/// So many comparisons that must all hold: a path with a node for each.
pub(crate) fn deep(alloc: Global, count: u64) -> Result<String, AllocError> {
    let mut made = String::from_str(alloc, "'10000' in os_name")?;
    for place in 1..count {
        let number = place.wrapping_add(10_000);
        write!(made, " and '{number}' in os_name")?;
    }
    Ok(made)
}

// How many bytes the lines of so many pairs or comparisons have, or how many paths there are where they aren't printed.
fn size_of(alloc: Global, kind: &str, count: u64) -> Option<(usize, u128)> {
    let marker = match kind {
        "depth" => deep(alloc, count).ok()?,
        _ => pairs(alloc, count).ok()?,
    };
    match lines_of(alloc, "-", marker.as_str())? {
        Ok(lines) => Some((lines.len(), 0)),
        Err(paths) => Some((0, paths)),
    }
}

fn is_size(alloc: Global, kind: &str, row: &str) -> bool {
    let (count, rest) = front(row);
    let (least, many) = front(rest);
    match size_of(alloc, kind, number(count)) {
        Some((size, paths)) => size as u64 >= number(least) && paths == number(many) as u128,
        None => false,
    }
}

fn is_row(alloc: Global, line: &str) -> bool {
    let (kind, row) = front(line);
    if kind == "fork" {
        is_fork(alloc, row)
    } else {
        is_size(alloc, kind, row)
    }
}

#[test]
fn regions_have_their_lines(rt: HostRuntime) {
    for row in ROWS.split('#') {
        assert!(rt; is_row(rt.alloc(), row), "{row}");
    }
}
