//! Single changes of a lock's text, each with its fault.
//!
//! A row has the fault, a piece of the text, and what stands in its place. `~` is the end of a line, and `^` a carriage
//! return.

use crate::lock::texts::{FILES, LEAVES, told};
use std::alloc::{AllocError, Global};
use tests_rows::cells;

// The first lines of two leaves and their first package, and then their edges and their other packages.
const PARTS: &str = r#"line 1|version = 2~|version = 3~
read|version = 2~|version = 1~
line 1|version = 2~|version=2~
line 1|version = 2~|Version = 2~
line 1|version = 2~| version = 2~
line 1|version = 2~|~version = 2~
line 1|version = 2~|version = 02~
line 1|version = 2~|version = "2"~
line 1|version = 2~root|root
line 1|version = 2~|version = 2^~
line 2|root = "demo"|root = "Demo"
root|root = "demo"|root = "demos"
root|root = "demo"|root = "numpy"
line 2|root = "demo"|root = ""
line 2|root = "demo"|root = 'demo'
line 2|root = "demo"|name = "demo"
line 2|root = "demo"|root = "dèmo"
line 2|root = "demo"|root "demo"
line 2|root = "demo"|root = 2
line 2|root = "demo"|root = 1
line 3|'3.9.0'|'3.9'
line 3|supported-markers|supported-marker
line 3|"python_full_version >= '3.9.0'"|"*"
line 3|python_full_version >= '3.9.0'|python_version >= '3.9'
read|supported-markers = "python_full_version >= '3.9.0'"~|
line 3|>= '3.9.0'"~|>= '3.9.0' "~
line 3|python_full_version >= '3.9.0'|extra == 'x'
line 4|resolution-markers|resolution-marker
line 4|resolution-markers = [~|resolution-markers = []~
line 5|    "python_full_version >= '3.11.0'",~|   "python_full_version >= '3.11.0'",~
line 5|>= '3.11.0'",~    "|>= '3.11.0'"~    "
line 6|    "python_full_version >= '3.11.0'",~|
read|    "python_full_version >= '3.11.0'",~|    "*",~
line 5|    "python_full_version >= '3.11.0'",~|    "**",~
line 8|]~~[[package]]~name = "demo"|]~[[package]]~name = "demo"
line 9|]~~[[package]]~name = "demo"|]~~~[[package]]~name = "demo"
line 9|[[package]]~name = "demo"|[package]~name = "demo"
line 18|name = "demo"~version|name = "zemo"~version
line 10|name = "demo"~version|name = "Demo"~version
line 10|name = "demo"~version = "0.1"|version = "0.1"~name = "demo"
line 11|"0.1"|"0.01"
line 11|"0.1"|"v0.1"
line 11|"0.1"|""
line 11|"0.1"|"0.1 "
line 11|"0.1"|"0.1.dev01"
read|"0.1"|"0.1.0"
line 12|dependencies = [~|dependencies = []~
line 12|dependencies = [~|dependency = [~
line 14|"1.26", marker|"3.1", marker
line 14|"1.26", marker|"2.1", marker
target 0|"1.26", marker|"1.25", marker
target 0|"1.26", marker|"1.26.0", marker
target 0|{ name = "numpy", version = "1.26"|{ name = "nump", version = "1.26"
target 0|"1.26", marker|"1.26", extra = "x", marker
line 13|"1.26", marker|"1.26", extra = "X", marker
line 13|"1.26", marker|"v1.26", marker
line 13|"1.26", marker|"1.26 x", marker
line 13|, version = "1.26", marker|, marker
line 13|{ name = "numpy", version = "1.26"|{ name = "Numpy", version = "1.26"
line 13|{ name = "numpy", version = "1.26"|{ name = "numpý", version = "1.26"
read|, marker = "python_full_version < '3.11.0'"|
line 13|, marker = "python_full_version < '3.11.0'"|, marker = "*"
line 13|'3.11.0'" },~    {|'3.11.0'" }~    {
line 13|'3.11.0'" },~    {|'3.11'" },~    {
line 13|    { name = "numpy", version = "1.26"|    {name = "numpy", version = "1.26"
line 23|name = "numpy"~version = "1.26"|name = "numpy"~version = "2.1"
root|name = "numpy"~version = "1.26"|name = "demo"~version = "1.26"
line 21|name = "numpy"~version = "1.26"~|name = "numpy"~version = "1.26"~dependencies = [~]~
line 23|version = "2.1"~|version = "2.1"
line 25|version = "2.1"~|version = "2.1"~~
line 24|version = "2.1"~|version = "2.1"~x~
target 0|version = "2.1"~|version = "2.2"~"#;

// Files and extras.
const LISTS: &str = r#"line 7|version = 2~|version = 1~
line 8|0"|"
line 9|f" }|F" }
line 9|f" }|g" }
line 9|f" }|é" }
line 8|"a-1-py3-none-any.whl"|""
line 8|"a-1-py3-none-any.whl"|"a 1.whl"
line 8|"a-1-py3-none-any.whl"|"ä-1.whl"
line 9|"a-1-py3-none-any.whl"|"a-1.tar.gz"
line 9|"a-1-py3-none-any.whl"|"b.whl"
line 8|"a-1-py3-none-any.whl"|"a\1.whl"
line 8|sha256:|sha512:
line 8|, hash|,hash
line 7|files = [~|files = []~
line 8|files = [~|files = [~]~
line 12|~[package.optional-dependencies]~|~
line 11|~[package.optional-dependencies]~|[package.optional-dependencies]~
line 14|none = []~|x = []~
line 13|none = []~|None = []~
line 14|x = [~|X = [~
line 14|none = []~|none = [~]~
line 14|none = []~|y = []~
target 2|none = []~|
line 15|none = []~|none = []~~
target 2|extra = "none"|extra = "nope"
line 28|extra = "none"|extra = "y"
line 28|extra = "none"|extra = "x"
line 27|extra = "none"|marker = "*"
line 27|extra = "none"|extra = "none
line 28|, extra = "x", marker = "sys_platform == 'win32'"|, marker = "sys_platform == 'win32'", extra = "x"
line 28|sys_platform == 'win32'|sys_platform == \"win32\"
line 28|sys_platform == 'win32'|sys_platform == 'win\32'
line 28|sys_platform == 'win32'|sys_platform == 'wîn32'
line 28|sys_platform == 'win32'|sys_platform == 'win32' or sys_platform == 'win32'
line 28|sys_platform == 'win32'|sys_platform=='win32'
line 28|sys_platform == 'win32'|extra == 'x'
read|sys_platform == 'win32'|sys_platform != 'win32'
line 28|sys_platform == 'win32'|'win32' == sys_platform
target 0|{ name = "b", version = "2" }|{ name = "b", version = "3" }
target 0|{ name = "b", version = "2" }|{ name = "b", version = "2", extra = "z" }
target 0|name = "b"~version = "2"|name = "b"~version = "2.0"
line 19|name = "b"~|name = "0"~
line 15|    { name = "b", version = "2" },~|
line 15|x = [~|x = []~
line 18|[[package]]~name = "b"|[package.optional-dependencies]~x = []~~[[package]]~name = "b""#;

// Cells as they stand in a text.
fn written_out(alloc: Global, cells: &str) -> Result<String, AllocError> {
    let text = cells.replace(alloc, "~", "\n")?;
    text.replace(alloc, "^", "\r")
}

// Whether a text in three parts has a fault.
fn has_fault(alloc: Global, front: &str, middle: &str, back: &str, want: &str) -> bool {
    match format!(in alloc; "{front}{middle}{back}") {
        Ok(text) => told(alloc, text.as_bytes()).as_str() == want,
        Err(_) => false,
    }
}

// Whether a text has a piece, and a fault with its first such piece changed.
fn is_changed(alloc: Global, text: &str, change: &str, want: &str) -> bool {
    let (from, to) = cells(change, '|');
    match text.split_once(from) {
        Some((front, back)) => has_fault(alloc, front, to, back, want),
        None => false,
    }
}

fn is_row(alloc: Global, text: &str, line: &str) -> bool {
    let (want, change) = cells(line, '|');
    match written_out(alloc, change) {
        Ok(change) => is_changed(alloc, text, change.as_str(), want),
        Err(_) => false,
    }
}

#[test]
fn texts_with_a_change(rt: HostRuntime) {
    for line in PARTS.split('\n') {
        assert!(rt; is_row(rt.alloc(), LEAVES, line), "{line}");
    }
    for line in LISTS.split('\n') {
        assert!(rt; is_row(rt.alloc(), FILES, line), "{line}");
    }
}
