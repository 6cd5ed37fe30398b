//! Lines of markers, and their canonical texts.

use std::alloc::Global;
use std::sync::Wait;
use tests_rows::{cells, put, put_number};
use ul_canonical::{CanonicalFault, canonical};

// Lines, and what is told of them, with `|` in place of LF: their texts, or the first line that says nothing.
const ROWS: &str = "python_version >= '3.9'|;python_full_version >= '3.9.0'|
sys_platform == 'a' or sys_platform != 'a'|;*|
os_name == 'a' and os_name == 'b'|;never|
'x' in extras and 'x' in extras|;'x' in extras|
python_version in '3.9, 3.10'|;python_full_version >= '3.9.0' and python_full_version < '3.11.0'|
*|never|;*|never|
;
\tos_name=='a' \r|;os_name == 'a'|
'b' in extras and 'a' in extras|'a' in extras and 'b' in extras|;'a' in extras and 'b' in extras|'a' in extras and 'b' in extras|
'x' not in extras or 'x' in extras|'x' not in extras|;*|'x' not in extras|
os.name == \"it's\" or 'b' > sys_platform|;os_name == \"it's\" or os_name != \"it's\" and sys_platform < 'b'|
extra == 'a'|;line 1
*|'A' in extras|;line 2
*|'dev' in dependency_groups|;line 2
*||never|;line 2
 *|;line 1
never |;line 1
*|never;line 2
os_name == 'a';line 1
|;line 1
os_name == 'a'|os_name == '\u{e9}'|;line 2";

// Puts a text, with one mark in the place of another.
fn put_marked(told: &mut String, text: &str, mark: char, other: &str) {
    for (place, piece) in text.split(mark).enumerate() {
        if place > 0 {
            put(told, other);
        }
        put(told, piece);
    }
}

// What is told of lines.
fn told<R: Wait>(rt: &R, alloc: Global, given: &str) -> String {
    let mut lines = String::new(alloc);
    put_marked(&mut lines, given, '|', "\n");
    let mut told = String::new(alloc);
    match canonical(rt, alloc, lines.as_str().as_bytes()) {
        Ok(text) => {
            let text = str::from_utf8(text.as_slice()).unwrap_or("no text");
            put_marked(&mut told, text, '\n', "|");
        }
        Err(CanonicalFault::Line(line)) => {
            put(&mut told, "line ");
            put_number(&mut told, line);
        }
        Err(_) => put(&mut told, "another fault"),
    }
    told
}

#[test]
fn lines_have_canonical_texts(rt: HostRuntime) {
    for row in ROWS.split('\n') {
        let (given, wanted) = cells(row, ';');
        let told = told(&rt, rt.alloc(), given);
        assert!(rt; told.as_str() == wanted, "{row}: {told}");
    }
}

// What canonical texts are read as again is themselves.
#[test]
fn canonical_texts_stay(rt: HostRuntime) {
    for row in ROWS.split('\n').take(11) {
        let (_, wanted) = cells(row, ';');
        let told = told(&rt, rt.alloc(), wanted);
        assert!(rt; told.as_str() == wanted, "{wanted}: {told}");
    }
}
