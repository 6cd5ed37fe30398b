//! Single changes of a lock that is verified, or of its project's documents, each with what is said then.
//!
//! A row has what is said, and then changes, which `&` separates: a piece of the text, and what stands in its place. `~` is
//! the end of a line.

use crate::verify::judging::verdict;
use std::alloc::Global;
use std::sync::Wait;
use tests_rows::cells;

const PROJECT: &str = r#"[project]
name = "demo"
version = "0.1"
requires-python = ">=3.9"
dependencies = ["a>=1", "b; sys_platform == 'win32'"]

[project.optional-dependencies]
x = ["c[y]"]
"#;

const DOCUMENTS: &str =
    r#"a {"version": "1"}, {"version": "1.5", "requires_dist": ["c"]}, {"version": "2.0rc1", "requires_dist": ["c"]}, {"version": "3", "requires_dist": ["c"], "yanked": true}
b {"version": "1", "requires_dist": ["c<3"]}
c {"version": "1"}, {"version": "2", "requires_dist": ["d; extra == 'y'"]}
d {"version": "1"}
e {"version": "1"}"#;

const LOCK: &str = r#"version = 2
root = "demo"
supported-markers = "python_full_version >= '3.9.0'"

[[package]]
name = "a"
version = "1.5"
dependencies = [
    { name = "c", version = "2" },
]

[[package]]
name = "b"
version = "1"
dependencies = [
    { name = "c", version = "2" },
]

[[package]]
name = "c"
version = "2"

[package.optional-dependencies]
y = [
    { name = "d", version = "1" },
]

[[package]]
name = "d"
version = "1"

[[package]]
name = "demo"
version = "0.1"
dependencies = [
    { name = "a", version = "1.5" },
    { name = "b", version = "1", marker = "sys_platform == 'win32'" },
]

[package.optional-dependencies]
x = [
    { name = "c", version = "2" },
    { name = "c", version = "2", extra = "y" },
]
"#;

// Changes of the lock.
//
// Its forks, its files and the version of its format aren't looked at, nor what an edge says of worlds that the project
// doesn't support, a package that isn't reached has to be eligible alone, the root may list more extras than the
// project, and a version may have other zeros at its end. The root has to be the project's, and the lock has to be for
// the worlds that the project supports. A package may be at any eligible version; it may not be at one that isn't. A
// node's edges are those that its release requires: one less, one that holds in fewer worlds, one more, and one that
// holds in more worlds aren't right; of two packages that aren't right the first is told.
const LOCKS: &str = r#"verified|root|root
verified|version = 2~root|version = 1~root
verified|'3.9.0'"~|'3.9.0'"~resolution-markers = [~    "sys_platform == 'win32'",~    "sys_platform != 'win32'",~]~
verified|name = "d"~version = "1"~|name = "d"~version = "1"~files = [~    { file = "d-1.tar.gz", hash = "sha256:000000000000000000000000000000000000000000000000000000000000000f" },~]~
verified|'3.9.0'"~|'3.9.0'"~resolution-markers = [~    "sys_platform != 'win32'",~    "*",~]~&name = "c"~version = "2"~|name = "c"~version = "2"~files = [~    { file = "c-2.tar.gz", hash = "sha256:000000000000000000000000000000000000000000000000000000000000000f" },~]~
verified|{ name = "c", version = "2" },~|{ name = "c", version = "2" },~    { name = "d", version = "1", marker = "python_full_version < '3.9.0'" },~
verified|    { name = "c", version = "2" },~]~~[[package]]~name = "c"|    { name = "c", version = "1", marker = "python_full_version < '3.9.0'" },~    { name = "c", version = "2" },~]~~[[package]]~name = "c"~version = "1"~~[[package]]~name = "c"
verified|[[package]]~name = "c"|[[package]]~name = "c"~version = "1"~dependencies = [~    { name = "d", version = "1" },~]~~[[package]]~name = "c"
verified|x = [|w = [~    { name = "d", version = "1" },~]~x = [
verified|name = "demo"~version = "0.1"|name = "demo"~version = "0.1.0"
verified|name = "d", version = "1"|name = "d", version = "1.0"&name = "d"~version = "1"|name = "d"~version = "1.0"
verified|name = "a"~version = "1.5"~dependencies = [~    { name = "c", version = "2" },~]|name = "a"~version = "1"&{ name = "a", version = "1.5" }|{ name = "a", version = "1" }
root|root = "demo"|root = "d"
root|name = "demo"~version = "0.1"|name = "demo"~version = "0.2"
root|x = [~    { name = "c", version = "2" },~    { name = "c", version = "2", extra = "y" },~]|w = []
supported|supported-markers = "python_full_version >= '3.9.0'"~|
supported|'3.9.0'|'3.8.0'
supported|>= '3.9.0'|>= '3.9.0' and sys_platform == 'win32'
a 2rc1|name = "a"~version = "1.5"|name = "a"~version = "2rc1"&{ name = "a", version = "1.5" }|{ name = "a", version = "2rc1" }
a 3|name = "a"~version = "1.5"|name = "a"~version = "3"&{ name = "a", version = "1.5" }|{ name = "a", version = "3" }
e 2|extra = "y" },~]~|extra = "y" },~]~~[[package]]~name = "e"~version = "2"~
f 1|extra = "y" },~]~|extra = "y" },~]~~[[package]]~name = "f"~version = "1"~
c 2|name = "b"~version = "1"~dependencies = [~    { name = "c", version = "2" },~]~|name = "b"~version = "1"~dependencies = [~    { name = "c", version = "1" },~]~~[[package]]~name = "c"~version = "1"~
a 1.5|name = "a"~version = "1.5"~dependencies = [~    { name = "c", version = "2" },~]|name = "a"~version = "1.5"
a 1.5|name = "a"~version = "1.5"~dependencies = [~    { name = "c", version = "2" }|name = "a"~version = "1.5"~dependencies = [~    { name = "c", version = "2", marker = "sys_platform == 'win32'" }
demo 0.1|sys_platform == 'win32'|os_name == 'nt' and sys_platform == 'win32'
demo 0.1|    { name = "c", version = "2", extra = "y" },~]|]
a 1.5|{ name = "c", version = "2" },~|{ name = "c", version = "2" },~    { name = "d", version = "1" },~
a 1.5|{ name = "c", version = "2" },~|{ name = "c", version = "2" },~    { name = "c", version = "2", extra = "y" },~
d 1|name = "d"~version = "1"~|name = "d"~version = "1"~dependencies = [~    { name = "e", version = "1" },~]~&extra = "y" },~]~|extra = "y" },~]~~[[package]]~name = "e"~version = "1"~
demo 0.1|, marker = "sys_platform == 'win32'"|
c 2|    { name = "d", version = "1" },~|    { name = "d", version = "1" },~    { name = "e", version = "1" },~&extra = "y" },~]~|extra = "y" },~]~~[[package]]~name = "e"~version = "1"~
b 1|name = "b"~version = "1"~dependencies = [~    { name = "c", version = "2" },~|name = "b"~version = "1"~dependencies = [~    { name = "c", version = "2" },~    { name = "e", version = "1" },~&extra = "y" },~]~|extra = "y" },~]~~[[package]]~name = "e"~version = "1"~
a 1.5|name = "a"~version = "1.5"~dependencies = [~    { name = "c", version = "2" },~]|name = "a"~version = "1.5"&name = "d"~version = "1"~|name = "d"~version = "1"~dependencies = [~    { name = "e", version = "1" },~]~&extra = "y" },~]~|extra = "y" },~]~~[[package]]~name = "e"~version = "1"~"#;

// Changes of the documents.
//
// A package's release has to be fit where the package is reached, and counts also where it is older than another. What
// a release requires has to be given, at a version that meets its specifiers.
const DOCUMENT_ROWS: &str = r#"verified|a {|a {
verified|{"version": "2", "req|{"version": "2", "requires_python": ">=3.9", "req
c 2|{"version": "2", "req|{"version": "2", "requires_python": ">=3.10", "req
b 1|b {"version": "1", "req|b {"version": "1", "requires_python": ">=3.9.1", "req
d 1|d {"version": "1"}|d {"version": "1", "yanked": true}
d 1|d {"version": "1"}|d {"version": "2"}
verified|d {"version": "1"}|d {"version": "1.0.0"}
b 1|"c<3"|"c<2"
b 1|"c<3"|"c", "d"
verified|"c<3"|"c<3", "c>1"
verified|"c<3"|"c<3", "d; sys_platform == 'linux'"
b 1|"c<3"|"c; sys_platform == 'linux'"
verified|"c<3"|"c; os_name == 'nt'", "c; os_name != 'nt'"
a 1.5|"1.5", "requires_dist": ["c"]|"1.5"
c 2|d; extra == 'y'|e; extra == 'y'
d 1|d {"version": "1"}|d {"version": "1", "requires_dist": ["a[z]"]}"#;

// A piece as it stands in a text.
fn written_out(alloc: Global, piece: &str) -> String {
    piece
        .replace(alloc, "~", "\n")
        .unwrap_or(String::new(alloc))
}

// A text with its first such piece changed.
fn changed(alloc: Global, text: &str, from: &str, to: &str) -> String {
    match text.split_once(from) {
        Some((front, back)) => {
            format!(in alloc; "{front}{to}{back}").unwrap_or(String::new(alloc))
        }
        None => String::new(alloc),
    }
}

// A text with one change.
fn changed_once(alloc: Global, text: &str, change: &str) -> String {
    let (from, to) = cells(change, '|');
    let from = written_out(alloc, from);
    let to = written_out(alloc, to);
    changed(alloc, text, from.as_str(), to.as_str())
}

// A text with all changes of a row.
fn changed_by(alloc: Global, text: &str, changes: &str) -> String {
    let mut text = String::from_str(alloc, text).unwrap_or(String::new(alloc));
    for change in changes.split('&') {
        text = changed_once(alloc, text.as_str(), change);
    }
    text
}

fn is_lock_row<R: Wait>(rt: &R, alloc: Global, row: &str) -> bool {
    let (want, change) = cells(row, '|');
    let lock = changed_by(alloc, LOCK, change);
    verdict(rt, alloc, PROJECT, DOCUMENTS, lock.as_str()).as_str() == want
}

fn is_document_row<R: Wait>(rt: &R, alloc: Global, row: &str) -> bool {
    let (want, change) = cells(row, '|');
    let documents = changed_by(alloc, DOCUMENTS, change);
    verdict(rt, alloc, PROJECT, documents.as_str(), LOCK).as_str() == want
}

#[test]
fn changed_locks_and_documents(rt: HostRuntime) {
    for row in LOCKS.split('\n') {
        assert!(rt; is_lock_row(&rt, rt.alloc(), row), "{row}");
    }
    for row in DOCUMENT_ROWS.split('\n') {
        assert!(rt; is_document_row(&rt, rt.alloc(), row), "{row}");
    }
}
