//! Small projects with their locks.
use crate::verify::judging::verdict;
use std::alloc::Global;
use std::sync::Wait;

// A row has the project, the documents, the lock, and what is said of it.
//
// Versions by interpreters are verified, and the marker of one of them may hold nowhere else. A project without
// requirements. Extras that ask for one another, and a cycle. Requirements of one name whose markers exclude one another,
// given by one edge where each holds. Two versions of a name that are reached in worlds apart, and at one world. A
// pre-release that the project asks for by name. What an opaque comparison says may hold beside anything.
const ROWS: &str = r#"[project]
name = "demo"
version = "0.1"
requires-python = ">=3.9"
dependencies = ["numpy>=2; python_version >= '3.11'", "numpy<2; python_version < '3.11'"]
----
numpy {"version": "1.26"}, {"version": "2.1"}
----
version = 2
root = "demo"
supported-markers = "python_full_version >= '3.9.0'"
resolution-markers = [
    "python_full_version >= '3.11.0'",
    "python_full_version < '3.11.0'",
]

[[package]]
name = "demo"
version = "0.1"
dependencies = [
    { name = "numpy", version = "1.26", marker = "python_full_version < '3.11.0'" },
    { name = "numpy", version = "2.1", marker = "python_full_version >= '3.11.0'" },
]

[[package]]
name = "numpy"
version = "1.26"

[[package]]
name = "numpy"
version = "2.1"
----
verified
====
[project]
name = "demo"
version = "0.1"
requires-python = ">=3.9"
dependencies = ["numpy>=2; python_version >= '3.11'", "numpy<2; python_version < '3.11'"]
----
numpy {"version": "1.26"}, {"version": "2.1"}
----
version = 2
root = "demo"
supported-markers = "python_full_version >= '3.9.0'"
resolution-markers = [
    "python_full_version >= '3.11.0'",
    "python_full_version < '3.11.0'",
]

[[package]]
name = "demo"
version = "0.1"
dependencies = [
    { name = "numpy", version = "1.26", marker = "python_full_version < '3.12.0'" },
    { name = "numpy", version = "2.1", marker = "python_full_version >= '3.11.0'" },
]

[[package]]
name = "numpy"
version = "1.26"

[[package]]
name = "numpy"
version = "2.1"
----
demo 0.1
====
[project]
name = "demo"
version = "1"
----
----
version = 2
root = "demo"

[[package]]
name = "demo"
version = "1"
----
verified
====
[project]
name = "demo"
version = "1"
dependencies = ["a[x]"]
----
a {"version": "1", "requires_dist": ["a[y]; extra == 'x'", "b; extra == 'y'"]}
b {"version": "1", "requires_dist": ["a"]}
----
version = 2
root = "demo"

[[package]]
name = "a"
version = "1"

[package.optional-dependencies]
x = [
    { name = "a", version = "1" },
    { name = "a", version = "1", extra = "y" },
]
y = [
    { name = "b", version = "1" },
]

[[package]]
name = "b"
version = "1"
dependencies = [
    { name = "a", version = "1" },
]

[[package]]
name = "demo"
version = "1"
dependencies = [
    { name = "a", version = "1" },
    { name = "a", version = "1", extra = "x" },
]
----
verified
====
[project]
name = "demo"
version = "1"
dependencies = ["a<2; os_name == 'nt'", "a<3; os_name != 'nt'"]
----
a {"version": "1"}, {"version": "2"}
----
version = 2
root = "demo"

[[package]]
name = "a"
version = "1"

[[package]]
name = "demo"
version = "1"
dependencies = [
    { name = "a", version = "1" },
]
----
verified
====
[project]
name = "demo"
version = "1"
dependencies = ["a; os_name == 'nt'", "b; os_name != 'nt'"]
----
a {"version": "1", "requires_dist": ["c<2"]}
b {"version": "1", "requires_dist": ["c>=2"]}
c {"version": "1"}, {"version": "2"}
----
version = 2
root = "demo"

[[package]]
name = "a"
version = "1"
dependencies = [
    { name = "c", version = "1" },
]

[[package]]
name = "b"
version = "1"
dependencies = [
    { name = "c", version = "2" },
]

[[package]]
name = "c"
version = "1"

[[package]]
name = "c"
version = "2"

[[package]]
name = "demo"
version = "1"
dependencies = [
    { name = "a", version = "1", marker = "os_name == 'nt'" },
    { name = "b", version = "1", marker = "os_name != 'nt'" },
]
----
verified
====
[project]
name = "demo"
version = "1"
dependencies = ["a", "b"]
----
a {"version": "1", "requires_dist": ["c<2"]}
b {"version": "1", "requires_dist": ["c>=2"]}
c {"version": "1"}, {"version": "2"}, {"version": "3"}
----
version = 2
root = "demo"

[[package]]
name = "a"
version = "1"
dependencies = [
    { name = "c", version = "1" },
]

[[package]]
name = "b"
version = "1"
dependencies = [
    { name = "c", version = "2" },
    { name = "c", version = "3" },
]

[[package]]
name = "c"
version = "1"

[[package]]
name = "c"
version = "2"

[[package]]
name = "c"
version = "3"

[[package]]
name = "demo"
version = "1"
dependencies = [
    { name = "a", version = "1" },
    { name = "b", version = "1" },
]
----
c 2
====
[project]
name = "demo"
version = "1"
dependencies = ["a>=1rc1"]
----
a {"version": "1rc1"}, {"version": "0.9"}
----
version = 2
root = "demo"

[[package]]
name = "a"
version = "1rc1"

[[package]]
name = "demo"
version = "1"
dependencies = [
    { name = "a", version = "1rc1" },
]
----
verified
====
[project]
name = "demo"
version = "1"
dependencies = ["a; 'x' in platform_version"]
----
a {"version": "1"}
----
version = 2
root = "demo"

[[package]]
name = "a"
version = "1"

[[package]]
name = "demo"
version = "1"
dependencies = [
    { name = "a", version = "1", marker = "'x' in platform_version" },
]
----
verified
"#;

// The next part of a row, and those behind it.
fn part(row: &str) -> (&str, &str) {
    row.split_once("----\n").unwrap_or((row, ""))
}

fn is_row<R: Wait>(rt: &R, alloc: Global, row: &str) -> bool {
    let (project, rest) = part(row);
    let (documents, rest) = part(rest);
    let (lock, want) = part(rest);
    verdict(rt, alloc, project, documents, lock).as_str() == want.trim()
}

#[test]
fn small_projects(rt: HostRuntime) {
    for row in ROWS.split("====\n") {
        assert!(rt; is_row(&rt, rt.alloc(), row), "{row}");
    }
}
