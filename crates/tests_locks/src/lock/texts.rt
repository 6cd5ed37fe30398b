//! Locks as texts, and what reading and writing say of them, piece by piece.

use std::alloc::Global;
use std::fmt::Write;
use tests_rows::put;
use ul_lock::Lock;
use ul_lock_read::{LockFault, read};
use ul_lock_write::{WriteFault, write};

// A project with one dependency.
const PINS: &str = r#"version = 2
root = "demo"

[[package]]
name = "a"
version = "1"

[[package]]
name = "demo"
version = "0.1"
dependencies = [
    { name = "a", version = "1" },
]
"#;

// A project without dependencies.
const EMPTY: &str = r#"version = 2
root = "demo"

[[package]]
name = "demo"
version = "0.1"
"#;

// Two leaves.
pub(crate) const LEAVES: &str = r#"version = 2
root = "demo"
supported-markers = "python_full_version >= '3.9.0'"
resolution-markers = [
    "python_full_version >= '3.11.0'",
    "python_full_version < '3.11.0'",
]

[[package]]
name = "demo"
version = "0.1"
dependencies = [
    { name = "numpy", version = "1.26", marker = "python_full_version < '3.11.0'" },
    { name = "numpy", version = "2.1", marker = "python_full_version >= '3.11.0'" },
]

[[package]]
name = "numpy"
version = "1.26"

[[package]]
name = "numpy"
version = "2.1"
"#;

// A package with extras, one of them without dependencies.
const EXTRAS: &str = r#"version = 2
root = "demo"

[[package]]
name = "demo"
version = "0.1"
dependencies = [
    { name = "p", version = "1" },
    { name = "p", version = "1", extra = "none" },
    { name = "p", version = "1", extra = "x" },
]

[[package]]
name = "p"
version = "1"

[package.optional-dependencies]
none = []
x = [
    { name = "q", version = "1" },
]

[[package]]
name = "q"
version = "1"
"#;

// A package with files and extras.
pub(crate) const FILES: &str = r#"version = 2
root = "demo"

[[package]]
name = "a"
version = "1"
files = [
    { file = "a-1-py3-none-any.whl", hash = "sha256:0000000000000000000000000000000000000000000000000000000000000000" },
    { file = "a-1.tar.gz", hash = "sha256:ffffffffffffffffffffffffffffffffffffffffffffffffffffffffffffffff" },
]

[package.optional-dependencies]
none = []
x = [
    { name = "b", version = "2" },
]

[[package]]
name = "b"
version = "2"

[[package]]
name = "demo"
version = "0.1"
dependencies = [
    { name = "a", version = "1" },
    { name = "a", version = "1", extra = "none" },
    { name = "a", version = "1", extra = "x", marker = "sys_platform == 'win32'" },
]
"#;

// A marker with quotes, and a leaf of all worlds.
const QUOTED: &str = r#"version = 2
root = "demo"
resolution-markers = [
    "platform_version == \"it's\"",
    "*",
]

[[package]]
name = "demo"
version = "0.1"
"#;

// A project with requirements for some platforms and interpreters, and an extra.
const PLATFORMS: &str = r#"version = 2
root = "web-app"
supported-markers = "python_full_version >= '3.9.0'"
resolution-markers = [
    "python_full_version >= '3.11.0'",
    "python_full_version < '3.11.0'",
]

[[package]]
name = "colorama"
version = "0.4.6"

[[package]]
name = "fastapi"
version = "0.110.0"
dependencies = [
    { name = "starlette", version = "0.36.3" },
    { name = "typing-extensions", version = "4.10.0" },
]

[[package]]
name = "iniconfig"
version = "2.0.0"

[[package]]
name = "numpy"
version = "1.26.4"

[[package]]
name = "numpy"
version = "2.1.0"

[[package]]
name = "pytest"
version = "8.1.1"
dependencies = [
    { name = "colorama", version = "0.4.6", marker = "sys_platform == 'win32'" },
    { name = "iniconfig", version = "2.0.0" },
    { name = "tomli", version = "2.0.1", marker = "python_full_version < '3.11.0'" },
]

[[package]]
name = "starlette"
version = "0.36.3"
dependencies = [
    { name = "typing-extensions", version = "4.10.0", marker = "python_full_version < '3.10.0'" },
]

[[package]]
name = "tomli"
version = "2.0.1"

[[package]]
name = "typing-extensions"
version = "4.10.0"

[[package]]
name = "web-app"
version = "1.2.0"
dependencies = [
    { name = "colorama", version = "0.4.6", marker = "sys_platform == 'win32'" },
    { name = "fastapi", version = "0.110.0" },
    { name = "numpy", version = "1.26.4", marker = "python_full_version < '3.11.0'" },
    { name = "numpy", version = "2.1.0", marker = "python_full_version >= '3.11.0'" },
]

[package.optional-dependencies]
dev = [
    { name = "pytest", version = "8.1.1" },
]
"#;

// Two packages that lead to one another, and the second to the first from an interpreter on.
const CYCLE: &str = r#"version = 2
root = "demo"

[[package]]
name = "a"
version = "1"
dependencies = [
    { name = "b", version = "1" },
]

[[package]]
name = "b"
version = "1"
dependencies = [
    { name = "a", version = "1", marker = "python_full_version >= '3.8.0'" },
]

[[package]]
name = "demo"
version = "0.1"
dependencies = [
    { name = "a", version = "1" },
]
"#;

// A comparison of a part of a text beside a comparison of the text; an extra that is reached without its base; and an
// extra of the root.
const ASKING: &str = r#"version = 2
root = "demo"
supported-markers = "'Py' in platform_python_implementation"
resolution-markers = [
    "'7' in platform_version",
    "'7' not in platform_version",
]

[[package]]
name = "a"
version = "1"

[[package]]
name = "b"
version = "1"

[[package]]
name = "demo"
version = "0.1"
dependencies = [
    { name = "a", version = "1", marker = "'linux' in sys_platform" },
    { name = "b", version = "1", marker = "sys_platform == 'linux'" },
]

[package.optional-dependencies]
more = [
    { name = "q", version = "2", extra = "x", marker = "'7' in platform_version and implementation_version < '4'" },
]

[[package]]
name = "q"
version = "2"

[package.optional-dependencies]
x = [
    { name = "b", version = "1" },
]
"#;

fn put_fault(told: &mut String, fault: &LockFault) {
    let _ = match fault {
        LockFault::Line(n) => write!(told, "line {n}"),
        LockFault::Root => told.push_str("root"),
        LockFault::Target(k) => write!(told, "target {k}"),
        LockFault::NoMemory => told.push_str("no memory"),
    };
}

/// What reading says of a text: `read`, `line N`, `root` or `target K`.
pub(crate) fn told(alloc: Global, text: &[u8]) -> String {
    let mut told = String::new(alloc);
    match read(alloc, text) {
        Ok(lock) => {
            put(&mut told, "read");
            drop(lock);
        }
        Err(fault) => put_fault(&mut told, &fault),
    }
    told
}

fn put_refusal(told: &mut String, fault: &WriteFault) {
    let _ = match fault {
        WriteFault::TooManyPaths { paths } => write!(told, "paths {paths}"),
        WriteFault::TooLong => told.push_str("long"),
        WriteFault::NoMemory => told.push_str("no memory"),
    };
}

fn put_written(alloc: Global, told: &mut String, lock: &Lock, want: &[u8]) {
    match write(alloc, lock) {
        Ok(bytes) => put(
            told,
            if bytes.as_slice() == want {
                "same"
            } else {
                "other"
            },
        ),
        Err(fault) => put_refusal(told, &fault),
    }
}

/// What writing says of the lock of a text, beside the text that is wanted: `same`, `other`, `paths N` or `long`.
pub(crate) fn written(alloc: Global, text: &str, want: &str) -> String {
    let mut told = String::new(alloc);
    match read(alloc, text.as_bytes()) {
        Ok(lock) => {
            put_written(alloc, &mut told, &lock, want.as_bytes());
            drop(lock);
        }
        Err(fault) => put_fault(&mut told, &fault),
    }
    told
}

/// The lock's text of a name.
pub(crate) fn text_named(name: &str) -> &'static str {
    match name {
        "empty" => EMPTY,
        "pins" => PINS,
        "leaves" => LEAVES,
        "extras" => EXTRAS,
        "files" => FILES,
        "quoted" => QUOTED,
        "cycle" => CYCLE,
        "asking" => ASKING,
        _ => PLATFORMS,
    }
}
