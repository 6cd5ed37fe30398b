//! Locks as texts.

// A package by the interpreter.
const LEAVES: &str = r#"version = 2
root = "demo"
supported-markers = "python_full_version >= '3.9.0'"
resolution-markers = [
    "python_full_version >= '3.11.0'",
    "python_full_version < '3.11.0'",
]

[[package]]
name = "demo"
version = "0.1"
dependencies = [
    { name = "numpy", version = "1.26", marker = "python_full_version < '3.11.0'" },
    { name = "numpy", version = "2.1", marker = "python_full_version >= '3.11.0'" },
]

[[package]]
name = "numpy"
version = "1.26"

[[package]]
name = "numpy"
version = "2.1"
"#;

// Requirements for some platforms and interpreters, and an extra of the root.
const PLATFORMS: &str = r#"version = 2
root = "web-app"
supported-markers = "python_full_version >= '3.9.0'"
resolution-markers = [
    "python_full_version >= '3.11.0'",
    "python_full_version < '3.11.0'",
]

[[package]]
name = "colorama"
version = "0.4.6"

[[package]]
name = "fastapi"
version = "0.110.0"
dependencies = [
    { name = "starlette", version = "0.36.3" },
    { name = "typing-extensions", version = "4.10.0" },
]

[[package]]
name = "iniconfig"
version = "2.0.0"

[[package]]
name = "numpy"
version = "1.26.4"

[[package]]
name = "numpy"
version = "2.1.0"

[[package]]
name = "pytest"
version = "8.1.1"
dependencies = [
    { name = "colorama", version = "0.4.6", marker = "sys_platform == 'win32'" },
    { name = "iniconfig", version = "2.0.0" },
    { name = "tomli", version = "2.0.1", marker = "python_full_version < '3.11.0'" },
]

[[package]]
name = "starlette"
version = "0.36.3"
dependencies = [
    { name = "typing-extensions", version = "4.10.0", marker = "python_full_version < '3.10.0'" },
]

[[package]]
name = "tomli"
version = "2.0.1"

[[package]]
name = "typing-extensions"
version = "4.10.0"

[[package]]
name = "web-app"
version = "1.2.0"
dependencies = [
    { name = "colorama", version = "0.4.6", marker = "sys_platform == 'win32'" },
    { name = "fastapi", version = "0.110.0" },
    { name = "numpy", version = "1.26.4", marker = "python_full_version < '3.11.0'" },
    { name = "numpy", version = "2.1.0", marker = "python_full_version >= '3.11.0'" },
]

[package.optional-dependencies]
dev = [
    { name = "pytest", version = "8.1.1" },
]
"#;

// Two packages that lead to one another, and the second to the first from an interpreter on.
const CYCLE: &str = r#"version = 2
root = "demo"

[[package]]
name = "a"
version = "1"
dependencies = [
    { name = "b", version = "1" },
]

[[package]]
name = "b"
version = "1"
dependencies = [
    { name = "a", version = "1", marker = "python_full_version >= '3.8.0'" },
]

[[package]]
name = "demo"
version = "0.1"
dependencies = [
    { name = "a", version = "1" },
]
"#;

// A cycle that is entered at two places, each under a marker of its own, and leads on to its entries under a third; a
// package that leads to itself, by its extra.
const RING: &str = r#"version = 2
root = "demo"

[[package]]
name = "a"
version = "1"
dependencies = [
    { name = "b", version = "1", marker = "os_name == 'nt'" },
]

[[package]]
name = "b"
version = "1"
dependencies = [
    { name = "c", version = "1" },
]

[[package]]
name = "c"
version = "1"
dependencies = [
    { name = "a", version = "1" },
]

[package.optional-dependencies]
x = [
    { name = "c", version = "1" },
    { name = "c", version = "1", extra = "x" },
]

[[package]]
name = "demo"
version = "0.1"
dependencies = [
    { name = "a", version = "1", marker = "sys_platform == 'linux'" },
    { name = "c", version = "1", extra = "x", marker = "sys_platform == 'win32'" },
]
"#;

// An extra of the root that leads to another one of it, and one without edges.
const EXTRAS: &str = r#"version = 2
root = "demo"

[[package]]
name = "a"
version = "1"

[[package]]
name = "b"
version = "1"

[[package]]
name = "demo"
version = "0.1"
dependencies = [
    { name = "a", version = "1", marker = "os_name == 'nt'" },
]

[package.optional-dependencies]
all = [
    { name = "b", version = "1" },
    { name = "demo", version = "0.1", extra = "dev" },
]
dev = [
    { name = "a", version = "1", marker = "os_name == 'posix'" },
]
none = []
"#;

// A supported region outside of which a package is reached, and in which another one always is.
const SUPPORTED: &str = r#"version = 2
root = "demo"
supported-markers = "sys_platform == 'linux'"

[[package]]
name = "a"
version = "1"

[[package]]
name = "b"
version = "1"

[[package]]
name = "demo"
version = "0.1"
dependencies = [
    { name = "a", version = "1", marker = "sys_platform == 'win32'" },
    { name = "b", version = "1", marker = "sys_platform == 'linux'" },
]
"#;

// A package that is reached in two worlds on two ways, and one of it in both.
const WAYS: &str = r#"version = 2
root = "demo"

[[package]]
name = "a"
version = "1"
dependencies = [
    { name = "c", version = "1!2.0.post1", marker = "os_name == 'nt'" },
]

[[package]]
name = "b"
version = "1"
dependencies = [
    { name = "c", version = "1!2.0.post1", marker = "os_name == 'posix'" },
]

[[package]]
name = "c"
version = "1!2.0.post1"
dependencies = [
    { name = "d", version = "1" },
]

[[package]]
name = "d"
version = "1"

[[package]]
name = "demo"
version = "0.1"
dependencies = [
    { name = "a", version = "1" },
    { name = "b", version = "1" },
    { name = "d", version = "1", marker = "os_name == 'java'" },
]
"#;

/// The lock's text of a name.
pub(crate) fn text_named(name: &str) -> &'static str {
    match name {
        "leaves" => LEAVES,
        "platforms" => PLATFORMS,
        "cycle" => CYCLE,
        "ring" => RING,
        "extras" => EXTRAS,
        "supported" => SUPPORTED,
        _ => WAYS,
    }
}
