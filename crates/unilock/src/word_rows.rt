// What is no command, generated projects, and files that have no reading.

/// Words and their answers. The form is that of `CHOICES`.
pub(crate) const WORDS: &str = r#"
~
lock
=2
usage: unilock lock|why|env|check|gen|export|verify WORDS
~
lock p.toml ix
=2
usage: unilock lock|why|env|check|gen|export|verify WORDS
~
lock p.toml ix 0
=2
usage: unilock lock|why|env|check|gen|export|verify WORDS
~
lock p.toml ix 65
=2
usage: unilock lock|why|env|check|gen|export|verify WORDS
~
lock p.toml ix 01
=2
usage: unilock lock|why|env|check|gen|export|verify WORDS
~
lock p.toml ix +1
=2
usage: unilock lock|why|env|check|gen|export|verify WORDS
~
lock p.toml ix 1 old x
=2
usage: unilock lock|why|env|check|gen|export|verify WORDS
~
relock p.toml ix 1
=2
usage: unilock lock|why|env|check|gen|export|verify WORDS
~
relock p.toml ix 0 old
=2
usage: unilock lock|why|env|check|gen|export|verify WORDS
~
relock p.toml ix 1 old x
=2
usage: unilock lock|why|env|check|gen|export|verify WORDS
~
env l
=2
usage: unilock lock|why|env|check|gen|export|verify WORDS
~
check p.toml ix
=2
usage: unilock lock|why|env|check|gen|export|verify WORDS
~
gen 0 0 1
=2
usage: unilock lock|why|env|check|gen|export|verify WORDS
~
gen 0 2001 1
=2
usage: unilock lock|why|env|check|gen|export|verify WORDS
~
gen 18446744073709551616 1 1
=2
usage: unilock lock|why|env|check|gen|export|verify WORDS
~
nothing
=2
usage: unilock lock|why|env|check|gen|export|verify WORDS
~
gen 01 1 1
=2
usage: unilock lock|why|env|check|gen|export|verify WORDS
~
gen +1 1 1
=2
usage: unilock lock|why|env|check|gen|export|verify WORDS
~
gen 1 1 65
=2
usage: unilock lock|why|env|check|gen|export|verify WORDS
~
why p.toml ix 65
=2
usage: unilock lock|why|env|check|gen|export|verify WORDS
~
Lock p.toml ix 1
=2
usage: unilock lock|why|env|check|gen|export|verify WORDS
~~
~
gen 1 1 1
=0
packages 3 forks 2
~
gen 0 2 1
=0
packages 5 forks 3
~
gen 18446744073709551615 2 64
=0
packages 5 forks 3
~
gen 1 3 1
=0
packages 7 forks 4
~
gen 7 3 8
=0
packages 7 forks 4
~~
~
lock p.toml ix 1
=3
malformed: p.toml: absent
~
lock p.toml ix 1
@p.toml
[project]
name = "demo"
version = "0.1"
dependencies = ["a"]
@ix/a.json
{]
=3
malformed: ix/a.json: not JSON
~
lock p.toml ix 1
@p.toml
[project]
name = "demo"
version = "0.1"
dependencies = ["a"]
@ix/a.json
{"name": "b", "versions": []}
=3
malformed: ix/a.json: name
~
env l m.json
@l
version = 2
root = "demo"

[[package]]
name = "a"
version = "1"

[[package]]
name = "demo"
version = "0.1"
dependencies = [
    { name = "a", version = "1" },
]
@m.json
{}
=3
malformed: m.json: missing os_name
~
env l m.json
@l
version = 2
root = "demo"

[[package]]
name = "a"
version = "1"

[[package]]
name = "demo"
version = "0.1"
dependencies = [
    { name = "a", version = "1" },
]
@m.json
{"os_name": "posix", "sys_platform": "linux", "platform_machine": "x86_64", "platform_python_implementation": "CPython", "platform_release": "6", "platform_system": "Linux", "platform_version": "1", "implementation_name": "cpython", "implementation_version": "3.12", "python_full_version": "3.12"}
=3
malformed: m.json: python form
~
env l m.json
@l
version = 2
root = "demo"
supported-markers = "python_full_version >= '3.9.0'"
resolution-markers = [
    "python_full_version >= '3.11.0'",
    "python_full_version < '3.11.0'",
]
@m.json
{"os_name": "posix", "sys_platform": "linux", "platform_machine": "x86_64", "platform_python_implementation": "CPython", "platform_release": "6", "platform_system": "Linux", "platform_version": "1", "implementation_name": "cpython", "implementation_version": "3.11.0", "python_full_version": "3.11.0"}
=3
malformed: l: root
"#;
