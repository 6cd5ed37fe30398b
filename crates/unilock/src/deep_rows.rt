// Projects that are locked where clashes are split further.

/// Projects of strategy `deep`. The form is that of `CHOICES`.
pub(crate) const DEEP_FORKS: &str = r#"
@p.toml
[project]
name = "demo"
version = "0.1"
dependencies = ["a", "b"]
[tool.uv]
fork-strategy = "deep"
@ix/a.json
{"name": "a", "versions": [{"version": "1", "requires_dist": ["c<2; sys_platform == 'win32'"]}]}
@ix/b.json
{"name": "b", "versions": [{"version": "1", "requires_dist": ["c>=2; sys_platform != 'win32'"]}]}
@ix/c.json
{"name": "c", "versions": [{"version": "1"}, {"version": "2"}]}
~
lock p.toml ix #
=0
version = 2
root = "demo"
resolution-markers = [
    "sys_platform == 'win32'",
    "sys_platform != 'win32'",
]

[[package]]
name = "a"
version = "1"
dependencies = [
    { name = "c", version = "1", marker = "sys_platform == 'win32'" },
]

[[package]]
name = "b"
version = "1"
dependencies = [
    { name = "c", version = "2", marker = "sys_platform != 'win32'" },
]

[[package]]
name = "c"
version = "1"

[[package]]
name = "c"
version = "2"

[[package]]
name = "demo"
version = "0.1"
dependencies = [
    { name = "a", version = "1" },
    { name = "b", version = "1" },
]
~
why p.toml ix #
=0
no fork is refused
~
verify p.toml ix printed
=0
verified
~
export printed
=0
a==1
b==1
c==1 ; sys_platform == 'win32'
c==2 ; sys_platform != 'win32'
~
lock p.toml ix #
@p.toml
[project]
name = "demo"
version = "0.1"
dependencies = ["a", "b"]
[tool.uv]
fork-strategy = "fewest"
=1
no selection serves this fork
fork: -
region: *
world: python_full_version == '0.0.0' and os_name == '' and sys_platform == '' and platform_machine == '' and platform_python_implementation == '' and platform_release == '' and platform_system == '' and platform_version == '' and implementation_name == ''
core: 4
a 1 needs c {1}
b 1 needs c {2}
demo 0.1 needs a {1}
demo 0.1 needs b {1}
~
lock p.toml ix #
@p.toml
[project]
name = "demo"
version = "0.1"
dependencies = ["a", "b"]
[tool.uv]
fork-strategy = "requires-python"
=1
no selection serves this fork
fork: -
region: *
world: python_full_version == '0.0.0' and os_name == '' and sys_platform == '' and platform_machine == '' and platform_python_implementation == '' and platform_release == '' and platform_system == '' and platform_version == '' and implementation_name == ''
core: 4
a 1 needs c {1}
b 1 needs c {2}
demo 0.1 needs a {1}
demo 0.1 needs b {1}
~
lock p.toml ix #
@p.toml
[project]
name = "demo"
version = "0.1"
dependencies = ["a", "b"]
[tool.uv]
fork-strategy = "deeper"
=3
malformed: p.toml: unsupported tool.uv.fork-strategy
~~
@p.toml
[project]
name = "demo"
version = "0.1"
dependencies = ["q<2; sys_platform == 'win32'", "q>=2; sys_platform != 'win32'"]
[tool.uv]
fork-strategy = "deep"
@ix/q.json
{"name": "q", "versions": [{"version": "1", "requires_dist": ["z"]}, {"version": "2", "requires_dist": ["z"]}]}
~
lock p.toml ix #
=1
no selection serves this fork
fork: 0
region: sys_platform == 'win32'
world: python_full_version == '0.0.0' and os_name == '' and sys_platform == 'win32' and platform_machine == '' and platform_python_implementation == '' and platform_release == '' and platform_system == '' and platform_version == '' and implementation_name == ''
core: 2
demo 0.1 needs q {1}
q 1 needs z {}
~~
@p.toml
[project]
name = "demo"
version = "0.1"
dependencies = ["a"]
[tool.uv]
fork-strategy = "deep"
@ix/a.json
{"name": "a", "versions": [{"version": "1", "requires_dist": ["b", "d"]}]}
@ix/b.json
{"name": "b", "versions": [{"version": "1", "requires_dist": ["c<2; os_name == 'nt'"]}]}
@ix/c.json
{"name": "c", "versions": [{"version": "1"}, {"version": "2"}]}
@ix/d.json
{"name": "d", "versions": [{"version": "1", "requires_dist": ["c>=2; os_name != 'nt'"]}]}
~
lock p.toml ix #
=0
version = 2
root = "demo"
resolution-markers = [
    "os_name == 'nt'",
    "os_name != 'nt'",
]

[[package]]
name = "a"
version = "1"
dependencies = [
    { name = "b", version = "1" },
    { name = "d", version = "1" },
]

[[package]]
name = "b"
version = "1"
dependencies = [
    { name = "c", version = "1", marker = "os_name == 'nt'" },
]

[[package]]
name = "c"
version = "1"

[[package]]
name = "c"
version = "2"

[[package]]
name = "d"
version = "1"
dependencies = [
    { name = "c", version = "2", marker = "os_name != 'nt'" },
]

[[package]]
name = "demo"
version = "0.1"
dependencies = [
    { name = "a", version = "1" },
]
~
verify p.toml ix printed
=0
verified
~~
@p.toml
[project]
name = "demo"
version = "0.1"
dependencies = ["a", "b"]
[tool.uv]
fork-strategy = "deep"
@ix/a.json
{"name": "a", "versions": [{"version": "1", "requires_dist": ["c<2; sys_platform == 'win32'"]}]}
@ix/b.json
{"name": "b", "versions": [{"version": "1", "requires_dist": ["c>=2; os_name == 'nt'"]}]}
@ix/c.json
{"name": "c", "versions": [{"version": "1"}, {"version": "2"}]}
~
lock p.toml ix #
=1
no selection serves this fork
fork: 00
region: os_name == 'nt' and sys_platform == 'win32'
world: python_full_version == '0.0.0' and os_name == 'nt' and sys_platform == 'win32' and platform_machine == '' and platform_python_implementation == '' and platform_release == '' and platform_system == '' and platform_version == '' and implementation_name == ''
core: 4
a 1 needs c {1}
b 1 needs c {2}
demo 0.1 needs a {1}
demo 0.1 needs b {1}
~~
@p.toml
[project]
name = "demo"
version = "0.1"
requires-python = ">=3.9"
dependencies = ["a", "b"]
[tool.uv]
fork-strategy = "deep"
@ix/a.json
{"name": "a", "versions": [{"version": "1", "requires_dist": ["c<2; python_version < '3.10'"]}]}
@ix/b.json
{"name": "b", "versions": [{"version": "1", "requires_dist": ["c>=2; python_version >= '3.10'"]}]}
@ix/c.json
{"name": "c", "versions": [{"version": "1"}, {"version": "2", "requires_python": ">=3.8"}, {"version": "3", "requires_python": ">=3.11"}]}
~
lock p.toml ix #
=0
version = 2
root = "demo"
supported-markers = "python_full_version >= '3.9.0'"
resolution-markers = [
    "python_full_version < '3.10.0'",
    "python_full_version >= '3.11.0'",
    "python_full_version >= '3.10.0' and python_full_version < '3.11.0'",
]

[[package]]
name = "a"
version = "1"
dependencies = [
    { name = "c", version = "1", marker = "python_full_version < '3.10.0'" },
]

[[package]]
name = "b"
version = "1"
dependencies = [
    { name = "c", version = "2", marker = "python_full_version >= '3.10.0' and python_full_version < '3.11.0'" },
    { name = "c", version = "3", marker = "python_full_version >= '3.11.0'" },
]

[[package]]
name = "c"
version = "1"

[[package]]
name = "c"
version = "2"

[[package]]
name = "c"
version = "3"

[[package]]
name = "demo"
version = "0.1"
dependencies = [
    { name = "a", version = "1" },
    { name = "b", version = "1" },
]
~
verify p.toml ix printed
=0
verified
~
lock p.toml ix #
@p.toml
[project]
name = "demo"
version = "0.1"
requires-python = ">=3.9"
dependencies = ["a", "b"]
[tool.uv]
fork-strategy = "requires-python"
=1
no selection serves this fork
fork: -
region: python_full_version >= '3.9.0'
world: python_full_version == '3.9.0' and os_name == '' and sys_platform == '' and platform_machine == '' and platform_python_implementation == '' and platform_release == '' and platform_system == '' and platform_version == '' and implementation_name == ''
core: 4
a 1 needs c {1}
b 1 needs c {2,3}
demo 0.1 needs a {1}
demo 0.1 needs b {1}
~~
@p.toml
[project]
name = "demo"
version = "0.1"
dependencies = ["a", "b", "d", "e"]
[tool.uv]
fork-strategy = "deep"
@ix/a.json
{"name": "a", "versions": [{"version": "1", "requires_dist": ["c==1; sys_platform == 'win32'"]}]}
@ix/b.json
{"name": "b", "versions": [{"version": "1", "requires_dist": ["c==2; sys_platform == 'linux'"]}]}
@ix/c.json
{"name": "c", "versions": [{"version": "1"}, {"version": "2"}, {"version": "3"}, {"version": "4"}]}
@ix/d.json
{"name": "d", "versions": [{"version": "1", "requires_dist": ["c==3; sys_platform == 'darwin'"]}]}
@ix/e.json
{"name": "e", "versions": [{"version": "1", "requires_dist": ["c==4; sys_platform == 'aix'"]}]}
~
lock p.toml ix #
=0
version = 2
root = "demo"
resolution-markers = [
    "sys_platform == 'darwin'",
    "sys_platform == 'linux'",
    "sys_platform == 'win32'",
    "sys_platform != 'darwin' and sys_platform != 'linux' and sys_platform != 'win32'",
]

[[package]]
name = "a"
version = "1"
dependencies = [
    { name = "c", version = "1", marker = "sys_platform == 'win32'" },
]

[[package]]
name = "b"
version = "1"
dependencies = [
    { name = "c", version = "2", marker = "sys_platform == 'linux'" },
]

[[package]]
name = "c"
version = "1"

[[package]]
name = "c"
version = "2"

[[package]]
name = "c"
version = "3"

[[package]]
name = "c"
version = "4"

[[package]]
name = "d"
version = "1"
dependencies = [
    { name = "c", version = "3", marker = "sys_platform == 'darwin'" },
]

[[package]]
name = "demo"
version = "0.1"
dependencies = [
    { name = "a", version = "1" },
    { name = "b", version = "1" },
    { name = "d", version = "1" },
    { name = "e", version = "1" },
]

[[package]]
name = "e"
version = "1"
dependencies = [
    { name = "c", version = "4", marker = "sys_platform == 'aix'" },
]
~
verify p.toml ix printed
=0
verified
~
lock p.toml ix #
@p.toml
[project]
name = "demo"
version = "0.1"
dependencies = ["a", "b", "d", "e"]
[tool.uv]
fork-strategy = "fewest"
=1
no selection serves this fork
fork: -
region: *
world: python_full_version == '0.0.0' and os_name == '' and sys_platform == '' and platform_machine == '' and platform_python_implementation == '' and platform_release == '' and platform_system == '' and platform_version == '' and implementation_name == ''
core: 4
d 1 needs c {3}
demo 0.1 needs d {1}
demo 0.1 needs e {1}
e 1 needs c {4}
"#;
