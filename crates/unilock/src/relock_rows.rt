// What becomes of old locks.

/// Projects, their old locks, and what `relock` prints of them. The form is that of `CHOICES`.
pub(crate) const RELOCKED: &str = r#"
@p.toml
[project]
name = "demo"
version = "0.1"
dependencies = ["a"]
@ix/a.json
{"name": "a", "versions": [{"version": "1"}, {"version": "2"}]}
~
relock p.toml ix # old
@old
version = 2
root = "demo"

[[package]]
name = "a"
version = "1"

[[package]]
name = "demo"
version = "0.1"
dependencies = [
    { name = "a", version = "1" },
]
=0
version = 2
root = "demo"

[[package]]
name = "a"
version = "1"

[[package]]
name = "demo"
version = "0.1"
dependencies = [
    { name = "a", version = "1" },
]
~
relock p.toml ix # printed
=0
version = 2
root = "demo"

[[package]]
name = "a"
version = "1"

[[package]]
name = "demo"
version = "0.1"
dependencies = [
    { name = "a", version = "1" },
]
~
relock p.toml ix # printed
-version = 2
+version = 1
=0
version = 2
root = "demo"

[[package]]
name = "a"
version = "1"

[[package]]
name = "demo"
version = "0.1"
dependencies = [
    { name = "a", version = "1" },
]
~
lock p.toml ix #
=0
version = 2
root = "demo"

[[package]]
name = "a"
version = "2"

[[package]]
name = "demo"
version = "0.1"
dependencies = [
    { name = "a", version = "2" },
]
~
relock p.toml ix # printed
@p.toml
[project]
name = "demo"
version = "0.1"
dependencies = ["a>=2"]
=0
version = 2
root = "demo"

[[package]]
name = "a"
version = "2"

[[package]]
name = "demo"
version = "0.1"
dependencies = [
    { name = "a", version = "2" },
]
~
relock p.toml ix # printed
-{ name = "a", version = "1" },
+{ name = "a", version = "1", marker = "sys_platform == 'win32'" },
=0
version = 2
root = "demo"

[[package]]
name = "a"
version = "1"

[[package]]
name = "demo"
version = "0.1"
dependencies = [
    { name = "a", version = "1" },
]
~
verify p.toml ix printed
-    { name = "a", version = "1" },
]
+    { name = "a", version = "1" },
]

[package.optional-dependencies]
bar = []
=0
verified
~
relock p.toml ix # printed
-    { name = "a", version = "1" },
]
+    { name = "a", version = "1" },
]

[package.optional-dependencies]
bar = []
=0
version = 2
root = "demo"

[[package]]
name = "a"
version = "1"

[[package]]
name = "demo"
version = "0.1"
dependencies = [
    { name = "a", version = "1" },
]
~
relock q.toml ix # nothing
=3
malformed: q.toml: absent
~
relock p.toml ix # nothing
=3
malformed: nothing: absent
~
relock p.toml ix # printed
-version = 2
+version = 3
=3
malformed: printed: line 1
~
relock p.toml ix # nothing
@ix/a.json
{
=3
malformed: nothing: absent
~
relock p.toml ix # printed
@ix/a.json
{
=3
malformed: ix/a.json: not JSON
~
relock p.toml ix # printed
@p.toml
[project]
name = "demo"
version = "0.1"
dependencies = ["a>=3"]
=1
no selection serves this fork
fork: -
region: *
world: python_full_version == '0.0.0' and os_name == '' and sys_platform == '' and platform_machine == '' and platform_python_implementation == '' and platform_release == '' and platform_system == '' and platform_version == '' and implementation_name == ''
core: 1
demo 0.1 needs a {}
~~
@p.toml
[project]
name = "demo"
version = "0.1"
dependencies = ["a"]
@ix/a.json
{"name": "a", "versions": [{"version": "1", "files": [{"file": "a-1-py3-none-any.whl", "sha256": "1111111111111111111111111111111111111111111111111111111111111111"}]}, {"version": "2", "files": [{"file": "a-2-py3-none-any.whl", "sha256": "2222222222222222222222222222222222222222222222222222222222222222"}]}]}
~
relock p.toml ix # old
@old
version = 2
root = "demo"

[[package]]
name = "a"
version = "1"
files = [
    { file = "a-1-py3-none-any.whl", hash = "sha256:1111111111111111111111111111111111111111111111111111111111111111" },
]

[[package]]
name = "demo"
version = "0.1"
dependencies = [
    { name = "a", version = "1" },
]
=0
version = 2
root = "demo"

[[package]]
name = "a"
version = "1"
files = [
    { file = "a-1-py3-none-any.whl", hash = "sha256:1111111111111111111111111111111111111111111111111111111111111111" },
]

[[package]]
name = "demo"
version = "0.1"
dependencies = [
    { name = "a", version = "1" },
]
~
relock p.toml ix # printed
=0
version = 2
root = "demo"

[[package]]
name = "a"
version = "1"
files = [
    { file = "a-1-py3-none-any.whl", hash = "sha256:1111111111111111111111111111111111111111111111111111111111111111" },
]

[[package]]
name = "demo"
version = "0.1"
dependencies = [
    { name = "a", version = "1" },
]
~
relock p.toml ix # printed
-    { file = "a-1-py3-none-any.whl", hash = "sha256:1111111111111111111111111111111111111111111111111111111111111111" },
+    { file = "a-1-py3-none-any.whl", hash = "sha256:0000000000000000000000000000000000000000000000000000000000000000" },
=0
version = 2
root = "demo"

[[package]]
name = "a"
version = "1"
files = [
    { file = "a-1-py3-none-any.whl", hash = "sha256:1111111111111111111111111111111111111111111111111111111111111111" },
]

[[package]]
name = "demo"
version = "0.1"
dependencies = [
    { name = "a", version = "1" },
]
~
relock p.toml ix # printed
-files = [
    { file = "a-1-py3-none-any.whl", hash = "sha256:1111111111111111111111111111111111111111111111111111111111111111" },
]


+

=0
version = 2
root = "demo"

[[package]]
name = "a"
version = "1"
files = [
    { file = "a-1-py3-none-any.whl", hash = "sha256:1111111111111111111111111111111111111111111111111111111111111111" },
]

[[package]]
name = "demo"
version = "0.1"
dependencies = [
    { name = "a", version = "1" },
]
~
relock p.toml ix # printed
@ix/a.json
{"name": "a", "versions": [{"version": "1", "files": [{"file": "a-1-cp312-cp312-win32.whl", "sha256": "3333333333333333333333333333333333333333333333333333333333333333"}, {"file": "a-1-py3-none-any.whl", "sha256": "4444444444444444444444444444444444444444444444444444444444444444"}]}, {"version": "2"}, {"version": "3"}]}
=0
version = 2
root = "demo"

[[package]]
name = "a"
version = "1"
files = [
    { file = "a-1-cp312-cp312-win32.whl", hash = "sha256:3333333333333333333333333333333333333333333333333333333333333333" },
    { file = "a-1-py3-none-any.whl", hash = "sha256:4444444444444444444444444444444444444444444444444444444444444444" },
]

[[package]]
name = "demo"
version = "0.1"
dependencies = [
    { name = "a", version = "1" },
]
~~
@p.toml
[project]
name = "demo"
version = "0.1"
dependencies = ["a"]
@ix/a.json
{"name": "a", "versions": [{"version": "2", "requires_dist": ["w<2; sys_platform == 'win32'", "w", "b", "c"]}, {"version": "3", "requires_dist": ["x<2; os_name == 'nt'", "x>=2; os_name == 'nt' or sys_platform == 'zz'", "y<2; os_name != 'nt'", "y>=2; os_name != 'nt' or sys_platform == 'zz'"]}]}
@ix/b.json
{"name": "b", "versions": [{"version": "1", "requires_dist": ["q<2; os_name == 'nt' and sys_platform == 'win32'", "q<3; os_name == 'nt'"]}]}
@ix/c.json
{"name": "c", "versions": [{"version": "1", "requires_dist": ["q>=2; os_name != 'nt' and sys_platform == 'win32'", "q>=1; os_name != 'nt'"]}]}
@ix/q.json
{"name": "q", "versions": [{"version": "1"}, {"version": "2"}]}
@ix/w.json
{"name": "w", "versions": [{"version": "1"}, {"version": "2"}]}
@ix/x.json
{"name": "x", "versions": [{"version": "1"}, {"version": "2"}]}
@ix/y.json
{"name": "y", "versions": [{"version": "1"}, {"version": "2"}]}
~
lock p.toml ix #
=0
version = 2
root = "demo"
resolution-markers = [
    "os_name == 'nt' and sys_platform == 'win32'",
    "os_name == 'nt' and sys_platform != 'win32'",
    "os_name != 'nt' and sys_platform == 'win32'",
    "os_name != 'nt' and sys_platform != 'win32'",
]

[[package]]
name = "a"
version = "2"
dependencies = [
    { name = "b", version = "1" },
    { name = "c", version = "1" },
    { name = "w", version = "1", marker = "sys_platform == 'win32'" },
    { name = "w", version = "2", marker = "sys_platform != 'win32'" },
]

[[package]]
name = "b"
version = "1"
dependencies = [
    { name = "q", version = "1", marker = "os_name == 'nt' and sys_platform == 'win32'" },
    { name = "q", version = "2", marker = "os_name == 'nt' and sys_platform != 'win32'" },
]

[[package]]
name = "c"
version = "1"
dependencies = [
    { name = "q", version = "2", marker = "os_name != 'nt'" },
]

[[package]]
name = "demo"
version = "0.1"
dependencies = [
    { name = "a", version = "2" },
]

[[package]]
name = "q"
version = "1"

[[package]]
name = "q"
version = "2"

[[package]]
name = "w"
version = "1"

[[package]]
name = "w"
version = "2"
~
lock p.toml ix # printed
=1
no selection serves this fork
fork: 0
region: sys_platform == 'win32'
world: python_full_version == '0.0.0' and os_name == '' and sys_platform == 'win32' and platform_machine == '' and platform_python_implementation == '' and platform_release == '' and platform_system == '' and platform_version == '' and implementation_name == ''
core: 7
a 2 needs b {1}
a 2 needs c {1}
a 3 needs y {1}
a 3 needs y {2}
b 1 needs q {1}
c 1 needs q {2}
demo 0.1 needs a {2,3}
~
relock p.toml ix # printed
=0
version = 2
root = "demo"
resolution-markers = [
    "os_name == 'nt' and sys_platform == 'win32'",
    "os_name == 'nt' and sys_platform != 'win32'",
    "os_name != 'nt' and sys_platform == 'win32'",
    "os_name != 'nt' and sys_platform != 'win32'",
]

[[package]]
name = "a"
version = "2"
dependencies = [
    { name = "b", version = "1" },
    { name = "c", version = "1" },
    { name = "w", version = "1", marker = "sys_platform == 'win32'" },
    { name = "w", version = "2", marker = "sys_platform != 'win32'" },
]

[[package]]
name = "b"
version = "1"
dependencies = [
    { name = "q", version = "1", marker = "os_name == 'nt' and sys_platform == 'win32'" },
    { name = "q", version = "2", marker = "os_name == 'nt' and sys_platform != 'win32'" },
]

[[package]]
name = "c"
version = "1"
dependencies = [
    { name = "q", version = "2", marker = "os_name != 'nt'" },
]

[[package]]
name = "demo"
version = "0.1"
dependencies = [
    { name = "a", version = "2" },
]

[[package]]
name = "q"
version = "1"

[[package]]
name = "q"
version = "2"

[[package]]
name = "w"
version = "1"

[[package]]
name = "w"
version = "2"
~
relock p.toml ix # printed
@p.toml
[project]
name = "demo"
version = "0.1"
dependencies = ["a", "v"]
@ix/v.json
{"name": "v", "versions": [{"version": "1"}]}
=0
version = 2
root = "demo"
resolution-markers = [
    "os_name == 'nt' and sys_platform == 'win32'",
    "os_name == 'nt' and sys_platform != 'win32'",
    "os_name != 'nt' and sys_platform == 'win32'",
    "os_name != 'nt' and sys_platform != 'win32'",
]

[[package]]
name = "a"
version = "2"
dependencies = [
    { name = "b", version = "1" },
    { name = "c", version = "1" },
    { name = "w", version = "1", marker = "sys_platform == 'win32'" },
    { name = "w", version = "2", marker = "sys_platform != 'win32'" },
]

[[package]]
name = "b"
version = "1"
dependencies = [
    { name = "q", version = "1", marker = "os_name == 'nt' and sys_platform == 'win32'" },
    { name = "q", version = "2", marker = "os_name == 'nt' and sys_platform != 'win32'" },
]

[[package]]
name = "c"
version = "1"
dependencies = [
    { name = "q", version = "2", marker = "os_name != 'nt'" },
]

[[package]]
name = "demo"
version = "0.1"
dependencies = [
    { name = "a", version = "2" },
    { name = "v", version = "1" },
]

[[package]]
name = "q"
version = "1"

[[package]]
name = "q"
version = "2"

[[package]]
name = "v"
version = "1"

[[package]]
name = "w"
version = "1"

[[package]]
name = "w"
version = "2"
~
relock p.toml ix # printed
@p.toml
[project]
name = "demo"
version = "0.1"
dependencies = ["a", "v"]
=1
no selection serves this fork
fork: -
region: *
world: python_full_version == '0.0.0' and os_name == '' and sys_platform == '' and platform_machine == '' and platform_python_implementation == '' and platform_release == '' and platform_system == '' and platform_version == '' and implementation_name == ''
core: 1
demo 0.1 needs v {}
~~
@p.toml
[project]
name = "demo"
version = "0.1"
dependencies = ["demo[foo]", "q", "q>=2; sys_platform == 'win32'"]
[tool.uv]
resolution = "lowest"
@ix/q.json
{"name": "q", "versions": [{"version": "1"}, {"version": "2"}]}
~
lock p.toml ix #
=0
version = 2
root = "demo"
resolution-markers = [
    "sys_platform == 'win32'",
    "sys_platform != 'win32'",
]

[[package]]
name = "demo"
version = "0.1"
dependencies = [
    { name = "demo", version = "0.1" },
    { name = "demo", version = "0.1", extra = "foo" },
    { name = "q", version = "1", marker = "sys_platform != 'win32'" },
    { name = "q", version = "2", marker = "sys_platform == 'win32'" },
]

[package.optional-dependencies]
foo = []

[[package]]
name = "q"
version = "1"

[[package]]
name = "q"
version = "2"
~
relock p.toml ix # printed
=0
version = 2
root = "demo"
resolution-markers = [
    "sys_platform == 'win32'",
    "sys_platform != 'win32'",
]

[[package]]
name = "demo"
version = "0.1"
dependencies = [
    { name = "demo", version = "0.1" },
    { name = "demo", version = "0.1", extra = "foo" },
    { name = "q", version = "1", marker = "sys_platform != 'win32'" },
    { name = "q", version = "2", marker = "sys_platform == 'win32'" },
]

[package.optional-dependencies]
foo = []

[[package]]
name = "q"
version = "1"

[[package]]
name = "q"
version = "2"
"#;
