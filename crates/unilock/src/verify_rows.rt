// What `verify` answers to locks.

/// Projects, their locks, and these locks edited. The form is that of `CHOICES`.
pub(crate) const VERIFIED: &str = r#"
@p.toml
[project]
name = "demo"
version = "0.1"
requires-python = ">=3.9"
dependencies = ["numpy>=2; python_version >= '3.11'", "numpy<2; python_version < '3.11'"]
@ix/numpy.json
{"name": "numpy", "versions": [{"version": "1.26"}, {"version": "2.1"}]}
~
lock p.toml ix #
=0
version = 2
root = "demo"
supported-markers = "python_full_version >= '3.9.0'"
resolution-markers = [
    "python_full_version >= '3.11.0'",
    "python_full_version < '3.11.0'",
]

[[package]]
name = "demo"
version = "0.1"
dependencies = [
    { name = "numpy", version = "1.26", marker = "python_full_version < '3.11.0'" },
    { name = "numpy", version = "2.1", marker = "python_full_version >= '3.11.0'" },
]

[[package]]
name = "numpy"
version = "1.26"

[[package]]
name = "numpy"
version = "2.1"
~
verify p.toml ix printed
=0
verified
~
verify p.toml ix printed
-version = 2
+version = 1
=0
verified
~
verify p.toml ix printed
-resolution-markers = [
    "python_full_version >= '3.11.0'",
    "python_full_version < '3.11.0'",
]

+
=0
verified
~
verify p.toml ix printed
-    "python_full_version >= '3.11.0'",
    "python_full_version < '3.11.0'",
+    "sys_platform == 'win32'",
    "*",
=0
verified
~
verify p.toml ix printed
-name = "numpy"
version = "2.1"
+name = "numpy"
version = "2.1"
files = [
    { file = "n.whl", hash = "sha256:0000000000000000000000000000000000000000000000000000000000000000" },
]
=0
verified
~
verify p.toml ix printed
-    { name = "numpy", version = "1.26", marker = "python_full_version < '3.11.0'" },
+    { name = "numpy", version = "1.26", marker = "python_full_version < '3.12.0'" },
=9
rejected: demo 0.1
~
verify p.toml ix printed
-supported-markers = "python_full_version >= '3.9.0'"
resolution-markers = [
+resolution-markers = [
=9
rejected: supported
~
verify p.toml ix printed
-supported-markers = "python_full_version >= '3.9.0'"
+supported-markers = "python_full_version >= '3.8.0'"
=9
rejected: supported
~
verify p.toml ix printed
-version = "0.1"
+version = "0.2"
=9
rejected: root
~
verify p.toml ix printed
-root = "demo"
+root = "dem"
-name = "demo"
+name = "dem"
=9
rejected: root
~
verify p.toml ix printed
-version = "0.1"
+version = "0.1.0"
=0
verified
~~
@p.toml
[project]
name = "demo"
version = "0.1"
dependencies = ["a", "b; sys_platform == 'win32'"]
@ix/a.json
{"name": "a", "versions": [{"version": "1", "requires_dist": ["c"]}, {"version": "2", "requires_dist": ["c"], "yanked": true}, {"version": "3a1", "requires_dist": ["c"]}, {"version": "4", "requires_dist": ["!!"]}]}
@ix/b.json
{"name": "b", "versions": [{"version": "1"}, {"version": "2"}]}
@ix/c.json
{"name": "c", "versions": [{"version": "1"}]}
~
lock p.toml ix #
=0
version = 2
root = "demo"

[[package]]
name = "a"
version = "1"
dependencies = [
    { name = "c", version = "1" },
]

[[package]]
name = "b"
version = "2"

[[package]]
name = "c"
version = "1"

[[package]]
name = "demo"
version = "0.1"
dependencies = [
    { name = "a", version = "1" },
    { name = "b", version = "2", marker = "sys_platform == 'win32'" },
]
~
verify p.toml ix printed
-version = "2"
+version = "1"
-    { name = "b", version = "2", marker = "sys_platform == 'win32'" },
+    { name = "b", version = "1", marker = "sys_platform == 'win32'" },
=0
verified
~
verify p.toml ix printed
-    { name = "c", version = "1" },
]

+    { name = "c", version = "1" },
]

[[package]]
name = "b"
version = "1"

=0
verified
~
verify p.toml ix printed
-version = "1"
+version = "5"
-    { name = "a", version = "1" },
+    { name = "a", version = "5" },
=9
rejected: a 5
~
verify p.toml ix printed
-version = "1"
+version = "2"
-    { name = "a", version = "1" },
+    { name = "a", version = "2" },
=9
rejected: a 2
~
verify p.toml ix printed
-version = "1"
+version = "3a1"
-    { name = "a", version = "1" },
+    { name = "a", version = "3a1" },
=9
rejected: a 3a1
~
verify p.toml ix printed
-version = "1"
+version = "4"
-    { name = "a", version = "1" },
+    { name = "a", version = "4" },
=9
rejected: a 4
~
verify p.toml ix printed
-version = "1"
+version = "1.0"
-    { name = "a", version = "1" },
+    { name = "a", version = "1.0" },
=0
verified
~
verify p.toml ix printed
-    { name = "c", version = "1" },
]

+    { name = "c", version = "1" },
]

[[package]]
name = "b"
version = "1"

-    { name = "b", version = "2", marker = "sys_platform == 'win32'" },
+    { name = "b", version = "1", marker = "sys_platform == 'win32'" },
    { name = "b", version = "2", marker = "os_name == 'nt' and sys_platform == 'win32'" },
=9
rejected: b 2
~
verify p.toml ix printed
-    { name = "c", version = "1" },
]

+    { name = "c", version = "1" },
]

[[package]]
name = "b"
version = "1"

-    { name = "b", version = "2", marker = "sys_platform == 'win32'" },
+    { name = "b", version = "1", marker = "os_name == 'nt' and sys_platform == 'win32'" },
    { name = "b", version = "2", marker = "os_name != 'nt' and sys_platform == 'win32'" },
=0
verified
~
verify p.toml ix printed
-dependencies = [
    { name = "c", version = "1" },
]

+
=9
rejected: a 1
~
verify p.toml ix printed
-name = "b"
version = "2"

[[package]]
name = "c"
+name = "c"
-    { name = "b", version = "2", marker = "sys_platform == 'win32'" },
]
+]
=9
rejected: demo 0.1
~
verify p.toml ix printed
-version = "2"
+version = "1"
-    { name = "b", version = "2", marker = "sys_platform == 'win32'" },
+    { name = "b", version = "1", marker = "os_name == 'nt' and sys_platform == 'win32'" },
=9
rejected: demo 0.1
~
verify p.toml ix printed
-    { name = "b", version = "2", marker = "sys_platform == 'win32'" },
]
+    { name = "b", version = "2", marker = "sys_platform == 'win32'" },
    { name = "c", version = "1" },
]
=9
rejected: demo 0.1
~
verify p.toml ix printed
-version = "2"
+version = "1"
-    { name = "b", version = "2", marker = "sys_platform == 'win32'" },
+    { name = "b", version = "1" },
=9
rejected: demo 0.1
~
verify p.toml ix printed
-    { name = "c", version = "1" },
]
+    { name = "c", version = "1" },
    { name = "demo", version = "0.1" },
]
=9
rejected: a 1
~
verify p.toml ix printed
-name = "demo"
+name = "d"
version = "1"

[[package]]
name = "demo"
=9
rejected: d 1
~
verify p.toml ix printed
-version = "1"
dependencies = [
    { name = "c", version = "1" },
]

[[package]]
name = "b"
version = "2"
+version = "5"
-    { name = "a", version = "1" },
    { name = "b", version = "2", marker = "sys_platform == 'win32'" },
+    { name = "a", version = "5" },
=9
rejected: a 5
~~
@p.toml
[project]
name = "demo"
version = "0.1"
requires-python = ">=3.8"
dependencies = ["a"]
@ix/a.json
{"name": "a", "versions": [{"version": "1", "requires_python": ">=3.8"}, {"version": "2", "requires_python": ">=3.9"}]}
~
lock p.toml ix #
=0
version = 2
root = "demo"
supported-markers = "python_full_version >= '3.8.0'"

[[package]]
name = "a"
version = "1"

[[package]]
name = "demo"
version = "0.1"
dependencies = [
    { name = "a", version = "1" },
]
~
verify p.toml ix printed
=0
verified
~
verify p.toml ix printed
-version = "1"
+version = "2"
-    { name = "a", version = "1" },
+    { name = "a", version = "2" },
=9
rejected: a 2
~
verify p.toml ix printed
-name = "demo"
+name = "a"
version = "2"

[[package]]
name = "demo"
-    { name = "a", version = "1" },
+    { name = "a", version = "1", marker = "python_full_version < '3.9.0'" },
    { name = "a", version = "2", marker = "python_full_version >= '3.9.0'" },
=0
verified
~
verify p.toml ix printed
-name = "demo"
+name = "a"
version = "2"

[[package]]
name = "demo"
-    { name = "a", version = "1" },
+    { name = "a", version = "1", marker = "python_full_version < '3.9.0'" },
=9
rejected: demo 0.1
~~
@p.toml
[project]
name = "demo"
version = "0.1"
dependencies = ["a[x]"]
[project.optional-dependencies]
dev = ["b"]
[dependency-groups]
Test = ["t"]
[tool.uv]
constraint-dependencies = ["c<2"]
override-dependencies = ["b==1"]
@ix/a.json
{"name": "a", "versions": [{"version": "1", "requires_dist": ["c; extra == 'x'"]}]}
@ix/b.json
{"name": "b", "versions": [{"version": "1"}, {"version": "2"}]}
@ix/c.json
{"name": "c", "versions": [{"version": "1"}, {"version": "2"}]}
@ix/t.json
{"name": "t", "versions": [{"version": "1"}]}
~
lock p.toml ix #
=0
version = 2
root = "demo"

[[package]]
name = "a"
version = "1"

[package.optional-dependencies]
x = [
    { name = "c", version = "1" },
]

[[package]]
name = "b"
version = "1"

[[package]]
name = "c"
version = "1"

[[package]]
name = "demo"
version = "0.1"
dependencies = [
    { name = "a", version = "1" },
    { name = "a", version = "1", extra = "x" },
]

[package.optional-dependencies]
dev = [
    { name = "b", version = "1" },
]
group-test = [
    { name = "t", version = "1" },
]

[[package]]
name = "t"
version = "1"
~
verify p.toml ix printed
=0
verified
~
verify p.toml ix printed
-    { name = "c", version = "1" },
+    { name = "c", version = "2" },
-name = "c"
version = "1"
+name = "c"
version = "2"
=9
rejected: a 1
~
verify p.toml ix printed
-name = "b"
version = "1"
+name = "b"
version = "2"
-    { name = "b", version = "1" },
+    { name = "b", version = "2" },
=9
rejected: demo 0.1
~
verify p.toml ix printed
-    { name = "t", version = "1" },
]

+    { name = "t", version = "1" },
]
more = [
    { name = "b", version = "1" },
]

=0
verified
~
verify p.toml ix printed
-group-test = [
    { name = "t", version = "1" },
]

+
=9
rejected: root
~
verify p.toml ix printed
-group-test = [
    { name = "t", version = "1" },
+more = [
    { name = "b", version = "1" },
=9
rejected: root
~~
~
verify p.toml ix
=2
usage: unilock lock|why|env|check|gen|export|verify WORDS
~
verify p.toml ix l x
=2
usage: unilock lock|why|env|check|gen|export|verify WORDS
~
verify p.toml ix l
=3
malformed: p.toml: absent
~
verify p.toml ix l
@p.toml
[project]
@l
x
@ix/a.json
{]
=3
malformed: p.toml: shape project.name
~
verify p.toml ix l
@p.toml
[project]
name = "demo"
version = "0.1"
dependencies = ["a"]
[dependency-groups]
x = [{include-group = "x"}]
@l
x
@ix/a.json
{]
=3
malformed: p.toml: shape dependency-groups.x[0]
~
verify p.toml ix l
@p.toml
[project]
name = "demo"
version = "0.1"
dependencies = ["a"]
@ix/a.json
{]
=3
malformed: l: absent
~
verify p.toml ix l
@p.toml
[project]
name = "demo"
version = "0.1"
dependencies = ["a"]
@l
x
@ix/a.json
{]
=3
malformed: l: line 1
~
verify p.toml ix l
@p.toml
[project]
name = "demo"
version = "0.1"
dependencies = ["a"]
@l
version = 2
root = "demo"

[[package]]
name = "a"
version = "1"
@ix/a.json
{]
=3
malformed: l: root
~
verify p.toml ix l
@p.toml
[project]
name = "demo"
version = "0.1"
dependencies = ["a"]
@l
version = 2
root = "demo"

[[package]]
name = "a"
version = "1"

[[package]]
name = "demo"
version = "0.1"
dependencies = [
    { name = "a", version = "2" },
]
@ix/a.json
{]
=3
malformed: l: target 1
~
verify p.toml ix l
@p.toml
[project]
name = "demo"
version = "0.1"
dependencies = ["a"]
@l
version = 2
root = "demo"

[[package]]
name = "a"
version = "1"

[[package]]
name = "demo"
version = "0.1"
dependencies = [
    { name = "a", version = "1" },
]
@ix/a.json
{]
=3
malformed: ix/a.json: not JSON
~
verify p.toml ix l
@p.toml
[project]
name = "demo"
version = "0.1"
dependencies = ["a"]
@l
version = 2
root = "demo"

[[package]]
name = "a"
version = "1"

[[package]]
name = "demo"
version = "0.1"
dependencies = [
    { name = "a", version = "1" },
]
@ix/a.json
{"name": "a", "versions": {}}
=3
malformed: ix/a.json: shape versions
~
verify p.toml ix l
@p.toml
[project]
name = "demo"
version = "0.1"
dependencies = ["a"]
@l
version = 2
root = "demo"

[[package]]
name = "a"
version = "1"

[[package]]
name = "demo"
version = "0.1"
dependencies = [
    { name = "a", version = "1" },
]
=9
rejected: a 1
~
verify p.toml ix l
@p.toml
[project]
name = "demo"
version = "0.1"
dependencies = ["a"]
@l
version = 2
root = "demo"

[[package]]
name = "a"
version = "1"

[[package]]
name = "demo"
version = "0.1"
dependencies = [
    { name = "a", version = "1" },
]
@ix/a.json
{"name": "a", "versions": [{"version": "1"}]}
=0
verified
"#;
