// Which versions a lock has.

/// Projects, and their locks.
///
/// Groups, each behind `~~`: the files of all its cases, each behind `@` and its path, and the cases, each behind `~`. A case
/// has its words, where `#` stands for a number of workers; files of its own; `=` with the status, and what is printed. What
/// the first case prints is the file `printed` of the others, which a case may edit: behind `-` the text that another one
/// behind `+` takes the place of.
pub(crate) const CHOICES: &str = r#"
@p.toml
[project]
name = "demo"
version = "0.1"
dependencies = ["a==1"]
@ix/a.json
{"name": "a", "versions": [{"version": "1"}]}
~
lock p.toml ix #
=0
version = 2
root = "demo"

[[package]]
name = "a"
version = "1"

[[package]]
name = "demo"
version = "0.1"
dependencies = [
    { name = "a", version = "1" },
]
~
verify p.toml ix printed
=0
verified
~
export printed
=0
a==1
~~
@p.toml
[project]
name = "demo"
version = "0.1"
dependencies = []
~
lock p.toml ix #
=0
version = 2
root = "demo"

[[package]]
name = "demo"
version = "0.1"
~
verify p.toml ix printed
=0
verified
~
export printed
=0
~~
@p.toml
[project]
name = "demo"
version = "0.1"
dependencies = ["a", "b"]
@ix/a.json
{"name": "a", "versions": [{"version": "1", "requires_dist": ["c"]}, {"version": "2", "requires_dist": ["c>=2"]}]}
@ix/b.json
{"name": "b", "versions": [{"version": "1", "requires_dist": ["c<2"]}]}
@ix/c.json
{"name": "c", "versions": [{"version": "1"}, {"version": "2"}]}
~
lock p.toml ix #
=0
version = 2
root = "demo"

[[package]]
name = "a"
version = "1"
dependencies = [
    { name = "c", version = "1" },
]

[[package]]
name = "b"
version = "1"
dependencies = [
    { name = "c", version = "1" },
]

[[package]]
name = "c"
version = "1"

[[package]]
name = "demo"
version = "0.1"
dependencies = [
    { name = "a", version = "1" },
    { name = "b", version = "1" },
]
~
verify p.toml ix printed
=0
verified
~
export printed
=0
a==1
b==1
c==1
~~
@p.toml
[project]
name = "demo"
version = "0.1"
dependencies = ["a", "u", "d<2"]
@ix/a.json
{"name": "a", "versions": [{"version": "1"}, {"version": "2", "requires_dist": ["b"]}]}
@ix/b.json
{"name": "b", "versions": [{"version": "1", "requires_dist": ["c"]}]}
@ix/c.json
{"name": "c", "versions": [{"version": "1", "requires_dist": ["d>=2"]}]}
@ix/d.json
{"name": "d", "versions": [{"version": "1"}, {"version": "2"}]}
@ix/u.json
{"name": "u", "versions": [{"version": "1"}, {"version": "2"}]}
~
lock p.toml ix #
=0
version = 2
root = "demo"

[[package]]
name = "a"
version = "1"

[[package]]
name = "d"
version = "1"

[[package]]
name = "demo"
version = "0.1"
dependencies = [
    { name = "a", version = "1" },
    { name = "d", version = "1" },
    { name = "u", version = "2" },
]

[[package]]
name = "u"
version = "2"
~
verify p.toml ix printed
=0
verified
~
export printed
=0
a==1
d==1
u==2
~~
@p.toml
[project]
name = "demo"
version = "0.1"
dependencies = ["a"]
@ix/a.json
{"name": "a", "versions": [{"version": "2.0a1"}]}
~
lock p.toml ix #
=0
version = 2
root = "demo"

[[package]]
name = "a"
version = "2.0a1"

[[package]]
name = "demo"
version = "0.1"
dependencies = [
    { name = "a", version = "2.0a1" },
]
~
verify p.toml ix printed
=0
verified
~~
@p.toml
[project]
name = "demo"
version = "0.1"
dependencies = ["a"]
@ix/a.json
{"name": "a", "versions": [{"version": "1.0"}, {"version": "2.0a1"}]}
~
lock p.toml ix #
=0
version = 2
root = "demo"

[[package]]
name = "a"
version = "1.0"

[[package]]
name = "demo"
version = "0.1"
dependencies = [
    { name = "a", version = "1.0" },
]
~
verify p.toml ix printed
=0
verified
~~
@p.toml
[project]
name = "demo"
version = "0.1"
dependencies = ["a>=2.0a0"]
@ix/a.json
{"name": "a", "versions": [{"version": "1.0"}, {"version": "2.0a1"}]}
~
lock p.toml ix #
=0
version = 2
root = "demo"

[[package]]
name = "a"
version = "2.0a1"

[[package]]
name = "demo"
version = "0.1"
dependencies = [
    { name = "a", version = "2.0a1" },
]
~
verify p.toml ix printed
=0
verified
~~
@p.toml
[project]
name = "demo"
version = "0.1"
dependencies = ["a"]
@ix/a.json
{"name": "a", "versions": [{"version": "1"}, {"version": "2"}]}
~
lock p.toml ix #
=0
version = 2
root = "demo"

[[package]]
name = "a"
version = "2"

[[package]]
name = "demo"
version = "0.1"
dependencies = [
    { name = "a", version = "2" },
]
~
lock p.toml ix # old.lock
@old.lock
version = 2
root = "demo"

[[package]]
name = "a"
version = "1"

[[package]]
name = "demo"
version = "0.1"
dependencies = [
    { name = "a", version = "1" },
]
=0
version = 2
root = "demo"

[[package]]
name = "a"
version = "1"

[[package]]
name = "demo"
version = "0.1"
dependencies = [
    { name = "a", version = "1" },
]
~
lock p.toml ix # old.lock
@old.lock
version = 1
root = "demo"

[[package]]
name = "a"
version = "1"

[[package]]
name = "demo"
version = "0.1"
dependencies = [
    { name = "a", version = "1" },
]
=0
version = 2
root = "demo"

[[package]]
name = "a"
version = "1"

[[package]]
name = "demo"
version = "0.1"
dependencies = [
    { name = "a", version = "1" },
]
~
lock p.toml ix # old.lock
@old.lock
version = 2
root = "demo"

[[package]]
name = "a"
version = 
=3
malformed: old.lock: line 6
~
lock p.toml ix # old.lock
=3
malformed: old.lock: absent
~
verify p.toml ix old.lock
@old.lock
version = 2
root = "demo"

[[package]]
name = "a"
version = "1"

[[package]]
name = "demo"
version = "0.1"
dependencies = [
    { name = "a", version = "1" },
]
=0
verified
~
verify p.toml ix old.lock
@old.lock
version = 1
root = "demo"

[[package]]
name = "a"
version = "1"

[[package]]
name = "demo"
version = "0.1"
dependencies = [
    { name = "a", version = "1" },
]
=0
verified
~~
@p.toml
[project]
name = "demo"
version = "0.1"
dependencies = ["a>=2"]
@ix/a.json
{"name": "a", "versions": [{"version": "1"}, {"version": "2"}]}
@old.lock
version = 2
root = "demo"

[[package]]
name = "a"
version = "1"

[[package]]
name = "demo"
version = "0.1"
dependencies = [
    { name = "a", version = "1" },
]
~
lock p.toml ix # old.lock
=0
version = 2
root = "demo"

[[package]]
name = "a"
version = "2"

[[package]]
name = "demo"
version = "0.1"
dependencies = [
    { name = "a", version = "2" },
]
~
verify p.toml ix old.lock
=9
rejected: demo 0.1
~~
@p.toml
[project]
name = "demo"
version = "0.1"
dependencies = ["a"]
@ix/a.json
{"name": "a", "versions": [{"version": "1"}, {"version": "2", "requires_dist": ["!!"]}]}
~
lock p.toml ix #
=0
version = 2
root = "demo"

[[package]]
name = "a"
version = "1"

[[package]]
name = "demo"
version = "0.1"
dependencies = [
    { name = "a", version = "1" },
]
~
verify p.toml ix printed
=0
verified
~~
@p.toml
[project]
name = "demo"
version = "0.1"
requires-python = ">=3.9"
dependencies = ["a"]
@ix/a.json
{"name": "a", "versions": [{"version": "1", "requires_python": ">=3.10"}, {"version": "0.9", "requires_python": ">=3.8"}]}
~
lock p.toml ix #
=0
version = 2
root = "demo"
supported-markers = "python_full_version >= '3.9.0'"

[[package]]
name = "a"
version = "0.9"

[[package]]
name = "demo"
version = "0.1"
dependencies = [
    { name = "a", version = "0.9" },
]
~
verify p.toml ix printed
=0
verified
~~
@p.toml
[project]
name = "demo"
version = "0.1"
dependencies = ["a"]
@ix/a.json
{"name": "a", "versions": [{"version": "2", "yanked": true}, {"version": "1"}]}
~
lock p.toml ix #
=0
version = 2
root = "demo"

[[package]]
name = "a"
version = "1"

[[package]]
name = "demo"
version = "0.1"
dependencies = [
    { name = "a", version = "1" },
]
~
verify p.toml ix printed
=0
verified
~~
@p.toml
[project]
name = "demo"
version = "0.1"
dependencies = ["a==2"]
@ix/a.json
{"name": "a", "versions": [{"version": "2", "yanked": true}, {"version": "1"}]}
~
lock p.toml ix #
=0
version = 2
root = "demo"

[[package]]
name = "a"
version = "2"

[[package]]
name = "demo"
version = "0.1"
dependencies = [
    { name = "a", version = "2" },
]
~
verify p.toml ix printed
=0
verified
"#;
