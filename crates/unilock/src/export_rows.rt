// What `export` answers to locks.

/// Locks, and their lines. The form is that of `CHOICES`.
pub(crate) const EXPORTS: &str = r#"
@l
version = 2
root = "demo"

[[package]]
name = "a"
version = "1"

[package.optional-dependencies]
x = [
    { name = "b", version = "1" },
]

[[package]]
name = "b"
version = "1"

[[package]]
name = "c"
version = "1"

[[package]]
name = "demo"
version = "0.1"
dependencies = [
    { name = "a", version = "1" },
]

[package.optional-dependencies]
all = [
    { name = "demo", version = "0.1" },
    { name = "demo", version = "0.1", extra = "dev" },
]
dev = [
    { name = "a", version = "1", extra = "x", marker = "sys_platform == 'win32'" },
]
none = []
~
export l
=0
a==1
~
export l none
=0
a==1
~
export l dev
=0
a==1
a[x]==1 ; sys_platform == 'win32'
b==1 ; sys_platform == 'win32'
~
export l all
=0
a==1
a[x]==1 ; sys_platform == 'win32'
b==1 ; sys_platform == 'win32'
~
export l D_e.v
=8
extra: D_e.v
~
export l DEV none dev
=0
a==1
a[x]==1 ; sys_platform == 'win32'
b==1 ; sys_platform == 'win32'
~
export l gpu
=8
extra: gpu
~
export l dev -x gpu
=8
extra: -x
~
export l none gpu -x
=8
extra: gpu
~
export l dev[x]
=8
extra: dev[x]
~
export l désirs
=8
extra: désirs
~
export l x
=8
extra: x
~~
@l
version = 2
root = "demo"
supported-markers = "python_full_version >= '3.9.0'"

[[package]]
name = "a"
version = "1"
dependencies = [
    { name = "a", version = "1" },
    { name = "b", version = "1", marker = "os_name == 'nt'" },
]

[[package]]
name = "b"
version = "1"
dependencies = [
    { name = "a", version = "1" },
    { name = "c", version = "1", marker = "python_full_version < '3.10.0'" },
]

[[package]]
name = "c"
version = "1"

[[package]]
name = "d"
version = "1"
dependencies = [
    { name = "e", version = "1", marker = "python_full_version < '3.9.0'" },
]

[[package]]
name = "demo"
version = "0.1"
dependencies = [
    { name = "b", version = "1", marker = "sys_platform == 'win32'" },
    { name = "d", version = "1" },
]

[[package]]
name = "e"
version = "1"

[[package]]
name = "f"
version = "1"
~
export l
=0
a==1 ; sys_platform == 'win32'
b==1 ; sys_platform == 'win32'
c==1 ; python_full_version < '3.10.0' and sys_platform == 'win32'
d==1
~~
@l
version = 1
root = "demo"

[[package]]
name = "a"
version = "1"
dependencies = [
    { name = "q", version = "1", marker = "os_name == 'nt'" },
]

[[package]]
name = "b"
version = "1"
dependencies = [
    { name = "q", version = "1", marker = "os_name != 'nt'" },
    { name = "r", version = "1", marker = "os_name == \"it's\"" },
]

[[package]]
name = "demo"
version = "0.1"
dependencies = [
    { name = "a", version = "1", marker = "sys_platform == 'win32'" },
    { name = "b", version = "1", marker = "sys_platform == 'win32'" },
    { name = "q", version = "2", marker = "sys_platform != 'win32'" },
]

[[package]]
name = "q"
version = "1"

[[package]]
name = "q"
version = "2"

[[package]]
name = "r"
version = "1"
~
export l
=0
a==1 ; sys_platform == 'win32'
b==1 ; sys_platform == 'win32'
q==1 ; sys_platform == 'win32'
q==2 ; sys_platform != 'win32'
r==1 ; os_name == "it's" and sys_platform == 'win32'
~~
~
export
=2
usage: unilock lock|why|env|check|gen|export|verify WORDS
~
export l gpu
=3
malformed: l: absent
~
export l gpu
@l
version = 3
=3
malformed: l: line 1
~
export l gpu
@l
version = 2
root = "demo"

[[package]]
name = "a"
version = "1"
=3
malformed: l: root
~
export l gpu
@l
version = 2
root = "demo"

[[package]]
name = "a"
version = "1"

[[package]]
name = "demo"
version = "0.1"
dependencies = [
    { name = "a", version = "2" },
]
=3
malformed: l: target 1
~~
@l
version = 2
root = "demo"

[[package]]
name = "a"
version = "1"
dependencies = [
    { name = "b", version = "1", marker = "os_name == 'nt'" },
]

[[package]]
name = "b"
version = "1"
dependencies = [
    { name = "c", version = "1" },
]

[[package]]
name = "c"
version = "1"
dependencies = [
    { name = "a", version = "1" },
]

[package.optional-dependencies]
x = [
    { name = "c", version = "1" },
    { name = "c", version = "1", extra = "x" },
]

[[package]]
name = "demo"
version = "0.1"
dependencies = [
    { name = "a", version = "1", marker = "sys_platform == 'linux'" },
    { name = "c", version = "1", extra = "x", marker = "sys_platform == 'win32'" },
]
~
export l
=0
a==1 ; sys_platform == 'linux' or sys_platform == 'win32'
b==1 ; os_name == 'nt' and sys_platform == 'linux' or os_name == 'nt' and sys_platform == 'win32'
c==1 ; os_name == 'nt' and sys_platform == 'linux' or os_name == 'nt' and sys_platform == 'win32' or os_name != 'nt' and sys_platform == 'win32'
c[x]==1 ; sys_platform == 'win32'
~~
@l
version = 2
root = "demo"
supported-markers = "sys_platform == 'linux'"

[[package]]
name = "a"
version = "1"

[[package]]
name = "b"
version = "1"

[[package]]
name = "demo"
version = "0.1"
dependencies = [
    { name = "a", version = "1", marker = "sys_platform == 'win32'" },
    { name = "b", version = "1", marker = "sys_platform == 'linux'" },
]
~
export l
=0
b==1
~~
@l
version = 2
root = "demo"

[[package]]
name = "a"
version = "1"
dependencies = [
    { name = "c", version = "1!2.0.post1", marker = "os_name == 'nt'" },
]

[[package]]
name = "b"
version = "1"
dependencies = [
    { name = "c", version = "1!2.0.post1", marker = "os_name == 'posix'" },
]

[[package]]
name = "c"
version = "1!2.0.post1"
dependencies = [
    { name = "d", version = "1" },
]

[[package]]
name = "d"
version = "1"

[[package]]
name = "demo"
version = "0.1"
dependencies = [
    { name = "a", version = "1" },
    { name = "b", version = "1" },
    { name = "d", version = "1", marker = "os_name == 'java'" },
]
~
export l
=0
a==1
b==1
c==1!2.0.post1 ; os_name == 'nt' or os_name == 'posix'
d==1 ; os_name == 'java' or os_name == 'nt' or os_name == 'posix'
"#;
