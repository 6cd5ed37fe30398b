// Locks with markers, forks and extras.

/// Projects, their locks, and what `env`, `export` and `verify` answer to them. The form is that of `CHOICES`.
pub(crate) const FORKS: &str = r#"
@p.toml
[project]
name = "demo"
version = "0.1"
requires-python = ">=3.9"
dependencies = ["numpy>=2; python_version >= '3.11'", "numpy<2; python_version < '3.11'"]
@ix/numpy.json
{"name": "numpy", "versions": [{"version": "1.26"}, {"version": "2.1"}]}
~
lock p.toml ix #
=0
version = 2
root = "demo"
supported-markers = "python_full_version >= '3.9.0'"
resolution-markers = [
    "python_full_version >= '3.11.0'",
    "python_full_version < '3.11.0'",
]

[[package]]
name = "demo"
version = "0.1"
dependencies = [
    { name = "numpy", version = "1.26", marker = "python_full_version < '3.11.0'" },
    { name = "numpy", version = "2.1", marker = "python_full_version >= '3.11.0'" },
]

[[package]]
name = "numpy"
version = "1.26"

[[package]]
name = "numpy"
version = "2.1"
~
why p.toml ix #
=0
no fork is refused
~
verify p.toml ix printed
=0
verified
~
export printed
=0
numpy==1.26 ; python_full_version < '3.11.0'
numpy==2.1 ; python_full_version >= '3.11.0'
~
export printed gpu
=8
extra: gpu
~
env printed m.json
@m.json
{"os_name": "posix", "sys_platform": "linux", "platform_machine": "x86_64", "platform_python_implementation": "CPython", "platform_release": "6", "platform_system": "Linux", "platform_version": "1", "implementation_name": "cpython", "implementation_version": "3.8.18", "python_full_version": "3.8.18"}
=8
outside
~
env printed m.json
@m.json
{"os_name": "posix", "sys_platform": "linux", "platform_machine": "x86_64", "platform_python_implementation": "CPython", "platform_release": "6", "platform_system": "Linux", "platform_version": "1", "implementation_name": "cpython", "implementation_version": "3.10.4", "python_full_version": "3.10.4"}
=0
numpy==1.26
~
env printed m.json
@m.json
{"os_name": "posix", "sys_platform": "linux", "platform_machine": "x86_64", "platform_python_implementation": "CPython", "platform_release": "6", "platform_system": "Linux", "platform_version": "1", "implementation_name": "cpython", "implementation_version": "3.11.0", "python_full_version": "3.11.0"}
=0
numpy==2.1
~
env printed m.json gpu
@m.json
{"os_name": "posix", "sys_platform": "linux", "platform_machine": "x86_64", "platform_python_implementation": "CPython", "platform_release": "6", "platform_system": "Linux", "platform_version": "1", "implementation_name": "cpython", "implementation_version": "3.11.0", "python_full_version": "3.11.0"}
=8
extra: gpu
~
env printed m.json no!name gpu
@m.json
{"os_name": "posix", "sys_platform": "linux", "platform_machine": "x86_64", "platform_python_implementation": "CPython", "platform_release": "6", "platform_system": "Linux", "platform_version": "1", "implementation_name": "cpython", "implementation_version": "3.11.0", "python_full_version": "3.11.0"}
=8
extra: no!name
~
env printed m.json gpu
@m.json
{"os_name": "posix", "sys_platform": "linux", "platform_machine": "x86_64", "platform_python_implementation": "CPython", "platform_release": "6", "platform_system": "Linux", "platform_version": "1", "implementation_name": "cpython", "implementation_version": "3.8.18", "python_full_version": "3.8.18"}
=8
outside
~~
@p.toml
[project]
name = "demo"
version = "0.1"
dependencies = ["a; python_version > '3.7'", "a; python_full_version >= '3.8'"]
@ix/a.json
{"name": "a", "versions": [{"version": "1"}]}
~
lock p.toml ix #
=0
version = 2
root = "demo"

[[package]]
name = "a"
version = "1"

[[package]]
name = "demo"
version = "0.1"
dependencies = [
    { name = "a", version = "1", marker = "python_full_version >= '3.8.0'" },
]
~
verify p.toml ix printed
=0
verified
~
export printed
=0
a==1 ; python_full_version >= '3.8.0'
~~
@p.toml
[project]
name = "demo"
version = "0.1"
dependencies = ["q>=1", "q<2; sys_platform == 'win32'"]
@ix/q.json
{"name": "q", "versions": [{"version": "1"}, {"version": "2"}]}
~
lock p.toml ix #
=0
version = 2
root = "demo"
resolution-markers = [
    "sys_platform == 'win32'",
    "sys_platform != 'win32'",
]

[[package]]
name = "demo"
version = "0.1"
dependencies = [
    { name = "q", version = "1", marker = "sys_platform == 'win32'" },
    { name = "q", version = "2", marker = "sys_platform != 'win32'" },
]

[[package]]
name = "q"
version = "1"

[[package]]
name = "q"
version = "2"
~
verify p.toml ix printed
=0
verified
~
export printed
=0
q==1 ; sys_platform == 'win32'
q==2 ; sys_platform != 'win32'
~~
@p.toml
[project]
name = "demo"
version = "0.1"
dependencies = ["q", "q<2; sys_platform == 'win32'", "r", "r<2; os_name == 'nt'", "s", "s<2; python_version < '3.10'"]
@ix/q.json
{"name": "q", "versions": [{"version": "1"}, {"version": "2"}]}
@ix/r.json
{"name": "r", "versions": [{"version": "1"}, {"version": "2"}]}
@ix/s.json
{"name": "s", "versions": [{"version": "1"}, {"version": "2"}]}
~
lock p.toml ix #
=0
version = 2
root = "demo"
resolution-markers = [
    "python_full_version < '3.10.0' and os_name == 'nt' and sys_platform == 'win32'",
    "python_full_version >= '3.10.0' and os_name == 'nt' and sys_platform == 'win32'",
    "python_full_version < '3.10.0' and os_name != 'nt' and sys_platform == 'win32'",
    "python_full_version >= '3.10.0' and os_name != 'nt' and sys_platform == 'win32'",
    "python_full_version < '3.10.0' and os_name == 'nt' and sys_platform != 'win32'",
    "python_full_version >= '3.10.0' and os_name == 'nt' and sys_platform != 'win32'",
    "python_full_version < '3.10.0' and os_name != 'nt' and sys_platform != 'win32'",
    "python_full_version >= '3.10.0' and os_name != 'nt' and sys_platform != 'win32'",
]

[[package]]
name = "demo"
version = "0.1"
dependencies = [
    { name = "q", version = "1", marker = "sys_platform == 'win32'" },
    { name = "q", version = "2", marker = "sys_platform != 'win32'" },
    { name = "r", version = "1", marker = "os_name == 'nt'" },
    { name = "r", version = "2", marker = "os_name != 'nt'" },
    { name = "s", version = "1", marker = "python_full_version < '3.10.0'" },
    { name = "s", version = "2", marker = "python_full_version >= '3.10.0'" },
]

[[package]]
name = "q"
version = "1"

[[package]]
name = "q"
version = "2"

[[package]]
name = "r"
version = "1"

[[package]]
name = "r"
version = "2"

[[package]]
name = "s"
version = "1"

[[package]]
name = "s"
version = "2"
~
verify p.toml ix printed
=0
verified
~
export printed
=0
q==1 ; sys_platform == 'win32'
q==2 ; sys_platform != 'win32'
r==1 ; os_name == 'nt'
r==2 ; os_name != 'nt'
s==1 ; python_full_version < '3.10.0'
s==2 ; python_full_version >= '3.10.0'
~~
@p.toml
[project]
name = "demo"
version = "0.1"
dependencies = ["p[x,none]"]
@ix/p.json
{"name": "p", "versions": [{"version": "1", "requires_dist": ["q; extra == 'x'"]}]}
@ix/q.json
{"name": "q", "versions": [{"version": "1"}]}
~
lock p.toml ix #
=0
version = 2
root = "demo"

[[package]]
name = "demo"
version = "0.1"
dependencies = [
    { name = "p", version = "1" },
    { name = "p", version = "1", extra = "none" },
    { name = "p", version = "1", extra = "x" },
]

[[package]]
name = "p"
version = "1"

[package.optional-dependencies]
none = []
x = [
    { name = "q", version = "1" },
]

[[package]]
name = "q"
version = "1"
~
verify p.toml ix printed
=0
verified
~
export printed
=0
p==1
p[none]==1
p[x]==1
q==1
~
env printed m.json
@m.json
{"os_name": "posix", "sys_platform": "linux", "platform_machine": "x86_64", "platform_python_implementation": "CPython", "platform_release": "6", "platform_system": "Linux", "platform_version": "1", "implementation_name": "cpython", "implementation_version": "3.12.0", "python_full_version": "3.12.0"}
=0
p[none,x]==1
q==1
~~
@p.toml
[project]
name = "demo"
version = "0.1"
dependencies = ["a"]
@ix/a.json
{"name": "a", "versions": [{"version": "1", "requires_dist": ["b"]}]}
@ix/b.json
{"name": "b", "versions": [{"version": "1", "requires_dist": ["a; python_version >= '3.8'"]}]}
~
lock p.toml ix #
=0
version = 2
root = "demo"

[[package]]
name = "a"
version = "1"
dependencies = [
    { name = "b", version = "1" },
]

[[package]]
name = "b"
version = "1"
dependencies = [
    { name = "a", version = "1", marker = "python_full_version >= '3.8.0'" },
]

[[package]]
name = "demo"
version = "0.1"
dependencies = [
    { name = "a", version = "1" },
]
~
verify p.toml ix printed
=0
verified
~
export printed
=0
a==1
b==1
~
env printed m.json
@m.json
{"os_name": "posix", "sys_platform": "linux", "platform_machine": "x86_64", "platform_python_implementation": "CPython", "platform_release": "6", "platform_system": "Linux", "platform_version": "1", "implementation_name": "cpython", "implementation_version": "3.12.0", "python_full_version": "3.12.0"}
=0
a==1
b==1
~~
@p.toml
[project]
name = "demo"
version = "0.1"
dependencies = ["a; 'linux' in sys_platform", "b; sys_platform == 'linux'"]
@ix/a.json
{"name": "a", "versions": [{"version": "1"}]}
@ix/b.json
{"name": "b", "versions": [{"version": "1"}]}
~
lock p.toml ix #
=0
version = 2
root = "demo"

[[package]]
name = "a"
version = "1"

[[package]]
name = "b"
version = "1"

[[package]]
name = "demo"
version = "0.1"
dependencies = [
    { name = "a", version = "1", marker = "'linux' in sys_platform" },
    { name = "b", version = "1", marker = "sys_platform == 'linux'" },
]
~
verify p.toml ix printed
=0
verified
~
export printed
=0
a==1 ; 'linux' in sys_platform
b==1 ; sys_platform == 'linux'
~
env printed m.json
@m.json
{"os_name": "posix", "sys_platform": "linux", "platform_machine": "x86_64", "platform_python_implementation": "CPython", "platform_release": "6", "platform_system": "Linux", "platform_version": "1", "implementation_name": "cpython", "implementation_version": "3.11.0", "python_full_version": "3.11.0"}
=0
a==1
b==1
~
env printed m.json
@m.json
{"os_name": "posix", "sys_platform": "linux2", "platform_machine": "x86_64", "platform_python_implementation": "CPython", "platform_release": "6", "platform_system": "Linux", "platform_version": "1", "implementation_name": "cpython", "implementation_version": "3.11.0", "python_full_version": "3.11.0"}
=0
a==1
~~
@p.toml
[build-system]
requires = ["hatchling"]
build-backend = "hatchling.build"

[project]
name = "Web_App"
version = "1.2.0"
description = "an example"
requires-python = ">=3.9"
dependencies = [
    "fastapi>=0.110,<1",
    "numpy>=2; python_version >= '3.11'",
    "numpy<2; python_version < '3.11'",
    "colorama; sys_platform == 'win32'",
]

[project.optional-dependencies]
dev = ["pytest>=8"]
@ix/colorama.json
{"name": "colorama", "versions": [{"version": "0.4.6", "requires_python": "!=3.0.*,!=3.1.*,>=2.7"}]}
@ix/fastapi.json
{"name": "fastapi", "versions": [{"version": "0.110.0", "requires_dist": ["starlette>=0.36.3,<0.37.0", "typing-extensions>=4.8.0", "httpx>=0.23.0; extra == \"all\""], "requires_python": ">=3.8"}]}
@ix/iniconfig.json
{"name": "iniconfig", "versions": [{"version": "2.0.0", "requires_python": ">=3.7"}]}
@ix/numpy.json
{"name": "numpy", "versions": [{"version": "1.26.4", "requires_python": ">=3.9"}, {"version": "2.1.0", "requires_python": ">=3.10"}]}
@ix/pytest.json
{"name": "pytest", "versions": [{"version": "8.1.1", "requires_dist": ["iniconfig", "colorama; sys_platform == \"win32\"", "tomli (>=1) ; python_version < \"3.11\""], "requires_python": ">=3.8"}]}
@ix/starlette.json
{"name": "starlette", "versions": [{"version": "0.36.3", "requires_dist": ["typing-extensions>=3.10.0; python_version < '3.10'"], "requires_python": ">=3.8"}, {"version": "0.37.2", "requires_python": ">=3.8"}]}
@ix/tomli.json
{"name": "tomli", "versions": [{"version": "2.0.1", "requires_python": ">=3.7"}]}
@ix/typing-extensions.json
{"name": "typing-extensions", "versions": [{"version": "4.10.0", "requires_python": ">=3.8"}]}
~
lock p.toml ix #
=0
version = 2
root = "web-app"
supported-markers = "python_full_version >= '3.9.0'"
resolution-markers = [
    "python_full_version >= '3.11.0'",
    "python_full_version < '3.11.0'",
]

[[package]]
name = "colorama"
version = "0.4.6"

[[package]]
name = "fastapi"
version = "0.110.0"
dependencies = [
    { name = "starlette", version = "0.36.3" },
    { name = "typing-extensions", version = "4.10.0" },
]

[[package]]
name = "iniconfig"
version = "2.0.0"

[[package]]
name = "numpy"
version = "1.26.4"

[[package]]
name = "numpy"
version = "2.1.0"

[[package]]
name = "pytest"
version = "8.1.1"
dependencies = [
    { name = "colorama", version = "0.4.6", marker = "sys_platform == 'win32'" },
    { name = "iniconfig", version = "2.0.0" },
    { name = "tomli", version = "2.0.1", marker = "python_full_version < '3.11.0'" },
]

[[package]]
name = "starlette"
version = "0.36.3"
dependencies = [
    { name = "typing-extensions", version = "4.10.0", marker = "python_full_version < '3.10.0'" },
]

[[package]]
name = "tomli"
version = "2.0.1"

[[package]]
name = "typing-extensions"
version = "4.10.0"

[[package]]
name = "web-app"
version = "1.2.0"
dependencies = [
    { name = "colorama", version = "0.4.6", marker = "sys_platform == 'win32'" },
    { name = "fastapi", version = "0.110.0" },
    { name = "numpy", version = "1.26.4", marker = "python_full_version < '3.11.0'" },
    { name = "numpy", version = "2.1.0", marker = "python_full_version >= '3.11.0'" },
]

[package.optional-dependencies]
dev = [
    { name = "pytest", version = "8.1.1" },
]
~
verify p.toml ix printed
=0
verified
~
export printed dev
=0
colorama==0.4.6 ; sys_platform == 'win32'
fastapi==0.110.0
iniconfig==2.0.0
numpy==1.26.4 ; python_full_version < '3.11.0'
numpy==2.1.0 ; python_full_version >= '3.11.0'
pytest==8.1.1
starlette==0.36.3
tomli==2.0.1 ; python_full_version < '3.11.0'
typing-extensions==4.10.0
~
export printed Dev dev
=0
colorama==0.4.6 ; sys_platform == 'win32'
fastapi==0.110.0
iniconfig==2.0.0
numpy==1.26.4 ; python_full_version < '3.11.0'
numpy==2.1.0 ; python_full_version >= '3.11.0'
pytest==8.1.1
starlette==0.36.3
tomli==2.0.1 ; python_full_version < '3.11.0'
typing-extensions==4.10.0
~
export printed
=0
colorama==0.4.6 ; sys_platform == 'win32'
fastapi==0.110.0
numpy==1.26.4 ; python_full_version < '3.11.0'
numpy==2.1.0 ; python_full_version >= '3.11.0'
starlette==0.36.3
typing-extensions==4.10.0
~
env printed m.json dev
@m.json
{"os_name": "posix", "sys_platform": "linux", "platform_machine": "x86_64", "platform_python_implementation": "CPython", "platform_release": "6", "platform_system": "Linux", "platform_version": "1", "implementation_name": "cpython", "implementation_version": "3.12.3", "python_full_version": "3.12.3"}
=0
fastapi==0.110.0
iniconfig==2.0.0
numpy==2.1.0
pytest==8.1.1
starlette==0.36.3
typing-extensions==4.10.0
"#;
