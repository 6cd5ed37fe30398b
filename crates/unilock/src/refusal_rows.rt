// Projects that no selection serves.

/// Refused projects, with the cores of their refusals. The form is that of `CHOICES`.
pub(crate) const REFUSALS: &str = r#"
@p.toml
[project]
name = "demo"
version = "0.1"
dependencies = ["q<2; sys_platform == 'win32'", "q>=2; sys_platform != 'win32'"]
@ix/q.json
{"name": "q", "versions": [{"version": "1", "requires_dist": ["z"]}, {"version": "2", "requires_dist": ["z"]}]}
~
lock p.toml ix #
=1
no selection serves this fork
fork: 0
region: sys_platform == 'win32'
world: python_full_version == '0.0.0' and os_name == '' and sys_platform == 'win32' and platform_machine == '' and platform_python_implementation == '' and platform_release == '' and platform_system == '' and platform_version == '' and implementation_name == ''
core: 2
demo 0.1 needs q {1}
q 1 needs z {}
~
check p.toml ix d
@d
no selection serves this fork
fork: 0
region: sys_platform == 'win32'
world: python_full_version == '0.0.0' and os_name == '' and sys_platform == 'win32' and platform_machine == '' and platform_python_implementation == '' and platform_release == '' and platform_system == '' and platform_version == '' and implementation_name == ''
1 need demo {0.1} q {1}
2 need q {1} z {}
3 cut 1 2 on q: demo {0.1}
=0
accepted
~
check p.toml ix d
@d
no selection serves this fork
fork: 0
region: sys_platform == 'win32'
world: python_full_version == '0.0.0' and os_name == '' and sys_platform == 'win32' and platform_machine == '' and platform_python_implementation == '' and platform_release == '' and platform_system == '' and platform_version == '' and implementation_name == ''
1 need demo {0.1} q {1}
2 need q {1} z {}
3 cut 1 2 on q:
=9
rejected: step 3
~
check p.toml ix d
@d
no selection serves this fork
fork: 2
region: sys_platform == 'win32'
world: python_full_version == '0.0.0' and os_name == '' and sys_platform == 'win32' and platform_machine == '' and platform_python_implementation == '' and platform_release == '' and platform_system == '' and platform_version == '' and implementation_name == ''
1 need demo {0.1} q {1}
2 need q {1} z {}
3 cut 1 2 on q: demo {0.1}
=3
malformed: d: line 2
~~
@p.toml
[project]
name = "demo"
version = "0.1"
dependencies = ["a>=2"]
@ix/a.json
{"name": "a", "versions": [{"version": "1"}, {"version": "2", "requires_dist": ["!!"]}]}
~
lock p.toml ix #
=1
no selection serves this fork
fork: -
region: *
world: python_full_version == '0.0.0' and os_name == '' and sys_platform == '' and platform_machine == '' and platform_python_implementation == '' and platform_release == '' and platform_system == '' and platform_version == '' and implementation_name == ''
core: 1
demo 0.1 needs a {}
~~
@p.toml
[project]
name = "demo"
version = "0.1"
dependencies = ["p[x]", "q<2", "r"]
@ix/p.json
{"name": "p", "versions": [{"version": "1", "requires_dist": ["q>=2; extra == 'x'"]}]}
@ix/q.json
{"name": "q", "versions": [{"version": "1"}, {"version": "2"}]}
@ix/r.json
{"name": "r", "versions": [{"version": "1"}]}
~
lock p.toml ix #
=1
no selection serves this fork
fork: -
region: *
world: python_full_version == '0.0.0' and os_name == '' and sys_platform == '' and platform_machine == '' and platform_python_implementation == '' and platform_release == '' and platform_system == '' and platform_version == '' and implementation_name == ''
core: 3
demo 0.1 needs p[x] {1}
demo 0.1 needs q {1}
p[x] 1 needs q {2}
~~
@p.toml
[project]
name = "demo"
version = "0.1"
dependencies = ["p[x]"]
@ix/p.json
{"name": "p", "versions": [{"version": "1", "requires_dist": ["q; extra == 'x'"]}, {"version": "2", "requires_dist": ["q; extra == 'x'"]}]}
~
lock p.toml ix #
=1
no selection serves this fork
fork: -
region: *
world: python_full_version == '0.0.0' and os_name == '' and sys_platform == '' and platform_machine == '' and platform_python_implementation == '' and platform_release == '' and platform_system == '' and platform_version == '' and implementation_name == ''
core: 3
demo 0.1 needs p[x] {1,2}
p[x] 1 needs q {}
p[x] 2 needs q {}
~~
@p.toml
[project]
name = "demo"
version = "0.1"
dependencies = ["a<2", "a>=2", "b<2", "b>=2"]
@ix/a.json
{"name": "a", "versions": [{"version": "1"}, {"version": "2"}]}
@ix/b.json
{"name": "b", "versions": [{"version": "1"}, {"version": "2"}]}
~
lock p.toml ix #
=1
no selection serves this fork
fork: -
region: *
world: python_full_version == '0.0.0' and os_name == '' and sys_platform == '' and platform_machine == '' and platform_python_implementation == '' and platform_release == '' and platform_system == '' and platform_version == '' and implementation_name == ''
core: 2
demo 0.1 needs b {1}
demo 0.1 needs b {2}
"#;
