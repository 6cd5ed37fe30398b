// Where a project file or an index document is refused.

/// Each place where a project file is refused, with its kind, and a file that is refused there, up to `~`.
pub(crate) const PROJECT_PLACES: &str = r#"not TOML
[project
~
not TOML
[project]
name = "a"
name = "a"
~
shape project
tool = 1
~
shape project
project = "a"
~
shape project.name
[project]
~
shape project.name
[project]
name = 1
~
shape project.name
[project]
name = "-a"
~
shape project.version
[project]
name = "a"
version = 1
~
shape project.version
[project]
name = "a"
version = "1."
~
shape project.dynamic
[project]
name = "a"
dynamic = "version"
~
shape project.dynamic
[project]
name = "a"
dynamic = ["dependencies", 1]
~
unsupported project.dynamic
[project]
name = "a"
dynamic = ["version", "dependencies"]
~
unsupported project.dynamic
[project]
name = "a"
dynamic = ["optional-dependencies"]
~
unsupported project.dynamic
[project]
name = "a"
dynamic = ["requires-python"]
~
shape project.requires-python
[project]
name = "a"
requires-python = 3
~
shape project.requires-python
[project]
name = "a"
requires-python = "3.9"
~
shape project.dependencies
[project]
name = "a"
dependencies = "b"
~
shape project.dependencies[1]
[project]
name = "a"
dependencies = ["b", 1]
~
unsupported project.dependencies[0]
[project]
name = "a"
dependencies = ["a @ https://x/y"]
~
requirement project.dependencies[2]
[project]
name = "a"
dependencies = ["b", "c", "d=="]
~
shape project.optional-dependencies
[project]
name = "a"
optional-dependencies = []
~
shape project.optional-dependencies
[project]
name = "a"
[project.optional-dependencies]
"-" = []
~
shape project.optional-dependencies
[project]
name = "a"
[project.optional-dependencies]
b-c = []
"B.c" = []
~
shape project.optional-dependencies.b-c
[project]
name = "a"
[project.optional-dependencies]
"B.C" = "d"
~
shape project.optional-dependencies.b[0]
[project]
name = "a"
[project.optional-dependencies]
b = [["d"]]
~
unsupported project.optional-dependencies.b[1]
[project]
name = "a"
[project.optional-dependencies]
b = ["c", "d[e] @ file:f"]
~
requirement project.optional-dependencies.b[0]
[project]
name = "a"
[project.optional-dependencies]
b = ["d; os_name"]
~
shape dependency-groups
[project]
name = "a"
[[dependency-groups]]
~
shape dependency-groups
[project]
name = "a"
[dependency-groups]
"b c" = []
~
shape dependency-groups
[project]
name = "a"
[dependency-groups]
b_c = []
b-c = []
~
shape dependency-groups
[project]
name = "a"
[project.optional-dependencies]
Group_B = []
[dependency-groups]
b = []
~
shape dependency-groups.b-c
[project]
name = "a"
[dependency-groups]
B_C = {}
~
shape dependency-groups.b[0]
[project]
name = "a"
[dependency-groups]
b = [1]
~
unsupported dependency-groups.b[0]
[project]
name = "a"
[dependency-groups]
b = ["c @ d"]
~
requirement dependency-groups.b[1]
[project]
name = "a"
[dependency-groups]
b = ["c", ""]
~
shape dependency-groups.b[0]
[project]
name = "a"
[dependency-groups]
b = [{}]
~
shape dependency-groups.b[0]
[project]
name = "a"
[dependency-groups]
b = [{include-group = 1}]
~
shape dependency-groups.b[0]
[project]
name = "a"
[dependency-groups]
b = [{include-group = "-"}]
~
shape dependency-groups.b[0]
[project]
name = "a"
[dependency-groups]
b = [{include-group = "c", more = 1}]
c = []
~
shape tool
tool = 1
[project]
name = "a"
~
shape tool.uv
[project]
name = "a"
[tool]
uv = []
~
unsupported tool.uv.sources
[project]
name = "a"
[tool.uv]
sources = {b = {}}
~
unsupported tool.uv.conflicts
[project]
name = "a"
[tool.uv]
conflicts = [[]]
~
unsupported tool.uv.index
[project]
name = "a"
[tool.uv]
index = [{}]
~
unsupported tool.uv.extra-index-url
[project]
name = "a"
[tool.uv]
extra-index-url = ["u"]
~
unsupported tool.uv.find-links
[project]
name = "a"
[tool.uv]
find-links = ""
~
unsupported tool.uv.workspace
[project]
name = "a"
[tool.uv]
workspace = 1
~
unsupported tool.uv.dev-dependencies
[project]
name = "a"
[tool.uv]
dev-dependencies = ["b"]
~
shape tool.uv.constraint-dependencies
[project]
name = "a"
[tool.uv]
constraint-dependencies = "b"
~
shape tool.uv.constraint-dependencies[1]
[project]
name = "a"
[tool.uv]
constraint-dependencies = ["b", 1]
~
requirement tool.uv.constraint-dependencies[0]
[project]
name = "a"
[tool.uv]
constraint-dependencies = ["b=="]
~
unsupported tool.uv.constraint-dependencies[0]
[project]
name = "a"
[tool.uv]
constraint-dependencies = ["b @ c"]
~
unsupported tool.uv.constraint-dependencies[1]
[project]
name = "a"
[tool.uv]
constraint-dependencies = ["b", "c[d]"]
~
unsupported tool.uv.constraint-dependencies[0]
[project]
name = "a"
[tool.uv]
constraint-dependencies = ["b; extra == 'c'"]
~
shape tool.uv.override-dependencies
[project]
name = "a"
[tool.uv]
override-dependencies = "b"
~
shape tool.uv.override-dependencies[1]
[project]
name = "a"
[tool.uv]
override-dependencies = ["b", 1]
~
requirement tool.uv.override-dependencies[0]
[project]
name = "a"
[tool.uv]
override-dependencies = ["b=="]
~
unsupported tool.uv.override-dependencies[0]
[project]
name = "a"
[tool.uv]
override-dependencies = ["b @ c"]
~
unsupported tool.uv.override-dependencies[1]
[project]
name = "a"
[tool.uv]
override-dependencies = ["b", "c[d]"]
~
unsupported tool.uv.override-dependencies[0]
[project]
name = "a"
[tool.uv]
override-dependencies = ["b; extra == 'c'"]
~
shape tool.uv.environments
[project]
name = "a"
[tool.uv]
environments = 1
~
shape tool.uv.environments
[project]
name = "a"
[tool.uv]
environments = "linux"
~
shape tool.uv.environments[1]
[project]
name = "a"
[tool.uv]
environments = ["os_name == 'nt'", 1]
~
shape tool.uv.environments[0]
[project]
name = "a"
[tool.uv]
environments = [""]
~
shape tool.uv.resolution
[project]
name = "a"
[tool.uv]
resolution = 1
~
shape tool.uv.resolution
[project]
name = "a"
[tool.uv]
resolution = "newest"
~
unsupported tool.uv.prerelease
[project]
name = "a"
[tool.uv]
prerelease = "allow"
~
unsupported tool.uv.prerelease
[project]
name = "a"
[tool.uv]
prerelease = 1
~
unsupported tool.uv.fork-strategy
[project]
name = "a"
[tool.uv]
fork-strategy = "deepest"
~
unsupported tool.uv.fork-strategy
[project]
name = "a"
[tool.uv]
fork-strategy = 1
~
empty region
[project]
name = "a"
requires-python = ">=3.9,<3.8"
~
empty region
[project]
name = "a"
[tool.uv]
environments = ["os_name == 'nt' and os_name == 'posix'"]
~
shape dependency-groups.b[1]
[project]
name = "a"
[dependency-groups]
b = ["c", {include-group = "d"}]
~
shape dependency-groups.x[0]
[project]
name = "a"
[dependency-groups]
x = [{include-group = "x"}]
~
shape dependency-groups.c[0]
[project]
name = "a"
[dependency-groups]
b = [{include-group = "c"}]
c = [{include-group = "B"}]
~
shape project.name
[project]
name = 1
version = 1
~
shape project.version
[project]
name = "a"
version = "x"
dynamic = 1
~
shape tool.uv.override-dependencies
[project]
name = "a"
[tool.uv]
override-dependencies = 1
environments = 1
"#;

/// Each place where the document of `a` is refused, with its kind, and a document that is refused there, up to `~`.
pub(crate) const DOCUMENT_PLACES: &str = r#"not JSON
{]
~
not JSON

~
shape document
[]
~
shape name
{}
~
shape name
{"name": 1, "versions": []}
~
shape name
{"name": null}
~
shape versions
{"name": "a"}
~
shape versions
{"name": "b", "versions": {}}
~
name
{"name": "b", "versions": []}
~
name
{"name": "-", "versions": [1]}
~
shape versions[0]
{"name": "A", "versions": ["1"]}
~
shape versions[1]
{"name": "A", "versions": [{"version": "1"}, null]}
~
shape versions[0].version
{"name": "A", "versions": [{}]}
~
shape versions[1].version
{"name": "A", "versions": [{"version": "1"}, {"version": 1}]}
~
shape versions[0].requires_python
{"name": "A", "versions": [{"version": "x", "requires_python": 3}]}
~
shape versions[0].requires_dist
{"name": "A", "versions": [{"version": "1", "requires_dist": "b"}]}
~
shape versions[2].requires_dist
{"name": "A", "versions": [{"version": "1"}, {"version": "1"}, {"version": "2", "requires_dist": ["!!", 1]}]}
~
shape versions[0].yanked
{"name": "A", "versions": [{"version": "1", "yanked": 0}]}
~
shape versions[0].files
{"name": "A", "versions": [{"version": "1", "files": {}}]}
~
shape versions[0].files[0]
{"name": "A", "versions": [{"version": "1", "files": ["b"]}]}
~
shape versions[0].files[0]
{"name": "A", "versions": [{"version": "1", "files": [{"sha256": "0000000000000000000000000000000000000000000000000000000000000000"}]}]}
~
shape versions[0].files[1]
{"name": "A", "versions": [{"version": "1", "files": [{"file": "b", "sha256": "0000000000000000000000000000000000000000000000000000000000000000"}, {"file": "c"}]}]}
~
shape versions[0].files[0]
{"name": "A", "versions": [{"version": "1", "files": [{"file": "", "sha256": "0000000000000000000000000000000000000000000000000000000000000000"}]}]}
~
shape versions[0].files[0]
{"name": "A", "versions": [{"version": "1", "files": [{"file": "b c", "sha256": "0000000000000000000000000000000000000000000000000000000000000000"}]}]}
~
shape versions[0].files[0]
{"name": "A", "versions": [{"version": "1", "files": [{"file": "b", "sha256": "0"}]}]}
~
shape versions[0].files
{"name": "A", "versions": [{"version": "1", "files": [{"file": "b", "sha256": "0000000000000000000000000000000000000000000000000000000000000000"}, {"file": "b", "sha256": "0000000000000000000000000000000000000000000000000000000000000000"}]}]}
~
shape versions[0].files[2]
{"name": "A", "versions": [{"version": "1", "files": [{"file": "b", "sha256": "0000000000000000000000000000000000000000000000000000000000000000"}, {"file": "b", "sha256": "0000000000000000000000000000000000000000000000000000000000000000"}, 1]}]}
~
shape versions[0].requires_python
{"name": "A", "versions": [{"yanked": 0, "requires_python": 1, "version": "1"}]}
"#;
