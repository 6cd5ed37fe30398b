//! Project files of the profile `wide`, and the key of the profile.
use crate::project::files::is_row;

// Rows as those of small project files, of what the profile reads and passes over, and of what stays refused.
const ROWS: &str = "shape tool.unilock#p#[tool]~unilock = 1\n\
    shape tool.unilock.profile#p#[tool.unilock]~profile = 1\n\
    shape tool.unilock.profile#p#[tool.unilock]~profile = 'Wide'\n\
    shape tool.unilock.profile#p#[tool.unilock]~profile = ''\n\
    shape dependency-groups#p#[dependency-groups]~a = 1~'b!' = []~[tool]~unilock = 1\n\
    shape tool.uv#p#[tool]~unilock = 1~uv = 1\n\
    shape tool.unilock#p#[tool]~unilock = 1~[tool.uv]~sources = 1\n\
    shape tool.unilock.profile#p#[tool.unilock]~profile = 'x'~[tool.uv]~sources = 1\n\
    unsupported project.dependencies[0]#p#dependencies = ['a @ b']~[tool.unilock]~profile = 'Wide'\n\
    unsupported project.dependencies[0]#p#dependencies = ['a @ b']~[tool.unilock]~profile = 'strict'\n\
    unsupported tool.uv.index#p#[tool.unilock]~profile = 'strict'~[tool.uv]~index = 1\n\
    demo 0 | | | | | 1 0 1 highest fewest#p#[tool.unilock]~profile = 'strict'~more = 1\n\
    demo 0 | | | | | 1 0 1 highest fewest#v#\n\
    demo 0 a; | | | | | 1 0 1 highest fewest#v#dependencies = [\"a @ https://example.org/a-1.whl ; sys_platform == 'win32'\"]\n\
    demo 0 a+x b | | | | | 1 0 1 highest fewest#v#dependencies = ['a [X]@git+https://x/y@1', \"b @ u;os_name=='a'\"]\n\
    requirement project.dependencies[0]#v#dependencies = ['a @']\n\
    requirement project.dependencies[1]#v#dependencies = ['a', 'a @ b c']\n\
    requirement project.dependencies[0]#v#dependencies = ['a @ b ;', 1]\n\
    requirement project.dependencies[0]#v#dependencies = ['a==']\n\
    demo 0 a! | x | | | | 1 0 1 highest fewest#v#[project.optional-dependencies]~x = ['a @ u']\n\
    requirement project.optional-dependencies.x[0]#v#[project.optional-dependencies]~x = ['a @']\n\
    demo 0 | | x= a | | | 1 0 1 highest fewest#v#[dependency-groups]~x = ['a @ u']\n\
    requirement dependency-groups.x[0]#v#[dependency-groups]~x = ['a @']\n\
    demo 0 | | | a | b; | 1 0 1 highest fewest#x#constraint-dependencies = ['a @ u']~override-dependencies = [\"b @ u ; os_name == 'x'\"]\n\
    unsupported tool.uv.constraint-dependencies[0]#x#constraint-dependencies = ['a[x] @ u']\n\
    unsupported tool.uv.override-dependencies[0]#x#override-dependencies = [\"a @ u ; extra == 'x'\"]\n\
    requirement tool.uv.override-dependencies[0]#x#override-dependencies = ['a @']\n\
    demo 0 | | | | | 1 0 1 highest fewest#x#index = 1~extra-index-url = 'x'~find-links = ['x']~workspace = { members = [] }\n\
    unsupported tool.uv.conflicts#x#workspace = 1~conflicts = 1~sources = { a = {} }\n\
    unsupported tool.uv.conflicts#x#constraint-dependencies = 1~conflicts = [1]\n\
    shape tool.uv.constraint-dependencies#x#dev-dependencies = 1~constraint-dependencies = 1\n\
    shape tool.uv.override-dependencies#x#dev-dependencies = 1~override-dependencies = 1\n\
    shape tool.uv.dev-dependencies#x#dev-dependencies = {}~environments = 1\n\
    shape tool.uv.dev-dependencies#v#[project.optional-dependencies]~Group_Dev = []~[tool.uv]~dev-dependencies = [1]\n\
    demo 0 | group-dev | | | | 1 0 1 highest fewest#v#[project.optional-dependencies]~Group_Dev = []~[tool.uv]~dev-dependencies = []\n\
    shape tool.uv.dev-dependencies[1]#x#dev-dependencies = ['a', 1]~environments = 1\n\
    shape tool.uv.dev-dependencies[0]#x#dev-dependencies = [{ include-group = 'a' }]\n\
    requirement tool.uv.dev-dependencies[1]#x#dev-dependencies = ['a', 'a @']\n\
    demo 0 | | dev= u t | | | 1 0 1 highest fewest#v#[dependency-groups]~dev = ['u']~[tool.uv]~dev-dependencies = ['t']\n\
    demo 0 | | a= dev= @a t+x z= | | | 1 0 1 highest fewest#v#[dependency-groups]~z = []~DEV = [{ include-group = 'a' }]~a = []~[tool.uv]~dev-dependencies = ['t[x] @ u']\n\
    demo 0 | | c= dev= t t! e= | | | 1 0 1 highest fewest#v#[dependency-groups]~e = []~c = []~[tool.uv]~dev-dependencies = ['t', \"t; extra == 'x'\"]\n\
    demo 0 | | | | | 1 0 1 highest fewest disallow#x#prerelease = 'disallow'\n\
    demo 0 | | | | | 1 0 1 highest fewest allow#x#prerelease = 'allow'\n\
    demo 0 | | | | | 1 0 1 highest fewest if-necessary#x#prerelease = 'if-necessary'\n\
    demo 0 | | | | | 1 0 1 highest fewest explicit#x#prerelease = 'explicit'\n\
    demo 0 | | | | | 1 0 1 highest fewest#x#prerelease = 'if-necessary-or-explicit'\n\
    unsupported tool.uv.prerelease#x#prerelease = 'Allow'~fork-strategy = 1\n\
    unsupported tool.uv.prerelease#x#prerelease = 1\n\
    shape tool.uv.resolution#x#prerelease = 1~resolution = 1\n\
    unsupported tool.uv.fork-strategy#x#prerelease = 'allow'~fork-strategy = 1";

#[test]
fn wide_files_are_read_or_refused(rt: HostRuntime) {
    for row in ROWS.split('\n') {
        assert!(rt; is_row(rt.alloc(), row), "{row}");
    }
}
