//! The sources of `tool.uv.sources` in files of the profile `wide`.
use crate::project::files::is_row;

// Rows as those of small project files: sources in each form, behind which stand their labels, and with `;` those that
// have a condition; then each fault, and the first of two.
const ROWS: &str = "demo 0 | | | | | 1 0 1 highest fewest#x#sources = {}\n\
    demo 0 | | | | | 1 0 1 highest fewest t=beta#x#sources = { t = { index = 'beta' } }\n\
    demo 0 | | | | | 1 0 1 highest fewest t-u=be-ta#x#sources = { T_u = { index = 'Be..Ta', extras = 1, editable = true } }\n\
    demo 0 | | | | | 1 0 1 highest fewest t=direct#x#sources = { t = { path = '../t' } }\n\
    demo 0 | | | | | 1 0 1 highest fewest a=direct b=direct c=direct d=direct#x#sources = { d = {}, b = { git = 'https://x/y', rev = 'z' }, a = { url = 1 }, c = { workspace = true } }\n\
    demo 0 | | | | | 1 0 1 highest fewest t=beta#x#sources = { t = { index = 'beta', path = 'x', workspace = 1 } }\n\
    demo 0 | | | | | 1 0 1 highest fewest t=direct-x#x#sources = { t = [{ index = 'direct.x' }] }\n\
    demo 0 | | | | | 1 0 1 highest fewest t=beta;#x#sources = { t = { index = 'beta', marker = \"sys_platform == 'win32'\" } }\n\
    demo 0 | | | | | 1 0 1 highest fewest t=a;,b,direct;#x#sources = { t = [{ index = 'a', marker = \"os_name == 'x'\" }, { index = 'b' }, { git = 'c', marker = \"os_name != 'x' or python_version < '3'\" }] }\n\
    demo 0 | | | | | 1 0 1 highest fewest t=b,a,b#x#sources = { t = [{ index = 'b' }, { index = 'a' }, { index = 'B' }] }\n\
    demo 0 | | | | | 1 0 1 highest fewest a=y b-c=direct c=x#x#sources = { c = { index = 'x' }, a = { index = 'y' }, B_C = {} }\n\
    demo 0 | | | | | 1 0 1 highest fewest demo-x=b#x#sources = { Demo = { index = 'a' }, demo_x = { index = 'b' } }\n\
    demo 0 | | | | | 1 0 1 highest fewest#x#sources = { demo = [{ index = 'a' }, {}] }\n\
    demo 0 t | | | t:1 | | 1 0 1 lowest fewest t=a#v#dependencies = ['t']~[tool.uv]~sources = { t = { index = 'a' } }~constraint-dependencies = ['t<2']~index = [1]~resolution = 'lowest'\n\
    shape tool.uv.sources#x#sources = 1\n\
    shape tool.uv.sources#x#sources = []\n\
    shape tool.uv.sources#x#sources = [{ a = {} }]\n\
    shape tool.uv.sources#x#sources = { '-a' = {} }\n\
    shape tool.uv.sources#x#sources = { '' = {} }\n\
    shape tool.uv.sources#x#sources = { a_b = {}, 'A.b' = {} }\n\
    shape tool.uv.sources#x#sources = { a = 1, 'b!' = {} }\n\
    shape tool.uv.sources.a-b#x#sources = { 'A__b' = 1 }\n\
    shape tool.uv.sources.a#x#sources = { a = 'x' }\n\
    shape tool.uv.sources.a#x#sources = { a = [] }\n\
    shape tool.uv.sources.a#x#sources = { a = ['x'] }\n\
    shape tool.uv.sources.a#x#sources = { a = [{}, [], {}] }\n\
    shape tool.uv.sources.a#x#sources = { a = [[{}]] }\n\
    shape tool.uv.sources.a#x#sources = { a = { index = 1 } }\n\
    shape tool.uv.sources.a#x#sources = { a = { index = '' } }\n\
    shape tool.uv.sources.a#x#sources = { a = { index = 'a b' } }\n\
    shape tool.uv.sources.a#x#sources = { a = { index = 'direct' } }\n\
    shape tool.uv.sources.a#x#sources = { a = [{}, { index = 'DiRect' }] }\n\
    shape tool.uv.sources.a#x#sources = { a = { marker = 1 } }\n\
    shape tool.uv.sources.a#x#sources = { a = { marker = '' } }\n\
    shape tool.uv.sources.a#x#sources = { a = { marker = 'x' } }\n\
    shape tool.uv.sources.a#x#sources = { a = { marker = \"extra == 'x'\" } }\n\
    shape tool.uv.sources.a#x#sources = { a = { index = 'b', marker = \"os_name == 'x' or extra != 'y'\" } }\n\
    shape tool.uv.sources.a#x#sources = { a = [{ marker = \"os_name == 'x'\" }, { marker = \"os_name = 'x'\" }] }\n\
    shape tool.uv.sources.a#x#sources = { a = { extra = 1 } }\n\
    shape tool.uv.sources.a#x#sources = { a = { extra = '-' } }\n\
    shape tool.uv.sources.a#x#sources = { a = { extra = 'x', group = ['y'] } }\n\
    shape tool.uv.sources.a#x#sources = { a = { group = '' } }\n\
    shape tool.uv.sources.b#x#sources = { a = 1, B = 1 }\n\
    shape tool.uv.sources.b#x#sources = { a = { extra = 'x' }, b = 1 }\n\
    shape tool.uv.sources.demo#x#sources = { Demo = 1 }\n\
    shape tool.uv.sources.a#x#conflicts = 1~sources = { a = 1 }\n\
    unsupported tool.uv.conflicts#x#conflicts = 1~sources = { a = { extra = 'x' } }\n\
    unsupported tool.uv.sources.a#x#sources = { a = { extra = 'x' } }\n\
    unsupported tool.uv.sources.a#x#sources = { a = [{ index = 'b' }, { index = 'c', group = 'x' }] }\n\
    unsupported tool.uv.sources.b#x#sources = { a = { extra = 'x' }, B = { extra = 'x', group = 'y' } }\n\
    unsupported tool.uv.sources.demo#x#sources = { demo = { extra = 'x' } }\n\
    unsupported tool.uv.sources.a#x#constraint-dependencies = 1~sources = { a = { group = 'x' } }\n\
    shape tool.uv.constraint-dependencies#x#constraint-dependencies = 1~sources = { a = {} }";

#[test]
fn sources_are_read_or_refused(rt: HostRuntime) {
    for row in ROWS.split('\n') {
        assert!(rt; is_row(rt.alloc(), row), "{row}");
    }
}
