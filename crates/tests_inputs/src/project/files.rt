//! Small project files.
use crate::project::told::is_read;
use std::alloc::Global;
use tests_rows::{cells, put};

// What is told of a file, its kind, and its lines, which `~` separates: a row for each place that can be refused, those
// in which the first of two faults is told, and files that are read. Before the lines stands nothing (`w`), the head of
// a project (`p`), or that and `tool.uv` (`u`); with the profile `wide` before it, `v` and `x`.
const ROWS: &str = "not TOML#w#[\n\
    shape project#w#x = 1\n\
    shape project#w#project = 1\n\
    shape project.name#w#[project]\n\
    shape project.name#w#[project]~name = 1\n\
    shape project.name#w#[project]~name = '-a'\n\
    shape project.version#p#version = 1\n\
    shape project.version#p#version = 'x'\n\
    shape project.dynamic#p#dynamic = 'version'\n\
    shape project.dynamic#p#dynamic = ['dependencies', 1]\n\
    unsupported project.dynamic#p#dynamic = ['version', 'dependencies']\n\
    unsupported project.dynamic#p#dynamic = ['optional-dependencies']\n\
    unsupported project.dynamic#p#dynamic = ['requires-python']\n\
    shape project.requires-python#p#requires-python = 3\n\
    shape project.requires-python#p#requires-python = '3'\n\
    shape project.dependencies#p#dependencies = {}\n\
    shape project.dependencies[1]#p#dependencies = ['a', 1]\n\
    unsupported project.dependencies[0]#p#dependencies = ['a @ https://x/y']\n\
    requirement project.dependencies[0]#p#dependencies = ['a==']\n\
    shape project.optional-dependencies#p#optional-dependencies = []\n\
    shape project.optional-dependencies#p#[project.optional-dependencies]~'-a' = []\n\
    shape project.optional-dependencies#p#[project.optional-dependencies]~a_b = []~'a.B' = []\n\
    shape project.optional-dependencies.a-b#p#[project.optional-dependencies]~'A.B' = {}\n\
    shape project.optional-dependencies.a-b[0]#p#[project.optional-dependencies]~'A.B' = [1]\n\
    unsupported project.optional-dependencies.x[1]#p#[project.optional-dependencies]~X = ['b', 'a@x']\n\
    requirement project.optional-dependencies.x[1]#p#[project.optional-dependencies]~X = ['b', '']\n\
    shape dependency-groups#w#dependency-groups = []~[project]~name = 'a'\n\
    shape dependency-groups#p#[dependency-groups]~'a!' = []\n\
    shape dependency-groups#p#[dependency-groups]~a = []~A = []\n\
    shape dependency-groups#p#[project.optional-dependencies]~Group_x-Y = []~[dependency-groups]~'X.y' = []\n\
    shape dependency-groups.x-y#p#[dependency-groups]~'X.y' = 1\n\
    shape dependency-groups.x[0]#p#[dependency-groups]~x = [1]\n\
    shape dependency-groups.x[1]#p#[dependency-groups]~x = ['a', {}]\n\
    shape dependency-groups.x[0]#p#[dependency-groups]~x = [{include-group = 'a', b = 1}]\n\
    shape dependency-groups.x[0]#p#[dependency-groups]~x = [{include-group = 1}]\n\
    shape dependency-groups.x[0]#p#[dependency-groups]~x = [{include-group = '-'}]\n\
    shape dependency-groups.x[0]#p#[dependency-groups]~x = [{include = 'a'}]\n\
    unsupported dependency-groups.x[0]#p#[dependency-groups]~x = ['a@x']\n\
    requirement dependency-groups.x[0]#p#[dependency-groups]~x = ['a a']\n\
    shape tool#w#tool = 1~[project]~name = 'a'\n\
    shape tool.uv#p#[tool]~uv = 1\n\
    unsupported tool.uv.sources#u#sources = { a = 1 }\n\
    unsupported tool.uv.sources#u#sources = { a = { index = 'b' } }\n\
    unsupported tool.uv.sources#u#sources = { demo = {} }\n\
    unsupported tool.uv.sources#u#sources = { 'a!' = 1 }~environments = 1\n\
    unsupported tool.uv.sources#u#sources = [1]\n\
    unsupported tool.uv.conflicts#u#conflicts = [1]\n\
    unsupported tool.uv.index#u#index = 1\n\
    unsupported tool.uv.extra-index-url#u#extra-index-url = 'x'\n\
    unsupported tool.uv.find-links#u#find-links = ['x']\n\
    unsupported tool.uv.workspace#u#workspace = { members = [] }\n\
    unsupported tool.uv.dev-dependencies#u#dev-dependencies = ['a']\n\
    shape tool.uv.constraint-dependencies#u#constraint-dependencies = 'a'\n\
    shape tool.uv.constraint-dependencies[1]#u#constraint-dependencies = ['a', 1]\n\
    requirement tool.uv.constraint-dependencies[0]#u#constraint-dependencies = ['a==']\n\
    unsupported tool.uv.constraint-dependencies[0]#u#constraint-dependencies = ['a[x]']\n\
    unsupported tool.uv.constraint-dependencies[0]#u#constraint-dependencies = [\"a; extra == 'x'\"]\n\
    unsupported tool.uv.constraint-dependencies[1]#u#constraint-dependencies = ['a', 'a @ x']\n\
    shape tool.uv.override-dependencies#u#override-dependencies = 'a'\n\
    shape tool.uv.override-dependencies[0]#u#override-dependencies = [1]\n\
    requirement tool.uv.override-dependencies[1]#u#override-dependencies = ['a', 'a==']\n\
    unsupported tool.uv.override-dependencies[0]#u#override-dependencies = ['a@x']\n\
    unsupported tool.uv.override-dependencies[1]#u#override-dependencies = ['a', 'a[x]']\n\
    unsupported tool.uv.override-dependencies[1]#u#override-dependencies = ['a', \"a; os_name == 'x' or extra != 'x'\"]\n\
    shape tool.uv.environments#u#environments = 1\n\
    shape tool.uv.environments#u#environments = 'x'\n\
    shape tool.uv.environments#u#environments = ''\n\
    shape tool.uv.environments[1]#u#environments = [\"os_name == 'x'\", 1]\n\
    shape tool.uv.environments[0]#u#environments = ['x']\n\
    shape tool.uv.resolution#u#resolution = 1\n\
    shape tool.uv.resolution#u#resolution = 'Highest'\n\
    unsupported tool.uv.prerelease#u#prerelease = 1\n\
    unsupported tool.uv.prerelease#u#prerelease = 'allow'\n\
    unsupported tool.uv.fork-strategy#u#fork-strategy = 1\n\
    unsupported tool.uv.fork-strategy#u#fork-strategy = 'most'\n\
    empty region#p#requires-python = '>=3,<3'\n\
    empty region#p#requires-python = '<3'~[tool.uv]~environments = \"python_version >= '3'\"\n\
    empty region#u#environments = [\"extra == 'x'\", \"os_name == 'a' and os_name == 'b'\"]\n\
    shape project#w#tool = 1\n\
    shape project.name#w#[project]~version = 'x'\n\
    shape project.version#p#dynamic = ['dependencies']~version = 'x'\n\
    unsupported project.dynamic#p#requires-python = 1~dynamic = ['dependencies']\n\
    shape project.requires-python#p#dependencies = 1~requires-python = 1\n\
    unsupported project.dependencies[0]#p#optional-dependencies = 1~dependencies = ['a@b', 1]\n\
    shape project.optional-dependencies#p#[project.optional-dependencies]~a = 1~'b!' = []\n\
    shape project.optional-dependencies.b[0]#p#[project.optional-dependencies]~a = 1~B = [1]\n\
    shape project.optional-dependencies.a#p#[project.optional-dependencies]~a = 1~[dependency-groups]~'b!' = []\n\
    shape dependency-groups#p#[dependency-groups]~a = 1~'b!' = []\n\
    shape dependency-groups.b#p#[dependency-groups]~a = 1~B = 1\n\
    shape dependency-groups.a#p#[dependency-groups]~a = 1~[tool]~uv = 1\n\
    shape tool.uv#p#[tool]~uv = ['x']\n\
    unsupported tool.uv.sources#u#constraint-dependencies = 1~conflicts = 1~sources = 1\n\
    unsupported tool.uv.dev-dependencies#u#constraint-dependencies = 1~dev-dependencies = 1\n\
    shape tool.uv.constraint-dependencies#u#override-dependencies = 1~constraint-dependencies = 1\n\
    unsupported tool.uv.constraint-dependencies[0]#u#constraint-dependencies = ['a[x]', 1]\n\
    shape tool.uv.override-dependencies#u#environments = 1~override-dependencies = 1\n\
    shape tool.uv.environments#u#resolution = 1~environments = 1\n\
    shape tool.uv.resolution#u#prerelease = 1~resolution = 1\n\
    unsupported tool.uv.prerelease#u#fork-strategy = 1~prerelease = 1\n\
    unsupported tool.uv.fork-strategy#p#requires-python = '<0'~[tool.uv]~fork-strategy = 1\n\
    demo 0 | | | | | 1 0 1 highest fewest#p#\n\
    a-b 1.0rc1 | | | | | 1 0 1 highest fewest#w#[project]~name = 'A__b'~version = ' v1.0.RC1 '~more = 1~[other]\n\
    demo 0 a b+x+y:2; | | | | | 1 0 1 highest fewest#p#dynamic = ['version']~dependencies = ['a', \"b [y,X,x] (>1, <3) ; os_name == 'x'\"]\n\
    demo 0 a b! c! c! | x y-z | | | | 1 0 1 highest fewest#p#dependencies = ['a']~[project.optional-dependencies]~'Y.Z' = ['c', \"c; os_name == 'x'\"]~x = ['b']\n\
    demo 0 | | a-c= b= @c a | | | 1 0 1 highest fewest#p#[dependency-groups]~'A.c' = []~b = [{include-group = 'C'}, 'a']\n\
    demo 0 | | | a:1 a; | b | 1 0 1 highest fewest#u#constraint-dependencies = ['a<2', \"a; os_name == 'x'\"]~override-dependencies = ['b']\n\
    demo 0 | | | | | 1 0 1 highest fewest#u#environments = []~sources = {}~index = []~workspace = {}~managed = true\n\
    demo 0 | | | | | 1 0 1 highest fewest#u#sources = []\n\
    demo 0 | | | | | 1 0 1 highest fewest#u#conflicts = []~extra-index-url = []~find-links = {}~dev-dependencies = []\n\
    demo 0 | | | | | 1 1 1 lowest fewest#u#environments = \"os_name == 'x'\"~resolution = 'lowest'\n\
    demo 0 | | | | | 1 2 2 lowest-direct requires-python#u#environments = [\"os_name == 'x'\", \"os_name == 'y'\"]~resolution = 'lowest-direct'~fork-strategy = 'requires-python'\n\
    demo 0 | | | | | 1 2 1 highest deep#p#requires-python = '>=3.9,!=3.8.1'~[tool.uv]~environments = [\"os_name == 'x'\", \"os_name != 'x'\"]~fork-strategy = 'deep'~prerelease = 'if-necessary-or-explicit'~resolution = 'highest'";

// The file of a kind and of lines.
fn file_of(alloc: Global, kind: &str, lines: &str) -> String {
    let mut file = String::new(alloc);
    if kind == "v" || kind == "x" {
        put(&mut file, "[tool.unilock]\nprofile = 'wide'\n");
    }
    if kind != "w" {
        put(&mut file, "[project]\nname = 'demo'\n");
    }
    if kind == "u" || kind == "x" {
        put(&mut file, "[tool.uv]\n");
    }
    for line in lines.split('~') {
        put(&mut file, line);
        put(&mut file, "\n");
    }
    file
}

// Whether a row is told as it says.
pub(crate) fn is_row(alloc: Global, row: &str) -> bool {
    let (want, rest) = cells(row, '#');
    let (kind, lines) = cells(rest, '#');
    let file = file_of(alloc, kind, lines);
    is_read(alloc, file.as_bytes(), want)
}

#[test]
fn files_are_read_or_refused(rt: HostRuntime) {
    for row in ROWS.split('\n') {
        assert!(rt; is_row(rt.alloc(), row), "{row}");
    }
}
