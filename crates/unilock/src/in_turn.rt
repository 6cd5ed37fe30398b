// Faults in turn: each read of a command fails, its write ends after so many bytes, a lock ends after so many lines; and how
// deep a file nests.
use crate::faults::failing_sink;
use crate::fork_rows::FORKS;
use crate::tests::{
    Group, cells, group_of, printed, printed_into, printed_of_read, put, whole_case,
};
use std::alloc::Global;
use std::fmt::Write;
use std::process::Abort;
use std::sync::Wait;
use std::thread::Threads;

// The group of the project.
fn web_app() -> Group<'static> {
    for text in FORKS.split("~~") {
        if text.contains("Web_App") {
            let (group, _) = group_of(text);
            return group;
        }
    }
    let (group, _) = group_of("");
    group
}

// The documents that are read, in their order.
const INDEX: &str =
    "ix/fastapi.json ix/numpy.json ix/colorama.json ix/pytest.json ix/starlette.json \
    ix/typing-extensions.json ix/httpx.json ix/iniconfig.json ix/tomli.json";

// Words, the paths that they read in their order (`*` stands for the documents), and files of their own.
const READS: &str = r#"lock p.toml ix 1
p.toml *
~
lock p.toml ix 2 printed
p.toml printed *
~
why p.toml ix 1
p.toml *
~
env printed m.json
printed m.json
@m.json
{"os_name": "posix", "sys_platform": "linux", "platform_machine": "x86_64", "platform_python_implementation": "CPython", "platform_release": "6", "platform_system": "Linux", "platform_version": "1", "implementation_name": "cpython", "implementation_version": "3.11.0", "python_full_version": "3.11.0"}
~
export printed dev
printed
~
check p.toml ix d
p.toml d *
@d
no selection serves this fork
fork: -
region: *
world: python_full_version == '0.0.0' and os_name == '' and sys_platform == '' and platform_machine == '' and platform_python_implementation == '' and platform_release == '' and platform_system == '' and platform_version == '' and implementation_name == ''
1 need web-app {1.2.0} fastapi {}
~
verify p.toml ix printed
p.toml printed *"#;

// The words and the files of a row.
fn given_of(alloc: Global, row: &str) -> String {
    let (words, rest) = cells(row, "\n");
    let (_, own) = cells(rest, "\n");
    let mut given = String::new(alloc);
    let _ = write!(given, "{words}\n{own}");
    whole_case(alloc, &web_app(), given.as_str(), "1")
}

// The paths of a row.
fn paths_of(alloc: Global, row: &str) -> String {
    let (_, rest) = cells(row, "\n");
    let (paths, _) = cells(rest, "\n");
    match paths.replace(alloc, "*", INDEX) {
        Ok(paths) => paths,
        Err(_) => String::new(alloc),
    }
}

// Whether the read of this number fails with its path.
fn is_told<R: Threads + Wait + Sync>(
    rt: &R,
    alloc: Global,
    given: &str,
    read: u64,
    path: &str,
) -> bool {
    let mut wanted = String::new(alloc);
    let _ = write!(wanted, "5\nread fault: {path}\n");
    printed_of_read(rt, alloc, given, read).as_str() == wanted.as_str()
}

// Whether each read fails in turn with its path, and there is no other read.
fn fails_in_turn<R: Threads + Wait + Sync>(rt: &R, alloc: Global, row: &str) -> bool {
    let given = given_of(alloc, row);
    let mut read = 0u64;
    for path in paths_of(alloc, row).split(' ') {
        if !is_told(rt, alloc, given.as_str(), read, path) {
            return false;
        }
        read = read.saturating_add(1);
    }
    let told = printed_of_read(rt, alloc, given.as_str(), read);
    !told.starts_with("5") && told.as_str() == printed(rt, alloc, given.as_str()).as_str()
}

#[test]
fn each_read_fails_with_its_path(rt: HostRuntime) {
    for row in READS.split("\n~\n") {
        assert!(rt; fails_in_turn(&rt, rt.alloc(), row), "{row}");
    }
}

// Whether the write fails after so many bytes, at most all of the text, and the sink has those.
fn is_cut<R: Threads + Wait + Sync>(
    rt: &R,
    alloc: Global,
    given: &str,
    text: &str,
    bytes: usize,
) -> bool {
    let mut wanted = String::new(alloc);
    let _ = write!(wanted, "6\n{}", text.get(..bytes).unwrap_or(text));
    match failing_sink(alloc, 0, bytes as u64) {
        Ok(mut out) => {
            let told = printed_into(rt, alloc, given, u64::MAX, &mut out);
            told.as_str() == wanted.as_str()
        }
        Err(_) => false,
    }
}

// Whether the write of a row fails after no byte, one, and all.
fn are_cut<R: Threads + Wait + Sync>(rt: &R, alloc: Global, row: &str) -> bool {
    let given = given_of(alloc, row);
    let whole = printed(rt, alloc, given.as_str());
    let (_, text) = cells(whole.as_str(), "\n");
    for bytes in [0, 1, text.len()] {
        if !is_cut(rt, alloc, given.as_str(), text, bytes) {
            return false;
        }
    }
    text.len() > 1
}

#[test]
fn each_write_fails_after_some_bytes(rt: HostRuntime) {
    for row in READS.split("\n~\n") {
        assert!(rt; are_cut(&rt, rt.alloc(), row), "{row}");
    }
}

// The first group, whose lock has two forks.
fn two_forks() -> Group<'static> {
    let (text, _) = cells(FORKS, "~~");
    let (group, _) = group_of(text);
    group
}

// Words over the group's files, and so many lines of its lock.
fn cut_lock(alloc: Global, words: &str, count: usize) -> String {
    let group = two_forks();
    let mut given = String::new(alloc);
    let _ = write!(given, "{words}\n@cut");
    for line in group.printed.split('\n').take(count) {
        let _ = write!(given, "\n{line}");
    }
    whole_case(alloc, &group, given.as_str(), "1")
}

// What is printed for a lock that ends after so many lines.
const CUTS: &str =
    "5 3\nmalformed: cut: line 6\n|7 3\nmalformed: cut: root\n|15 3\nmalformed: cut: target 0\n";

const READERS: &str = "export cut|env cut m.json|verify p.toml ix cut|lock p.toml ix 1 cut";

// Whether each command that reads a lock says so.
fn is_cut_lock<R: Threads + Wait + Sync>(rt: &R, alloc: Global, row: &str) -> bool {
    let (count, wanted) = cells(row, " ");
    let count = count.parse::<usize>().unwrap_or(0);
    for words in READERS.split('|') {
        let given = cut_lock(alloc, words, count);
        if printed(rt, alloc, given.as_str()).as_str() != wanted {
            return false;
        }
    }
    true
}

// Whether the lock that ends behind the project's version is one without dependencies.
fn is_shorter<R: Threads + Wait + Sync>(rt: &R, alloc: Global) -> bool {
    let given = cut_lock(alloc, "export cut", 11);
    printed(rt, alloc, given.as_str()).as_str() == "0\n"
}

#[test]
fn a_lock_that_ends_early_is_told_by_its_place(rt: HostRuntime) {
    for row in CUTS.split('|') {
        assert!(rt; is_cut_lock(&rt, rt.alloc(), row), "{row}");
    }
    assert!(rt; is_shorter(&rt, rt.alloc()));
}

// What is written so often inside itself, and what is printed.
const DEPTHS: &str =
    "json 126 0|json 127 3\nmalformed: ix/a.json: not JSON\n|json 200 3\nmalformed: ix/a.json: not JSON\n|\
    toml 80 0|toml 81 3\nmalformed: p.toml: not TOML\n|\
    marker 64 0|marker 65 3\nmalformed: p.toml: requirement project.dependencies[0]\n";

// So many of two brackets, with what is between them.
fn nested(alloc: Global, open: &str, count: usize, between: &str, close: &str) -> String {
    let mut told = String::new(alloc);
    for _ in 0..count {
        put(&mut told, open);
    }
    put(&mut told, between);
    for _ in 0..count {
        put(&mut told, close);
    }
    told
}

// A project that requires `a`, with a text behind the requirement, one in a table of its own and one in the document of `a`.
fn deep_case(alloc: Global, marker: &str, table: &str, key: &str) -> String {
    let mut given = String::new(alloc);
    let _ = write!(
        given,
        "lock p.toml ix 1\n@p.toml\n[project]\nname = \"demo\"\ndependencies = [\"a{marker}\"]\n[tool.more]\nkey = {table}\n\
         @ix/a.json\n{{\"name\": \"a\", \"more\": {key}, \"versions\": [{{\"version\": \"1\"}}]}}"
    );
    given
}

// The case of a kind.
fn case_of(alloc: Global, kind: &str, count: usize) -> String {
    match kind {
        "json" => {
            let key = nested(alloc, "[", count, "", "]");
            deep_case(alloc, "", "0", key.as_str())
        }
        "toml" => {
            let table = nested(alloc, "[", count, "", "]");
            deep_case(alloc, "", table.as_str(), "0")
        }
        _ => {
            let marker = nested(alloc, "(", count, "os_name == 'x'", ")");
            let mut behind = String::new(alloc);
            let _ = write!(behind, "; {}", marker.as_str());
            deep_case(alloc, behind.as_str(), "0", "0")
        }
    }
}

// Whether a case is answered with its status, and with its line where it is refused.
fn is_depth<R: Threads + Wait + Sync>(rt: &R, alloc: Global, row: &str) -> bool {
    let (kind, rest) = cells(row, " ");
    let (count, wanted) = cells(rest, " ");
    let given = case_of(alloc, kind, count.parse::<usize>().unwrap_or(0));
    let told = printed(rt, alloc, given.as_str());
    if wanted == "0" {
        told.starts_with("0\n")
    } else {
        told.as_str() == wanted
    }
}

#[test]
fn depths_and_one_past_each(rt: HostRuntime) {
    for row in DEPTHS.split('|') {
        assert!(rt; is_depth(&rt, rt.alloc(), row), "{row}");
    }
}
