//! Groups that become extras.
//!
//! A row has the lines of a project file, which `~` ends, and the expanded project in short: its requirements, its
//! extras, each with how many requirements it has, and how many groups are left; or the path of an include that is
//! refused.

use crate::groups::texts::{expanded_project, project_of, put_requirements};
use std::alloc::Global;
use std::fmt::Write;
use tests_rows::{cells, put, put_number};
use ul_groups::expand;
use ul_project::{Project, ProjectFault};

const ROWS: &str = r#"dependencies = ['d>1']|d>1 0
[dependency-groups]~test = ['t']~all = [{include-group = 'test'}, 'u']|t; u; t; group-all:2 group-test:1 0
dependencies = ['d']~[project.optional-dependencies]~hh = ['y', 'z']~e = ['x']~[dependency-groups]~a = [{include-group = 'b'}, 'q', {include-group = 'c'}, {include-group = 'b'}]~b = [{include-group = 'c'}, 'r']~c = ['s']~none = []|d x; s;AB r;AB q;AB s; r; s; y; z; e:1 group-a:3 group-b:2 group-c:1 group-none:0 hh:2 0
[dependency-groups]~A = ["t[x]>=1; os_name == 'a'", "u; os_name != 'a' or extra == 'y'"]|t+x>=1;A u;B group-a:2 0
[dependency-groups]~'X_y' = ['t']~b = [{include-group = 'x.Y'}]|t; t; group-b:1 group-x-y:1 0
[dependency-groups]~a = [{include-group = 'b'}, 'u', {include-group = 'B'}]~b = ['t']|t;AB u;AB t; group-a:2 group-b:1 0
[dependency-groups]~a = ['t', 't']|t;AB t;AB group-a:2 0
[dependency-groups]~a = [{include-group = 'b'}]~b = []|group-a:0 group-b:0 0
[project.optional-dependencies]~group = ['g']~h = ['h']~e = ['e']~[dependency-groups]~a = ['t']|e; g; t;AB h; e:1 group:1 group-a:1 h:1 0
[dependency-groups]~x = [{include-group = "x"}]|dependency-groups.x[0]
[dependency-groups]~a = ['x', {include-group = 'A'}]|dependency-groups.a[1]
[dependency-groups]~b = [{include-group = 'a'}]~a = ['x', {include-group = 'b'}]|dependency-groups.b[0]
[dependency-groups]~b = [{include-group = 'c'}]~a = ['x', 'y', {include-group = 'b'}]|dependency-groups.b[0]
[dependency-groups]~a = ['t']~b = [{include-group = 'none'}]~c = [{include-group = 'c'}]|dependency-groups.b[0]
[dependency-groups]~a = [{include-group = 'b'}, {include-group = 'none'}]~b = ['t', {include-group = 'c'}]~c = ['u', 'v', {include-group = 'b'}]|dependency-groups.c[2]"#;

// Puts the extras, each with how many requirements it has.
fn put_extras(told: &mut String, read: &Project) {
    let mut sizes = read.sizes.iter();
    for extra in &read.extras {
        put(told, extra.text());
        put(told, ":");
        put_number(told, sizes.next().copied().unwrap_or(0));
        put(told, " ");
    }
}

fn put_short(alloc: Global, told: &mut String, read: &Project) {
    for release in &read.package.releases {
        put_requirements(alloc, told, release.requirements.as_slice());
    }
    put_extras(told, read);
    put_number(told, read.groups.len() as u64);
}

fn put_fault(alloc: Global, told: &mut String, fault: &ProjectFault) {
    match fault {
        ProjectFault::Shape(path) => {
            if let Ok(path) = path.text(alloc) {
                put(told, path.as_str());
            }
        }
        ProjectFault::NoMemory => put(told, "no memory"),
        _ => put(told, "another fault"),
    }
}

fn put_expanded(alloc: Global, told: &mut String, read: Project) {
    match expand(alloc, read) {
        Ok(read) => {
            put_short(alloc, told, &read);
            drop(read);
        }
        Err(fault) => put_fault(alloc, told, &fault),
    }
}

fn expanded(alloc: Global, lines: &str) -> String {
    let mut told = String::new(alloc);
    if let Some(read) = project_of(alloc, lines) {
        put_expanded(alloc, &mut told, read);
    }
    told
}

fn is_row(alloc: Global, line: &str) -> bool {
    let (lines, want) = cells(line, '|');
    expanded(alloc, lines).as_str() == want
}

#[test]
fn groups_become_extras(rt: HostRuntime) {
    for line in ROWS.split('\n') {
        assert!(rt; is_row(rt.alloc(), line), "{line}");
    }
}

// So many groups, of which each includes the next and a hub, which has as many requirements.
fn chain(alloc: Global, count: usize) -> String {
    let mut lines = String::new(alloc);
    put(&mut lines, "[dependency-groups]~");
    for number in 0..count {
        let next = number.saturating_add(1);
        let _ = write!(
            lines,
            "g{number} = [{{include-group = 'hub'}}, {{include-group = 'g{next}'}}]~"
        );
    }
    let _ = write!(lines, "g{count} = ['last']~hub = [");
    for number in 0..count {
        let _ = write!(lines, "'leaf{number}', ");
    }
    put(&mut lines, "]~");
    lines
}

fn chain_told(alloc: Global, count: usize) -> String {
    let lines = chain(alloc, count);
    expanded(alloc, lines.as_str())
}

// Whether each list of a chain has the hub once.
fn has_hubs(alloc: Global) -> bool {
    let told = chain_told(alloc, 100);
    told.as_str().split(' ').count() == 10_304
}

// So many groups, of which each includes the next, and the last has a requirement.
fn deep_chain(alloc: Global, count: usize) -> String {
    let mut lines = String::new(alloc);
    put(&mut lines, "[dependency-groups]~");
    for number in 0..count {
        let next = number.saturating_add(1);
        let _ = write!(lines, "g{number} = [{{include-group = 'g{next}'}}]~");
    }
    let _ = write!(lines, "g{count} = ['last']~");
    lines
}

// Whether each list of 2,001 groups has the requirement of the last, through up to 2,000 includes.
fn has_last(alloc: Global) -> bool {
    let lines = deep_chain(alloc, 2_000);
    let told = expanded(alloc, lines.as_str());
    told.as_str().split(' ').count() == 4_003
}

#[test]
fn long_chains_are_expanded(rt: HostRuntime) {
    assert!(rt; has_hubs(rt.alloc()));
}

#[test]
fn deep_chains_are_expanded(rt: HostRuntime) {
    assert!(rt; has_last(rt.alloc()));
}

// So many groups beside one, which each of them includes.
fn star(alloc: Global, count: u64) -> String {
    let mut lines = String::new(alloc);
    put(&mut lines, "[dependency-groups]~hub = ['leaf']~");
    for number in 0..count {
        let _ = write!(lines, "g{number} = ['own', {{include-group = 'hub'}}]~");
    }
    lines
}

// A group with so many requirements.
fn wide(alloc: Global, count: u64) -> String {
    let mut lines = String::new(alloc);
    put(&mut lines, "[dependency-groups]~hub = [");
    for _ in 0..count {
        put(&mut lines, "'leaf', ");
    }
    put(&mut lines, "]~");
    lines
}

// How many extras and how many requirements a project has.
fn has_sizes(read: &Project, extras: usize, requirements: usize) -> bool {
    let mut count = 0;
    for release in &read.package.releases {
        count = release.requirements.as_slice().len();
    }
    read.extras.len() == extras && count == requirements
}

// Whether the groups of these lines become so many extras, with so many requirements in all.
fn is_large_expanded(alloc: Global, lines: &str, extras: usize, requirements: usize) -> bool {
    match expanded_project(alloc, lines) {
        Some(read) => {
            let large = has_sizes(&read, extras, requirements);
            drop(read);
            large
        }
        None => false,
    }
}

// Each of 100,000 groups has two requirements, and the one beside them has one; one group has 100,000.
#[test]
fn many_groups_and_a_large_one_are_expanded(rt: HostRuntime) {
    let alloc = rt.alloc();
    assert!(rt; is_large_expanded(alloc, star(alloc, 100_000).as_str(), 100_001, 200_001));
    assert!(rt; is_large_expanded(alloc, wide(alloc, 100_000).as_str(), 1, 100_000));
}
