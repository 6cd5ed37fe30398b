//! Large project files.
use crate::project::told::put_fault;
use std::alloc::{AllocError, Global};
use tests_rows::{cells, put, put_number};
use ul_project::{Project, project};

// Each row: what is counted, what stands before the lines, how many lines, the line, in which `#` stands for its number,
// and what stands behind the lines. `~` ends a line of the file.
const ROWS: &str = "1000 2000 0 0 0|[project.optional-dependencies]~|1000|extra-# = ['a', 'b']~|\n\
    shape project.optional-dependencies|[project.optional-dependencies]~|1000|extra-# = []~|extra_77 = []~\n\
    0 0 1000 0 0|[dependency-groups]~|1000|group-# = ['a']~|\n\
    shape dependency-groups|[dependency-groups]~|1000|group-# = ['a']~|'Group.77' = []~\n\
    0 3000 0 0 0|dependencies = [~|3000|\"name-# >= 1.0; sys_platform == 'win32'\",~|]~\n\
    requirement project.dependencies[3000]|dependencies = [|3000|'name-#',|'a==']~\n\
    0 0 0 0 0|[tool.other]~|3000|key-# = 1~|\n\
    not TOML|[tool.other]~|3000|key-# = 1~|key-77 = 1~\n\
    0 1 0 0 0|dependencies = [\"a; os_name == 'x'|2000| or os_name == 'n#'|\"]~\n\
    0 0 0 2 0|[tool.uv]~environments = [\"os_name == 'x'|1000| or os_name == 'n#'|\", \"os_name != 'n7'\"]~\n\
    0 0 0 1000 0|[tool.uv]~environments = [|1000|\"os_name == 'n#'\",|]~\n\
    0 3000 0 0 0|dependencies = [~|3000|'a @ https://example.org/#.whl',|]~[tool.unilock]~profile = 'wide'~\n\
    0 1 0 0 0|dependencies = ['a @ https://example.org/|3000|/name-#|']~[tool.unilock]~profile = 'wide'~\n\
    requirement project.dependencies[0]|dependencies = ['a @ https://example.org/|3000|/name-#| a']~[tool.unilock]~profile = 'wide'~\n\
    0 0 301 0 0|[tool.unilock]~profile = 'wide'~[tool.uv]~dev-dependencies = ['a']~[dependency-groups]~|300|group-# = ['a']~|\n\
    0 0 1 0 0|[tool.unilock]~profile = 'wide'~[tool.uv]~dev-dependencies = [|3000|'a',|]~\n\
    0 0 0 0 3000|[tool.unilock]~profile = 'wide'~[tool.uv.sources]~|3000|name-# = { index = 'beta', marker = \"os_name == 'x'\" }~|\n\
    0 0 0 0 3000|[tool.unilock]~profile = 'wide'~[tool.uv.sources]~a = [|3000|{ index = 'index-#', marker = \"os_name == 'n#'\" },|]~\n\
    0 0 0 0 1|[tool.unilock]~profile = 'wide'~[tool.uv.sources]~a = { marker = \"os_name == 'x'|2000| or os_name == 'n#'|\" }~\n\
    0 0 0 0 1|[tool.unilock]~profile = 'wide'~[tool.uv.sources]~a = { index = 'index-|3000|name-#|' }~\n\
    shape tool.uv.sources|[tool.unilock]~profile = 'wide'~[tool.uv.sources]~|3000|name-# = {}~|name_77 = {}~\n\
    shape tool.uv.sources.a|[tool.unilock]~profile = 'wide'~[tool.uv.sources]~a = [|3000|{ index = 'index-#' },|1]~\n\
    unsupported tool.uv.sources.z|[tool.unilock]~profile = 'wide'~[tool.uv.sources]~z = { extra = 'x' }~|3000|name-# = {}~|\n\
    unsupported tool.uv.sources.a|[tool.unilock]~profile = 'wide'~[tool.uv.sources]~a = [|3000|{ index = 'index-#' },|{ group = 'x' }]~\n\
    0 0 0 0 1|[tool.unilock]~profile = 'wide'~[tool.uv.sources]~b = {}~demo = [|3000|{ index = 'index-#' },|{}]~\n\
    not TOML|x = |100000|[|";

// Puts so many lines, with the number of each in place of `#`.
fn put_lines(file: &mut String, line: &str, count: u64) {
    let (front, back) = cells(line, '#');
    for number in 0..count {
        put(file, front);
        if front.len() < line.len() {
            put_number(file, number);
        }
        put(file, back);
    }
}

// The file of a row's cells behind the first.
fn file_of(alloc: Global, row: &str) -> Result<String, AllocError> {
    let (head, rest) = cells(row, '|');
    let (count, rest) = cells(rest, '|');
    let (line, end) = cells(rest, '|');
    let mut file = String::new(alloc);
    put(&mut file, "[project]~name = 'demo'~");
    put(&mut file, head);
    put_lines(&mut file, line, count.parse::<u64>().unwrap_or(0));
    put(&mut file, end);
    file.replace(alloc, "~", "\n")
}

// How many sources a project has, those of all names together.
fn source_count(project: &Project) -> u64 {
    let mut count: u64 = 0;
    for named in &project.sources {
        count = count.wrapping_add(named.sources.len() as u64);
    }
    count
}

// Puts how many extras, requirements, groups, environments and sources a project has.
fn put_counts(told: &mut String, project: &Project) {
    put_number(told, project.extras.len() as u64);
    for release in &project.package.releases {
        put(told, " ");
        put_number(told, release.requirements.as_slice().len() as u64);
    }
    put(told, " ");
    put_number(told, project.groups.len() as u64);
    put(told, " ");
    put_number(told, project.environments.len() as u64);
    put(told, " ");
    put_number(told, source_count(project));
}

// What a file is read as: these numbers, or the fault.
fn counted(alloc: Global, file: &str) -> String {
    let mut told = String::new(alloc);
    match project(alloc, file.as_bytes()) {
        Ok(project) => {
            put_counts(&mut told, &project);
            drop(project);
        }
        Err(fault) => put_fault(alloc, &mut told, &fault),
    }
    told
}

fn is_row(alloc: Global, row: &str) -> bool {
    let (want, rest) = cells(row, '|');
    match file_of(alloc, rest) {
        Ok(file) => counted(alloc, file.as_str()).as_str() == want,
        Err(_) => false,
    }
}

#[test]
fn large_files(rt: HostRuntime) {
    for row in ROWS.split('\n') {
        assert!(rt; is_row(rt.alloc(), row), "{row}");
    }
}
