// What is answered where a read fails, a write fails or a file is too long; and that the program writes once.
use crate::tests::{
    Group, cells, group_of, printed_into, printed_of_read, printed_over, put, whole_case,
};
use std::alloc::{AllocError, Global};
use std::process::Abort;
use std::sync::Wait;
use std::thread::Threads;
use ul_files::{MemFiles, MemSink, Sink, SinkRefused};

/// The files of all cases, and the cases, up to `~`: which read fails, counted from 0, or after how many bytes the write
/// does; the words; `=` with the status, and what is printed.
const FAULTS: &str = r#"
@p.toml
[project]
name = "demo"
version = "0.1"
dependencies = ["a", "b"]
@ix/a.json
{"name": "a", "versions": [{"version": "1"}]}
@ix/b.json
{"name": "b", "versions": [{"version": "1"}]}
@l
version = 2
root = "demo"

[[package]]
name = "a"
version = "1"

[[package]]
name = "b"
version = "1"

[[package]]
name = "demo"
version = "0.1"
dependencies = [
    { name = "a", version = "1" },
    { name = "b", version = "1" },
]
~
read 0
export m gpu
=5
read fault: m
~
read 0
marker m
=5
read fault: m
~
read 1
verify p.toml ix m
=5
read fault: m
~
write 9
verify p.toml ix m
=6
malformed
~
write 5
export l gpu
=6
extra
"#;

/// A sink of which one call fails, after so many bytes.
pub(crate) fn failing_sink(alloc: Global, call: u64, bytes: u64) -> Result<MemSink, AllocError> {
    let mut failing = Vec::new(alloc);
    failing.push((call, bytes))?;
    Ok(MemSink::of(alloc, failing))
}

// What is printed for a case where the write fails after so many bytes, and a line end.
fn printed_of_write<R: Threads + Wait + Sync>(
    rt: &R,
    alloc: Global,
    given: &str,
    bytes: u64,
) -> String {
    match failing_sink(alloc, 0, bytes) {
        Ok(mut out) => {
            let mut told = printed_into(rt, alloc, given, u64::MAX, &mut out);
            put(&mut told, "\n");
            told
        }
        Err(_) => String::new(alloc),
    }
}

// Whether a case is answered as it says.
fn is_fault<R: Threads + Wait + Sync>(
    rt: &R,
    alloc: Global,
    group: &Group<'_>,
    case: &str,
) -> bool {
    let (fault, case) = cells(case, "\n");
    let (kind, number) = cells(fault, " ");
    let (given, wanted) = cells(case, "\n=");
    let number = number.parse::<u64>().unwrap_or(0);
    let given = whole_case(alloc, group, given, "1");
    let told = match kind {
        "read" => printed_of_read(rt, alloc, given.as_str(), number),
        _ => printed_of_write(rt, alloc, given.as_str(), number),
    };
    told.as_str() == wanted
}

#[test]
fn names_reads_and_writes_that_fail(rt: HostRuntime) {
    let (group, cases) = group_of(FAULTS);
    for case in cases.split("~\n") {
        assert!(rt; is_fault(&rt, rt.alloc(), &group, case), "{case}");
    }
}

// A file of so many blanks.
fn blanks(alloc: Global, path: &str, count: usize) -> Result<MemFiles, AllocError> {
    let bytes = Vec::from_elem(alloc, b' ', count)?;
    let mut files = Vec::new(alloc);
    files.push((String::from_str(alloc, path)?, bytes))?;
    Ok(MemFiles::of(alloc, files, Vec::new(alloc)))
}

// What is printed where this file has so many blanks.
fn printed_of_blanks<R: Threads + Wait + Sync>(
    rt: &R,
    alloc: Global,
    words: &str,
    path: &str,
    count: usize,
) -> String {
    let mut out = MemSink::of(alloc, Vec::new(alloc));
    match blanks(alloc, path, count) {
        Ok(mut files) => printed_over(rt, alloc, words, &mut files, &mut out),
        Err(_) => String::new(alloc),
    }
}

// How many blanks a file has, its path, the words, and what is printed.
const LENGTHS: &str = "16777217 p.toml|lock p.toml ix 1|4\nlimit: file-bytes 16777216\n#\
    16777217 p.toml|verify p.toml ix l|4\nlimit: file-bytes 16777216\n#\
    16777217 f|marker f|4\nlimit: file-bytes 16777216\n#\
    16777216 f|marker f|3\nmalformed: f: line 1\n#\
    67108865 l|export l gpu|4\nlimit: text-bytes 67108864\n";

fn is_length<R: Threads + Wait + Sync>(rt: &R, alloc: Global, row: &str) -> bool {
    let (file, rest) = cells(row, "|");
    let (words, wanted) = cells(rest, "|");
    let (count, path) = cells(file, " ");
    let count = count.parse::<usize>().unwrap_or(0);
    printed_of_blanks(rt, alloc, words, path, count).as_str() == wanted
}

#[test]
fn names_the_limit_of_a_file(rt: HostRuntime) {
    for row in LENGTHS.split('#') {
        assert!(rt; is_length(&rt, rt.alloc(), row), "{row}");
    }
}

// Whether words over the files of the cases write once: the sink's second call, which fails, comes behind it.
fn is_written_once<R: Threads + Wait + Sync>(rt: &R, alloc: Global, words: &str) -> bool {
    let (group, _) = group_of(FAULTS);
    let given = whole_case(alloc, &group, words, "1");
    match failing_sink(alloc, 1, 0) {
        Ok(mut out) => {
            let told = printed_into(rt, alloc, given.as_str(), u64::MAX, &mut out);
            !told.is_empty() && out.write_all(b"more").err() == Some(SinkRefused::Failed)
        }
        Err(_) => false,
    }
}

#[test]
fn writes_once(rt: HostRuntime) {
    for words in [
        "lock p.toml ix 1",
        "export l",
        "verify p.toml ix l",
        "lock",
        "lock x.toml ix 1",
    ] {
        assert!(rt; is_written_once(&rt, rt.alloc(), words), "{words}");
    }
}

// How many files words read over the files of the cases, and the words.
const READS: &str =
    "1 export l|2 env l m|3 lock p.toml ix 1|4 lock p.toml ix 1 l|4 verify p.toml ix l|2 check p.toml ix m";

// Whether the words make so many reads: the last of them fails where it is told to, and there is none behind it.
fn makes_reads<R: Threads + Wait + Sync>(rt: &R, alloc: Global, row: &str) -> bool {
    let (count, words) = cells(row, " ");
    let count = count.parse::<u64>().unwrap_or(0);
    let (group, _) = group_of(FAULTS);
    let given = whole_case(alloc, &group, words, "1");
    let last = printed_of_read(rt, alloc, given.as_str(), count.saturating_sub(1));
    let behind = printed_of_read(rt, alloc, given.as_str(), count);
    last.as_str().starts_with("5\n")
        && !behind.as_str().starts_with("5\n")
        && !behind.as_str().is_empty()
}

// So a file that gives its bytes once alone, as `/dev/stdin`, is answered as any other.
#[test]
fn reads_each_file_once(rt: HostRuntime) {
    for row in READS.split('|') {
        assert!(rt; makes_reads(&rt, rt.alloc(), row), "{row}");
    }
}
