// What no clause says: that the call succeeds, and that the printed bytes are those of the formats.
use crate::choice_rows::CHOICES;
use crate::deep_rows::DEEP_FORKS;
use crate::export_rows::EXPORTS;
use crate::fork_rows::FORKS;
use crate::marker_rows::MARKERS;
use crate::refusal_rows::REFUSALS;
use crate::relock_rows::RELOCKED;
use crate::verify_rows::VERIFIED;
use crate::word_rows::WORDS;
use std::alloc::{AllocError, Global};
use std::fmt::Write;
use std::process::Abort;
use std::sync::Wait;
use std::thread::Threads;
use ul_base::Open;
use ul_files::{MemFiles, MemSink};
use ul_program::run;

/// Puts a piece. One that finds no memory is left out, and then what is told isn't what is wanted: so what puts pieces
/// together has no failure to hand on.
pub(crate) fn put(told: &mut String, piece: &str) {
    let _ = told.push_str(piece);
}

/// What comes before the first such mark of a text, and what comes after it.
pub(crate) fn cells<'a>(text: &'a str, mark: &str) -> (&'a str, &'a str) {
    text.split_once(mark).unwrap_or((text, ""))
}

const NONE: u64 = u64::MAX;

// A file of a case: its path, and what stands behind it, with the line end that the next file or the end takes away.
fn file_of(alloc: Global, text: &str) -> Result<(String, Vec<u8>), AllocError> {
    let (path, content) = cells(text, "\n");
    let mut bytes = Vec::from_slice(alloc, content.as_bytes())?;
    bytes.push(b'\n')?;
    Ok((String::from_str(alloc, path)?, bytes))
}

/// The files of a case, of whose reads this one fails.
pub(crate) fn files_of(alloc: Global, text: &str, failing: u64) -> Result<MemFiles, AllocError> {
    let mut files = Vec::new(alloc);
    for file in text.split("\n@").skip(1) {
        files.push(file_of(alloc, file)?)?;
    }
    let mut reads = Vec::new(alloc);
    reads.push(failing)?;
    Ok(MemFiles::of(alloc, files, reads))
}

/// The words of a case.
pub(crate) fn words_of(alloc: Global, text: &str) -> Result<Vec<String>, AllocError> {
    let (line, _) = cells(text, "\n");
    let mut words = Vec::new(alloc);
    for word in line.split(' ') {
        words.push(String::from_str(alloc, word)?)?;
    }
    Ok(words)
}

// The status of words over these files.
fn status_of<R: Threads + Wait + Sync>(
    rt: &R,
    alloc: Global,
    words: &Vec<String>,
    files: &mut MemFiles,
    out: &mut MemSink,
) -> u8 {
    run(rt, alloc, words, files, out, &Open)
}

// Puts a status, in decimal, and what a sink took, behind a line end.
fn put_output(told: &mut String, status: u8, out: &MemSink) {
    let _ = write!(told, "{status}\n");
    put(
        told,
        str::from_utf8(out.bytes().as_slice()).unwrap_or("no text"),
    );
}

/// What is printed for a case over these files, behind its status.
pub(crate) fn printed_over<R: Threads + Wait + Sync>(
    rt: &R,
    alloc: Global,
    text: &str,
    files: &mut MemFiles,
    out: &mut MemSink,
) -> String {
    let mut told = String::new(alloc);
    if let Ok(words) = words_of(alloc, text) {
        let status = status_of(rt, alloc, &words, files, out);
        put_output(&mut told, status, out);
    }
    told
}

/// What is printed for a case, of whose reads this one fails.
pub(crate) fn printed_into<R: Threads + Wait + Sync>(
    rt: &R,
    alloc: Global,
    text: &str,
    read: u64,
    out: &mut MemSink,
) -> String {
    match files_of(alloc, text, read) {
        Ok(mut files) => {
            let told = printed_over(rt, alloc, text, &mut files, out);
            drop(files);
            told
        }
        Err(_) => String::new(alloc),
    }
}

pub(crate) fn printed_of_read<R: Threads + Wait + Sync>(
    rt: &R,
    alloc: Global,
    given: &str,
    read: u64,
) -> String {
    let mut out = MemSink::of(alloc, Vec::new(alloc));
    printed_into(rt, alloc, given, read, &mut out)
}

/// What is printed for a case, behind its status.
pub(crate) fn printed<R: Threads + Wait + Sync>(rt: &R, alloc: Global, given: &str) -> String {
    printed_of_read(rt, alloc, given, NONE)
}

/// The files that all cases of a group have, and what its first case is to print, if that is an answer.
#[derive(Drop)]
pub(crate) struct Group<'a> {
    shared: &'a str,
    pub(crate) printed: &'a str,
}

// A text in which what stands first of some text becomes another.
fn edited(alloc: Global, text: &str, edit: &str) -> String {
    let (from, to) = cells(edit, "\n+");
    let (before, behind) = text.split_once(from).unwrap_or(("no such text", ""));
    let mut told = String::new(alloc);
    put(&mut told, before);
    put(&mut told, to);
    put(&mut told, behind);
    told
}

// What the first case printed, after the edits of a case.
fn edited_by(alloc: Global, printed: &str, given: &str) -> String {
    let mut told = String::new(alloc);
    put(&mut told, printed);
    for edit in given.split("\n-").skip(1) {
        told = edited(alloc, told.as_str(), edit);
    }
    told
}

/// A case of a group whole: its words, with this number of workers in place of their mark, its own files, those of the
/// group, and the file of what the first case printed.
pub(crate) fn whole_case(alloc: Global, group: &Group<'_>, given: &str, workers: &str) -> String {
    let mut told = String::new(alloc);
    let (words, own) = cells(given, "\n");
    let (before, behind) = words.split_once('#').unwrap_or((words, ""));
    put(&mut told, before);
    if before.len() < words.len() {
        put(&mut told, workers);
    }
    put(&mut told, behind);
    put(&mut told, "\n");
    put(&mut told, own);
    put(&mut told, group.shared);
    put(&mut told, "\n@printed\n");
    put(&mut told, edited_by(alloc, group.printed, given).as_str());
    told
}

// Whether a case is answered as it says by so many workers.
fn is_answered_by<R: Threads + Wait + Sync>(
    rt: &R,
    alloc: Global,
    group: &Group<'_>,
    case: &str,
    workers: &str,
) -> bool {
    let (given, wanted) = cells(case, "\n=");
    let whole = whole_case(alloc, group, given, workers);
    printed(rt, alloc, whole.as_str()).as_str() == wanted
}

// Whether a case is answered as it says, by one worker and by more where its words have a place for their number.
fn is_answered<R: Threads + Wait + Sync>(
    rt: &R,
    alloc: Global,
    group: &Group<'_>,
    case: &str,
) -> bool {
    let numbers = if case.contains('#') { "1 2 8 64" } else { "1" };
    for workers in numbers.split(' ') {
        if !is_answered_by(rt, alloc, group, case, workers) {
            return false;
        }
    }
    true
}

/// The group of a text, and its cases.
pub(crate) fn group_of(text: &str) -> (Group<'_>, &str) {
    let (shared, cases) = cells(text, "\n~\n");
    let (first, _) = cells(cases, "~\n");
    let (_, printed) = cells(first, "\n=0\n");
    let printed = printed.strip_suffix('\n').unwrap_or(printed);
    (Group { shared, printed }, cases)
}

// The first case of a group that isn't answered as it says, or the empty text.
fn wrong_in_group<'a, R: Threads + Wait + Sync>(rt: &R, alloc: Global, text: &'a str) -> &'a str {
    let (group, cases) = group_of(text);
    for case in cases.split("~\n") {
        if !is_answered(rt, alloc, &group, case) {
            return case;
        }
    }
    ""
}

// The first case of a table that isn't answered as it says, or the empty text.
fn wrong_case<'a, R: Threads + Wait + Sync>(rt: &R, alloc: Global, table: &'a str) -> &'a str {
    for text in table.split("~~") {
        let wrong = wrong_in_group(rt, alloc, text);
        if !wrong.is_empty() {
            return wrong;
        }
    }
    ""
}

#[test]
fn chooses_versions(rt: HostRuntime) {
    let wrong = wrong_case(&rt, rt.alloc(), CHOICES);
    assert!(rt; wrong.is_empty(), "{wrong}");
}

#[test]
fn locks_forks_and_extras(rt: HostRuntime) {
    let wrong = wrong_case(&rt, rt.alloc(), FORKS);
    assert!(rt; wrong.is_empty(), "{wrong}");
}

#[test]
fn splits_further_where_it_is_wished(rt: HostRuntime) {
    let wrong = wrong_case(&rt, rt.alloc(), DEEP_FORKS);
    assert!(rt; wrong.is_empty(), "{wrong}");
}

#[test]
fn refuses_with_a_core(rt: HostRuntime) {
    let wrong = wrong_case(&rt, rt.alloc(), REFUSALS);
    assert!(rt; wrong.is_empty(), "{wrong}");
}

#[test]
fn exports_locks(rt: HostRuntime) {
    let wrong = wrong_case(&rt, rt.alloc(), EXPORTS);
    assert!(rt; wrong.is_empty(), "{wrong}");
}

#[test]
fn verifies_locks(rt: HostRuntime) {
    let wrong = wrong_case(&rt, rt.alloc(), VERIFIED);
    assert!(rt; wrong.is_empty(), "{wrong}");
}

#[test]
fn keeps_locks_that_are_right(rt: HostRuntime) {
    let wrong = wrong_case(&rt, rt.alloc(), RELOCKED);
    assert!(rt; wrong.is_empty(), "{wrong}");
}

#[test]
fn tells_canonical_markers(rt: HostRuntime) {
    let wrong = wrong_case(&rt, rt.alloc(), MARKERS);
    assert!(rt; wrong.is_empty(), "{wrong}");
}

#[test]
fn answers_words(rt: HostRuntime) {
    let wrong = wrong_case(&rt, rt.alloc(), WORDS);
    assert!(rt; wrong.is_empty(), "{wrong}");
}

const REFUSED: &str =
    "@p.toml\n[project]\nname = \"demo\"\nversion = \"0.1\"\ndependencies = [\"q<2; sys_platform == 'win32'\", \"q>=2; sys_platform != 'win32'\"]\n@ix/q.json\n{\"name\": \"q\", \"versions\": [{\"version\": \"1\", \"requires_dist\": [\"z\"]}, {\"version\": \"2\", \"requires_dist\": [\"z\"]}]}";

const FORK: &str =
    "1\nno selection serves this fork\nfork: 0\nregion: sys_platform == 'win32'\nworld: python_full_version == '0.0.0' and os_name == '' and sys_platform == 'win32' and platform_machine == '' and platform_python_implementation == '' and platform_release == '' and platform_system == '' and platform_version == '' and implementation_name == ''\n";

// Whether `check` accepts lines as a derivation of the refused project.
fn is_accepted<R: Threads + Wait + Sync>(rt: &R, alloc: Global, lines: &str) -> bool {
    match format!(in alloc; "check p.toml ix d\n{REFUSED}\n@d\n{lines}") {
        Ok(given) => printed(rt, alloc, given.as_str()).as_str() == "0\naccepted\n",
        Err(_) => false,
    }
}

// Whether a text is the fork and a derivation that `check` accepts.
fn is_reason<R: Threads + Wait + Sync>(rt: &R, alloc: Global, text: &str) -> bool {
    let (_, lines) = cells(text, "\n");
    let lines = lines.strip_suffix('\n').unwrap_or(lines);
    text.starts_with(FORK) && is_accepted(rt, alloc, lines)
}

// Whether what `why` prints of the refused project with so many workers is that.
fn is_explained<R: Threads + Wait + Sync>(rt: &R, alloc: Global, workers: u64) -> bool {
    match format!(in alloc; "why p.toml ix {workers}\n{REFUSED}") {
        Ok(given) => is_reason(rt, alloc, printed(rt, alloc, given.as_str()).as_str()),
        Err(_) => false,
    }
}

#[test]
fn gives_reasons_that_are_accepted(rt: HostRuntime) {
    for workers in [1, 2, 8] {
        assert!(rt; is_explained(&rt, rt.alloc(), workers), "{workers}");
    }
}
