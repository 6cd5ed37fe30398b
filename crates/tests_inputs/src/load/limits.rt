//! The limits, each at its number and one past it.
use crate::load::files::Padded;
use crate::load::told::told;
use std::alloc::{AllocError, Global};
use tests_rows::{cells, put};
use ul_files::MemFiles;

// A piece with a number in place of each `#`.
fn numbered(alloc: Global, piece: &str, number: u64) -> Result<String, AllocError> {
    let number = format!(in alloc; "{number}")?;
    piece.replace(alloc, "#", number.as_str())
}

// Puts so many pieces, with their numbers in place of `#`.
fn put_pieces(alloc: Global, text: &mut String, piece: &str, count: u64) {
    for number in 0..count {
        if let Ok(piece) = numbered(alloc, piece, number) {
            put(text, piece.as_str());
        }
    }
}

// The document of `a`, with these entries behind one of version 1.
fn files_of_a(alloc: Global, entries: &str) -> Result<MemFiles, AllocError> {
    let text = format!(in alloc;
        "{{\"name\": \"a\", \"versions\": [{{\"version\": \"1\"}}{entries}]}}"
    )?;
    let mut files = Vec::new(alloc);
    files.push((String::from_str(alloc, "ix/a.json")?, text.into_bytes()))?;
    Ok(MemFiles::of(alloc, files, Vec::new(alloc)))
}

// What a project's file loads where `a` has these entries.
fn told_of_a(alloc: Global, file: &str, entries: &str) -> String {
    match files_of_a(alloc, entries) {
        Ok(mut files) => {
            let told = told(alloc, &mut files, file, true);
            drop(files);
            told
        }
        Err(_) => String::new(alloc),
    }
}

const A: &str = "[project]\nname = 'demo'\ndependencies = ['a==1']\n";

// A second release of `a`, which requires so many names behind those of the project and of `a`.
fn names_told(alloc: Global, count: u64) -> String {
    let mut entry = String::new(alloc);
    put(&mut entry, ", {\"version\": \"2\", \"requires_dist\": [");
    put_pieces(alloc, &mut entry, "\"n#\", ", count.saturating_sub(1));
    put(&mut entry, "\"last\"]}");
    told_of_a(alloc, A, entry.as_str())
}

// A folder whose first read fails.
fn failing_files(alloc: Global) -> Result<MemFiles, AllocError> {
    let mut failing = Vec::new(alloc);
    failing.push(0)?;
    Ok(MemFiles::of(alloc, Vec::new(alloc), failing))
}

fn told_of_failing(alloc: Global, file: &str) -> String {
    match failing_files(alloc) {
        Ok(mut files) => {
            let told = told(alloc, &mut files, file, true);
            drop(files);
            told
        }
        Err(_) => String::new(alloc),
    }
}

// So many names behind that of the project, whose document fails to be read.
fn own_names_told(alloc: Global, count: u64) -> String {
    let mut file = String::new(alloc);
    put(&mut file, "[project]\nname = 'demo'\ndependencies = [");
    put_pieces(alloc, &mut file, "'n#',", count);
    put(&mut file, "]\n");
    told_of_failing(alloc, file.as_str())
}

// A document of so many entries, all but the first without a reading.
fn releases_told(alloc: Global, count: u64) -> String {
    match ", {\"version\": \"!\"}".repeat(alloc, count.saturating_sub(1) as usize) {
        Ok(entries) => told_of_a(alloc, A, entries.as_str()),
        Err(_) => String::new(alloc),
    }
}

// A document of 16 MiB, and so many bytes more.
fn bytes_told(alloc: Global, name: &str) -> String {
    let size = 16_777_216;
    match format!(in alloc; "[project]\nname = 'demo'\ndependencies = ['a', '{name}', 'b']\n") {
        Ok(file) => told(alloc, &mut Padded::new(alloc, size), file.as_str(), true),
        Err(_) => String::new(alloc),
    }
}

// Puts a list of so many pieces behind its head.
fn put_list(alloc: Global, text: &mut String, head: &str, piece: &str, count: u64) {
    put(text, head);
    put_pieces(alloc, text, piece, count);
    put(text, "]\n");
}

// The file of a project with so many different comparisons in its requirements, each twice, and then so many in its
// environments, constraints and overrides.
fn comparing(alloc: Global, own: u64, each: u64) -> String {
    let mut text = String::new(alloc);
    let requirements = "[project]\nname = 'demo'\ndependencies = ['a', ";
    let piece = "\"a; 'k#' in os_name or 'k#' in os_name\", ";
    put_list(alloc, &mut text, requirements, piece, own);
    let environments = "[tool.uv]\nenvironments = [";
    put_list(
        alloc,
        &mut text,
        environments,
        "\"'e#' in os_name\", ",
        each,
    );
    let constraints = "constraint-dependencies = [";
    put_list(
        alloc,
        &mut text,
        constraints,
        "\"a; 'c#' in os_name\", ",
        each,
    );
    let overrides = "override-dependencies = [";
    put_list(
        alloc,
        &mut text,
        overrides,
        "\"a; 'o#' in os_name\", ",
        each,
    );
    text
}

// Entries of `a` with a comparison; that of an entry without a reading doesn't count.
const COMPARED: &str = ", {\"version\": \"2.#\", \"requires_dist\": [\"a; 'd#' in os_name\"]}, \
    {\"version\": \"3.#\", \"requires_dist\": [\"a; 'u' in os_name\", \"!!\"]}";

fn number(cell: &str) -> u64 {
    cell.parse::<u64>().unwrap_or(0)
}

// The file of a project with so many different conditions of the sources of `t`, and a source of `u` without one.
fn conditions(alloc: Global, count: u64) -> String {
    let mut text = String::new(alloc);
    put(&mut text, "[tool.unilock]\nprofile = 'wide'\n");
    put(&mut text, A);
    put(&mut text, "[tool.uv.sources]\nu = { path = '../u' }\n");
    let piece = "{ index = 'b', marker = \"'s#' in os_name\" }, ";
    put_list(alloc, &mut text, "t = [", piece, count);
    text
}

// So many comparisons in a project's requirements, in each list of its settings, and in the document of `a`.
fn comparisons_told(alloc: Global, row: &str) -> String {
    let (own, rest) = cells(row, ' ');
    let (each, last) = cells(rest, ' ');
    let file = comparing(alloc, number(own), number(each));
    let mut entries = String::new(alloc);
    put_pieces(alloc, &mut entries, COMPARED, number(last));
    told_of_a(alloc, file.as_str(), entries.as_str())
}

// What is told, and the case: names of a release, names of the project, entries of a document, the name of a document
// of 16 MiB, comparisons of a project, of each list of its settings, and of the document of `a`, or conditions of
// sources.
const NUMBERS: &str = "20000 packages|names 19998\n\
    packages|names 19999\n\
    read ix/n0.json|own 19999\n\
    packages|own 20000\n\
    2 packages|releases 200000\n\
    releases|releases 200001\n\
    4 packages|document d\n\
    file-bytes ix/d-long.json|document d-long\n\
    2 packages|comparisons 256 0 0\n\
    comparisons|comparisons 257 0 0\n\
    2 packages|comparisons 100 20 96\n\
    comparisons|comparisons 100 20 97\n\
    2 packages|comparisons 100 52 0\n\
    comparisons|comparisons 98 53 0\n\
    2 packages|conditions 256\n\
    comparisons|conditions 257";

fn case_told(alloc: Global, kind: &str, cell: &str) -> String {
    match kind {
        "names" => names_told(alloc, number(cell)),
        "own" => own_names_told(alloc, number(cell)),
        "releases" => releases_told(alloc, number(cell)),
        "comparisons" => comparisons_told(alloc, cell),
        "conditions" => told_of_a(alloc, conditions(alloc, number(cell)).as_str(), ""),
        _ => bytes_told(alloc, cell),
    }
}

fn is_row(alloc: Global, line: &str) -> bool {
    let (want, rest) = cells(line, '|');
    let (kind, cell) = cells(rest, ' ');
    case_told(alloc, kind, cell).as_str() == want
}

#[test]
fn numbers_and_one_past(rt: HostRuntime) {
    for line in NUMBERS.lines() {
        assert!(rt; is_row(rt.alloc(), line), "{line}");
    }
}
