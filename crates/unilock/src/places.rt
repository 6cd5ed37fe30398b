// The lines that name the places where files are refused.
use crate::place_rows::{DOCUMENT_PLACES, PROJECT_PLACES};
use crate::tests::{cells, printed, put};
use std::alloc::Global;
use std::process::Abort;
use std::sync::Wait;
use std::thread::Threads;

// Whether `lock` refuses the file of a row, behind such words and files, at the place that stands before it.
fn is_place<R: Threads + Wait + Sync>(
    rt: &R,
    alloc: Global,
    before: &str,
    path: &str,
    row: &str,
) -> bool {
    let (place, file) = cells(row, "\n");
    let mut given = String::new(alloc);
    put(&mut given, before);
    put(&mut given, file);
    let mut wanted = String::new(alloc);
    put(&mut wanted, "3\nmalformed: ");
    put(&mut wanted, path);
    put(&mut wanted, ": ");
    put(&mut wanted, place);
    put(&mut wanted, "\n");
    printed(rt, alloc, given.as_str()).as_str() == wanted.as_str()
}

const PROJECT: &str = "lock p.toml ix 1\n@p.toml\n";

#[test]
fn names_places_of_project_files(rt: HostRuntime) {
    for row in PROJECT_PLACES.split("~\n") {
        assert!(rt; is_place(&rt, rt.alloc(), PROJECT, "p.toml", row), "{row}");
    }
}

const DOCUMENT: &str =
    "lock p.toml ix 1\n@p.toml\n[project]\nname = \"demo\"\ndependencies = [\"a\"]\n@ix/a.json\n";

#[test]
fn names_places_of_documents(rt: HostRuntime) {
    for row in DOCUMENT_PLACES.split("~\n") {
        assert!(rt;
            is_place(&rt, rt.alloc(), DOCUMENT, "ix/a.json", row),
            "{row}"
        );
    }
}
