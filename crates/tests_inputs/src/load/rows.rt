//! Small folders: what is read, in which order, what counts, and which fault comes first.
use crate::load::files::Untold;
use crate::load::told::told;
use std::alloc::{AllocError, Global};
use tests_rows::cells;
use ul_files::MemFiles;

// A row has what is told, the project's requirements, the number of the read that fails (or `-`), and the documents,
// which `~` separates, each behind its name and a blank. `V` stands for `"versions": [`, and `R` for `"requires_dist": [`.
const ROWS: &str = "demo 1/1, b 0/0, a 0/0, #'b', 'A', 'b>1'#-#\n\
    demo 1/1, #'demo'#0#demo []\n\
    demo 1/1, a 2/2, d 0/0, c 0/0, b 1/1, e 0/0, #'a', 'd'#-#a {\"name\": \"a\", V{\"version\": \"1\", R\"c\", \"b\", \"demo\"]}, {\"version\": \"2\", R\"a\", \"c\"]}]}~b {\"name\": \"b\", V{\"version\": \"1\", R\"a\", \"e\"]}]}\n\
    demo 1/1, a 1/0, #'a'#-#a {\"name\": \"a\", V{\"version\": \"!\", R\"c\"]}]}\n\
    demo 1/1, a 2/1, c 0/0, #'a'#-#a {\"name\": \"a\", V{\"version\": \"1\", R\"c\"]}, {\"version\": \"1.0\", R\"d\"]}]}\n\
    demo 1/1, a 1/0, #'a'#-#a {\"name\": \"a\", V{\"version\": \"1\", R\"c\", \"!!\"]}]}\n\
    demo 1/1, a 1/1, c 0/0, #'a; extra == \"x\"'#-#a {\"name\": \"A\", V{\"version\": \"1\", R\"c; os_name == 'none'\"]}]}\n\
    read ix/a.json#'a'#0#a []\n\
    read ix/b.json#'a', 'b'#1#a {\"name\": \"a\", V]}~b []\n\
    read ix/b.json#'a', 'b'#1#\n\
    demo 1/1, a 1/1, b 0/0, #'a', 'b'#2#a {\"name\": \"a\", V{\"version\": \"1\", R\"b\", \"a\"]}]}\n\
    ix/a.json: not JSON#'a'#-#a {\n\
    ix/b.json: shape document#'a', 'b', 'c'#-#b []~c {\n\
    ix/a.json: shape versions#'a'#1#a {\"name\": \"b\"}\n\
    ix/b.json: name#'a', 'b'#-#b {\"name\": \"a\", V]}\n\
    ix/a.json: shape versions[1].version#'a'#-#a {\"name\": \"a\", V{\"version\": \"1\", R\"c\"]}, {\"version\": 1}]}";

// The path and the bytes of a document, with the short words in full.
fn document(alloc: Global, name: &str, text: &str) -> Result<(String, Vec<u8>), AllocError> {
    let text = text.replace(alloc, "V", "\"versions\": [")?;
    let text = text.replace(alloc, "R", "\"requires_dist\": [")?;
    let path = format!(in alloc; "ix/{name}.json")?;
    Ok((path, text.into_bytes()))
}

// The documents of a row.
fn documents(alloc: Global, texts: &str) -> Result<Vec<(String, Vec<u8>)>, AllocError> {
    let mut files = Vec::new(alloc);
    for text in texts.split('~') {
        if let Some((name, text)) = text.split_once(' ') {
            files.push(document(alloc, name, text)?)?;
        }
    }
    Ok(files)
}

// The numbers of the reads that fail.
fn failing_reads(alloc: Global, failing: &str) -> Result<Vec<u64>, AllocError> {
    let mut numbers = Vec::new(alloc);
    if let Ok(number) = failing.parse::<u64>() {
        numbers.push(number)?;
    }
    Ok(numbers)
}

// Files with the documents of a row, of which one read may fail.
fn files_of(alloc: Global, row: &str) -> Result<MemFiles, AllocError> {
    let (failing, texts) = cells(row, '#');
    let numbers = failing_reads(alloc, failing)?;
    let files = documents(alloc, texts)?;
    Ok(MemFiles::of(alloc, files, numbers))
}

// Whether a project's file is told with files that are told.
fn is_told(alloc: Global, file: &str, row: &str, want: &str) -> bool {
    match files_of(alloc, row) {
        Ok(mut files) => {
            let told = told(alloc, &mut files, file, false);
            drop(files);
            told.as_str() == want
        }
        Err(_) => false,
    }
}

// Whether it is told so with files that aren't.
fn is_told_of_untold(alloc: Global, file: &str, row: &str, want: &str) -> bool {
    match files_of(alloc, row) {
        Ok(files) => {
            let mut untold = Untold { files };
            let told = told(alloc, &mut untold, file, false);
            drop(untold);
            told.as_str() == want
        }
        Err(_) => false,
    }
}

fn is_row(alloc: Global, row: &str) -> bool {
    let (want, rest) = cells(row, '#');
    let (requirements, rest) = cells(rest, '#');
    match format!(in alloc; "[project]\nname = 'demo'\ndependencies = [{requirements}]\n") {
        Ok(file) => {
            is_told(alloc, file.as_str(), rest, want)
                && is_told_of_untold(alloc, file.as_str(), rest, want)
        }
        Err(_) => false,
    }
}

#[test]
fn small_folders(rt: HostRuntime) {
    for row in ROWS.lines() {
        assert!(rt; is_row(rt.alloc(), row), "{row}");
    }
}
