//! Meanings and readings of PEP 440, as tables.

use crate::marker::texts::{digit, number, repeated};
use std::alloc::Global;
use tests_rows::{cells, letter, put};
use ul_specifier::{Clause, Op, SpecFault, Specifiers, equals_plain};
use ul_version::Version;

// Versions with and without each of the parts, and with zeros at the end of the release.
const VERSIONS: &str =
    "1.0 1 1.0.0 1.0.dev1 1.0a1 1.0a1.dev2 1.0rc1 1.0.post1 1.0.post1.dev3 1.0rc1.post2 \
    1.0+cpu 1.0+cpu.2 1.0.0+3 1.0.post1+x 1.0a1+x 1.1 1.1a1 1.1.0 1.1.dev0 1.1.1 \
    1.10 1.0.1 1.0.1.dev1 2 2.0rc1 0.9 1!1.0 1!1.0a1 1!1.0.post1+x 2.10";

// For each clause the versions of the list above that meet it, as PyPA's `packaging` 21.3 answers with
// pre-releases admitted.
const GRID: &str = "grid ==1.0|111000000011100000000000000000;\
    grid !=1.0|000111111100011111111111111111;\
    grid >=1.0|111000011011110111111111101111;\
    grid <=1.0|111111100111101000000000010000;\
    grid >1.0|000000000000000111111111101111;\
    grid <1.0|000000000000000000000000010000;\
    grid ~=1.0|111000011011110111111110000000;\
    grid ==1.0a1|000010000000001000000000000000;\
    grid !=1.0a1|111101111111110111111111111111;\
    grid >=1.0a1|111010111111111111111111101111;\
    grid <=1.0a1|000111000000001000000000010000;\
    grid >1.0a1|111000100000000111111111101111;\
    grid <1.0a1|000101000000000000000000010000;\
    grid ~=1.0a1|111010111111111111111110000000;\
    grid ==1.0.post1|000000010000010000000000000000;\
    grid !=1.0.post1|111111101111101111111111111111;\
    grid >=1.0.post1|000000010000010111111111101111;\
    grid <=1.0.post1|111111111111111000000000010000;\
    grid >1.0.post1|000000000000000111111111101111;\
    grid <1.0.post1|111000000011100000000000010000;\
    grid ~=1.0.post1|000000010000010111111110000000;\
    grid ==1.0.dev1|000100000000000000000000000000;\
    grid !=1.0.dev1|111011111111111111111111111111;\
    grid >=1.0.dev1|111111111111111111111111101111;\
    grid <=1.0.dev1|000100000000000000000000010000;\
    grid >1.0.dev1|111011100000000111111111101111;\
    grid <1.0.dev1|000000000000000000000000010000;\
    grid ~=1.0.dev1|111111111111111111111110000000;\
    grid ==1.1|000000000000000101000000000000;\
    grid !=1.1|111111111111111010111111111111;\
    grid >=1.1|000000000000000101011001101111;\
    grid <=1.1|111111111111111111100110010000;\
    grid >1.1|000000000000000000011001101111;\
    grid <1.1|111111111111111000000110010000;\
    grid ~=1.1|000000000000000101011000000000;\
    grid ==1!1.0|000000000000000000000000001000;\
    grid !=1!1.0|111111111111111111111111110111;\
    grid >=1!1.0|000000000000000000000000001010;\
    grid <=1!1.0|111111111111111111111111111101;\
    grid >1!1.0|000000000000000000000000000000;\
    grid <1!1.0|111111111111111111111111110001;\
    grid ~=1!1.0|000000000000000000000000001010;\
    grid ==1.0.0|111000000011100000000000000000;\
    grid !=1.0.0|000111111100011111111111111111;\
    grid >=1.0.0|111000011011110111111111101111;\
    grid <=1.0.0|111111100111101000000000010000;\
    grid >1.0.0|000000000000000111111111101111;\
    grid <1.0.0|000000000000000000000000010000;\
    grid ~=1.0.0|111000011011110000000110000000;\
    grid ==1.1rc2.post1|000000000000000000000000000000;\
    grid !=1.1rc2.post1|111111111111111111111111111111;\
    grid >=1.1rc2.post1|000000000000000101011001101111;\
    grid <=1.1rc2.post1|111111111111111010100110010000;\
    grid >1.1rc2.post1|000000000000000101011001101111;\
    grid <1.1rc2.post1|111111111111111010100110010000;\
    grid ~=1.1rc2.post1|000000000000000101011000000000;\
    grid ==1.0+cpu|000000000010000000000000000000;\
    grid !=1.0+cpu|111111111101111111111111111111;\
    grid ==1.0.post1+x|000000000000010000000000000000;\
    grid !=1.0.post1+x|111111111111101111111111111111;\
    grid ==1.0.*|111111111111111000000110000000;\
    grid !=1.0.*|000000000000000111111001111111;\
    grid ==1.*|111111111111111111111110000000;\
    grid !=1.*|000000000000000000000001111111;\
    grid ==1.1.*|000000000000000111110000000000;\
    grid !=1.1.*|111111111111111000001111111111;\
    grid ==1!1.*|000000000000000000000000001110;\
    grid !=1!1.*|111111111111111111111111110001";

// For each version those of the list above that meet its exclusion, as PyPA's `packaging` 21.3 answers `!=` of two
// versions.
const EXCLUDED: &str = "1.0|000111111111111111111111111111;\
    1.0.0|000111111111111111111111111111;\
    1.0a1|111101111111111111111111111111;\
    1.0.post1|111111101111111111111111111111;\
    1.0.dev1|111011111111111111111111111111;\
    1.1|111111111111111010111111111111;\
    1!1.0|111111111111111111111111110111;\
    1.0+cpu|111111111101111111111111111111;\
    1.0+CPU-2|111111111110111111111111111111;\
    1.0+03|111111111111011111111111111111;\
    1.0.post1+x|111111111111101111111111111111;\
    3|111111111111111111111111111111";

// A specifier, and what is wanted of it, by the letter of the first word:
// - `met`: a version, and whether it meets the specifier; in the last rows also why `packaging` 24 answers otherwise;
// - `refused`: it has no reading; the last ones, with the reason, are read by `packaging` 24;
// - `sums`: whether it names a pre-release, and whether it pins 1;
// - `at_least`: its lower part, clause by clause; `count`: how many clauses it has;
// - `long` is a list of so many clauses that 2 meets, and of one more; `two_clauses` are two clauses alone.
const LISTS: &str = "met ==1.0|1.0+cpu 1;\
    met >1.7|1.7.post1 0;\
    met >1.7|1.7.0.post1 0;\
    met >1.7|1.7.1 1;\
    met <3.1|3.1rc1 0;\
    met <3.1rc2|3.1rc1 1;\
    met <=1.0|1.0+x 1;\
    met ~=2.2|2.10 1;\
    met ~=2.2.0|2.3 0;\
    met ==1.1.*|1.1a1 1;\
    met ==1.1.*|1.10 0;\
    met !=1.0|1.0+x 0;\
    met >=1,|1 1;\
    met ==1.0+CPU-1|1.0+cpu.1 1;\
    met ==1.0.0.0.*|1.0a1 1;\
    met ==1.0.0.0.*|1.0.post1 1;\
    met !=1.0.0.0.*|1.0.dev1 0;\
    met ~=1.0|1!1.5 0;\
    met <1.0|1!0.9 0;\
    met >1!1.0|1.0.post1 0;\
    met ~=1!1.0|1!1.0.1 1;\
    met >=1.5.*|1.5 1 `.*` is dropped, where `packaging` refuses it;\
    met >=1.5.*|1.5rc1 0 the clause is >=1.5, and 1.5rc1 comes before 1.5;\
    met <1.5.*|1.4.9 1 `.*` is dropped, where `packaging` refuses it;\
    refused ~=1;\
    refused >=1+local;\
    refused ~=1.0+local;\
    refused >1.*;\
    refused <=1.*;\
    refused ~=1.0.*;\
    refused ==1.0a1.*;\
    refused >=1.0.post1.*;\
    refused ==1.0+x.*;\
    refused ,>=1;\
    refused 1.0;\
    refused >=;\
    refused == 1 .*;\
    refused >=1 2;\
    refused ==*;\
    refused ===1.0|this operator is left out;\
    refused ,|a comma follows a clause;\
    refused >=1,,|one comma follows the last clause;\
    refused >=1\n,<2|a line feed stands at the ends of a text alone;\
    sums >=1,<2.0rc1|1 0;\
    sums ==1.0.dev1|1 0;\
    sums !=1.0a1,>=1.0.post1|0 0;\
    sums >0,==1.0|0 1;\
    sums ==1.0.*|0 0;\
    sums ==1.0+x|0 0;\
    at_least <9,==1.0+x,!=2,>3,==4.*,<=5,~=6.1,>=7|>=1.0 >3 >=4 >=6.1 >=7 ;\
    count \t>= 1 , !=1.5.*,<2,\r\n|3;\
    long 8;\
    long 299;\
    long 2000;\
    two_clauses";

// Whether a version meets a list, as a digit.
fn meets(alloc: Global, list: &Specifiers, version: &str) -> &'static str {
    match Version::read(alloc, version) {
        Ok(version) => digit(list.meets(&version)),
        Err(_) => "no version",
    }
}

// The versions that meet a list, as digits.
fn met(alloc: Global, list: &Specifiers) -> String {
    let mut met = String::new(alloc);
    for version in VERSIONS.split(' ') {
        put(&mut met, meets(alloc, list, version));
    }
    met
}

// Whether a clause says the same of a version as of its release.
fn is_plain(clause: &Clause, version: &Version) -> bool {
    let met = clause.meets(version);
    if clause.meets_plain(version.release.as_slice()) != met {
        return false;
    }
    let equal = matches!(clause.op, Op::Equal) && !clause.prefix;
    !equal || equals_plain(&clause.version, version.release.as_slice()) == met
}

fn are_plain(clauses: &[Clause], version: &Version) -> bool {
    for clause in clauses {
        if !is_plain(clause, version) {
            return false;
        }
    }
    true
}

fn is_met_alike(alloc: Global, clauses: &[Clause], version: &str) -> bool {
    match Version::read(alloc, version) {
        Ok(version) => are_plain(clauses, &version),
        Err(_) => false,
    }
}

fn meet_alike(alloc: Global, clauses: &[Clause]) -> bool {
    for version in "1.0.0 1.1.0 1.10.0 0.9.1".split(' ') {
        if !is_met_alike(alloc, clauses, version) {
            return false;
        }
    }
    !clauses.is_empty()
}

fn is_met_as(alloc: Global, list: &Specifiers, want: &str) -> bool {
    met(alloc, list).as_str() == want && meet_alike(alloc, &list.clauses)
}

fn is_example(alloc: Global, list: &Specifiers, row: &str) -> bool {
    let (version, rest) = cells(row, ' ');
    let (want, _) = cells(rest, ' ');
    meets(alloc, list, version) == want
}

fn pins(alloc: Global, list: &Specifiers, version: &str) -> &'static str {
    match Version::read(alloc, version) {
        Ok(version) => digit(list.pins(&version)),
        Err(_) => "no version",
    }
}

fn is_summed_up(alloc: Global, list: &Specifiers, row: &str) -> bool {
    let (names_pre, pinned) = cells(row, ' ');
    digit(list.names_pre()) == names_pre && pins(alloc, list, "1") == pinned
}

fn put_clause(alloc: Global, text: &mut String, clause: &Clause) {
    let is_more = matches!(clause.op, Op::More);
    put(text, if is_more { ">" } else { ">=" });
    if let Ok(version) = clause.version.text(alloc) {
        put(text, version.as_str());
    }
    put(text, " ");
}

fn clauses_text(alloc: Global, clauses: &[Clause]) -> String {
    let mut text = String::new(alloc);
    for clause in clauses {
        put_clause(alloc, &mut text, clause);
    }
    text
}

fn is_lower(alloc: Global, list: &Specifiers, want: &str) -> bool {
    match list.lower_part(alloc) {
        Ok(lower) => {
            let is_lower = clauses_text(alloc, &lower.clauses).as_str() == want;
            drop(lower);
            is_lower
        }
        Err(_) => false,
    }
}

fn has_clauses(list: &Specifiers, want: &str) -> bool {
    number(want) == list.clauses.len()
}

// Whether a list has one clause more than its lower part, and 2 meets it.
fn is_long(alloc: Global, list: &Specifiers, clauses: &str) -> bool {
    match list.lower_part(alloc) {
        Ok(lower) => {
            has_clauses(&lower, clauses)
                && list.clauses.len() == lower.clauses.len().saturating_add(1)
                && meets(alloc, list, "2") == "1"
        }
        Err(_) => false,
    }
}

fn is_right(alloc: Global, list: &Specifiers, kind: u8, want: &str) -> bool {
    match kind {
        b'g' => is_met_as(alloc, list, want),
        b'm' => is_example(alloc, list, want),
        b's' => is_summed_up(alloc, list, want),
        b'a' => is_lower(alloc, list, want),
        b'c' => has_clauses(list, want),
        b'l' => is_long(alloc, list, want),
        _ => false,
    }
}

fn is_told(alloc: Global, kind: u8, text: &str, want: &str) -> bool {
    match Specifiers::read(alloc, text) {
        Ok(list) => {
            let is_right = is_right(alloc, &list, kind, want);
            drop(list);
            is_right
        }
        Err(SpecFault::NoReading) => kind == b'r',
        Err(SpecFault::NoMemory) => false,
    }
}

// A list of so many clauses that all ask for what 2 is, and one more.
fn long_text(alloc: Global, clauses: &str) -> String {
    let mut text = repeated(alloc, number(clauses), ">=1 , ");
    put(&mut text, "<3");
    text
}

fn is_version(alloc: Global, clause: &Clause, want: &str) -> bool {
    match clause.version.text(alloc) {
        Ok(text) => text.as_str() == want,
        Err(_) => false,
    }
}

fn are_versions(alloc: Global, clause: &Clause, want: &str) -> bool {
    match clause.copy(alloc) {
        Ok(copy) => is_version(alloc, clause, want) && is_version(alloc, &copy, want),
        Err(_) => false,
    }
}

// Whether a clause and its copy have a version.
fn is_clause(alloc: Global, op: Op, text: &str, want: &str) -> bool {
    match Clause::read(alloc, op, text) {
        Ok(clause) => are_versions(alloc, &clause, want),
        Err(_) => false,
    }
}

fn are_clauses(alloc: Global) -> bool {
    let long = "1!2.3.4.5.6.7.8.9.10+a.b";
    is_clause(alloc, Op::Less, " \u{b}1.5.*\n", "1.5") && is_clause(alloc, Op::Equal, long, long)
}

fn is_row(alloc: Global, line: &str) -> bool {
    let (word, rest) = cells(line, ' ');
    let (text, want) = cells(rest, '|');
    match letter(word) {
        b'l' => is_told(alloc, b'l', long_text(alloc, text).as_str(), text),
        b't' => are_clauses(alloc),
        kind => is_told(alloc, kind, text, want),
    }
}

#[test]
fn lists_are_read_and_met(rt: HostRuntime) {
    for table in [GRID, LISTS] {
        for line in table.split(';') {
            assert!(rt; is_row(rt.alloc(), line), "{line}");
        }
    }
}

// The list of the exclusion of a version alone.
fn exclusion(alloc: Global, text: &str) -> Option<Specifiers> {
    let version = Version::read(alloc, text).ok()?;
    let clause = Clause {
        op: Op::Distinct,
        version,
        prefix: false,
    };
    let clauses = vec![in alloc; clause].ok()?;
    Some(Specifiers { clauses })
}

// Whether a list names no pre-release, doesn't pin a version and has no lower bound.
fn asks_no_more(alloc: Global, list: &Specifiers, version: &str) -> bool {
    !list.names_pre() && pins(alloc, list, version) == "0" && is_lower(alloc, list, "")
}

// Whether the text of a version isn't read as an exclusion.
fn is_unread(alloc: Global, text: &str) -> bool {
    match Clause::read(alloc, Op::Distinct, text) {
        Ok(clause) => {
            drop(clause);
            false
        }
        Err(fault) => matches!(fault, SpecFault::NoReading),
    }
}

fn is_excluded_row(alloc: Global, line: &str) -> bool {
    let (text, want) = cells(line, '|');
    match exclusion(alloc, text) {
        Some(list) => {
            let is_right = is_met_as(alloc, &list, want)
                && asks_no_more(alloc, &list, text)
                && is_unread(alloc, text);
            drop(list);
            is_right
        }
        None => false,
    }
}

#[test]
fn exclusions_are_met_by_all_versions_but_one(rt: HostRuntime) {
    for line in EXCLUDED.split(';') {
        assert!(rt; is_excluded_row(rt.alloc(), line), "{line}");
    }
}
