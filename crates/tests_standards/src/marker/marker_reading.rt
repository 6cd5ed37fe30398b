//! Readings of markers, as tables.

use crate::marker::texts::{number, numbered, parts, repeated};
use std::alloc::Global;
use tests_rows::{cells, letter, put};
use ul_marker::{Marker, MarkerFault};

// The relations of the table below, in order.
const RELATIONS: &str = "==,!=,<=,>=,<,>,~=,in,not in";

// For each variable, which relations are read with the variable on the left of '3.8', and on its right.
const GRID: &str = "extra 110000000 110000000|\
    python_version 111111111 111111011|\
    python_full_version 111111111 111111011|\
    os_name 111111011 111111011|\
    sys_platform 111111011 111111011|\
    platform_machine 111111011 111111011|\
    platform_python_implementation 111111011 111111011|\
    platform_release 111111011 111111011|\
    platform_system 111111011 111111011|\
    platform_version 111111011 111111011|\
    implementation_name 111111011 111111011|\
    implementation_version 111111011 111111011|\
    os.name 111111011 111111011|\
    sys.platform 111111011 111111011|\
    platform.version 111111011 111111011|\
    platform.machine 111111011 111111011|\
    platform.python_implementation 111111011 111111011|\
    python_implementation 111111011 111111011|\
    extras 000000000 000000000|\
    python.version 000000000 000000000|\
    OS_NAME 000000000 000000000|\
    'posix' 000000000 000000000|\
    (os_name) 000000000 000000000";

// Whether texts are read, and the texts.
const TEXTS: &str =
    "1 \t\r\n os_name\t==\t'posix' \u{b}\u{c}\n|1 (os_name=='a')and('b'!=os_name)|1 'a'<os_name or\"b\">=os_name|\
    1 python_version in ''|1 python_version in '3.8,3.9'|1 extra == ''|1 'it' not\tin sys_platform|\
    0 |0 ()|0 os_name == 'a' and|0 or os_name == 'a'|0 os_name == 'a' os_name == 'b'|0 os_name == 'a' or or os_name == 'b'|\
    0 (os_name == 'a'|0 os_name == 'a')|0 os_name == ('a')|0 not os_name == 'a'|0 os_name notin 'a'|0 os_name in not 'a'|\
    0 os_name == 'a\"|0 os_name == 'a\\'|0 os_name == 'é'|0 os_name == '\t'|0 os_name =! 'a'|0 os_name === 'a'|0 os_name = 'a'|\
    0 os_name\n== 'a'|0 os_nameor|0 os_name == 'a' Or os_name == 'b'|0 python_version == 'x'|0 python_version in '3.9, x'|\
    0 python_version == '3.8' or python_version == 'x'|0 python_version ~= '3'|0 python_version > '3.*'|0 'a' == 'b'|\
    0 os_name == sys_platform|0 os_name == posix|0 posix == 'a'|0 os_name == 'a' xor os_name == 'b'|0 os_name == 'a' && os_name == 'b'";

// Whether texts are read in a document, in a lock and where they are printed, and the texts.
const DIALECTS: &str = "111 os_name == 'a'|101 extra == 'x'|101 os_name == 'a' and 'X' != extra|\
    001 extra == 'x' or 'x' in extras|011 'x' in extras|011 \"dev-tools\"not  in extras|\
    011 'x' in extras and ('y' not in extras or os_name == 'a')|\
    000 'X' in extras|000 'a_b' in extras|000 'a--b' in extras|000 '-a' in extras|000 'a b' in extras|000 '' in extras|\
    000 extras in 'x'|000 extras not in 'x'|000 extras == 'x'|000 'x' == extras|000 'x' < extras|000 extras ~= '1'|\
    000 'x' in extra|000 'x' in Extras|000 'x' in extras.x|000 'x' in dependency_groups|000 os_name in extras";

// Whether long texts are read, and what they are made of: how often a piece stands there, the piece, a middle, and what
// stands as often behind it; and that a long choice has each of its parts.
const LONG: &str = "long 1 64~(~os_name == 'a'~)|\
    long 0 65~(~os_name == 'a'~)|\
    long 1 10000~((os_name == 'a') and extra == 'b') or ~os_name != 'c'~|\
    long 0 1000000~(~~|\
    choice of 20001 parts";

// Whether a text is read in a document, as a digit.
fn answer(alloc: Global, text: &str) -> &'static str {
    told(Marker::read(alloc, text))
}

// Whether a text is read in a document, in a lock and where it is printed, as digits.
fn has_dialects(alloc: Global, line: &str) -> bool {
    let (want, text) = cells(line, ' ');
    let mut read = String::new(alloc);
    put(&mut read, answer(alloc, text));
    put(&mut read, told(Marker::read_locked(alloc, text)));
    put(&mut read, told(Marker::read_printed(alloc, text)));
    read.as_str() == want
}

// What a reader of some dialect answers, as a digit.
fn told(answer: Result<Marker, MarkerFault>) -> &'static str {
    match answer {
        Ok(marker) => {
            drop(marker);
            "1"
        }
        Err(MarkerFault::NoReading) => "0",
        Err(MarkerFault::NoMemory) => "no memory",
    }
}

// A text between two others, with a blank on each side.
fn related(alloc: Global, left: &str, relation: &str, right: &str) -> String {
    let mut text = String::new(alloc);
    put(&mut text, left);
    put(&mut text, " ");
    put(&mut text, relation);
    put(&mut text, " ");
    put(&mut text, right);
    text
}

// Whether these relations, as digits, are read between two sides.
fn has_relations(alloc: Global, left: &str, right: &str, want: &str) -> bool {
    let mut read = String::new(alloc);
    for relation in RELATIONS.split(',') {
        let text = related(alloc, left, relation, right);
        put(&mut read, answer(alloc, text.as_str()));
    }
    read.as_str() == want
}

fn is_related(alloc: Global, variable: &str, want: &str) -> bool {
    let (left, right) = cells(want, ' ');
    has_relations(alloc, variable, "'3.8'", left) && has_relations(alloc, "'3.8'", variable, right)
}

fn long_text(alloc: Global, row: &str) -> String {
    let (count, rest) = cells(row, '~');
    let (piece, rest) = cells(rest, '~');
    let (middle, last) = cells(rest, '~');
    let mut text = repeated(alloc, number(count), piece);
    put(&mut text, middle);
    put(&mut text, repeated(alloc, number(count), last).as_str());
    text
}

fn is_long_told(alloc: Global, line: &str) -> bool {
    let (want, row) = cells(line, ' ');
    answer(alloc, long_text(alloc, row).as_str()) == want
}

// How many parts a choice of 20,000 comparisons, and one more, is read into.
fn long_count(alloc: Global) -> usize {
    let mut text = numbered(alloc, 20_000, "os_name == '", "' or ");
    put(&mut text, "extra == 'b'");
    parts(alloc, text.as_str())
}

// A row that doesn't begin with a digit, nor with the letter of a long text, begins with a variable.
fn is_row(alloc: Global, line: &str) -> bool {
    let (word, rest) = cells(line, ' ');
    match letter(word) {
        b'0' | b'1' => answer(alloc, rest) == word,
        b'l' => is_long_told(alloc, rest),
        b'c' => long_count(alloc) == 20_001,
        _ => is_related(alloc, word, rest),
    }
}

#[test]
fn texts_are_read(rt: HostRuntime) {
    for table in [GRID, TEXTS, LONG] {
        for line in table.split('|') {
            assert!(rt; is_row(rt.alloc(), line), "{line}");
        }
    }
}

#[test]
fn dialects_differ_by_one_variable(rt: HostRuntime) {
    for line in DIALECTS.split('|') {
        assert!(rt; has_dialects(rt.alloc(), line), "{line}");
    }
}
