//! Printed comparisons, which are read back.

use crate::marker::texts::{atom, parts, repeated};
use std::alloc::{AllocError, Global};
use tests_rows::{cells, letter, put};
use ul_marker::printed::{push_atom, push_bound, push_extra, push_text};
use ul_marker::{Atom, Marker, Variable, is_literal};

// A list of printed comparisons.
const LIST: &str = "python_full_version >= '3.0.4294967295' and python_full_version < '4.10.0' or \
    os_name == \"a'b\" and implementation_name != 'a\"b' or extra == ''";

// Opaque comparisons, how they are printed, and how where they don't hold; then, by its letter, the list
// above, and a long literal.
const PRINTED: &str = "python_version contains x|'x' in python_version|'x' not in python_version\n\
    sys_platform within x|sys_platform in 'x'|sys_platform not in 'x'\n\
    platform_release below x|platform_release < 'x'|platform_release >= 'x'\n\
    implementation_version at_most x|implementation_version <= 'x'|implementation_version > 'x'\n\
    implementation_version same x|implementation_version == 'x'|implementation_version != 'x'\n\
    extras contains x|'x' in extras|'x' not in extras\n\
    the list\n\
    a literal of ten thousand quotes";

// A comparison of the list, which has five.
fn push_comparison(out: &mut String, place: usize) -> Result<(), AllocError> {
    match place {
        0 => push_bound(out, true, (3, 0, 4294967295)),
        1 => push_bound(out, false, (4, 10, 0)),
        2 => push_text(out, Variable::OsName, "a'b", true),
        3 => push_text(out, Variable::ImplementationName, "a\"b", false),
        _ => push_extra(out, "", true),
    }
}

fn list(alloc: Global) -> String {
    let mut out = String::new(alloc);
    for (place, before) in "| and | or | and | or ".split('|').enumerate() {
        put(&mut out, before);
        let _ = push_comparison(&mut out, place);
    }
    out
}

fn is_list_printed(alloc: Global) -> bool {
    list(alloc).as_str() == LIST && parts(alloc, LIST) == 3
}

fn is_printed(alloc: Global, atom: &Atom, positive: bool, want: &str) -> bool {
    let mut out = String::new(alloc);
    push_atom(&mut out, atom, positive).is_ok() && out.as_str() == want
}

fn is_opaque(marker: &Marker, atom: &Atom, positive: bool) -> bool {
    match marker {
        Marker::Opaque {
            atom: read,
            positive: sign,
        } => read.cmp(atom).is_eq() && *sign == positive,
        _ => false,
    }
}

fn is_read(alloc: Global, atom: &Atom, positive: bool, text: &str) -> bool {
    match Marker::read_printed(alloc, text) {
        Ok(marker) => {
            let is_read = is_opaque(&marker, atom, positive);
            drop(marker);
            is_read
        }
        Err(_) => false,
    }
}

fn comes_back(alloc: Global, atom: &Atom, positive: bool, text: &str) -> bool {
    is_printed(alloc, atom, positive, text) && is_read(alloc, atom, positive, text)
}

fn is_opaque_printed(alloc: Global, text: &str, texts: &str) -> bool {
    let (holds, fails) = cells(texts, '|');
    match atom(alloc, text) {
        Some(atom) => comes_back(alloc, &atom, true, holds)
            && comes_back(alloc, &atom, false, fails),
        None => false,
    }
}

fn is_text(marker: &Marker, literal: &str) -> bool {
    match marker {
        Marker::Text { literal: read, .. } => read.as_str() == literal,
        _ => false,
    }
}

fn is_text_read(alloc: Global, text: &str, literal: &str) -> bool {
    match Marker::read(alloc, text) {
        Ok(marker) => {
            let is_read = is_text(&marker, literal);
            drop(marker);
            is_read
        }
        Err(_) => false,
    }
}

// Whether a literal is printed in 10,022 bytes, and read back.
fn is_long_printed(alloc: Global, literal: &str) -> bool {
    let mut out = String::new(alloc);
    let printed = push_text(&mut out, Variable::PlatformVersion, literal, true).is_ok();
    printed && out.len() == 10_022 && is_text_read(alloc, out.as_str(), literal)
}

// Whether a text is a literal, and none with the other quote behind it.
fn is_literal_alone(alloc: Global, text: &str) -> bool {
    let mut both = String::new(alloc);
    put(&mut both, text);
    put(&mut both, "\"");
    is_literal(text.as_bytes()) && !is_literal(both.as_bytes())
}

fn are_quotes_printed(alloc: Global) -> bool {
    let quotes = repeated(alloc, 10_000, "'");
    is_literal_alone(alloc, quotes.as_str()) && is_long_printed(alloc, quotes.as_str())
}

fn is_row(alloc: Global, line: &str) -> bool {
    let (text, texts) = cells(line, '|');
    match letter(text) {
        b't' => is_list_printed(alloc),
        b'a' => are_quotes_printed(alloc),
        _ => is_opaque_printed(alloc, text, texts),
    }
}

#[test]
fn comparisons_are_printed(rt: HostRuntime) {
    for line in PRINTED.lines() {
        assert!(rt; is_row(rt.alloc(), line), "{line}");
    }
}
