//! Large locks, and locks at their two limits, as texts.

use std::alloc::Global;
use std::fmt::Write;
use tests_rows::put;

const HEAD: &str = "version = 2\nroot = \"a\"\n";

const ROOT: &str = "\n[[package]]\nname = \"a\"\nversion = \"1\"\n";

// Puts a package of a number, which leads to the next where there is one.
fn put_package(text: &mut String, number: u64, is_last: bool) {
    let _ = write!(
        text,
        "\n[[package]]\nname = \"p{number}\"\nversion = \"1\"\n"
    );
    if !is_last {
        let next = number.wrapping_add(1);
        let _ = write!(
            text,
            "dependencies = [\n    {{ name = \"p{next}\", version = \"1\" }},\n]\n"
        );
    }
}

/// A lock's text in which the root leads to a package, and each of many packages to the next.
pub(crate) fn chain(alloc: Global, count: u64) -> String {
    let mut text = String::new(alloc);
    put(&mut text, HEAD);
    put(&mut text, ROOT);
    put(
        &mut text,
        "dependencies = [\n    { name = \"p100000\", version = \"1\" },\n]\n",
    );
    for place in 0..count {
        let is_last = place.wrapping_add(1) == count;
        put_package(&mut text, place.wrapping_add(100_000), is_last);
    }
    text
}

/// A lock's text with a supported region of so many operating systems, each a path to true.
pub(crate) fn systems(alloc: Global, count: u64) -> String {
    let mut text = String::new(alloc);
    put(&mut text, HEAD);
    put(&mut text, "supported-markers = \"os_name == '10000'");
    for place in 1..count {
        let number = place.wrapping_add(10_000);
        let _ = write!(text, " or os_name == '{number}'");
    }
    put(&mut text, "\"\n");
    put(&mut text, ROOT);
    text
}

/// A lock's text with a supported region of so many comparisons that must all hold: a path with a node for each.
pub(crate) fn deep(alloc: Global, count: u64) -> String {
    let mut text = String::new(alloc);
    put(&mut text, HEAD);
    put(&mut text, "supported-markers = \"'10000' in os_name");
    for place in 1..count {
        let number = place.wrapping_add(10_000);
        let _ = write!(text, " and '{number}' in os_name");
    }
    put(&mut text, "\"\n");
    put(&mut text, ROOT);
    text
}

// Puts so many letters.
fn put_letters(alloc: Global, text: &mut String, count: usize) {
    if let Ok(letters) = "a".repeat(alloc, 4096) {
        for _ in 0..count / 4096 {
            put(text, letters.as_str());
        }
    }
    if let Ok(letters) = "a".repeat(alloc, count % 4096) {
        put(text, letters.as_str());
    }
}

const SUM: &str = "sha256:0123456789abcdef0123456789abcdef0123456789abcdef0123456789abcdef";

// A lock's text with a file whose name has so many letters.
fn of_letters(alloc: Global, count: usize) -> String {
    let mut text = String::new(alloc);
    put(&mut text, HEAD);
    put(&mut text, ROOT);
    put(&mut text, "files = [\n    { file = \"");
    put_letters(alloc, &mut text, count);
    put(&mut text, "\", hash = \"");
    put(&mut text, SUM);
    put(&mut text, "\" },\n]\n");
    text
}

/// A lock's text of so many bytes, most of them a file's name.
pub(crate) fn long(alloc: Global, size: usize) -> String {
    let least = of_letters(alloc, 0).len();
    of_letters(alloc, size.saturating_sub(least))
}
