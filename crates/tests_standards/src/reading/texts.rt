//! Long texts, and what the words of rows say, which the tests share.

use std::alloc::Global;
use tests_rows::put;

/// A text that has `piece` so many times behind its start.
pub(crate) fn repeated(alloc: Global, start: &str, piece: &str, count: usize) -> String {
    let mut text = String::new(alloc);
    put(&mut text, start);
    for _ in 0..count {
        put(&mut text, piece);
    }
    text
}

/// The number that a word is, or 0.
pub(crate) fn number(word: &str) -> u64 {
    word.parse::<u64>().unwrap_or(0)
}
