//! What the crates of tests share: the cells of a row, the letter of its word, and what is told of a value piece by
//! piece.
//!
//! A piece that finds no memory is left out, and then what is told isn't what is wanted. So what puts pieces together
//! has no failure to hand on, and the proof of a test no path for one. No function has a clause, which each step of a
//! test would carry on.
#![tactic(auto)]

use std::fmt::Write;

/// What comes before the first such mark of a row, and what comes after it.
pub fn cells(row: &str, mark: char) -> (&str, &str) {
    row.split_once(mark).unwrap_or((row, ""))
}

/// The first letter of a word, or 0.
pub fn letter(word: &str) -> u8 {
    match word.as_bytes().first() {
        Some(letter) => *letter,
        None => 0,
    }
}

/// Puts a piece behind what is told.
pub fn put(told: &mut String, piece: &str) {
    let _ = told.push_str(piece);
}

/// Puts a number behind what is told.
pub fn put_number(told: &mut String, number: u64) {
    let _ = write!(told, "{number}");
}
