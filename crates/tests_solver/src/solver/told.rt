//! What is told of a value, piece by piece. A piece that finds no memory is left out, and then what is told isn't what
//! is wanted.

use std::fmt::Write;

/// Puts a piece behind what is told, and a number behind it.
pub(crate) fn put(told: &mut String, piece: &str, number: u64) {
    let _ = write!(told, "{piece}{number}");
}
