//! Texts of lines: pieces of a line, the lines of a text, and readers that go line by line.
//!
//! A reader is a state that goes on with each line. The definitions say which line of a text is the first that is wrong,
//! by what exists, and `proofs/ForCallers.antt` that a reader finds exactly this line.
#![tactic(auto)]

pub mod laws;
mod lines;
mod pieces;

pub use lines::first_line;
pub use pieces::{before_end, divided, enclosed_text, inside_text, optional_text, same, stripped};
