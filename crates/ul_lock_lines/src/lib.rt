//! What stands on each line of a lock's text.
//!
//! A line is read in two steps: its texts (`RawLine`), then their values (`Line`). `proofs/ForCallers.antt` says that a
//! line is read exactly where its bytes are the line's.
#![tactic(auto)]

mod lines;
mod reading;
mod typed;

pub use lines::{Edition, Line, RawEdge, RawFile, RawLine, Text};
pub use typed::{escaped_text, line, name, text_of_ascii, version};
