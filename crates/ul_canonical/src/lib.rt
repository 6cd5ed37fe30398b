//! The canonical texts of markers: a file of markers in, their texts in one form out, line by line.
//!
//! `specs/Answers.antt` says what is answered, `specs/Headline.antt` that two lines are equal exactly where their
//! markers are true in the same worlds.
#![tactic(auto)]

mod answers;
mod diagrams;
mod fault;
pub mod laws;
mod lines;
mod writing;

pub use answers::canonical;
pub use fault::CanonicalFault;
