//! The text of a decision tree's marker, both ways.
#![tactic(auto)]

mod building;
mod fault;
pub mod laws;
mod nodes;
mod printing;
mod rows;
mod steps;
mod texts;

pub use fault::TextFault;
pub use texts::{read, read_marker, text};
