//! What is answered of a lock that is read: what it gives on a machine (`env`), and in which worlds it gives each of its
//! nodes (`export`).
#![tactic(auto)]

mod environments;
mod exports;
pub mod laws;
mod words;

pub use environments::env;
pub use exports::export;
