//! The generator: a project of so many packages and their index documents, made from a seed.
//!
//! Anyone can measure the program on them without files. The packages are `g0`, `g1` and so on, each with four releases,
//! and each release asks for at most two of the next sixteen packages, so that every project can be locked.
#![tactic(auto)]

mod documents;
mod laws;
mod numbers;
mod projects;
mod texts;

pub use documents::document_of;
pub use laws::examples;
pub use projects::project_of;
