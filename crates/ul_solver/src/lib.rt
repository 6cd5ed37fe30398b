//! The solver.
#![tactic(auto)]

pub mod laws;
mod opened;
mod solver;

pub use solver::{Answer, solve};
