//! The problem of a region, by places.
#![tactic(auto)]

mod aims;
mod facts;
pub mod laws;
mod placing;
mod ranks;
mod reach;

pub use placing::{Placed, problem_at, problem_in, problem_of};
