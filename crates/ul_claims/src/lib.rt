//! Claims: numbers that threads draw from one shared word, each number once.
#![tactic(auto)]

mod counters;
mod gathering;
pub mod laws;
mod seats;
mod steps;

pub use counters::Claims;
pub use seats::{Claim, ClaimSeat};
