//! Sets of numbers below a size, and pieces of the numbers below 2^96.
//!
//! `Ordinals` is a set of a package's versions by their places in an order. `Cuts` cuts the line of interpreter versions into
//! half-open pieces.
#![tactic(auto)]

mod cuts;
pub mod examples;
mod form_tests;
mod forms;
pub mod laws;
mod ordinals;
pub mod plain;
mod shared;
mod words;

pub use cuts::Cuts;
pub use ordinals::Ordinals;
pub use shared::SharedList;
