//! The checker of derivations: that no selection serves a problem, by steps that are each right by themselves.
#![tactic(auto)]

mod accept;
mod checks;
mod closing;
pub mod examples;
mod index;
pub mod laws;

pub use accept::{AcceptFault, accepts};
