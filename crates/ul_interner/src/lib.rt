//! The shared interner: one mark for each tree, which threads make and compare by identity.
#![tactic(auto)]

mod bodies;
mod interners;
pub mod laws;
mod marks;
mod passes;
mod steps;
mod views;

pub use interners::Interner;
pub use marks::Mark;
pub use passes::{Pass, same};
