//! Version specifiers as PEP 440 spells and means them.
#![tactic(auto)]

mod clause;
mod fault;
pub mod laws;
mod local;
mod lower;
mod meets;
mod reading;

pub use clause::{Clause, Op, Specifiers};
pub use fault::SpecFault;
pub use meets::equals_plain;
pub use reading::{after_space, before_space, operator};
