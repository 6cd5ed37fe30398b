//! Leaves merge into a lock. The law stands on an empty function, and no program runs it.
#![tactic(auto)]

pub mod laws;
