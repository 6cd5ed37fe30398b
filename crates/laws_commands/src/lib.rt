//! Laws of what the commands answer: each stands on an empty function, and no program runs them.
#![tactic(auto)]

pub mod laws;
