//! Each region of a catalog has an outcome, and each question has a fork answer. Each law stands on an empty function,
//! and no program runs them.
#![tactic(auto)]

pub mod laws;
