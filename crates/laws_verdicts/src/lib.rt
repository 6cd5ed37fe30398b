//! Each lock is verified, or has a first part that isn't right. The law stands on an empty function, and no program runs
//! it.
#![tactic(auto)]

pub mod laws;
