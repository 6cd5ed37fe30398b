//! What an input depends on: the law stands on an empty function, and no program runs it.
#![tactic(auto)]

pub mod laws;
