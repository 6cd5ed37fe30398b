//! Which opaque comparisons a lock asks, and the worlds of machines. Each law stands on an empty function, and no
//! program runs them.
#![tactic(auto)]

pub mod laws;
