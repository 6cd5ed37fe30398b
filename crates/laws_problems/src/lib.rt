//! Each region of a catalog has a problem: the nodes that it reaches, with what is known of each. The law stands on an
//! empty function, and no program runs it.
#![tactic(auto)]

pub mod laws;
