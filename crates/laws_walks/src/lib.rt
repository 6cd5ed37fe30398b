//! What a lock gives, as trees: where it gives each node, what it gives in a world, and its rows. Each law stands on an
//! empty function, and no program runs them.
#![tactic(auto)]

pub mod laws;
