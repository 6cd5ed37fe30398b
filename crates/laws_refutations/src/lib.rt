//! The steps of derivations are complete: a problem that nothing serves has a derivation that is accepted. Each law
//! stands on an empty function, and no program runs them.
#![tactic(auto)]

pub mod laws;
