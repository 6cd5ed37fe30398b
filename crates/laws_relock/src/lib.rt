//! Laws of `relock`: a lock that is printed stays as it is, and an old lock does no harm. Each law stands on an empty
//! function, and no program runs them.
#![tactic(auto)]

pub mod laws;
