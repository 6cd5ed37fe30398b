//! What the lines that `export` prints say, read as requirements of PEP 508. Each law stands on an empty function, and
//! no program runs them.
#![tactic(auto)]

pub mod laws;
