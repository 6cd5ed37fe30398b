//! What the program promises, over words, files, a status and bytes. Each promise stands on an empty function, and no
//! program runs them.
#![tactic(auto)]

pub mod laws;
