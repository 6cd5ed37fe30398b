//! Each truth that a marker, a release or a project says has a reduced tree, so that what holds somewhere in a region
//! is decided. Each law stands on an empty function, and no program runs them.
#![tactic(auto)]

pub mod laws;
