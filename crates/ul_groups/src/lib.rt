//! Dependency groups expanded, and requirements adjusted by overrides, constraints and sources.
#![tactic(auto)]

mod adjustment;
mod catalogs;
mod copies;
mod expansion;
mod extras;
pub mod laws;
mod name_lists;
mod negation;
mod sources;

pub use catalogs::adjust;
pub use extras::expand;
