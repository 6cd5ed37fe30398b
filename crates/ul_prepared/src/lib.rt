//! What all regions of a project share: eligible versions, orders, requirements' truths and needs, made once a run.
#![tactic(auto)]

mod aims;
mod clauses;
mod gathering;
mod names;
mod parts;
mod permitted;
mod planning;
mod prepared;
mod releases;
mod rows;
mod shared;
mod sources;
mod wish_index;

pub use prepared::{NameFacts, Planned, Prepared};
