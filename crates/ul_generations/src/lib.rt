//! Generations of regions: each region is judged; it is done, split in two, or refused.
#![tactic(auto)]

mod answers;
mod jobs;
mod judges;
pub mod laws;
mod outcomes;
mod paths;
mod rows;
mod steps;
mod turns;

pub use answers::{ForkFault, Forked};
pub use judges::Judge;
pub use outcomes::Outcome;
pub use paths::Path;
pub use rows::Leaf;
pub use turns::{MOST_FORKS, fork_all};
