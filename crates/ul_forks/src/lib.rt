//! What becomes of the supported region: the fork answer over a catalog.
//!
//! `specs/Outcome.antt` says what becomes of one region, `specs/Headline.antt` what the fork answer then has, and
//! `specs/Forked.antt` what `fork_all` answers.
#![tactic(auto)]

mod children;
mod core_split;
mod fork;
pub mod laws;
mod picks;
mod question;
mod region_judge;

pub use children::children_of;
pub use fork::{Decisions, ForkAnswer, ForkLeaf, Forks, fork_all, start_nodes};
pub use question::Question;
pub use ul_generations::{ForkFault, Forked, Leaf, Path};
