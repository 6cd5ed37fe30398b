//! Where a region splits.
//!
//! `specs/Split.antt` says by which truth a region is split that something serves, `specs/CoreSplit.antt` by which one
//! that nothing serves.
#![tactic(auto)]

mod failing;
pub mod laws;
mod split;

pub use failing::failing_truth;
pub use split::{Chosen, split_in};
