//! A region's problem, what it asks of a release, and its best selection.
#![tactic(auto)]

mod asking;
mod at_node;
mod by_extra;
mod extra_index;
mod in_region;
pub mod laws;
mod markers;
mod numbers;
mod rows;
mod truths;
pub mod unions;

pub use asking::{asked_at, fit_at};
pub use at_node::AtNode;
pub use by_extra::ByExtra;
pub use in_region::InRegion;
pub use markers::diagram_of;
pub use rows::{Asked, Row, Truths};
pub use truths::{fit_truth, truth_at};
