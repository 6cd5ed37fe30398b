//! Decision trees over environments: one truth, one tree.
#![tactic(auto)]

pub mod copy;
pub mod join;
pub mod laws;
pub mod leaf;
pub mod markers;
mod operations;
mod pairs;
pub mod part;
mod printable;
pub mod python;
mod samples;
mod settle;
mod simplify;
mod tree;
mod truth;

pub use markers::{of_marker, of_python};
pub use operations::{plain_and, plain_at_extra, plain_not, plain_or};
pub use printable::{MOST_LEVELS, MOST_PATHS, is_node_printable, is_printable};
pub use samples::sample;
pub use simplify::plain_simplify;
pub use tree::{DEEPEST, Tree, deeper};
pub use truth::{holds, paths};
