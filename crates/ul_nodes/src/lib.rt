//! Nodes of decision trees over environments, of any kind: plain trees and shared diagrams are read by the same functions.
//!
//! A kind of node is an `impl` of `nodes::Nodes`, which says of each node what plain tree it stands for.
#![tactic(auto)]

pub mod branches;
pub mod closing;
pub mod level;
pub mod nodes;
pub mod results;
