//! The lowest layer: names and nodes, a gate that jobs pass, and owned values handed on.
//!
//! A name is a package's or an extra's, in its normal form. A node is what is resolved: a name, or an extra of it.
#![tactic(auto)]

mod gate;
pub mod laws;
mod name;
mod node;
pub mod owned;

pub use gate::{Gate, Open};
pub use name::{Name, NameFault, is_name};
pub use node::Node;
