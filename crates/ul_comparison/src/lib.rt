//! The comparisons of markers (PEP 508, "Environment Markers"): variables, opaque comparisons and their order, the
//! worlds at which comparisons hold, machines and their worlds, and comparisons as they are printed.
#![tactic(auto)]

mod atom;
mod env_fault;
pub mod laws;
mod machine;
mod machine_truth;
pub mod printed;
mod truth;
mod variable;
mod world;

pub use atom::{Atom, is_literal, is_literal_byte, may_stand};
pub use env_fault::EnvFault;
pub use machine::Machine;
pub use machine_truth::world_of;
pub use truth::{as_asked, equals_extra, is_of_list, meets_python};
pub use variable::{AtomKind, Variable};
pub use world::{World, put_atom};
