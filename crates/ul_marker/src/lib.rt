//! Environment markers of PEP 508: their texts, read exactly, and their truth at a world.
#![tactic(auto)]

mod comparison;
mod fault;
pub mod laws;
mod marker;
pub mod printed;
mod reading;
mod truth;
mod words;

pub use fault::MarkerFault;
pub use marker::Marker;
pub use ul_comparison::{
    Atom, AtomKind, EnvFault, Machine, Variable, World, is_literal, meets_python, put_atom,
    world_of,
};
