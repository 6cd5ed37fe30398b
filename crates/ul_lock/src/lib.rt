//! A lock as data, which locks are well formed, and what a lock gives in a world.
//!
//! `specs/WellFormed.antt` says which locks are well formed, and `specs/Walk.antt` what a lock gives in a world.
#![tactic(auto)]

pub mod laws;
mod orders;
mod parts;

pub use orders::{edge_order, file_order};
pub use parts::{Edge, Edges, Extra, Extras, Files, Lock, Locked, Packages, Region, Regions};
