//! Versions as PEP 440 spells and orders them, with numbers of 64 bits.
#![tactic(auto)]

pub mod ascii;
mod equality;
mod fault;
mod fields;
pub mod laws;
mod order;
mod public;
mod reading;
mod texts;

pub use fault::VersionFault;
pub use fields::{Pre, PreKind, Segment, Text, Version};
pub use public::{Public, cmp_releases, has_front};
