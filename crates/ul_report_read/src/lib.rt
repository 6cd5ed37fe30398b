//! Reading the text of a refused fork and of its derivation, exactly.
//!
//! `specs/Proofs.antt` says what such a text is, `specs/Headline.antt` what `read` answers.
#![tactic(auto)]

pub mod laws;
mod line;
mod lines;
mod proof;
mod reading;
mod states;
mod steps;
mod tokens;

pub use line::Line;
pub use proof::{Path, Proof};
pub use reading::{ProofFault, read};
pub use states::State;
