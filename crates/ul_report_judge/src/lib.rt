//! Judging a derivation by names and versions, as its text has it.
//!
//! `specs/Names.antt` says which step of a problem the names of a step say, `specs/Headline.antt` what `judge` answers.
#![tactic(auto)]

mod judging;
pub mod laws;
mod naming;
mod places;

pub use judging::judge;
