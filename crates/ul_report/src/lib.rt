//! Refusals and derivations as text.
//!
//! `specs/Texts.antt` has the bytes of each line, `specs/Naming.antt` what a step of a problem is called.
#![tactic(auto)]

pub mod laws;
mod naming;
mod refusals;
mod step_lines;
mod text_steps;

pub use naming::fits;
pub use refusals::{push_number, refusal, sample_text};
pub use step_lines::{push_node, push_placed, steps};
pub use text_steps::{Steps, Terms, TextStep, TextTerm, Versions};
