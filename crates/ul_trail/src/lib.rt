//! The trail of the solver: what is decided and derived of a problem, and what it leaves open.
//!
//! A trail holds steps, each of which says an incompatibility: terms of which no serving selection has all. Its facts are the roots', then
//! decisions and derived terms in the order in which they came, each with its level and its cause. `propagate` derives what the held
//! incompatibilities force, over lists of those that have a term on a changed node; `next` and `decide` make a decision; `back` takes
//! decisions back and holds what was learned.
#![tactic(auto)]

mod asking;
mod beginning;
mod deciding;
mod fact;
mod held_steps;
mod holding;
pub mod laws;
mod mark;
mod propagation;
mod rooting;
mod standing;
mod trail;
mod watching;

pub use fact::{Fact, Progress};
pub use trail::Trail;
