//! Requirements, releases and packages, and what a run wishes for.
#![tactic(auto)]

mod copy;
mod fault;
pub mod laws;
mod package;
mod reading;
mod requirement;
mod same;
mod truth;
mod wish;

pub use fault::ReqFault;
pub use package::{FileEntry, Package, Release};
pub use requirement::Requirement;
pub use same::{same_requirements, same_specifiers};
pub use wish::{Mode, Prereleases, Strategy, Wish};
