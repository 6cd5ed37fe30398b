//! A problem of a region, its terms, its steps and its best selection, as plain data.
#![tactic(auto)]

pub mod examples;
mod finding;
mod fitting;
mod incompat;
pub mod laws;
mod lists;
mod needs;
mod problem;
mod resolving;
mod saying;
mod step;
mod term;

pub use incompat::Incompat;
pub use lists::{Places, Versions};
pub use problem::{Need, NeedRow, NeedRows, NodeFacts, Problem};
pub use resolving::{is_resolvent, resolvent};
pub use step::{Derivation, Step};
pub use term::{Relation, Term, Terms, same_terms, term_on};
