//! The core of a refusal: needs that refuse a problem, of which none can be left out.
#![tactic(auto)]

mod blame;
mod choosing;
mod core_lines;
mod kept;
pub mod laws;
mod needs;
mod serving;
mod used;

pub use blame::{core, core_by};
pub use core_lines::lines;
pub use needs::CoreNeed;
