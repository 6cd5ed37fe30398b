//! The packages that a run knows, and what its releases ask for in a region.
#![tactic(auto)]

mod catalog;
mod direct_index;
mod documents;
mod eligibility;
mod entries;
mod fault;
mod file_set;
mod files;
pub mod laws;
mod place;
mod required;
mod seen;
mod shapes;
mod version_order;

pub use catalog::Catalog;
pub use documents::document;
pub use eligibility::{eligible, eligible_indirect};
pub use fault::IndexFault;
pub use place::{EntryKey, Place};
