//! The catalog of a project, from a folder of index documents.
#![tactic(auto)]

mod comparisons;
mod documents;
mod fault;
pub mod laws;
mod loading;
mod met;
mod progress;

pub use comparisons::has_too_many_comparisons;
pub use fault::LoadFault;
pub use loading::load_project;

/// The most bytes that an index document may have.
pub const FILE_BYTES: u64 = 16_777_216;
/// The most bytes that all index documents that are read may have together.
pub const TOTAL_BYTES: u64 = 268_435_456;
/// The most names that may be met, the project's included.
pub const PACKAGES: usize = 20_000;
/// The most releases that the documents may list, unusable ones included.
pub const RELEASES: u64 = 200_000;
/// The most different opaque comparisons that the project and the documents may have, or a file of markers.
pub const COMPARISONS: usize = 256;
