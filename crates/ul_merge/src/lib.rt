//! The lock that leaves merge into.
//!
//! The leaves' picks are gathered by packages, and within a package by extras. The edges of a node are those of the
//! targets of its release's requirements where leaves chose both ends: the targets are gathered with their versions, and
//! each edge is true in the union of these leaves' regions where the union of the requirements' truths is.
//!
//! The packages are made by workers, each a run of neighbouring ones, where there is enough to do for more than one.
//!
//! A lock is made only where all of its markers are printed. A diagram shares its parts, so it may be small and its
//! tree larger than any memory: whether it is printed is told of the diagram, and no tree is made of one that isn't.
#![tactic(auto)]

mod blocks;
mod choices;
mod edges;
mod forks;
mod gathering;
mod keys;
mod members;
mod merging;
mod numbers;
mod over;
mod releases;
mod runs;
mod sources;
mod targets;
mod truths;

pub use merging::merge;
pub use releases::files_at;
