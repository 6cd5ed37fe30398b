//! The shared core: one log of trees per shard and a claim number, and the law over every list of
//! events on which everything said of interleavings stands. Nothing here waits or starts a thread.
#![tactic(auto)]

mod events;
mod labels;
pub mod laws;
mod plants;
mod states;
mod trees;

pub use events::{Event, EventFault};
pub use labels::Label;
pub use plants::{Plant, hash_step, is_same, structural_hash};
pub use states::CoreState;
pub use trees::Tree;
