//! Reading a lock's text, exactly, in either version of the format.
#![tactic(auto)]

mod blocks;
mod heads;
pub mod laws;
mod locks;
mod orders;
mod states;
mod targets;
mod texts;

pub use locks::{LockFault, read};
pub use states::State;
pub use texts::ShapeFault;
