//! The text of a lock, and writing it.
//!
//! `specs/Sheet.antt` has the lines of a lock in either version of the format, `specs/Texts.antt` its text.
#![tactic(auto)]

mod paths;
mod sheets;
mod writing;

pub use paths::too_many;
pub use sheets::{Head, Sheet};
pub use writing::{TEXT_BYTES, WriteFault, write};
