//! The commands of unilock: each reads its files and answers.
//!
//! `specs/Commands.antt` has one case for each; `command` answers what it says, and the program prints it.
#![tactic(auto)]

mod asked;
mod checking;
mod commands;
mod forking;
mod generating;
mod keeping;
pub mod laws;
mod locking;
mod markers;
mod relocking;
mod resolving;
mod root_extras;
mod verifying;
mod wanted;

pub use asked::Asked;
pub use commands::command;
