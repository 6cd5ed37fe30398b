//! The merged lock of leaves, and that it is right in every world.
//!
//! `specs/Sound.antt` says when a lock is right, `specs/Merged.antt` which lock leaves merge into, and
//! `specs/Headline.antt` that this lock is right.
#![tactic(auto)]

pub mod laws;
