//! Tests of sets of versions, of problems and of the checker of derivations.

mod calls;
mod derivation;
mod needs;
mod ranges;
mod texts;
