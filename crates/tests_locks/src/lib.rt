//! Tests of locks as texts, of what they give on machines and where, of the judge of a lock, and of the canonical texts of
//! markers.
#![tactic(auto)]

#[cfg(test)]
mod canonical;
#[cfg(test)]
mod lock;
#[cfg(test)]
mod reach;
#[cfg(test)]
mod verify;
