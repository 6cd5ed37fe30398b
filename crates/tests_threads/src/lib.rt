//! Tests of the core, of claims, the interner, workers, generations and the algebra of diagrams, over the public
//! surface of their crates alone.
#![tactic(auto)]

#[cfg(test)]
mod algebra;
#[cfg(test)]
mod generations;
#[cfg(test)]
mod interner;
