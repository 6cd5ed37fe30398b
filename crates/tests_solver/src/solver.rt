//! Tests of the trail, of conflict analysis and of the solver, on problems built by hand.

mod answers;
mod conflict;
mod runs;
mod shapes;
mod told;
mod trail;
