//! Tests of problems, derivations, the trail, conflict analysis, the solver, cores and refusals, over the public
//! surface of their crates alone.
#![tactic(auto)]

#[cfg(test)]
mod blame;
#[cfg(test)]
mod problem;
#[cfg(test)]
mod problem_texts;
#[cfg(test)]
mod report;
#[cfg(test)]
mod solver;
