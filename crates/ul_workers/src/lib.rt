//! Workers: threads that run one job on the numbers below a count, each number once.
#![tactic(auto)]

mod begun;
mod gather;
mod jobs;
mod rounds;
mod run;
mod start;
mod threads;

pub use jobs::Job;
pub use rounds::Round;
pub use run::run_all;
