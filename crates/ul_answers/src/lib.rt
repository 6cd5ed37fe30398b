//! What the program answers, and what is printed for it: one status and one text for each answer and each refusal.
#![tactic(auto)]

mod answer;
mod outputs;
mod refusals;

pub use answer::Answer;
pub use outputs::{Output, answer_output};
pub use refusals::refusal_output;
