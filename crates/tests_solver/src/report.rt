//! Tests of refusals and derivations as text, of reading them, and of judging what was read.

mod judged;
mod printed;
mod problems;
mod refused;
mod texts;
