//! Tests of decision trees.

mod markers;
mod operations;
mod printable;
mod samples;
mod simplify;
mod sizes;
mod texts;
