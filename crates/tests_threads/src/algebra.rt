//! Tests of the algebra of diagrams.

mod markers;
mod parity;
mod texts;
mod trees;
