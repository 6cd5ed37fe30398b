//! Tests of the texts of trees.

mod large;
mod outcomes;
mod tables;
