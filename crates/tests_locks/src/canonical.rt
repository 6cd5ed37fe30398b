//! Tests of the canonical texts of a file's markers.

mod rows;
mod sizes;
