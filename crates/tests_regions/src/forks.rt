//! Tests of the fork answer over a catalog.

mod asked;
mod gates;
mod rows;
mod size;
