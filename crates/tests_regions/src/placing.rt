//! Tests of what all regions share, and of the problem of a region.

mod folders;
mod problems;
mod rows;
mod size;
mod told;
