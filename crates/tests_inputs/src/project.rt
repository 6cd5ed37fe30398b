//! Tests of project files, and of groups, constraints and overrides.

mod files;
mod sizes;
mod sources;
mod told;
mod well_known;
mod wide;
