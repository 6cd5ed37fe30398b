//! Tests of the crates that read names and versions.

mod base;
mod texts;
mod version;
