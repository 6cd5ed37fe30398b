//! Tests of loading.

mod files;
mod limits;
mod rows;
mod told;
