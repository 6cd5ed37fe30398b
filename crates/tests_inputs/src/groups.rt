//! Tests of expanded groups and adjusted catalogs.

mod adjusted;
mod expanded;
mod texts;
