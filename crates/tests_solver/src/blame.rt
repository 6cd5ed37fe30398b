//! Tests of cores: rows, sizes, and small problems at random against a plain search.

mod cores;
mod drawn;
mod plain;
mod sizes;
