//! Tests of where a lock gives its nodes, and of the requirements file of it.

mod lengths;
mod locks;
mod reaches;
mod rows;
mod sizes;
