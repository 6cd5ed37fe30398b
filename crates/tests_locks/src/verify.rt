//! Tests of the judge of a lock.

mod changes;
mod extras;
mod judging;
mod rows;
mod size;
