//! Tests of locks as texts, and of what they give on machines.

mod changes;
mod environments;
mod sizes;
mod texts;
mod whole;
