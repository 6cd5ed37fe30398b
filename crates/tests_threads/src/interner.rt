//! Tests of the core, of claims, of the interner and of workers.

mod claims;
mod events;
mod labels;
mod meeting;
mod shared;
mod workers;
