//! Tests of requirements, index documents and eligible releases.

mod documents;
mod packages;
mod requirement;
