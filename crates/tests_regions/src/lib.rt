//! Tests of what all regions share, of the problem of a region and of the fork answer over a catalog.
#![tactic(auto)]

#[cfg(test)]
mod forks;
#[cfg(test)]
mod placing;
