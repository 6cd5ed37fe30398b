//! Tests of project files, index documents, loading, groups and the generator, over the public surface of their crates
//! alone.
#![tactic(auto)]

#[cfg(test)]
mod generator;
#[cfg(test)]
mod groups;
#[cfg(test)]
mod index;
#[cfg(test)]
mod load;
#[cfg(test)]
mod project;
