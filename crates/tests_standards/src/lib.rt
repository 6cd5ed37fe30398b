//! Tests of names, versions, specifiers, markers, machines, decision trees and the texts of trees, over the public
//! surface of their crates alone.
#![tactic(auto)]

#[cfg(test)]
mod marker;
#[cfg(test)]
mod marker_text;
#[cfg(test)]
mod reading;
#[cfg(test)]
mod tree;
