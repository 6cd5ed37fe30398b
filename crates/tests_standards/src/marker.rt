//! Tests of specifiers, markers and machines.

mod machine;
mod marker_reading;
mod packages;
mod printed;
mod specifier;
mod texts;
mod truths;
mod worlds;
