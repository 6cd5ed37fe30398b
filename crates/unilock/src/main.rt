//! unilock: one lock for a Python project, valid for all platforms and interpreters that it supports.
//!
//! `ul_program::ended` is the program: it answers the arguments. `main` gives it those of the system, the real files, standard
//! output and a gate that does nothing, and ends with its status.
#![tactic(auto)]

#[cfg(test)]
mod choice_rows;
#[cfg(test)]
mod deep_rows;
#[cfg(test)]
mod edge_tests;
#[cfg(test)]
mod export_rows;
#[cfg(test)]
mod faults;
#[cfg(test)]
mod fork_rows;
#[cfg(test)]
mod gates;
#[cfg(test)]
mod in_turn;
#[cfg(test)]
mod limits;
#[cfg(test)]
mod marker_rows;
#[cfg(test)]
mod place_rows;
#[cfg(test)]
mod places;
#[cfg(test)]
mod refusal_rows;
#[cfg(test)]
mod relock_rows;
#[cfg(test)]
mod tests;
#[cfg(test)]
mod verify_rows;
#[cfg(test)]
mod word_rows;

use std::process::ExitCode;
use std::{env, io};
use ul_base::Open;
use ul_edge::OpenedFiles;
use ul_program::{Folder, OutSink, ended};

fn main(rt: HostRuntime) -> ExitCode {
    let mut files = OpenedFiles::new(rt.alloc(), Folder::of(&rt));
    let mut out = OutSink::new(io::writer(&rt));
    ExitCode::from(ended(&rt, rt.alloc(), env::args(&rt), &mut files, &mut out, &Open))
}
