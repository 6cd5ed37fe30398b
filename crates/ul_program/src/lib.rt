//! The program unilock but for its `main`: the words of the command line, the top call, the file system and standard
//! output.
//!
//! `run` is the program over any files and any sink, and has the whole promise as its clause; `ended` is the same over the
//! arguments that a system gives. `Folder` opens the real files, and `OutSink` is the real sink.
#![tactic(auto)]

mod arguments;
mod folder;
pub mod laws;
mod standard;
mod top;
mod words;

pub use arguments::ended;
pub use folder::Folder;
pub use standard::OutSink;
pub use top::run;
