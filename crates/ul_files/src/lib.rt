//! The world outside: files and a sink, as far as the program asks them, and such of memory.
//!
//! Both keep a record that only clauses read: the files of what each read found, the sink of the pieces that it was
//! given. So what is promised of a call speaks of any files and any sink, real ones too. `MemFiles`, `SureFiles` and
//! `MemSink` stand for them in tests and in generated work.
#![tactic(auto)]

mod files;
pub mod laws;
mod listed_files;
mod mem_files;
mod mem_sink;
mod pieces;
mod reads;
mod sink;
mod sure_files;

pub use files::{Files, ReadRefused};
pub use mem_files::MemFiles;
pub use mem_sink::MemSink;
pub use pieces::{Piece, Pieces};
pub use reads::{Noted, Reads};
pub use sink::{Sink, SinkRefused};
pub use sure_files::SureFiles;
