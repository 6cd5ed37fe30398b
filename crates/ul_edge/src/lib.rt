//! Reading to the end and writing a whole piece, over any reader and writer, and files over anything that opens paths.
//!
//! The loops over single reads and writes stand here, apart from the system: over a reader that tells what it has left
//! and a writer that tells what it holds their clauses name each byte. What is told of a path is what was opened there, so
//! of the file system only the one call that opens a path is left to be named.
#![tactic(auto)]

mod counted;
mod opened;
mod opened_files;
mod opener;
mod reading;
mod writing;

pub use counted::Counted;
pub use opened::read_opened;
pub use opened_files::OpenedFiles;
pub use opener::Opener;
pub use reading::read_all;
pub use writing::write_all;
