//! What the commands of unilock read: project files, index folders, locks and machine files, each with its refusal.
#![tactic(auto)]

mod catalogs;
mod file_faults;
mod files;
mod locks;
mod machines;
mod projects;
mod refusal;
mod resolutions;

pub use file_faults::{FileFault, FilePlace, file_refusal};
pub use files::{TEXT_BYTES, large_file, small_file};
pub use locks::{kept, lock_file};
pub use machines::machine_file;
pub use projects::project_file;
pub use refusal::Refusal;
pub use resolutions::{Resolution, resolution_in, resolution_with};
