//! The project file: what a `pyproject.toml` says of a project, or the first of its faults.
#![tactic(auto)]

mod dev;
mod extras;
mod fault;
mod group;
mod groups;
mod head;
mod kept;
pub mod laws;
mod lists;
mod path;
mod profile;
mod projects;
mod reading;
mod region;
mod requirements;
mod settings;
mod shapes;
mod sources;

pub use extras::{joined_markers, of_extra};
pub use fault::ProjectFault;
pub use group::{Group, GroupEntry};
pub use lists::group_extra;
pub use path::{Place, ProjectKey, ProjectPath};
pub use profile::Profile;
pub use projects::Project;
pub use reading::project;
pub use sources::{NameSources, Source};
