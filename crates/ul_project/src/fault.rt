//! Why bytes are no project.

use crate::ProjectPath;
use std::alloc::{AllocError, AllocFailed};

/// Why bytes are no project: the first fault of the file, in the order of its checks.
#[derive(Drop)]
pub enum ProjectFault {
    /// `toml` doesn't read the bytes.
    NotToml,
    /// A value is absent or of another shape than it should be.
    Shape(ProjectPath),
    /// A text is no requirement.
    Requirement(ProjectPath),
    /// The file asks for what isn't supported, such as a requirement by a URL.
    Unsupported(ProjectPath),
    /// No world meets `requires-python` and the environments.
    EmptyRegion,
    /// Memory ran out, which says nothing of the bytes.
    NoMemory,
}

impl From<AllocError> for ProjectFault {
    ghost use Rattle.std.specs.Prelude.{◌≡◌};
    ghost use Rattle.ul_project.specs.declared.fault.ProjectFault.TheVariants.{NoMemory};

    ghost from_gives = { λ _ e. e ≡ NoMemory };

    fn from(_: AllocError) -> ProjectFault {
        ProjectFault::NoMemory
    }
}

impl<T: Drop> From<AllocFailed<T>> for ProjectFault {
    ghost use Rattle.std.specs.Prelude.{◌≡◌};
    ghost use Rattle.ul_project.specs.declared.fault.ProjectFault.TheVariants.{NoMemory};

    ghost from_gives = { λ _ e. e ≡ NoMemory };

    fn from(_: AllocFailed<T>) -> ProjectFault {
        ProjectFault::NoMemory
    }
}
