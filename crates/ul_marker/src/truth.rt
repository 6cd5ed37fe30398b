//! The truth of markers at worlds.
ghost use Rattle.std.specs.Prelude.{◌≡◌};
ghost use Rattle.ul_comparison.specs.Truth.{marker_holds};
ghost use Rattle.ul_marker.specs.Views.{marker_view};

use crate::{Marker, World};
use ul_comparison::{as_asked, equals_extra, is_of_list, meets_python};

impl Marker {
    /// Whether the marker holds at a world with an extra.
    ///
    /// The extra is the normal form of a name, or empty, which stands for no extra. It takes no memory.
    ///
    /// The source is PEP 508, "Environment Markers", with three rules of this project: text variables are
    /// compared as texts, `in` with a Python variable on the left asks for a version of a list, and a literal
    /// beside `extra` that is neither empty nor a name equals no extra. The versions of the interpreter are
    /// compared by PEP 440, "Version specifiers", and an opaque comparison holds where the world says so.
    pub fn holds(&self, world: &World, extra: &str) -> bool
        ensures { result ≡ marker_holds (marker_view self.now) world.now extra.now }
    {
        match self {
            Marker::Extra { literal, equal } => {
                as_asked(*equal, equals_extra(literal.as_str(), extra))
            }
            Marker::Python { full, clause } => meets_python(clause, *full, world.python),
            Marker::PythonList {
                full,
                versions,
                within,
            } => as_asked(*within, is_of_list(versions, *full, world.python)),
            Marker::Text {
                variable,
                literal,
                equal,
            } => as_asked(*equal, world.text(*variable) == literal.as_str()),
            Marker::Opaque { atom, positive } => as_asked(*positive, world.has(atom)),
            Marker::All(parts) => {
                for part in parts {
                    if !part.holds(world, extra) {
                        return false;
                    }
                }
                true
            }
            Marker::Any(parts) => {
                for part in parts {
                    if part.holds(world, extra) {
                        return true;
                    }
                }
                false
            }
        }
    }
}
