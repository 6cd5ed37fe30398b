//! Markers.

ghost use Rattle.std.specs.Prelude.{◌≡◌, ◌++◌, IfOk, map};
ghost use Rattle.ul_marker.specs.Parts;
ghost use Rattle.ul_marker.specs.Views.{marker_view, markers_view};

use crate::{Atom, Variable};
use std::alloc::{AllocError, Global};
use ul_base::owned::with_made;
use ul_specifier::Clause;
use ul_version::Version;

/// An environment marker: a formula of comparisons (PEP 508, "Environment Markers").
///
/// Contracts see a marker as its formula, `marker_view`.
#[derive(Drop)]
pub enum Marker {
    /// Whether the extra equals the literal, or doesn't. A literal that is a name stands in its normal
    /// form; the empty literal is the empty extra; any other literal equals no extra.
    Extra {
        literal: String,
        equal: bool,
    },
    /// Whether `python_full_version`, or else `python_version`, meets a clause.
    Python {
        full: bool,
        clause: Clause,
    },
    /// Whether `python_full_version`, or else `python_version`, is one of a list of versions, or isn't.
    PythonList {
        full: bool,
        versions: Vec<Version>,
        within: bool,
    },
    /// Whether a text variable equals the literal, or doesn't.
    Text {
        variable: Variable,
        literal: String,
        equal: bool,
    },
    /// Whether an opaque comparison holds, or doesn't.
    Opaque {
        atom: Atom,
        positive: bool,
    },
    /// Whether all parts hold.
    All(Vec<Marker>),
    /// Whether some part holds.
    Any(Vec<Marker>),
}

impl Marker {
    /// An equal marker.
    pub fn copy(&self, alloc: Global) -> Result<Marker, AllocError>
        ensures { IfOk result (λ m. marker_view m ≡ marker_view self.now) }
    {
        copy(alloc, self)
    }

    /// The opaque comparisons of the marker, in the order of its text, each as often as it stands there.
    pub fn atoms(&self, alloc: Global) -> Result<Vec<Atom>, AllocError>
        ensures { IfOk result (λ v. v.items ≡ Parts.atoms_of (marker_view self.now)) }
    {
        add_atoms(alloc, self, Vec::new(alloc))
    }

    /// Whether a comparison with `extra` stands in the marker, even where its truth doesn't depend on it.
    ///
    /// It takes no memory.
    pub fn asks_extra(&self) -> bool
        ensures { result ≡ Parts.asks_extra (marker_view self.now) }
    {
        asks_extra(self)
    }
}

// The opaque comparisons of a marker behind others.
#[cycle(atoms)]
fn add_atoms(alloc: Global, marker: &Marker, atoms: Vec<Atom>) -> Result<Vec<Atom>, AllocError>
    ensures { IfOk result (λ v. v.items ≡ atoms.items ++ Parts.atoms_of (marker_view marker.now)) }
{
    match marker {
        Marker::Opaque { atom, .. } => with_made(atoms, atom.copy(alloc)),
        Marker::All(parts) => add_part_atoms(alloc, parts, atoms),
        Marker::Any(parts) => add_part_atoms(alloc, parts, atoms),
        Marker::Extra { .. }
        | Marker::Python { .. }
        | Marker::PythonList { .. }
        | Marker::Text { .. } => Ok(atoms),
    }
}

// The opaque comparisons of markers behind others.
#[cycle(atoms)]
fn add_part_atoms(
    alloc: Global,
    parts: &[Marker],
    atoms: Vec<Atom>,
) -> Result<Vec<Atom>, AllocError>
    ensures { IfOk result (λ v. v.items ≡ atoms.items ++ Parts.atoms_in (markers_view parts.now)) }
{
    let mut atoms = atoms;
    for part in parts {
        atoms = add_atoms(alloc, part, atoms)?;
    }
    Ok(atoms)
}

// Whether a comparison with `extra` stands in a marker.
#[cycle(extra)]
fn asks_extra(marker: &Marker) -> bool
    ensures { result ≡ Parts.asks_extra (marker_view marker.now) }
{
    match marker {
        Marker::Extra { .. } => true,
        Marker::All(parts) => some_asks_extra(parts),
        Marker::Any(parts) => some_asks_extra(parts),
        Marker::Python { .. }
        | Marker::PythonList { .. }
        | Marker::Text { .. }
        | Marker::Opaque { .. } => false,
    }
}

// Whether a comparison with `extra` stands in some of these.
#[cycle(extra)]
fn some_asks_extra(parts: &[Marker]) -> bool
    ensures { result ≡ Parts.some_asks_extra (markers_view parts.now) }
{
    for part in parts {
        if asks_extra(part) {
            return true;
        }
    }
    false
}

// An equal marker.
#[cycle(copy)]
fn copy(alloc: Global, marker: &Marker) -> Result<Marker, AllocError>
    ensures { IfOk result (λ m. marker_view m ≡ marker_view marker.now) }
{
    match marker {
        Marker::Extra { literal, equal } => {
            let literal = String::from_str(alloc, literal.as_str())?;
            Ok(Marker::Extra {
                literal,
                equal: *equal,
            })
        }
        Marker::Python { full, clause } => {
            let clause = clause.copy(alloc)?;
            Ok(Marker::Python {
                full: *full,
                clause,
            })
        }
        Marker::PythonList {
            full,
            versions,
            within,
        } => {
            let versions = copy_versions(alloc, versions)?;
            Ok(Marker::PythonList {
                full: *full,
                versions,
                within: *within,
            })
        }
        Marker::Text {
            variable,
            literal,
            equal,
        } => {
            let literal = String::from_str(alloc, literal.as_str())?;
            Ok(Marker::Text {
                variable: *variable,
                literal,
                equal: *equal,
            })
        }
        Marker::Opaque { atom, positive } => {
            let atom = atom.copy(alloc)?;
            Ok(Marker::Opaque {
                atom,
                positive: *positive,
            })
        }
        Marker::All(parts) => Ok(Marker::All(copy_parts(alloc, parts)?)),
        Marker::Any(parts) => Ok(Marker::Any(copy_parts(alloc, parts)?)),
    }
}

// Equal parts.
#[cycle(copy)]
fn copy_parts(alloc: Global, parts: &[Marker]) -> Result<Vec<Marker>, AllocError>
    ensures { IfOk result (λ ms. map marker_view ms.items ≡ map marker_view parts.now) }
{
    let mut copied = Vec::with_capacity(alloc, parts.len())?;
    for part in parts {
        copied = with_made(copied, copy(alloc, part))?;
    }
    Ok(copied)
}

// Equal versions.
fn copy_versions(alloc: Global, versions: &[Version]) -> Result<Vec<Version>, AllocError>
    ensures { IfOk result (λ vs. vs.items ≡ versions.now) }
{
    let mut copied = Vec::with_capacity(alloc, versions.len())?;
    for version in versions {
        copied = with_made(copied, version.copy(alloc))?;
    }
    Ok(copied)
}
