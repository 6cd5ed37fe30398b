//! Where a requirement applies, and what it aims at.

ghost use Rattle.std.specs.Prelude.{◌≡◌, IfOk, option_map};
ghost use Rattle.ul_marker.specs.Views.{marker_view, markers_view};
ghost use Rattle.ul_requirement.specs.Truth.{applies_at, atoms_in, atoms_of_requirement, marker_names, may_apply, may_hold, names_extra, some_names_extra, targets, with_extra};

use crate::Requirement;
use std::alloc::{AllocError, Global};
use ul_base::{Name, Node};
use ul_marker::{Atom, Marker, World};

// Whether a marker holds, where there is one.
fn may_hold(marker: &Option<Marker>, world: &World, extra: &str) -> bool
    ensures { result ≡ may_hold (option_map marker_view marker.now) world.now extra.now }
{
    match marker {
        Some(marker) => marker.holds(world, extra),
        None => true,
    }
}

// Whether a comparison of a marker may tell an extra from the empty one.
#[cycle(names)]
fn names_extra(marker: &Marker, extra: &str) -> bool
    ensures { result ≡ names_extra extra.now (marker_view marker.now) }
{
    match marker {
        Marker::Extra { literal, .. } => literal.is_empty() || literal.as_str() == extra,
        Marker::All(parts) => some_names_extra(parts, extra),
        Marker::Any(parts) => some_names_extra(parts, extra),
        Marker::Python { .. }
        | Marker::PythonList { .. }
        | Marker::Text { .. }
        | Marker::Opaque { .. } => false,
    }
}

// Whether a comparison of some of these may tell an extra from the empty one.
#[cycle(names)]
fn some_names_extra(parts: &[Marker], extra: &str) -> bool
    ensures { result ≡ some_names_extra extra.now (markers_view parts.now) }
{
    for part in parts {
        if names_extra(part, extra) {
            return true;
        }
    }
    false
}

// The same of a marker, where there is one.
fn marker_names(marker: &Option<Marker>, extra: &str) -> bool
    ensures { result ≡ marker_names (option_map marker_view marker.now) extra.now }
{
    match marker {
        Some(marker) => names_extra(marker, extra),
        None => false,
    }
}

impl Requirement {
    /// Whether the requirement may be true at a node in some world: at a node with an extra only where its marker
    /// names that extra or the empty one.
    pub fn may_apply(&self, node: &Node) -> bool
        ensures { result ≡ may_apply self.now node.now }
    {
        match &node.extra {
            Some(extra) => marker_names(&self.marker, extra.text()),
            None => true,
        }
    }

    /// Whether the requirement is true at a node in a world.
    ///
    /// At a base its marker holds there with the empty extra. At a node with an extra it holds with that
    /// extra, and not with the empty one. A requirement without a marker is true at each base.
    pub fn applies_at(&self, node: &Node, world: &World) -> bool
        ensures { result ≡ applies_at self.now node.now world.now }
    {
        let base = may_hold(&self.marker, world, "");
        match &node.extra {
            Some(extra) => may_hold(&self.marker, world, extra.text()) && !base,
            None => base,
        }
    }

    /// The nodes that the requirement asks for: the base of its name, then its extras in byte order.
    pub fn targets(&self, alloc: Global) -> Result<Vec<Node>, AllocError>
        ensures { IfOk result (λ nodes. nodes.items ≡ targets self.now) }
    {
        let mut nodes = Vec::new(alloc);
        nodes.push(Node {
            name: self.name.copy(alloc)?,
            extra: None,
        })?;
        for extra in &self.extras {
            nodes.push(with_extra(alloc, &self.name, extra)?)?;
        }
        Ok(nodes)
    }
}

// The opaque comparisons of a marker, where there is one.
fn atoms_in(alloc: Global, marker: &Option<Marker>) -> Result<Vec<Atom>, AllocError>
    ensures { IfOk result (λ v. v.items ≡ atoms_in (option_map marker_view marker.now)) }
{
    match marker {
        Some(marker) => marker.atoms(alloc),
        None => Ok(Vec::new(alloc)),
    }
}

impl Requirement {
    /// The opaque comparisons of its marker, in the order of its text, each as often as it stands there.
    pub fn atoms(&self, alloc: Global) -> Result<Vec<Atom>, AllocError>
        ensures { IfOk result (λ v. v.items ≡ atoms_of_requirement self.now) }
    {
        let marker: &Option<Marker> = &self.marker;
        let atoms = atoms_in(alloc, marker)?;
        Ok(atoms)
    }
}

// The node of a name and an extra.
fn with_extra(alloc: Global, name: &Name, extra: &Name) -> Result<Node, AllocError>
    ensures { IfOk result (λ n. n ≡ with_extra name.now extra.now) }
{
    let name = name.copy(alloc)?;
    let extra = extra.copy(alloc)?;
    Ok(Node {
        name,
        extra: Some(extra),
    })
}
