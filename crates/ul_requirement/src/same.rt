//! Equality of requirements, part by part.
ghost use Rattle.std.specs.Prelude.{◌≡◌, IsTrue, map, option_map};
ghost use Rattle.ul_comparison.specs.Formulas.{all, any, extra, opaque, python, python_list, text};
ghost use Rattle.ul_marker.specs.Views.{marker_view, markers_view};

use crate::Requirement;
use std::cmp::Ordering;
use ul_base::Name;
use ul_marker::{Atom, Marker, Variable};
use ul_specifier::{Clause, Specifiers};
use ul_version::Version;

fn same_clause(one: &Clause, other: &Clause) -> bool
    ensures { IsTrue result → one.now ≡ other.now }
{
    one.op == other.op && one.prefix == other.prefix && one.version.same(&other.version)
}

fn same_clauses(some: &[Clause], others: &[Clause]) -> bool
    ensures { IsTrue result → some.now ≡ others.now }
{
    if some.len() != others.len() {
        return false;
    }
    for k in 0..some.len() {
        if !same_clause(&some[k], &others[k]) {
            return false;
        }
    }
    true
}

/// Whether specifiers have the same clauses in the same order.
pub fn same_specifiers(some: &Specifiers, others: &Specifiers) -> bool
    ensures { IsTrue result → some.now ≡ others.now }
{
    same_clauses(some.clauses.as_slice(), others.clauses.as_slice())
}

fn same_name(one: &Name, other: &Name) -> bool
    ensures { IsTrue result → one.now ≡ other.now }
{
    one.text() == other.text()
}

fn same_names(some: &[Name], others: &[Name]) -> bool
    ensures { IsTrue result → some.now ≡ others.now }
{
    if some.len() != others.len() {
        return false;
    }
    for k in 0..some.len() {
        if !same_name(&some[k], &others[k]) {
            return false;
        }
    }
    true
}

fn same_versions(some: &[Version], others: &[Version]) -> bool
    ensures { IsTrue result → some.now ≡ others.now }
{
    if some.len() != others.len() {
        return false;
    }
    for k in 0..some.len() {
        if !some[k].same(&others[k]) {
            return false;
        }
    }
    true
}

// Whether a marker asks whether the extra equals a literal, or doesn't.
fn is_extra(marker: &Marker, literal: &str, equal: bool) -> bool
    ensures { IsTrue result → marker_view marker.now ≡ extra literal.now equal }
{
    match marker {
        Marker::Extra {
            literal: own,
            equal: asked,
        } => *asked == equal && own.as_str() == literal,
        _ => false,
    }
}

// Whether a marker asks whether the interpreter meets a clause.
fn is_python(marker: &Marker, full: bool, clause: &Clause) -> bool
    ensures { IsTrue result → marker_view marker.now ≡ python full clause.now }
{
    match marker {
        Marker::Python {
            full: whole,
            clause: own,
        } => *whole == full && same_clause(own, clause),
        _ => false,
    }
}

// Whether a marker asks whether the interpreter is one of some versions, or isn't.
fn is_python_list(marker: &Marker, full: bool, versions: &[Version], within: bool) -> bool
    ensures { IsTrue result → marker_view marker.now ≡ python_list full versions.now within }
{
    match marker {
        Marker::PythonList {
            full: whole,
            versions: own,
            within: asked,
        } => *whole == full && *asked == within && same_versions(own, versions),
        _ => false,
    }
}

// Whether a marker asks whether a text variable equals a literal, or doesn't.
fn is_text(marker: &Marker, variable: Variable, literal: &str, equal: bool) -> bool
    ensures { IsTrue result → marker_view marker.now ≡ text variable literal.now equal }
{
    match marker {
        Marker::Text {
            variable: compared,
            literal: own,
            equal: asked,
        } => *compared == variable && *asked == equal && own.as_str() == literal,
        _ => false,
    }
}

fn same_atom(one: &Atom, other: &Atom) -> bool
    ensures { IsTrue result → one.now ≡ other.now }
{
    match one.cmp(other) {
        Ordering::Equal => true,
        Ordering::Less | Ordering::Greater => false,
    }
}

// Whether a marker is an opaque comparison, or its negation.
fn is_opaque(marker: &Marker, atom: &Atom, positive: bool) -> bool
    ensures { IsTrue result → marker_view marker.now ≡ opaque atom.now positive }
{
    match marker {
        Marker::Opaque {
            atom: own,
            positive: asked,
        } => *asked == positive && same_atom(own, atom),
        _ => false,
    }
}

// Whether a marker asks that all of some parts hold.
#[cycle(same)]
fn is_all(marker: &Marker, parts: &[Marker]) -> bool
    ensures { IsTrue result → marker_view marker.now ≡ all (markers_view parts.now) }
{
    match marker {
        Marker::All(own) => same_markers(own, parts),
        _ => false,
    }
}

// Whether a marker asks that any of some parts holds.
#[cycle(same)]
fn is_any(marker: &Marker, parts: &[Marker]) -> bool
    ensures { IsTrue result → marker_view marker.now ≡ any (markers_view parts.now) }
{
    match marker {
        Marker::Any(own) => same_markers(own, parts),
        _ => false,
    }
}

#[cycle(same)]
fn same_marker(one: &Marker, other: &Marker) -> bool
    ensures { IsTrue result → marker_view one.now ≡ marker_view other.now }
{
    match other {
        Marker::Extra { literal, equal } => is_extra(one, literal.as_str(), *equal),
        Marker::Python { full, clause } => is_python(one, *full, clause),
        Marker::PythonList {
            full,
            versions,
            within,
        } => is_python_list(one, *full, versions, *within),
        Marker::Text {
            variable,
            literal,
            equal,
        } => is_text(one, *variable, literal.as_str(), *equal),
        Marker::Opaque { atom, positive } => is_opaque(one, atom, *positive),
        Marker::All(parts) => is_all(one, parts),
        Marker::Any(parts) => is_any(one, parts),
    }
}

#[cycle(same)]
fn same_markers(some: &[Marker], others: &[Marker]) -> bool
    ensures { IsTrue result → markers_view some.now ≡ markers_view others.now }
{
    if some.len() != others.len() {
        return false;
    }
    for k in 0..some.len() {
        if !same_marker(&some[k], &others[k]) {
            return false;
        }
    }
    true
}

fn same_optional(one: &Option<Marker>, other: &Option<Marker>) -> bool
    ensures { IsTrue result → option_map marker_view one.now ≡ option_map marker_view other.now }
{
    match (one, other) {
        (Some(one), Some(other)) => same_marker(one, other),
        (None, None) => true,
        _ => false,
    }
}

impl Requirement {
    /// Whether two requirements are the same, part by part.
    pub fn same(&self, other: &Requirement) -> bool
        ensures { IsTrue result → self.now ≡ other.now }
    {
        same_name(&self.name, &other.name)
            && same_names(self.extras.as_slice(), other.extras.as_slice())
            && same_specifiers(&self.specifiers, &other.specifiers)
            && same_optional(&self.marker, &other.marker)
    }

    /// Whether two requirements have the same marker, or none.
    pub fn has_marker_of(&self, other: &Requirement) -> bool
        ensures { IsTrue result → self.now.marker ≡ other.now.marker }
    {
        same_optional(&self.marker, &other.marker)
    }
}

/// Whether two lists have the same requirements in the same order.
pub fn same_requirements(some: &[Requirement], others: &[Requirement]) -> bool
    ensures { IsTrue result → some.now ≡ others.now }
{
    if some.len() != others.len() {
        return false;
    }
    for k in 0..some.len() {
        if !some[k].same(&others[k]) {
            return false;
        }
    }
    true
}
