//! Opaque comparisons.
ghost use Rattle.std.specs.Prelude.{◌≡◌, IfOk, IfSome, None, string_bytes};
ghost use Rattle.std.specs.List.{list_all};
ghost use Rattle.std.specs.Str.{bytes_eq};
ghost use Rattle.ul_base.specs.Names.{normal_form};
ghost use Rattle.ul_comparison.specs.Atoms;
ghost use Rattle.ul_comparison.specs.Atoms.{IsAtom, atom_cmp, atom_fields};

use crate::{AtomKind, Variable};
use std::alloc::{AllocError, Global};
use std::cmp::Ordering;
use std::marker::Model;
use ul_base::is_name;

/// An opaque comparison: one whose truth is independent of all else in a world.
///
/// `Contains` stands with every variable, `Within`, `Below` and `AtMost` with a text variable or
/// `implementation_version`, and `Same` with `implementation_version` alone. The literal is printable ASCII
/// without the backslash and has not both quotes; beside `extras` it is a name in its normal form. Contracts see
/// an atom as the record `AtomFields`.
#[derive(Debug, Drop)]
pub struct Atom {
    pub variable: Variable,
    pub kind: AtomKind,
    pub literal: String,
}

impl Model for Atom {
    ghost use Rattle.std.specs.Prelude.{string_bytes};
    ghost use Rattle.ul_comparison.specs.Atoms.{AtomFields, IsAtom, atom_fields};

    ghost Value = { AtomFields };

    ghost view = { λ a. atom_fields a.variable a.kind (string_bytes a.literal) };

    ghost invariant = { λ a. IsAtom (atom_fields a.variable a.kind (string_bytes a.literal)) };
}

impl Atom {
    /// The comparison of a variable with a literal.
    ///
    /// `None` exactly where the kind doesn't stand with the variable, or the literal has another byte than those
    /// of printable ASCII without the backslash, or both quotes, or beside `extras` is no name in its normal form. It
    /// takes no memory.
    pub fn of(variable: Variable, kind: AtomKind, literal: String) -> Option<Atom>
        ensures given { IfSome result (λ a. a ≡ atom_fields variable kind (string_bytes literal)) }
        ensures refused { result ≡ None → ¬ IsAtom (atom_fields variable kind (string_bytes literal)) }
    {
        if !may_compare(kind, variable) || !is_literal(literal.as_bytes()) {
            return None;
        }
        if !may_stand(variable, literal.as_str()) {
            return None;
        }
        Some(Atom {
            variable,
            kind,
            literal,
        })
    }

    /// The order of atoms: by variable, then by kind, then by the literal's bytes.
    pub fn cmp(&self, other: &Atom) -> Ordering
        ensures { result ≡ atom_cmp self.now other.now }
    {
        self.variable
            .number()
            .cmp(&other.variable.number())
            .then(self.kind.number().cmp(&other.kind.number()))
            .then(self.literal.as_str().cmp(other.literal.as_str()))
    }

    /// An equal atom.
    pub fn copy(&self, alloc: Global) -> Result<Atom, AllocError>
        ensures { IfOk result (λ a. a ≡ self.now) }
    {
        let literal = String::from_str(alloc, self.literal.as_str())?;
        Ok(Atom {
            variable: self.variable,
            kind: self.kind,
            literal,
        })
    }
}

// Whether a kind stands with a variable.
fn may_compare(kind: AtomKind, variable: Variable) -> bool
    ensures { result ≡ Atoms.may_compare kind variable }
{
    let version = matches!(variable, Variable::ImplementationVersion);
    match kind {
        AtomKind::Contains => true,
        AtomKind::Within | AtomKind::Below | AtomKind::AtMost => variable.is_text() || version,
        AtomKind::Same => version,
    }
}

/// Whether a literal may stand beside a variable: beside `extras` a name in its normal form. It takes no memory.
pub fn may_stand(variable: Variable, literal: &str) -> bool
    ensures { result ≡ Atoms.may_stand variable literal.now }
{
    !variable.is_extras() || is_normal_name(literal)
}

// Whether a text is a name in its normal form.
#[tactic(auto, unfolding(crate::specs::Atoms::is_normal_name))]
fn is_normal_name(text: &str) -> bool
    ensures { result ≡ Atoms.is_normal_name text.now }
{
    is_name(text) && is_normal(text.as_bytes())
}

// Whether a text has neither capital letters nor another separator than single hyphens, so that it is its own normal
// form.
fn is_normal(text: &[u8]) -> bool
    ensures { result ≡ bytes_eq (normal_form text.now) text.now }
{
    let mut hyphen = false;
    for byte in text {
        let byte = *byte;
        if byte == b'.' || byte == b'_' || byte.is_ascii_uppercase() {
            return false;
        }
        if byte == b'-' && hyphen {
            return false;
        }
        hyphen = byte == b'-';
    }
    true
}

/// Whether a text can stand in a literal: printable ASCII without the backslash, and not with both quotes.
pub fn is_literal(text: &[u8]) -> bool
    ensures { result ≡ Atoms.is_literal text.now }
{
    has_literal_bytes(text) && !(has_byte(b'\'', text) && has_byte(b'"', text))
}

/// Whether a byte can stand in a literal: printable ASCII without the backslash.
pub fn is_literal_byte(byte: u8) -> bool
    ensures { result ≡ Atoms.is_literal_byte byte }
{
    32 <= byte && (byte <= 126 && byte != b'\\')
}

// Whether each byte of a text can stand in a literal.
fn has_literal_bytes(text: &[u8]) -> bool
    ensures { result ≡ list_all Atoms.is_literal_byte text.now }
{
    for byte in text {
        if !is_literal_byte(*byte) {
            return false;
        }
    }
    true
}

/// Whether a byte stands in a text.
pub(crate) fn has_byte(byte: u8, text: &[u8]) -> bool
    ensures { result ≡ Atoms.has_byte byte text.now }
{
    for other in text {
        if *other == byte {
            return true;
        }
    }
    false
}
