//! The printed comparison that says what a marker says.
ghost use Rattle.std.specs.Prelude.{◌≡◌, ◌≢◌, ◌∷◌, [], Bool, IfSome, None};
ghost use Rattle.ul_comparison.specs.Formulas.{python};
ghost use Rattle.ul_comparison.specs.Printed as spec;
ghost use Rattle.ul_comparison.specs.Printed.{comparison_formula};
ghost use Rattle.ul_marker.specs.PrintedViews.{IsNoComparison, IsNoInterpreter, comparison_view, is_plain};
ghost use Rattle.ul_marker.specs.Views.{marker_view};
ghost use Rattle.ul_version.specs.Fields.{plain};

use crate::{Atom, Marker, Variable};
pub use ul_comparison::printed::{push_atom, push_bound, push_extra, push_quoted, push_text};
use ul_specifier::{Clause, Op};
use ul_version::Version;

/// A comparison as it is printed.
#[derive(Clone, Copy)]
pub enum Comparison<'a> {
    /// `python_full_version` is at least an interpreter, or else below it.
    Bound {
        lower: bool,
        python: (u32, u32, u32),
    },
    /// The extra equals a literal, or doesn't.
    Extra {
        literal: &'a str,
        equal: bool,
    },
    /// A text variable equals a literal, or doesn't.
    Text {
        variable: Variable,
        literal: &'a str,
        equal: bool,
    },
    /// An opaque comparison holds, or fails.
    Opaque {
        atom: &'a Atom,
        holds: bool,
    },
}

/// The printed comparison that says what a marker says.
///
/// `None` exactly where there is none: where the marker is joined of others or a list of versions, or compares a
/// version of Python otherwise than `python_full_version` with three numbers by `>=` or `<`. It takes no memory.
pub fn printed_comparison(marker: &Marker) -> Option<Comparison<'_>>
    ensures found { IfSome result (λ c. comparison_formula (comparison_view c) ≡ marker_view marker.now) }
    ensures none { result ≡ None → IsNoComparison (marker_view marker.now) }
{
    match marker {
        Marker::Extra { literal, equal } => Some(Comparison::Extra {
            literal: literal.as_str(),
            equal: *equal,
        }),
        Marker::Text {
            variable,
            literal,
            equal,
        } => Some(Comparison::Text {
            variable: *variable,
            literal: literal.as_str(),
            equal: *equal,
        }),
        Marker::Opaque { atom, positive } => Some(Comparison::Opaque {
            atom,
            holds: *positive,
        }),
        Marker::Python { full, clause } => python_comparison(*full, clause),
        Marker::PythonList { .. } | Marker::All(_) | Marker::Any(_) => None,
    }
}

// The printed comparison that says what a clause says of a version of Python.
fn python_comparison(full: bool, clause: &Clause) -> Option<Comparison<'static>>
    ensures found { IfSome result (λ c. comparison_formula (comparison_view c) ≡ python full clause.now) }
    ensures none { result ≡ None → IsNoComparison (python full clause.now) }
{
    if !full || clause.prefix {
        return None;
    }
    let lower = is_lower(clause.op)?;
    let python = interpreter(&clause.version)?;
    Some(Comparison::Bound { lower, python })
}

// Whether an operator is `>=`, or else `<`.
fn is_lower(op: Op) -> Option<bool>
    ensures found { IfSome result (λ lower. spec.bound_op lower ≡ op) }
    ensures none { result ≡ None → (lower : Bool) → spec.bound_op lower ≢ op }
{
    match op {
        Op::AtLeast => Some(true),
        Op::Less => Some(false),
        Op::Equal | Op::Unequal | Op::AtMost | Op::More | Op::Compatible | Op::Distinct => None,
    }
}

// The interpreter that a version is: three numbers below 2^32 and nothing else.
fn interpreter(version: &Version) -> Option<(u32, u32, u32)>
    ensures found { IfSome result (λ p. version.now ≡ plain (p.0 ∷ p.1 ∷ p.2 ∷ [])) }
    ensures none { result ≡ None → IsNoInterpreter version.now }
{
    if !is_plain(version) {
        return None;
    }
    let [major, minor, patch] = version.release.as_slice() else {
        return None;
    };
    let major = u32::try_from(*major).ok()?;
    let minor = u32::try_from(*minor).ok()?;
    let patch = u32::try_from(*patch).ok()?;
    Some((major, minor, patch))
}

// Whether a version has a release alone.
fn is_plain(version: &Version) -> bool
    ensures { result ≡ is_plain version.now }
{
    version.epoch == 0
        && version.pre.is_none()
        && version.post.is_none()
        && version.dev.is_none()
        && version.local.as_slice().is_empty()
}
