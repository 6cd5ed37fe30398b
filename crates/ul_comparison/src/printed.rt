//! Comparisons as they are printed: a variable, a sign and a literal in quotes, with one space on each side of the sign
//! (PEP 508, "Environment Markers").
ghost use Rattle.std.specs.Prelude.{◌≡◌, ◌++◌, ◌∷◌, [], OnOk, string_bytes};
ghost use Rattle.ul_comparison.specs.Printed as spec;
ghost use Rattle.ul_comparison.specs.Printed.{IsWritten, atom_is, bound, extra_is, quoted_text, text_is};

use crate::atom::has_byte;
use crate::{Atom, AtomKind, Variable};
use std::alloc::AllocError;
use std::fmt::Write;

/// Writes that `python_full_version` is at least an interpreter, or below it.
#[tactic(auto, unfolding(crate::specs::Printed::comparison_text))]
pub fn push_bound(out: &mut String, lower: bool, python: (u32, u32, u32)) -> Result<(), AllocError>
    ensures { OnOk result (IsWritten (string_bytes out.old)
        (bound lower python.0 python.1 python.2) (string_bytes out.new)) }
{
    push_pair(out, Variable::PythonFullVersion.name(), bound_sign(lower))?;
    push_quoted_interpreter(out, python)
}

/// Writes that the extra equals a literal, or doesn't.
#[tactic(auto, unfolding(crate::specs::Printed::comparison_text))]
pub fn push_extra(out: &mut String, literal: &str, equal: bool) -> Result<(), AllocError>
    ensures { OnOk result (IsWritten (string_bytes out.old) (extra_is literal.now equal) (string_bytes out.new)) }
{
    push_compared(out, "extra", equality_sign(equal), literal)
}

/// Writes that a text variable equals a literal, or doesn't.
#[tactic(auto, unfolding(crate::specs::Printed::comparison_text))]
pub fn push_text(
    out: &mut String,
    variable: Variable,
    literal: &str,
    equal: bool,
) -> Result<(), AllocError>
    ensures { OnOk result (IsWritten (string_bytes out.old)
        (text_is variable literal.now equal) (string_bytes out.new)) }
{
    push_compared(out, variable.name(), equality_sign(equal), literal)
}

/// Writes that an opaque comparison holds, or fails.
#[tactic(auto, unfolding(crate::specs::Printed::comparison_text, crate::specs::Printed::atom_text))]
pub fn push_atom(out: &mut String, atom: &Atom, holds: bool) -> Result<(), AllocError>
    ensures { OnOk result (IsWritten (string_bytes out.old) (atom_is atom.now holds) (string_bytes out.new)) }
{
    let literal = atom.literal.as_str();
    let name = atom.variable.name();
    match atom.kind {
        AtomKind::Contains => {
            push_quoted(out, literal)?;
            push_pair(out, in_sign(holds), name)
        }
        AtomKind::Within | AtomKind::Below | AtomKind::AtMost | AtomKind::Same => {
            push_compared(out, name, kind_sign(atom.kind, holds), literal)
        }
    }
}

// Writes a name, a sign and a literal between quotes.
fn push_compared(out: &mut String, name: &str, sign: &str, literal: &str) -> Result<(), AllocError>
    ensures { OnOk result (string_bytes out.new
        ≡ string_bytes out.old ++ (name.now ++ (sign.now ++ quoted_text literal.now))) }
{
    push_pair(out, name, sign)?;
    push_quoted(out, literal)
}

// Writes two texts.
fn push_pair(out: &mut String, first: &str, second: &str) -> Result<(), AllocError>
    ensures { OnOk result (string_bytes out.new ≡ string_bytes out.old ++ (first.now ++ second.now)) }
{
    out.push_str(first)?;
    out.push_str(second)?;
    Ok(())
}

/// Writes a literal between quotes: `"` where it holds `'`, else `'`.
pub fn push_quoted(out: &mut String, literal: &str) -> Result<(), AllocError>
    ensures { OnOk result (string_bytes out.new ≡ string_bytes out.old ++ quoted_text literal.now) }
{
    let quote = quote_of(literal.as_bytes());
    push_pair(out, quote, literal)?;
    out.push_str(quote)?;
    Ok(())
}

// The quote of a literal.
fn quote_of(literal: &[u8]) -> &'static str
    ensures { result.now ≡ spec.quote_of literal.now ∷ [] }
{
    if has_byte(b'\'', literal) { "\"" } else { "'" }
}

// Writes an interpreter's three numbers, joined by points, between quotes.
#[tactic(auto, unfolding(crate::specs::Printed::interpreter_text))]
fn push_quoted_interpreter(out: &mut String, python: (u32, u32, u32)) -> Result<(), AllocError>
    ensures { OnOk result (string_bytes out.new ≡ string_bytes out.old ++ quoted_text (spec.triple_text python)) }
{
    let (major, minor, patch) = python;
    match write!(out, "'{major}.{minor}.{patch}'") {
        Ok(()) => Ok(()),
        Err(_) => Err(AllocError),
    }
}

fn equality_sign(equal: bool) -> &'static str
    ensures { result.now ≡ spec.equality_sign equal }
{
    if equal { " == " } else { " != " }
}

fn in_sign(holds: bool) -> &'static str
    ensures { result.now ≡ spec.in_sign holds }
{
    if holds { " in " } else { " not in " }
}

fn bound_sign(lower: bool) -> &'static str
    ensures { result.now ≡ spec.bound_sign lower }
{
    if lower { " >= " } else { " < " }
}

// What stands between a variable and the literal of an opaque comparison that holds, or that fails.
fn kind_sign(kind: AtomKind, holds: bool) -> &'static str
    ensures { result.now ≡ spec.kind_sign kind holds }
{
    match (kind, holds) {
        (AtomKind::Contains | AtomKind::Within, _) => in_sign(holds),
        (AtomKind::Below, true) => " < ",
        (AtomKind::Below, false) => " >= ",
        (AtomKind::AtMost, true) => " <= ",
        (AtomKind::AtMost, false) => " > ",
        (AtomKind::Same, _) => equality_sign(holds),
    }
}
