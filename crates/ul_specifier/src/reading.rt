//! Reading specifiers and clauses from their texts.

ghost use Rattle.std.specs.Prelude.{◌≡◌, ◌≤◌, ◌<◌, ◌+◌, All, IfErr, IfOk, IsTrue, Some, None, length, take, drop, ◌∷◌, []};
ghost use Rattle.std.specs.List.{list_all, slice_split};
ghost use Rattle.ul_version.specs.Reading as Versions;
ghost use Rattle.ul_specifier.specs.Clauses;
ghost use Rattle.ul_specifier.specs.Clauses.{IsClause};
ghost use Rattle.ul_specifier.specs.Reading as spec;
ghost use Rattle.ul_specifier.specs.Views.{clauses_view, operator_view, space, Reads};

use crate::local::has_local;
use crate::{Clause, Op, SpecFault, Specifiers};
use std::alloc::Global;
use ul_version::ascii::{
    Blank, ByteClass, Only, White, after_run, after_word, before_run, before_word, is_run,
    piece_len,
};
use ul_version::{Version, VersionFault};

// Stands between two clauses.
const COMMA: Only = Only { byte: b',' };

/// The text without the white space in front of it.
///
/// White space is space and tab where `inside`, as inside a text, and else each byte of ASCII that is white
/// space (space, and 9 to 13), as at the ends of a text.
pub fn after_space(input: &[u8], inside: bool) -> &[u8]
    ensures { result.now ≡ spec.after_all (space inside) input.now }
{
    if inside {
        after_run(&Blank, input)
    } else {
        after_run(&White, input)
    }
}

/// The text without the white space at its end, which is as for `after_space`.
pub fn before_space(input: &[u8], inside: bool) -> &[u8]
    ensures { result.now ≡ spec.before_all (space inside) input.now }
{
    if inside {
        before_run(&Blank, input)
    } else {
        before_run(&White, input)
    }
}

/// The longest operator that stands in front of a text, and the text after it.
///
/// `None` exactly where no operator of PEP 440 stands there; `===` isn't one here.
#[tactic(auto, unfolding(crate::specs::Reading::operator))]
pub fn operator(input: &[u8]) -> Option<(Op, &[u8])>
    ensures { operator_view result ≡ spec.operator input.now }
{
    if let Some(rest) = after_word(input, b"==") {
        return Some((Op::Equal, rest));
    }
    if let Some(rest) = after_word(input, b"!=") {
        return Some((Op::Unequal, rest));
    }
    if let Some(rest) = after_word(input, b">=") {
        return Some((Op::AtLeast, rest));
    }
    if let Some(rest) = after_word(input, b"<=") {
        return Some((Op::AtMost, rest));
    }
    if let Some(rest) = after_word(input, b"~=") {
        return Some((Op::Compatible, rest));
    }
    if let Some(rest) = after_word(input, b">") {
        return Some((Op::More, rest));
    }
    let rest = after_word(input, b"<")?;
    Some((Op::Less, rest))
}

/// The bytes that stand in a version's text: letters, digits and `- _ . * + !`.
#[derive(Clone, Copy, Drop)]
struct VersionByte;

impl ByteClass for VersionByte {
    ghost use Rattle.ul_specifier.specs.Reading.{is_version_byte};

    ghost has = { λ _ byte. is_version_byte byte };

    fn has(&self, byte: u8) -> bool {
        byte.is_ascii_alphanumeric()
            || (byte == b'-'
                || (byte == b'_'
                    || (byte == b'.' || (byte == b'*' || (byte == b'+' || byte == b'!')))))
    }
}

// The version that bytes spell.
fn version(alloc: Global, text: &[u8]) -> Result<Version, SpecFault>
    ensures { Reads (λ v. v) result (Versions.version_of text.now) }
{
    match Version::read_bytes(alloc, text) {
        Ok(version) => Ok(version),
        Err(VersionFault::NoReading) => Err(SpecFault::NoReading),
        Err(VersionFault::NoMemory) => Err(SpecFault::NoMemory),
    }
}

// What `.*` says with an operator: whether the clause asks for the front of a release.
fn star_of(op: Op) -> Option<bool>
    ensures { result ≡ spec.star_of op }
{
    match op {
        Op::Equal | Op::Unequal => Some(true),
        Op::AtLeast | Op::Less => Some(false),
        Op::AtMost | Op::More | Op::Compatible | Op::Distinct => None,
    }
}

// The clause of a version before `.*`.
#[tactic(auto, unfolding(crate::specs::Reading::star_clause))]
fn starred(op: Op, version: Version) -> Result<Clause, SpecFault>
    ensures { Reads (λ c. c) result (spec.star_clause op version) }
{
    let Some(prefix) = star_of(op) else {
        return Err(SpecFault::NoReading);
    };
    if !is_bare(&version) {
        return Err(SpecFault::NoReading);
    }
    Ok(Clause {
        op,
        version,
        prefix,
    })
}

// The clause of a version without `.*`.
#[tactic(auto, unfolding(crate::specs::Reading::plain_clause))]
fn unstarred(op: Op, version: Version) -> Result<Clause, SpecFault>
    ensures { Reads (λ c. c) result (spec.plain_clause op version) }
{
    if !may_stand(op, &version) {
        return Err(SpecFault::NoReading);
    }
    Ok(Clause {
        op,
        version,
        prefix: false,
    })
}

// Whether a version has an epoch and a release alone.
fn is_bare(version: &Version) -> bool
    ensures { result ≡ Clauses.is_bare version.now }
{
    !(version.pre.is_some()
        || (version.post.is_some() || (version.dev.is_some() || has_local(version))))
}

// Whether a version may stand with an operator without `.*`.
fn may_stand(op: Op, version: &Version) -> bool
    ensures { result ≡ spec.may_stand op version.now }
{
    match op {
        Op::Equal | Op::Unequal => true,
        Op::AtLeast | Op::AtMost | Op::More | Op::Less => !has_local(version),
        Op::Compatible => !has_local(version) && version.release.len() > 1,
        Op::Distinct => false,
    }
}

// The clause of an operator and the text after it.
#[tactic(auto, unfolding(crate::specs::Reading::clause_after))]
fn clause_after(alloc: Global, op: Op, text: &[u8]) -> Result<Clause, SpecFault>
    ensures { Reads (λ c. c) result (spec.clause_after op text.now) }
{
    if !is_run(&VersionByte, text) {
        return Err(SpecFault::NoReading);
    }
    match before_word(text, b".*") {
        Some(front) => starred(op, version(alloc, front)?),
        None => unstarred(op, version(alloc, text)?),
    }
}

// One clause of a list.
#[tactic(auto, unfolding(crate::specs::Reading::clause_of))]
fn clause(alloc: Global, text: &[u8]) -> Result<Clause, SpecFault>
    ensures { Reads (λ c. c) result (spec.clause_of text.now) }
{
    let Some((op, rest)) = operator(before_space(after_space(text, true), true)) else {
        return Err(SpecFault::NoReading);
    };
    clause_after(alloc, op, after_space(rest, true))
}

// The clauses of a list, between its commas.
fn clauses(alloc: Global, input: &[u8]) -> Result<Vec<Clause>, SpecFault>
    ensures { Reads clauses_view result (spec.clauses_of (spec.list_pieces (slice_split spec.is_comma input.now))) }
{
    let mut list = Vec::new(alloc);
    let mut rest = input;
    'pieces: while !rest.is_empty() {
        let n = piece_len(&COMMA, rest);
        let clause = clause(alloc, &rest[..n])?;
        list.push(clause)?;
        if n >= rest.len() {
            return Ok(list);
        }
        rest = &rest[n..][1..];
    }
    Ok(list)
}

impl Clause {
    /// The clause of an operator and the text of its version, by PEP 440's grammar.
    ///
    /// White space at both ends of the text is dropped. `.*` may follow a version that has an epoch and a
    /// release alone, with `==` and `!=`; with `>=` and `<` it is read and dropped, where PEP 440 has no
    /// `.*`. A local part may stand with `==` and `!=` alone, without `.*`, and `~=` needs two release
    /// numbers. No text has an exclusion. `NoReading` is the answer exactly where the text has no reading.
    #[tactic(auto, unfolding(crate::specs::Reading::clause_with))]
    pub fn read(alloc: Global, sign: Op, text: &str) -> Result<Clause, SpecFault>
        ensures read { IfOk result (λ c. spec.clause_with sign text.now ≡ Some c) }
        ensures valid { IfOk result IsClause }
        ensures no_reading { IfErr result (λ e. e ≡ SpecFault.NoReading → spec.clause_with sign text.now ≡ None) }
    {
        clause_after(
            alloc,
            sign,
            before_space(after_space(text.as_bytes(), false), false),
        )
    }
}

impl Specifiers {
    /// The specifier that a text spells, by PEP 440's grammar.
    ///
    /// Clauses are separated by commas, one comma may follow the last, and the empty text has no clause.
    /// Space and tab may stand around clauses and between an operator and its version, and white space at
    /// both ends of the text is dropped. Each clause is read as `Clause::read` does, and `===` isn't an
    /// operator. `NoReading` is the answer exactly where the text has no reading.
    #[tactic(auto, unfolding(crate::specs::Reading::specifiers_of))]
    pub fn read(alloc: Global, text: &str) -> Result<Specifiers, SpecFault>
        ensures read { IfOk result (λ s. spec.specifiers_of text.now ≡ Some s) }
        ensures valid { IfOk result (λ s. All IsClause s) }
        ensures no_reading { IfErr result (λ e. e ≡ SpecFault.NoReading → spec.specifiers_of text.now ≡ None) }
    {
        let clauses = clauses(
            alloc,
            before_space(after_space(text.as_bytes(), false), false),
        )?;
        Ok(Specifiers { clauses })
    }
}
