//! The comparisons of markers.

ghost use Rattle.std.specs.Prelude.{◌≡◌, ◌≤◌, ◌<◌, ◌+◌, ◌||◌, [], ◌∷◌, IfErr, IfOk, None, Some, true, false, length, take, drop, string_bytes};
ghost use Rattle.std.specs.List.{list_all, slice_split};
ghost use Rattle.ul_comparison.specs.Atoms;
ghost use Rattle.ul_marker.specs.Comparisons as Grammar;
ghost use Rattle.ul_marker.specs.Readers.{added_piece, optional_bytes, versions_view, Reads};
ghost use Rattle.ul_marker.specs.Views.{marker_view};

use crate::words::{Literal, Token};
use crate::{Atom, AtomKind, Marker, MarkerFault, Variable};
use std::alloc::{AllocError, Global};
use ul_base::owned::made_from;
use ul_base::{Name, NameFault};
use ul_comparison::may_stand;
use ul_specifier::{Clause, Op, SpecFault};
use ul_version::ascii::{ByteClass, piece_len};
use ul_version::{Version, VersionFault};

// For a version of Python, whether it has all its numbers.
fn python_full(variable: Variable) -> Option<bool>
    ensures { result ≡ Grammar.python_full variable }
{
    match variable {
        Variable::PythonVersion => Some(false),
        Variable::PythonFullVersion => Some(true),
        Variable::OsName
        | Variable::SysPlatform
        | Variable::PlatformMachine
        | Variable::PlatformPythonImplementation
        | Variable::PlatformRelease
        | Variable::PlatformSystem
        | Variable::PlatformVersion
        | Variable::ImplementationName
        | Variable::ImplementationVersion
        | Variable::Extras => None,
    }
}

// The literal beside `extra`: where it is a name, its normal form.
#[tactic(auto, unfolding(crate::specs::Comparisons::extra_literal))]
fn extra_literal(alloc: Global, literal: &Literal) -> Result<String, AllocError>
    ensures { IfOk result (λ t. string_bytes t ≡ Grammar.extra_literal literal.now) }
{
    match Name::read(alloc, literal.as_str()) {
        Ok(name) => made_from(String::from_str(alloc, name.text()), name),
        Err(NameFault::NoReading) => String::from_str(alloc, literal.as_str()),
        Err(NameFault::NoMemory) => Err(AllocError),
    }
}

fn extra(alloc: Global, literal: &Literal, equal: bool) -> Result<Marker, MarkerFault>
    ensures { Reads marker_view result (Some (Grammar.extra_of literal.now equal)) }
{
    let literal = extra_literal(alloc, literal)?;
    Ok(Marker::Extra { literal, equal })
}

fn extra_sign(alloc: Global, op: Op, literal: &Literal) -> Result<Marker, MarkerFault>
    ensures { Reads marker_view result (Grammar.extra_sign op literal.now) }
{
    match op {
        Op::Equal => extra(alloc, literal, true),
        Op::Unequal => extra(alloc, literal, false),
        Op::AtLeast | Op::AtMost | Op::More | Op::Less | Op::Compatible | Op::Distinct => {
            Err(MarkerFault::NoReading)
        }
    }
}

// An opaque comparison, or its negation.
fn opaque(
    alloc: Global,
    variable: Variable,
    kind: AtomKind,
    literal: &Literal,
    positive: bool,
) -> Result<Marker, MarkerFault>
    requires compares { Atoms.may_compare kind variable ≡ true }
    requires stands { Atoms.may_stand variable literal.now ≡ true }
    ensures { Reads marker_view result (Some (Grammar.opaquely variable kind literal.now positive)) }
{
    let literal = String::from_str(alloc, literal.as_str())?;
    let atom = Atom {
        variable,
        kind,
        literal,
    };
    Ok(Marker::Opaque { atom, positive })
}

// A text variable or `implementation_version` equals a literal, or doesn't.
#[tactic(auto, using(crate::proofs::Compared::text_stands))]
fn equality(
    alloc: Global,
    variable: Variable,
    literal: &Literal,
    equal: bool,
) -> Result<Marker, MarkerFault>
    requires { (Atoms.is_text variable || Atoms.is_implementation_version variable) ≡ true }
    ensures { Reads marker_view result (Some (Grammar.equality variable literal.now equal)) }
{
    if variable.is_text() {
        let literal = String::from_str(alloc, literal.as_str())?;
        return Ok(Marker::Text {
            variable,
            literal,
            equal,
        });
    }
    opaque(alloc, variable, AtomKind::Same, literal, equal)
}

#[tactic(auto, using(crate::proofs::Compared::text_stands))]
fn text_sign(
    alloc: Global,
    variable: Variable,
    op: Op,
    literal: &Literal,
) -> Result<Marker, MarkerFault>
    requires { (Atoms.is_text variable || Atoms.is_implementation_version variable) ≡ true }
    ensures { Reads marker_view result (Grammar.text_sign variable op literal.now) }
{
    match op {
        Op::Equal => equality(alloc, variable, literal, true),
        Op::Unequal => equality(alloc, variable, literal, false),
        Op::Less => opaque(alloc, variable, AtomKind::Below, literal, true),
        Op::AtLeast => opaque(alloc, variable, AtomKind::Below, literal, false),
        Op::AtMost => opaque(alloc, variable, AtomKind::AtMost, literal, true),
        Op::More => opaque(alloc, variable, AtomKind::AtMost, literal, false),
        Op::Compatible | Op::Distinct => Err(MarkerFault::NoReading),
    }
}

// A variable, a sign and a literal.
#[tactic(auto, using(crate::proofs::Compared::not_python), unfolding(crate::specs::Comparisons::sign_formula))]
fn signed(alloc: Global, subject: &Token, op: Op, literal: &Literal) -> Result<Marker, MarkerFault>
    ensures { Reads marker_view result (Grammar.sign_formula subject.now op literal.now) }
{
    match subject {
        Token::Extra => extra_sign(alloc, op, literal),
        Token::Named(variable) => {
            if variable.is_extras() {
                return Err(MarkerFault::NoReading);
            }
            python_sign(alloc, *variable, op, literal)
        }
        Token::Open
        | Token::Close
        | Token::And
        | Token::Or
        | Token::In
        | Token::Not
        | Token::Sign(_)
        | Token::Literal(_) => Err(MarkerFault::NoReading),
    }
}

// A version of Python, or another variable, and a literal.
#[tactic(auto, using(crate::proofs::Compared::not_python))]
fn python_sign(
    alloc: Global,
    variable: Variable,
    op: Op,
    literal: &Literal,
) -> Result<Marker, MarkerFault>
    requires { Atoms.is_extras variable ≡ false }
    ensures { Reads marker_view result (Grammar.python_sign variable op literal.now (Grammar.python_full variable)) }
{
    match python_full(variable) {
        None => text_sign(alloc, variable, op, literal),
        Some(full) => match Clause::read(alloc, op, literal.as_str()) {
            Ok(clause) => Ok(Marker::Python { full, clause }),
            Err(SpecFault::NoReading) => Err(MarkerFault::NoReading),
            Err(SpecFault::NoMemory) => Err(MarkerFault::NoMemory),
        },
    }
}

// The sign that says the same with its sides exchanged.
fn mirrored(op: Op) -> Option<Op>
    ensures { result ≡ Grammar.mirror_sign op }
{
    match op {
        Op::Equal => Some(Op::Equal),
        Op::Unequal => Some(Op::Unequal),
        Op::AtLeast => Some(Op::AtMost),
        Op::AtMost => Some(Op::AtLeast),
        Op::More => Some(Op::Less),
        Op::Less => Some(Op::More),
        Op::Compatible | Op::Distinct => None,
    }
}

// The version of a piece of a list, which an empty piece hasn't.
fn add_version(alloc: Global, list: &mut Vec<Version>, piece: &[u8]) -> Result<(), MarkerFault>
    ensures added { IfOk result (λ u. added_piece list.old.items piece.now ≡ Some list.new.items) }
    ensures no_reading { IfErr result (λ e. e ≡ MarkerFault.NoReading → Grammar.versions_of (piece.now ∷ []) ≡ None) }
{
    if piece.is_empty() {
        return Ok(());
    }
    match Version::read_bytes(alloc, piece) {
        Ok(version) => {
            list.push(version)?;
            Ok(())
        }
        Err(VersionFault::NoReading) => Err(MarkerFault::NoReading),
        Err(VersionFault::NoMemory) => Err(MarkerFault::NoMemory),
    }
}

/// The bytes between the versions of a list: space and comma.
#[derive(Clone, Copy, Drop)]
struct BetweenVersions;

impl ByteClass for BetweenVersions {
    ghost use Rattle.ul_marker.specs.Comparisons.{parts_versions};

    ghost has = { λ _ byte. parts_versions byte };

    fn has(&self, byte: u8) -> bool {
        byte == b' ' || byte == b','
    }
}

// The versions of a list, between spaces and commas.
fn versions(alloc: Global, input: &[u8]) -> Result<Vec<Version>, MarkerFault>
    ensures { Reads versions_view result (Grammar.version_list input.now) }
{
    let mut list = Vec::new(alloc);
    let mut rest = input;
    'pieces: while !rest.is_empty() {
        let n = piece_len(&BetweenVersions, rest);
        add_version(alloc, &mut list, &rest[..n])?;
        if n >= rest.len() {
            return Ok(list);
        }
        rest = &rest[n..][1..];
    }
    Ok(list)
}

// A version of Python in a list of versions, or another variable in a literal.
#[tactic(auto, using(crate::proofs::Compared::not_python, crate::proofs::Compared::text_stands))]
fn python_within(
    alloc: Global,
    variable: Variable,
    literal: &Literal,
    positive: bool,
) -> Result<Marker, MarkerFault>
    requires { Atoms.is_extras variable ≡ false }
    ensures { Reads marker_view result (Grammar.variable_within variable literal.now positive) }
{
    match python_full(variable) {
        None => opaque(alloc, variable, AtomKind::Within, literal, positive),
        Some(full) => {
            let versions = versions(alloc, literal.as_str().as_bytes())?;
            Ok(Marker::PythonList {
                full,
                versions,
                within: positive,
            })
        }
    }
}

// A variable `in` a literal, or `not in` it.
#[tactic(auto, unfolding(crate::specs::Comparisons::within))]
fn within(
    alloc: Global,
    positive: bool,
    subject: &Token,
    literal: &Literal,
) -> Result<Marker, MarkerFault>
    ensures { Reads marker_view result (Grammar.within positive subject.now literal.now) }
{
    match subject {
        Token::Named(variable) => {
            if variable.is_extras() {
                return Err(MarkerFault::NoReading);
            }
            python_within(alloc, *variable, literal, positive)
        }
        Token::Open
        | Token::Close
        | Token::And
        | Token::Or
        | Token::In
        | Token::Not
        | Token::Extra
        | Token::Sign(_)
        | Token::Literal(_) => Err(MarkerFault::NoReading),
    }
}

// A literal `in` a variable, or `not in` it; in `extras` a name in its normal form.
#[tactic(auto, unfolding(crate::specs::Comparisons::containment))]
fn contained(
    alloc: Global,
    positive: bool,
    subject: &Token,
    literal: &Literal,
) -> Result<Marker, MarkerFault>
    ensures { Reads marker_view result (Grammar.containment positive subject.now literal.now) }
{
    match subject {
        Token::Named(variable) => {
            if !may_stand(*variable, literal.as_str()) {
                return Err(MarkerFault::NoReading);
            }
            opaque(alloc, *variable, AtomKind::Contains, literal, positive)
        }
        Token::Open
        | Token::Close
        | Token::And
        | Token::Or
        | Token::In
        | Token::Not
        | Token::Extra
        | Token::Sign(_)
        | Token::Literal(_) => Err(MarkerFault::NoReading),
    }
}

fn literal_of(token: &Token) -> Option<&Literal>
    ensures { optional_bytes result ≡ Grammar.literal_of token.now }
{
    match token {
        Token::Literal(literal) => Some(literal),
        Token::Open
        | Token::Close
        | Token::And
        | Token::Or
        | Token::In
        | Token::Not
        | Token::Extra
        | Token::Named(_)
        | Token::Sign(_) => None,
    }
}

// Two sides and a sign between them.
fn signed_sides(alloc: Global, left: &Token, op: Op, right: &Token) -> Result<Marker, MarkerFault>
    ensures { Reads marker_view result (Grammar.signed_sides left.now op right.now (Grammar.literal_of left.now)) }
{
    if let Some(literal) = literal_of(left) {
        let Some(sign) = mirrored(op) else {
            return Err(MarkerFault::NoReading);
        };
        return signed(alloc, right, sign, literal);
    }
    let Some(literal) = literal_of(right) else {
        return Err(MarkerFault::NoReading);
    };
    signed(alloc, left, op, literal)
}

// Two sides and `in` or `not in` between them.
fn in_sides(
    alloc: Global,
    positive: bool,
    left: &Token,
    right: &Token,
) -> Result<Marker, MarkerFault>
    ensures { Reads marker_view result (Grammar.in_sides positive left.now right.now (Grammar.literal_of left.now)) }
{
    if let Some(literal) = literal_of(left) {
        return contained(alloc, positive, right, literal);
    }
    let Some(literal) = literal_of(right) else {
        return Err(MarkerFault::NoReading);
    };
    within(alloc, positive, left, literal)
}

fn three(alloc: Global, left: &Token, middle: &Token, right: &Token) -> Result<Marker, MarkerFault>
    ensures { Reads marker_view result (Grammar.three left.now middle.now right.now) }
{
    match middle {
        Token::Sign(op) => signed_sides(alloc, left, *op, right),
        Token::In => in_sides(alloc, true, left, right),
        Token::Open
        | Token::Close
        | Token::And
        | Token::Or
        | Token::Not
        | Token::Extra
        | Token::Named(_)
        | Token::Literal(_) => Err(MarkerFault::NoReading),
    }
}

fn is_not_in(first: &Token, second: &Token) -> bool
    ensures { result ≡ Grammar.is_not_in first.now second.now }
{
    matches!(first, Token::Not) && matches!(second, Token::In)
}

// The comparison that tokens are.
#[tactic(auto, unfolding(crate::specs::Comparisons::comparison_of))]
pub fn comparison(alloc: Global, tokens: &[Token]) -> Result<Marker, MarkerFault>
    ensures { Reads marker_view result (Grammar.comparison_of tokens.now) }
{
    match tokens {
        [left, middle, right] => three(alloc, left, middle, right),
        [left, first, second, right] => {
            if !is_not_in(first, second) {
                return Err(MarkerFault::NoReading);
            }
            in_sides(alloc, false, left, right)
        }
        _ => Err(MarkerFault::NoReading),
    }
}
