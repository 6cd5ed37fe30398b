//! Reading markers from their texts.

ghost use Rattle.std.specs.Prelude.{◌≡◌, ◌≤◌, ◌<◌, ◌+◌, ◌^◌, [], ◌∷◌, Some, None, IfErr, IfOk, length, map, take, drop};
ghost use Rattle.ul_comparison.specs.Formulas.{IsFormula};
ghost use Rattle.ul_marker.specs.Reading as spec;
ghost use Rattle.ul_marker.specs.Readers.{optional_tokens, Reads};
ghost use Rattle.ul_marker.specs.Views.{marker_view};

use crate::comparison::comparison;
use crate::words::{Dialect, MAX_DEPTH, Token, has_unread, opened, tokens};
use crate::{Marker, MarkerFault};
use std::alloc::Global;
use ul_base::owned::with_one;
use ul_specifier::{after_space, before_space};

/// How parts are joined: by `and`, or by `or`.
#[derive(Clone, Copy)]
pub enum Chain {
    Conjunction,
    Disjunction,
}

// How many tokens stand before the first joining one that stands in no parentheses, or in all.
fn part_len(tokens: &[Token], kind: Chain) -> usize
    ensures fits { result ≤ length tokens.now }
    ensures last { length tokens.now ≤ result → spec.pieces_from kind 0 tokens.now ≡ tokens.now ∷ [] }
    ensures more { result < length tokens.now → spec.pieces_from kind 0 tokens.now
        ≡ take result tokens.now ∷ spec.pieces_from kind 0 (drop (result + 1) tokens.now) }
{
    let mut count: usize = 0;
    for i in 0..tokens.len() {
        let token = &tokens[i];
        if cuts(token, count, kind) {
            return i;
        }
        count = opened(token, count);
    }
    tokens.len()
}

// Whether a token stands between two parts, where so many parentheses are open.
fn cuts(token: &Token, count: usize, kind: Chain) -> bool
    ensures { result ≡ spec.cuts kind count token.now }
{
    if count > 0 {
        return false;
    }
    match kind {
        Chain::Conjunction => matches!(token, Token::And),
        Chain::Disjunction => matches!(token, Token::Or),
    }
}

fn is_open(token: &Token) -> bool
    ensures { result ≡ spec.is_open token.now }
{
    matches!(token, Token::Open)
}

fn is_close(token: &Token) -> bool
    ensures { result ≡ spec.is_close token.now }
{
    matches!(token, Token::Close)
}

// The tokens between a parenthesis in front and one at the end.
fn enclosed(tokens: &[Token]) -> Option<&[Token]>
    ensures { optional_tokens result ≡ spec.inner_tokens tokens.now }
{
    match tokens {
        [first, inner @ .., last] => {
            if !is_open(first) {
                return None;
            }
            if !is_close(last) {
                return None;
            }
            Some(inner)
        }
        _ => None,
    }
}

// One part is itself, two or more are joined.
fn joined(mut parts: Vec<Marker>, kind: Chain) -> Marker
    requires { 0 < length parts.items }
    ensures { marker_view result ≡ spec.chain_formula kind (map marker_view parts.items) }
{
    if parts.len() == 1 {
        if let Some(only) = parts.pop() {
            return only;
        }
    }
    match kind {
        Chain::Conjunction => Marker::All(parts),
        Chain::Disjunction => Marker::Any(parts),
    }
}

// A conjunction or a marker whose parentheses nest so deep at most.
#[cycle(reading)]
fn read_chain(
    alloc: Global,
    tokens: &[Token],
    depth: u8,
    kind: Chain,
) -> Result<Marker, MarkerFault>
    ensures { Reads marker_view result (spec.chain_at kind depth tokens.now) }
{
    let mut parts = Vec::new(alloc);
    let mut rest = tokens;
    'parts: loop {
        let (front, back) = rest.split_at(part_len(rest, kind));
        let part = read_part(alloc, front, depth, kind)?;
        parts = with_one(parts, part)?;
        let [_, others @ ..] = back else {
            return Ok(joined(parts, kind));
        };
        rest = others;
    }
}

// An atom of a conjunction, or a conjunction of a marker.
#[cycle(reading)]
#[tactic(auto, unfolding(crate::specs::Reading::part_at, crate::specs::Reading::chain_at))]
fn read_part(alloc: Global, tokens: &[Token], depth: u8, kind: Chain) -> Result<Marker, MarkerFault>
    ensures { Reads marker_view result (spec.part_at kind depth tokens.now) }
{
    match kind {
        Chain::Conjunction => read_atom(alloc, tokens, depth),
        Chain::Disjunction => read_chain(alloc, tokens, depth, Chain::Conjunction),
    }
}

// A marker in parentheses, or a comparison.
#[cycle(reading)]
fn read_atom(alloc: Global, tokens: &[Token], depth: u8) -> Result<Marker, MarkerFault>
    ensures { Reads marker_view result (spec.atom_at depth tokens.now) }
{
    let Some(inner) = enclosed(tokens) else {
        return comparison(alloc, tokens);
    };
    if depth == 0 {
        return Err(MarkerFault::NoReading);
    }
    read_chain(alloc, inner, depth - 1, Chain::Disjunction)
}

impl Marker {
    /// The marker that a text spells, by the grammar of PEP 508 ("Environment Markers").
    ///
    /// Words are in lower case, and variables may have the older spellings `os.name`, `sys.platform`,
    /// `platform.version`, `platform.machine`, `platform.python_implementation` and
    /// `python_implementation`. Space and tab may stand between tokens, and white space at both ends of the
    /// text is dropped. `and` binds closer than `or`, and parentheses nest at most 64 deep. A literal is
    /// printable ASCII without the backslash.
    ///
    /// A comparison has one variable and one literal, on either side, and a sign with the literal on its
    /// left says the same as the mirrored sign. With `extra` stand `==` and `!=` alone. The versions of
    /// Python are compared with a version by any sign of PEP 440 but `===`, `~=` not mirrored, and may be
    /// `in` a list of versions between spaces and commas. Any other variable stands with each sign but
    /// `~=`, and may be `in` a literal; a literal may be `in` any variable but `extra`. `NoReading` is the
    /// answer exactly where the text has no reading.
    #[tactic(auto, unfolding(crate::specs::Reading::marker_of))]
    pub fn read(alloc: Global, text: &str) -> Result<Marker, MarkerFault>
        ensures read { IfOk result (λ m. spec.marker_of text.now ≡ Some (marker_view m)) }
        ensures valid { IfOk result (λ m. IsFormula (marker_view m)) }
        ensures no_reading { IfErr result (λ e. e ≡ MarkerFault.NoReading → spec.marker_of text.now ≡ None) }
    {
        read_dialect(alloc, text, Dialect::Document)
    }

    /// The marker that a text spells in a lock, by the grammar of `read` but for the variables `extra` and `extras`.
    ///
    /// `extra` has no reading, and `'NAME' in extras` and `'NAME' not in extras` have one, NAME a name in its normal
    /// form (PEP 751, "Dependency specifiers"). Nothing else is asked of `extras`.
    #[tactic(auto, unfolding(crate::specs::Reading::locked_marker_of))]
    pub fn read_locked(alloc: Global, text: &str) -> Result<Marker, MarkerFault>
        ensures read { IfOk result (λ m. spec.locked_marker_of text.now ≡ Some (marker_view m)) }
        ensures valid { IfOk result (λ m. IsFormula (marker_view m)) }
        ensures no_reading { IfErr result (λ e. e ≡ MarkerFault.NoReading → spec.locked_marker_of text.now ≡ None) }
    {
        read_dialect(alloc, text, Dialect::Lock)
    }

    /// The marker that a printed text spells, which may have both `extra` and `extras`.
    #[tactic(auto, unfolding(crate::specs::Reading::printed_marker_of))]
    pub fn read_printed(alloc: Global, text: &str) -> Result<Marker, MarkerFault>
        ensures read { IfOk result (λ m. spec.printed_marker_of text.now ≡ Some (marker_view m)) }
        ensures valid { IfOk result (λ m. IsFormula (marker_view m)) }
        ensures no_reading { IfErr result (λ e. e ≡ MarkerFault.NoReading → spec.printed_marker_of text.now ≡ None) }
    {
        read_dialect(alloc, text, Dialect::Printed)
    }
}

// The marker that a text spells in a dialect.
fn read_dialect(alloc: Global, text: &str, dialect: Dialect) -> Result<Marker, MarkerFault>
    ensures read { IfOk result (λ m. spec.formula_of dialect text.now ≡ Some (marker_view m)) }
    ensures valid { IfOk result (λ m. IsFormula (marker_view m)) }
    ensures no_reading { IfErr result (λ e. e ≡ MarkerFault.NoReading → spec.formula_of dialect text.now ≡ None) }
{
    let tokens = tokens(
        alloc,
        before_space(after_space(text.as_bytes(), false), false),
    )?;
    if has_unread(tokens.as_slice(), dialect) {
        return Err(MarkerFault::NoReading);
    }
    read_chain(alloc, tokens.as_slice(), MAX_DEPTH, Chain::Disjunction)
}
