//! The levels of trees, and the keys of their branches.
ghost use Rattle.std.specs.Prelude.{◌≡◌, ◌∷◌, []};
ghost use Rattle.ul_nodes.specs.Plain.{text_cmp, carries};
ghost use Rattle.ul_nodes.specs.Keys.{level_view, level_rank, level_rest, key_view};

use std::cmp::Ordering;
use ul_comparison::{Atom, Variable};

/// A level of trees: what a node's parts depend on. Contracts see it as a list of numbers, `level_view`.
#[derive(Clone, Copy)]
pub enum Level<'a> {
    Extra,
    Python,
    Text(Variable),
    Opaque(&'a Atom),
}

/// A key of a node's branch: a text, the number of an interpreter, or that an opaque comparison holds.
/// Contracts see it as a list of numbers, `key_view`.
#[derive(Clone, Copy)]
pub enum Key<'a> {
    Literal(&'a str),
    Number(u128),
    Holds,
}

impl<'a> Level<'a> {
    // The first number of the level.
    fn rank(self) -> usize
        ensures { result ≡ level_rank self.entry }
    {
        match self {
            Level::Extra => 0,
            Level::Python => 1,
            Level::Text(variable) => 2 + variable.text_number(),
            Level::Opaque(_) => 10,
        }
    }

    // The order of the numbers after the first, which opaque comparisons alone have.
    fn cmp_rest(self, other: Level<'_>) -> Ordering
        ensures { result ≡ text_cmp (level_rest self.entry) (level_rest other.entry) }
    {
        match self {
            Level::Opaque(atom) => match other {
                Level::Opaque(found) => atom.cmp(found),
                Level::Extra | Level::Python | Level::Text(_) => Ordering::Greater,
            },
            Level::Extra | Level::Python | Level::Text(_) => match other {
                Level::Opaque(_) => Ordering::Less,
                Level::Extra | Level::Python | Level::Text(_) => Ordering::Equal,
            },
        }
    }

    /// The order of levels.
    pub fn cmp(self, other: Level<'_>) -> Ordering
        ensures { result ≡ text_cmp (level_view self.entry) (level_view other.entry) }
    {
        self.rank().cmp(&other.rank()).then(self.cmp_rest(other))
    }

    /// Whether a branch of this level reaches up to the next, as the pieces of the interpreter do.
    pub fn is_carried(self) -> bool
        ensures { result ≡ carries (level_view self.entry) }
    {
        match self {
            Level::Python => true,
            Level::Extra => false,
            Level::Text(_) => false,
            Level::Opaque(_) => false,
        }
    }
}

impl<'a> Key<'a> {
    /// The order of keys.
    pub fn cmp(self, other: Key<'_>) -> Ordering
        ensures { result ≡ text_cmp (key_view self.entry) (key_view other.entry) }
    {
        match self {
            Key::Literal(text) => match other {
                Key::Literal(found) => text.cmp(found),
                Key::Number(number) => cmp_text_number(text, number),
                Key::Holds => cmp_text_number(text, 1),
            },
            Key::Number(number) => cmp_number(number, other),
            Key::Holds => cmp_number(1, other),
        }
    }
}

// The order of a number and a key.
fn cmp_number(number: u128, other: Key<'_>) -> Ordering
    ensures { result ≡ text_cmp (number ∷ []) (key_view other.entry) }
{
    match other {
        Key::Literal(text) => cmp_text_number(text, number).reverse(),
        Key::Number(found) => number.cmp(&found),
        Key::Holds => number.cmp(&1),
    }
}

// The order of a text, as a list of bytes, and a number.
fn cmp_text_number(text: &str, number: u128) -> Ordering
    ensures { result ≡ text_cmp text.now (number ∷ []) }
{
    match text.as_bytes() {
        [] => Ordering::Less,
        [first, rest @ ..] => u128::from(*first).cmp(&number).then(if rest.is_empty() {
            Ordering::Equal
        } else {
            Ordering::Greater
        }),
    }
}
