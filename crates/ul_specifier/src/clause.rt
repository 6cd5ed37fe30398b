//! A specifier and its clauses.

use std::marker::Model;
use ul_version::Version;

/// The operator of a clause.
#[derive(Clone, Copy, PartialEq, Eq, Debug)]
pub enum Op {
    /// `==`
    Equal,
    /// `!=`
    Unequal,
    /// `>=`
    AtLeast,
    /// `<=`
    AtMost,
    /// `>`
    More,
    /// `<`
    Less,
    /// `~=`
    Compatible,
    /// Any version but this one, its local part counted: an exclusion, which no text spells. A project's
    /// sources exclude releases by it.
    Distinct,
}

/// One clause of a specifier: an operator and a version, and whether `.*` follows the version.
///
/// `.*` stands with `==` and `!=` after a version that has an epoch and a release alone, a local part
/// stands with `==`, `!=` and `Distinct` alone, and `~=` has at least two release numbers. Contracts see a
/// clause as the record `ClauseFields` of these parts.
#[derive(Drop)]
pub struct Clause {
    pub op: Op,
    pub version: Version,
    pub prefix: bool,
}

impl Model for Clause {
    ghost use Rattle.ul_specifier.specs.Clauses.{ClauseFields, IsClause};

    ghost Value = { ClauseFields };

    ghost view = { λ c. record { op = c.op; version = c.version; prefix = c.prefix } };

    ghost invariant = { λ c. IsClause (record { op = c.op; version = c.version; prefix = c.prefix }) };
}

/// A list of clauses, all of which a version has to meet.
///
/// Contracts see it as the list of its clauses.
#[derive(Drop)]
pub struct Specifiers {
    pub clauses: Vec<Clause>,
}

impl Model for Specifiers {
    ghost use Rattle.std.specs.Prelude.{All, List};
    ghost use Rattle.ul_specifier.specs.Clauses.{ClauseFields, IsClause};

    ghost Value = { List ClauseFields };

    ghost view = { λ s. s.clauses.items };

    ghost invariant = { λ s. All IsClause s.clauses.items };
}
