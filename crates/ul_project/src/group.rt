//! Dependency groups (PEP 735).

use std::marker::Model;
use ul_base::Name;
use ul_requirement::Requirement;

/// An entry of a dependency group.
#[derive(Drop)]
pub enum GroupEntry {
    /// A requirement.
    Needs(Requirement),
    /// The entries of another group.
    Include(Name),
}

/// A dependency group, under the normal form of its name.
///
/// Contracts see it as the record `GroupFields`.
#[derive(Drop)]
pub struct Group {
    pub name: Name,
    pub entries: Vec<GroupEntry>,
}

impl Model for Group {
    ghost use Rattle.std.specs.Coded.{codes};
    ghost use Rattle.ul_comparison.specs.Codes.{formula_code};
    ghost use Rattle.ul_project.specs.Groups.{GroupFields};

    ghost Value = { GroupFields };

    ghost coded = { Prim.hlevel (codes, formula_code) };

    ghost view = { λ g. record { name = g.name; entries = g.entries.items } };
}
