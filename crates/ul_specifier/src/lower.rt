//! The lower bounds of a specifier.

ghost use Rattle.std.specs.Prelude.{◌≡◌, All, IfOk};
ghost use Rattle.ul_version.specs.Fields.{without_local};
ghost use Rattle.ul_specifier.specs.Clauses.{IsClause};
ghost use Rattle.ul_specifier.specs.Laws.{IsWeaker};
ghost use Rattle.ul_specifier.specs.Meaning;
ghost use Rattle.ul_specifier.specs.Meaning.{lower_clause, lower_list};

use crate::{Clause, Op, Specifiers};
use std::alloc::{AllocError, Global};
use ul_version::Version;

impl Clause {
    /// An equal clause.
    pub fn copy(&self, alloc: Global) -> Result<Clause, AllocError>
        ensures { IfOk result (λ c. c ≡ self.now) }
    {
        let version = self.version.copy(alloc)?;
        Ok(Clause {
            op: self.op,
            version,
            prefix: self.prefix,
        })
    }
}

// `>=V` without V's local part.
fn at_least(alloc: Global, version: &Version) -> Result<Clause, AllocError>
    ensures { IfOk result (λ c. c ≡ Meaning.at_least (without_local version.now)) }
{
    let mut bound = version.copy(alloc)?;
    bound.local = Vec::new(alloc);
    Ok(Clause {
        op: Op::AtLeast,
        version: bound,
        prefix: false,
    })
}

// What a clause asks for as a lower bound.
fn lower_bound(alloc: Global, clause: &Clause) -> Result<Option<Clause>, AllocError>
    ensures { IfOk result (λ o. o ≡ lower_clause clause.now) }
{
    match clause.op {
        Op::AtLeast | Op::More => Ok(Some(clause.copy(alloc)?)),
        Op::Equal | Op::Compatible => Ok(Some(at_least(alloc, &clause.version)?)),
        Op::Unequal | Op::AtMost | Op::Less | Op::Distinct => Ok(None),
    }
}

impl Specifiers {
    /// The lower bounds of the clauses, in order.
    ///
    /// `>=V` and `>V` are themselves, `==V`, `==V.*` and `~=V` are `>=V` without V's local part, and the
    /// other clauses ask for nothing. Every plain version that meets the list meets its lower part.
    pub fn lower_part(&self, alloc: Global) -> Result<Specifiers, AllocError>
        ensures bounds { IfOk result (λ s. s ≡ lower_list self.now) }
        ensures valid { IfOk result (λ s. All IsClause s) }
        ensures weaker { IfOk result (λ s. IsWeaker self.now s) }
    {
        let mut clauses = Vec::new(alloc);
        for clause in &self.clauses {
            if let Some(bound) = lower_bound(alloc, clause)? {
                clauses.push(bound)?;
            }
        }
        Ok(Specifiers { clauses })
    }
}
