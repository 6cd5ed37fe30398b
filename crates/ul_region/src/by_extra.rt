//! Requirements of a list that may be true at a node.
ghost use Rattle.std.specs.Prelude.{◌≡◌, ◌++◌, ◌∷◌, [], IfOk, OnOk, cond};
ghost use Rattle.std.specs.List.Sorted.{IsNonDecreasing};
ghost use Rattle.ul_requirement.specs.Truth.{may_apply};
ghost use Rattle.ul_region.specs.Numbers.{fields_in};
ghost use Rattle.ul_region.specs.Extras.{HaveAll};
ghost use Rattle.ul_region.specs.Rows.{asked_at};

use crate::extra_index::ExtraIndex;
use std::alloc::{AllocError, Global};
use std::marker::Model;
use ul_base::Node;
use ul_requirement::Requirement;

// From how many extras on requirements are found by them: an index costs as much as some looks at all of them.
const MANY: usize = 4;

/// Requirements, with an index of those that name each extra where they are asked for at many extras. Contracts see them
/// as the requirements.
#[derive(Drop)]
pub struct ByExtra<'a> {
    requirements: &'a [Requirement],
    index: Option<ExtraIndex>,
}

impl<'a> Model for ByExtra<'a> {
    ghost use Rattle.std.specs.Prelude.{IfSome, List};
    ghost use Rattle.std.specs.Coded.{codes};
    ghost use Rattle.ul_comparison.specs.Codes.{formula_code};
    ghost use Rattle.ul_requirement.specs.Fields.{RequirementFields};
    ghost use Rattle.ul_region.specs.Extras.{IsExtraIndex};

    ghost Value = { List RequirementFields };

    ghost coded = { Prim.hlevel (codes, formula_code) };

    ghost view = { λ b. b.requirements.now };

    ghost invariant = { λ b. IfSome b.index (IsExtraIndex b.requirements.now) };
}

impl<'a> ByExtra<'a> {
    /// Requirements without an index: at each node all of them are looked at.
    pub fn plain(requirements: &'a [Requirement]) -> ByExtra<'a>
        ensures { result ≡ requirements.now }
    {
        ByExtra {
            requirements,
            index: None,
        }
    }

    /// Requirements that are asked for at so many extras: where these are many, with an index, and those alone are looked
    /// at that may be true there.
    ///
    /// # Errors
    ///
    /// Only for want of memory.
    pub fn of(
        alloc: Global,
        requirements: &'a [Requirement],
        extras: usize,
    ) -> Result<ByExtra<'a>, AllocError>
        ensures { IfOk result (λ b. b ≡ requirements.now) }
    {
        if extras < MANY {
            return Ok(ByExtra::plain(requirements));
        }
        let index = ExtraIndex::of(alloc, requirements)?;
        Ok(ByExtra {
            requirements,
            index: Some(index),
        })
    }

    /// Those of the requirements that may be true at a node, in order.
    ///
    /// # Errors
    ///
    /// Only for want of memory.
    pub fn at(&self, alloc: Global, node: &Node) -> Result<Vec<&'a Requirement>, AllocError>
        ensures { IfOk result (λ v. fields_in v.items ≡ asked_at node.now self.now) }
    {
        let requirements: &'a [Requirement] = self.requirements;
        if let Some(index) = &self.index {
            if let Some(extra) = &node.extra {
                let places = index.candidates(alloc, extra.text())?;
                let kept = kept_among(alloc, node, requirements, places.as_slice())?;
                return Ok(kept);
            }
        }
        kept_of(alloc, node, requirements)
    }
}

// Adds a requirement, if it may be true at a node.
fn put_kept<'a>(
    kept: &mut Vec<&'a Requirement>,
    node: &Node,
    requirement: &'a Requirement,
) -> Result<(), AllocError>
    ensures { OnOk result (fields_in kept.new.items
        ≡ fields_in kept.old.items ++ cond (may_apply requirement.now node.now) (requirement.now ∷ []) []) }
{
    if requirement.may_apply(node) {
        kept.push(requirement)?;
    }
    Ok(())
}

// Those of requirements that may be true at a node, in order.
fn kept_of<'a>(
    alloc: Global,
    node: &Node,
    requirements: &'a [Requirement],
) -> Result<Vec<&'a Requirement>, AllocError>
    ensures { IfOk result (λ v. fields_in v.items ≡ asked_at node.now requirements.now) }
{
    let mut kept = Vec::new(alloc);
    for requirement in requirements {
        put_kept(&mut kept, node, requirement)?;
    }
    Ok(kept)
}

// Those of requirements that may be true at a node, in order, all of which stand at places that don't fall.
fn kept_among<'a>(
    alloc: Global,
    node: &Node,
    requirements: &'a [Requirement],
    places: &[usize],
) -> Result<Vec<&'a Requirement>, AllocError>
    requires rising { IsNonDecreasing places.now }
    requires all { HaveAll requirements.now node.now places.now }
    ensures { IfOk result (λ v. fields_in v.items ≡ asked_at node.now requirements.now) }
{
    let mut kept = Vec::new(alloc);
    let mut from = 0;
    for place in places {
        let place = *place;
        if place >= from && place < requirements.len() {
            put_kept(&mut kept, node, &requirements[place])?;
            from = place + 1;
        }
    }
    Ok(kept)
}
