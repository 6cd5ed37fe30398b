//! Requirements in a map from their names.

ghost use Rattle.std.specs.Prelude.{◌≡◌, ◌++◌, ◌∷◌, ℕ, List, [], IfOk, OnOk, cond};
ghost use Rattle.std.specs.BTreeMap.{is_at};
ghost use Rattle.ul_base.specs.Names.{name_cmp};
ghost use Rattle.ul_groups.specs.Adjusted.{is_on};
ghost use Rattle.ul_groups.specs.NameLists.{HasEach, at_name};

use std::alloc::{AllocError, Global};
use std::collections::BTreeMap;
use std::marker::Model;
use ul_base::Name;
use ul_base::owned::{beside, with_made};
use ul_requirement::Requirement;

/// Requirements, which contracts see as their list.
#[derive(Drop)]
pub(crate) struct Requirements {
    pub(crate) list: Vec<Requirement>,
}

impl Model for Requirements {
    ghost use Rattle.std.specs.Coded.{codes};
    ghost use Rattle.std.specs.Prelude.{List};
    ghost use Rattle.ul_comparison.specs.Codes.{formula_code};
    ghost use Rattle.ul_requirement.specs.Fields.{RequirementFields};

    ghost Value = { List RequirementFields };

    ghost coded = { Prim.hlevel (codes, formula_code) };

    ghost view = { λ r. r.list.items };
}

// What a map had at a name, taken out.
#[tactic(auto, using(crate::proofs::NameLists::listed_at))]
fn taken(alloc: Global, lists: &mut BTreeMap<Name, Requirements>, name: &Name) -> Vec<Requirement>
    ensures list { result.items ≡ at_name lists.old.entries name.now }
    ensures others { (other : List ℕ) → at_name lists.new.entries other
        ≡ cond (is_at (name_cmp name.now) other) [] (at_name lists.old.entries other) }
{
    match lists.remove(name) {
        Some(found) => found.list,
        None => Vec::new(alloc),
    }
}

// Puts a list at a name.
#[tactic(auto, using(crate::proofs::NameLists::listed_at))]
fn put(
    lists: &mut BTreeMap<Name, Requirements>,
    name: Name,
    list: Vec<Requirement>,
) -> Result<(), AllocError>
    ensures { OnOk result ((other : List ℕ) → at_name lists.new.entries other
        ≡ cond (is_at (name_cmp name) other) list.items (at_name lists.old.entries other)) }
{
    drop(lists.insert(name, Requirements { list })?);
    Ok(())
}

// Adds a requirement behind those that are on its name.
fn add(
    alloc: Global,
    lists: &mut BTreeMap<Name, Requirements>,
    requirement: &Requirement,
) -> Result<(), AllocError>
    ensures { OnOk result ((other : List ℕ) → at_name lists.new.entries other ≡ cond (is_on other requirement.now)
        (at_name lists.old.entries other ++ requirement.now ∷ []) (at_name lists.old.entries other)) }
{
    let name: &Name = &requirement.name;
    let list = with_made(taken(alloc, lists, name), requirement.copy(alloc))?;
    let (list, name) = beside(list, name.copy(alloc))?;
    put(lists, name, list)?;
    Ok(())
}

/// A map from names to the requirements on them, in order.
pub(crate) fn by_name(
    alloc: Global,
    requirements: &[Requirement],
) -> Result<BTreeMap<Name, Requirements>, AllocError>
    ensures { IfOk result (λ m. HasEach m.entries requirements.now) }
{
    let mut lists = BTreeMap::new(alloc);
    for requirement in requirements {
        add(alloc, &mut lists, requirement)?;
    }
    Ok(lists)
}

/// What a map has at a name.
pub(crate) fn on_name<'a>(lists: &'a BTreeMap<Name, Requirements>, name: &Name) -> &'a [Requirement]
    ensures { result.now ≡ at_name lists.now.entries name.now }
{
    match lists.get(name) {
        Some(found) => found.list.as_slice(),
        None => &[],
    }
}
