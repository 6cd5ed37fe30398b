//! Needs of requirements by places of nodes.
ghost use Rattle.std.specs.Prelude.{◌≡◌, All, IfOk};
ghost use Rattle.std.specs.List.{AllZip};
ghost use Rattle.ul_prepared.specs.Aims.{needs_on};
ghost use Rattle.ul_prepared.specs.Places.{IsAmong, IsFound, IsFoundAt, IsNodeIndex};
ghost use Rattle.ul_prepared.specs.Permitted.{IsRising, IsSetOf};
ghost use Rattle.ul_prepared.specs.Prepared.{AreAims, AreRowAims, IsAim};
ghost use Rattle.ul_prepared.specs.Targets.{AsksTargets, HasTargets};
ghost use Rattle.ul_region.specs.Best.{needs_of};

use crate::permitted::Sets;
use crate::prepared::{NameFacts, Planned};
use std::alloc::{AllocError, Global};
use std::collections::HashMap;
use ul_base::Node;
use ul_base::owned::{made_from, with_made};
use ul_problem::{Need, NeedRow};
use ul_ranges::SharedList;
use ul_region::Asked;
use ul_requirement::Requirement;
use ul_specifier::Specifiers;

/// The place of a node that has one.
pub(crate) fn place_of(index: &HashMap<Node, usize>, node: &Node) -> usize
    requires { IsFound index.now node.now }
    ensures { IsFoundAt index.now node.now result }
{
    index[node]
}

// The need of a target.
fn aim<'a>(
    alloc: Global,
    sets: &mut Sets<'a>,
    index: &HashMap<Node, usize>,
    names: &[NameFacts],
    nodes: &[Planned<'_>],
    specifiers: &'a Specifiers,
    target: &Node,
) -> Result<Need, AllocError>
    requires index { IsNodeIndex names.now nodes.now index.now }
    requires target { IsAmong nodes.now target.now }
    requires rising { All IsRising names.now }
    requires sets { All (IsSetOf names.now) sets.old.list.items }
    ensures sets { All (IsSetOf names.now) sets.new.list.items }
    ensures aim { IfOk result (λ k. IsAim names.now nodes.now k
        (record { node = target.now; specifiers = specifiers.now })) }
{
    let place = place_of(index, target);
    let permitted = sets.of(alloc, names, nodes[place].name, specifiers)?;
    Ok(Need {
        node: place as u64,
        permitted,
    })
}

// The needs of a requirement, in order.
fn aims_of<'a>(
    alloc: Global,
    sets: &mut Sets<'a>,
    index: &HashMap<Node, usize>,
    names: &[NameFacts],
    nodes: &[Planned<'_>],
    requirement: &'a Requirement,
) -> Result<NeedRow, AllocError>
    requires index { IsNodeIndex names.now nodes.now index.now }
    requires targets { HasTargets (IsAmong nodes.now) requirement.now }
    requires rising { All IsRising names.now }
    requires sets { All (IsSetOf names.now) sets.old.list.items }
    ensures sets { All (IsSetOf names.now) sets.new.list.items }
    ensures aims { IfOk result (λ row. AreAims names.now nodes.now row (needs_of requirement.now)) }
{
    let targets = requirement.targets(alloc)?;
    let aims = aims_at(
        alloc,
        sets,
        index,
        names,
        nodes,
        &requirement.specifiers,
        targets.as_slice(),
    );
    made_from(aims, targets)
}

// The needs of targets, in order.
fn aims_at<'a>(
    alloc: Global,
    sets: &mut Sets<'a>,
    index: &HashMap<Node, usize>,
    names: &[NameFacts],
    nodes: &[Planned<'_>],
    specifiers: &'a Specifiers,
    targets: &[Node],
) -> Result<NeedRow, AllocError>
    requires index { IsNodeIndex names.now nodes.now index.now }
    requires targets { All (IsAmong nodes.now) targets.now }
    requires rising { All IsRising names.now }
    requires sets { All (IsSetOf names.now) sets.old.list.items }
    ensures sets { All (IsSetOf names.now) sets.new.list.items }
    ensures aims { IfOk result (λ row. AreAims names.now nodes.now row (needs_on specifiers.now targets.now)) }
{
    let mut row = Vec::with_capacity(alloc, targets.len())?;
    for target in targets {
        let one = aim(alloc, sets, index, names, nodes, specifiers, target);
        row = with_made(row, one)?;
    }
    Ok(NeedRow::of(row))
}

// The needs of each requirement that is asked about, in order.
fn asked_aims<'a>(
    alloc: Global,
    sets: &mut Sets<'a>,
    index: &HashMap<Node, usize>,
    names: &[NameFacts],
    nodes: &[Planned<'_>],
    asked: &[Asked<'a>],
) -> Result<SharedList<NeedRow>, AllocError>
    requires index { IsNodeIndex names.now nodes.now index.now }
    requires targets { All (AsksTargets (IsAmong nodes.now)) asked.now }
    requires rising { All IsRising names.now }
    requires sets { All (IsSetOf names.now) sets.old.list.items }
    ensures sets { All (IsSetOf names.now) sets.new.list.items }
    ensures aims { IfOk result (λ rows. AreRowAims names.now nodes.now rows asked.now) }
{
    let mut rows = Vec::with_capacity(alloc, asked.len())?;
    for one in asked {
        let requirement: &'a Requirement = one.requirement;
        let aims = aims_of(alloc, sets, index, names, nodes, requirement);
        rows = with_made(rows, aims)?;
    }
    SharedList::of(alloc, rows)
}

/// The needs of the requirements in each list, in order.
///
/// # Errors
///
/// Only for want of memory.
pub(crate) fn list_aims<'a>(
    alloc: Global,
    sets: &mut Sets<'a>,
    index: &HashMap<Node, usize>,
    names: &[NameFacts],
    nodes: &[Planned<'_>],
    lists: &[SharedList<Asked<'a>>],
) -> Result<Vec<SharedList<NeedRow>>, AllocError>
    requires index { IsNodeIndex names.now nodes.now index.now }
    requires targets { All (All (AsksTargets (IsAmong nodes.now))) lists.now }
    requires rising { All IsRising names.now }
    requires sets { All (IsSetOf names.now) sets.old.list.items }
    ensures sets { All (IsSetOf names.now) sets.new.list.items }
    ensures aims { IfOk result (λ v. AllZip (AreRowAims names.now nodes.now) v.items lists.now) }
{
    let mut list = Vec::with_capacity(alloc, lists.len())?;
    for asked in lists {
        let aims = asked_aims(alloc, sets, index, names, nodes, asked.as_slice());
        list = with_made(list, aims)?;
    }
    Ok(list)
}
