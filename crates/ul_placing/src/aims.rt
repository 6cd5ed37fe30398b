//! What the firm requirements of a node's versions aim at in a region.
ghost use Rattle.std.specs.Prelude.{◌≡◌, ◌++◌, ◌<◌, ◌-◌, ◌≤◌, IfOk, length};
ghost use Rattle.ul_region.specs.Asked.{IsAtNode, IsInRegion, region_asked};
ghost use Rattle.ul_region.specs.Truths.{region_at};
ghost use Rattle.ul_prepared.specs.Prepared.{AreSharedLists};
ghost use Rattle.ul_placing.specs.Aims.{AreAimsOf, AreFirmNeeds, AreRowsOf};
ghost use Rattle.ul_placing.specs.Runs.{IsRunOf, IsStretch, versions_in};

use std::alloc::{AllocError, Global};
use ul_algebra::Algebra;
use ul_prepared::Planned;
use ul_problem::{Need, NeedRow};
use ul_region::{Asked, AtNode, InRegion};

/// Neighbouring versions of a node that aim at the same.
#[derive(Drop)]
pub(crate) struct Run {
    /// The needs of each of them, by the places of all nodes.
    pub(crate) needs: NeedRow,
    /// How many they are beside the first.
    pub(crate) others: usize,
}

/// Of a node that was looked at: the needs of its versions, in order.
#[derive(Drop)]
pub(crate) struct NodeAims {
    pub(crate) runs: Vec<Run>,
}

// Puts needs behind others. Their sets are shared.
fn push_needs(alloc: Global, needs: &mut NeedRow, more: &[Need]) -> Result<(), AllocError>
    ensures { IfOk result (λ _. needs.new ≡ needs.old ++ more.now) }
{
    for need in more {
        let copied = need.copy(alloc)?;
        needs.push(alloc, copied)?;
    }
    Ok(())
}

// Room for so many needs, where so many more make a list of the first two: a version with few firm requirements takes no
// memory.
fn make_room(alloc: Global, needs: &mut NeedRow, more: usize, size: usize) -> Result<(), AllocError>
    ensures { IfOk result (λ _. needs.new ≡ needs.old) }
{
    let held = needs.as_slice().len();
    let count = held.saturating_add(more);
    if held <= 2 && count > 2 {
        needs.make_room(alloc, size.max(count))?;
    }
    Ok(())
}

// The needs of the firm requirements of a version, in order.
fn version_aims(
    alloc: Global,
    algebra: &Algebra<'_>,
    at: &AtNode<'_, '_>,
    aims: &[NeedRow],
) -> Result<NeedRow, AllocError>
    requires at { IsAtNode algebra.now at.now }
    requires aims { length aims.now ≡ length at.now.row.now.asked }
    ensures { IfOk result (AreFirmNeeds (region_asked at.now) at.now.node.now at.now.row.now aims.now) }
{
    let asked: &[Asked<'_>] = at.row.asked.as_slice();
    let mut needs = NeedRow::none();
    for k in 0..asked.len() {
        if !at.is_firm(algebra, &asked[k]) {
            continue;
        }
        let more = aims[k].as_slice();
        make_room(alloc, &mut needs, more.len(), asked.len())?;
        push_needs(alloc, &mut needs, more)?;
    }
    Ok(needs)
}

// The end of the versions from one on that have its list of requirements.
fn run_end(lists: &[usize], first: usize) -> usize
    requires { first < length lists.now }
    ensures { IsStretch lists.now first result }
{
    for k in first + 1..lists.len() {
        if lists[k] != lists[first] {
            return k;
        }
    }
    lists.len()
}

// The versions from one to an end, which aim at the same.
fn run_of<'p, 'r>(
    alloc: Global,
    algebra: &Algebra<'_>,
    place: &'p InRegion<'p>,
    planned: &'p Planned<'r>,
    first: usize,
    end: usize,
) -> Result<Run, AllocError>
    requires place { IsInRegion algebra.now place.now }
    requires rows { AreRowsOf algebra.now place.now.truths.now planned.now }
    requires first { first < end }
    requires end { end ≤ length planned.now.rows.items }
    ensures { IfOk result (IsRunOf (region_at place.now.region.now) planned.now first end) }
{
    let at = AtNode {
        place,
        node: &planned.node,
        row: &planned.rows[first],
    };
    let needs = version_aims(alloc, algebra, &at, planned.aims[first].as_slice())?;
    Ok(Run {
        needs,
        others: end - first - 1,
    })
}

/// Of each version of a node the needs of its firm requirements, in order, by the places of all nodes. They are found once
/// for neighbours with one list of requirements.
///
/// # Errors
///
/// Only for want of memory.
pub(crate) fn node_aims<'p, 'r>(
    alloc: Global,
    algebra: &Algebra<'_>,
    place: &'p InRegion<'p>,
    planned: &'p Planned<'r>,
) -> Result<NodeAims, AllocError>
    requires place { IsInRegion algebra.now place.now }
    requires rows { AreRowsOf algebra.now place.now.truths.now planned.now }
    requires shared { AreSharedLists planned.now }
    ensures { IfOk result (λ a. AreAimsOf (region_at place.now.region.now) planned.now (versions_in a)) }
{
    let lists = planned.lists.as_slice();
    let mut runs = Vec::new(alloc);
    let mut first = 0;
    while first < lists.len() {
        let end = run_end(lists, first);
        let run = run_of(alloc, algebra, place, planned, first, end)?;
        runs.push(run)?;
        first = end;
    }
    Ok(NodeAims { runs })
}
