//! What is known of the nodes that a region reaches.
ghost use Rattle.std.specs.Prelude.{◌≡◌, ◌<◌, ◌^◌, ◌++◌, ◌∷◌, IfOk, Decides, Some, length, map, replicate, slice_get};
ghost use Rattle.ul_index.specs.Catalogs.{is_release_fit};
ghost use Rattle.ul_index.specs.Serves.{Suits};
ghost use Rattle.ul_region.specs.Asked.{IsAtNode, IsInRegion, region_asked};
ghost use Rattle.ul_region.specs.Truths.{region_at};
ghost use Rattle.ul_prepared.specs.Prepared.{IsPrepared};
ghost use Rattle.ul_placing.specs.Aims.{AreRowsOf};
ghost use Rattle.ul_placing.specs.Facts.{AreBarred, AreFacts, IsFacts, needs_ranked};
ghost use Rattle.ul_placing.specs.Runs.{rows_in, rows_of};

use crate::aims::{NodeAims, Run};
use crate::ranks::base_at;
use std::alloc::{AllocError, Global};
use ul_algebra::Algebra;
use ul_prepared::{NameFacts, Planned, Prepared};
use ul_problem::{NeedRow, NeedRows, NodeFacts};
use ul_ranges::Ordinals;
use ul_region::{AtNode, InRegion};
use ul_requirement::{Strategy, Wish};

// The needs of a run's versions by ranks: each has the rank of its target in place of its place. Where there are others
// beside the first, they share a list.
fn ranked_row(
    alloc: Global,
    ranks: &[u64],
    needs: NeedRow,
    others: usize,
) -> Result<NeedRow, AllocError>
    ensures { IfOk result (λ row. row ≡ needs_ranked ranks.now needs) }
{
    let mut row = needs;
    row.renumber(alloc, ranks)?;
    if others == 0 {
        return Ok(row);
    }
    row.share(alloc)
}

// Puts so many copies of a row behind others.
fn push_copies(
    alloc: Global,
    rows: &mut Vec<NeedRow>,
    row: &NeedRow,
    count: usize,
) -> Result<(), AllocError>
    ensures { IfOk result (λ _. rows.new.items ≡ rows.old.items ++ replicate count row.now) }
{
    for _ in 0..count {
        let copied = row.copy(alloc)?;
        rows.push(copied)?;
    }
    Ok(())
}

// Puts the rows of a run behind others, by ranks.
fn push_run(
    alloc: Global,
    ranks: &[u64],
    rows: &mut Vec<NeedRow>,
    run: Run,
) -> Result<(), AllocError>
    ensures { IfOk result (λ _. rows.new.items ≡ rows.old.items ++ map (needs_ranked ranks.now) (rows_in run)) }
{
    let Run { needs, others } = run;
    let row = ranked_row(alloc, ranks, needs, others)?;
    push_copies(alloc, rows, &row, others)?;
    rows.push(row)?;
    Ok(())
}

// The needs of each version by ranks.
fn ranked_rows(
    alloc: Global,
    ranks: &[u64],
    runs: Vec<Run>,
    size: usize,
) -> Result<NeedRows, AllocError>
    ensures { IfOk result (λ rows. rows ≡ map (needs_ranked ranks.now) (rows_of runs.items)) }
{
    let mut rows = Vec::with_capacity(alloc, size)?;
    for run in runs {
        push_run(alloc, ranks, &mut rows, run)?;
    }
    Ok(NeedRows::of(rows))
}

// Whether a release is fit where the strategy asks it to be.
fn suits(algebra: &Algebra<'_>, at: &AtNode<'_, '_>, strategy: Strategy) -> bool
    requires { IsAtNode algebra.now at.now }
    ensures { Decides result (Suits strategy (region_asked at.now) (is_release_fit at.now.row.now.release.now)) }
{
    match strategy {
        Strategy::Fewest => at.is_fit_throughout(algebra),
        Strategy::RequiresPython | Strategy::Deep => at.is_fit_somewhere(algebra),
    }
}

// The versions of a node that the strategy bars.
fn barred_of<'p, 'r>(
    alloc: Global,
    algebra: &Algebra<'_>,
    place: &'p InRegion<'p>,
    strategy: Strategy,
    planned: &'p Planned<'r>,
) -> Result<Ordinals, AllocError>
    requires place { IsInRegion algebra.now place.now }
    requires rows { AreRowsOf algebra.now place.now.truths.now planned.now }
    requires few { length planned.now.rows.items < 2 ^ 32 }
    ensures { IfOk result (AreBarred strategy (region_at place.now.region.now) planned.now) }
{
    let size = planned.rows.len() as u32;
    let mut barred = Vec::new(alloc);
    for version in 0..size {
        let at = AtNode {
            place,
            node: &planned.node,
            row: &planned.rows[version as usize],
        };
        if suits(algebra, &at, strategy) {
            continue;
        }
        barred.push(version)?;
    }
    let set = Ordinals::of_list(alloc, size, &barred)?;
    Ok(set)
}

// What is known of a node in a region, by ranks.
fn facts_of<'p, 'r>(
    alloc: Global,
    algebra: &Algebra<'_>,
    prepared: &'p Prepared<'r>,
    place: &'p InRegion<'p>,
    ranks: &[u64],
    planned: &'p Planned<'r>,
    aims: NodeAims,
) -> Result<NodeFacts, AllocError>
    requires place { IsInRegion algebra.now place.now }
    requires rows { AreRowsOf algebra.now place.now.truths.now planned.now }
    requires few { length planned.now.rows.items < 2 ^ 32 }
    requires name { planned.now.name < length prepared.now.names.items }
    ensures { IfOk result (IsFacts (region_at place.now.region.now) prepared.now ranks.now planned.now aims) }
{
    let name: &NameFacts = &prepared.names[planned.name];
    let wish: &Wish = prepared.wish;
    let node = planned.node.copy(alloc)?;
    let versions = name.versions.copy()?;
    let order = name.order.copy()?;
    let barred = barred_of(alloc, algebra, place, wish.strategy, planned)?;
    let needs = ranked_rows(alloc, ranks, aims.runs, planned.rows.len())?;
    Ok(NodeFacts {
        node,
        base: base_at(ranks, planned.base),
        versions,
        order,
        barred,
        needs,
    })
}

/// What is known of the nodes that a region reaches, in their order.
///
/// # Errors
///
/// Only for want of memory.
pub(crate) fn reached_facts<'p, 'r>(
    alloc: Global,
    algebra: &Algebra<'_>,
    prepared: &'p Prepared<'r>,
    place: &'p InRegion<'p>,
    ranks: &[u64],
    mut aims: Vec<Option<NodeAims>>,
) -> Result<Vec<NodeFacts>, AllocError>
    requires prepared { IsPrepared algebra.now prepared.now }
    requires place { IsInRegion algebra.now place.now }
    requires truths { place.now.truths.now ≡ prepared.now.truths.marks.items }
    requires size { length aims.items ≡ length prepared.now.nodes.items }
    ensures { IfOk result (λ v. AreFacts (region_at place.now.region.now) prepared.now ranks.now
        prepared.now.nodes.items aims.items v.items) }
{
    let mut nodes = Vec::with_capacity(alloc, aims.len())?;
    for place_at in 0..aims.len() {
        let Some(own) = aims[place_at].take() else {
            continue;
        };
        let planned = &prepared.nodes[place_at];
        let facts = facts_of(alloc, algebra, prepared, place, ranks, planned, own)?;
        nodes.push(facts)?;
    }
    Ok(nodes)
}
