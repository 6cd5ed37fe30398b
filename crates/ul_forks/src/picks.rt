//! Picks of a region's problem: by their names, and with the rows that all regions share.
ghost use Rattle.std.specs.Prelude.{IfOk, All};
ghost use Rattle.ul_region.specs.Naming.{AreNamed, IsNamed};
ghost use Rattle.ul_placing.specs.Placed.{ArePlaced};
ghost use Rattle.ul_forks.specs.Picks.{HasPick, IsTaken, OneForOne};

use std::alloc::{AllocError, Global};
use ul_base::Node;
use ul_placing::Placed;
use ul_prepared::{Planned, Prepared};
use ul_problem::{NodeFacts, Problem};
use ul_split::Chosen;
use ul_version::Version;

// A pick by its names.
fn named_pick(
    alloc: Global,
    problem: &Problem,
    node: u64,
    version: u32,
) -> Result<(Node, Version), AllocError>
    requires { HasPick problem.now (node, version) }
    ensures { IfOk result (IsNamed problem.now (node, version)) }
{
    let facts: &NodeFacts = &problem.nodes()[node as usize];
    let versions: &[Version] = facts.versions.as_slice();
    let version = versions[version as usize].copy(alloc)?;
    let node = facts.node.copy(alloc)?;
    Ok((node, version))
}

// Picks by their names.
pub(crate) fn named_picks(
    alloc: Global,
    problem: &Problem,
    picks: &[(u64, u32)],
) -> Result<Vec<(Node, Version)>, AllocError>
    requires { All (HasPick problem.now) picks.now }
    ensures { IfOk result (λ ds. AreNamed problem.now picks.now ds.items) }
{
    let mut named = Vec::with_capacity(alloc, picks.len())?;
    for pick in picks {
        let one = named_pick(alloc, problem, pick.0, pick.1)?;
        named.push(one)?;
    }
    Ok(named)
}

// A pick with its row, which stands at the place of its node.
pub(crate) fn chosen_at<'p, 'r>(
    prepared: &'p Prepared<'r>,
    placed: &'p Placed,
    node: u64,
    version: u32,
) -> Chosen<'p, 'r>
    requires pick { HasPick placed.now.problem (node, version) }
    requires places { ArePlaced prepared.now placed.now.problem placed.now.places.items }
    ensures { IsTaken prepared.now placed.now.problem (node, version) result }
{
    let facts: &NodeFacts = &placed.problem.nodes()[node as usize];
    let place = placed.places[node as usize];
    let planned: &Planned<'_> = &prepared.nodes[place as usize];
    Chosen {
        node: &facts.node,
        row: &planned.rows[version as usize],
    }
}

// Picks with their rows.
pub(crate) fn chosen_of<'p, 'r>(
    alloc: Global,
    prepared: &'p Prepared<'r>,
    placed: &'p Placed,
    picks: &[(u64, u32)],
) -> Result<Vec<Chosen<'p, 'r>>, AllocError>
    requires picks { All (HasPick placed.now.problem) picks.now }
    requires places { ArePlaced prepared.now placed.now.problem placed.now.places.items }
    ensures { IfOk result (λ ds. OneForOne (IsTaken prepared.now placed.now.problem) picks.now ds.items) }
{
    let mut chosen = Vec::with_capacity(alloc, picks.len())?;
    for pick in picks {
        chosen.push(chosen_at(prepared, placed, pick.0, pick.1))?;
    }
    Ok(chosen)
}
