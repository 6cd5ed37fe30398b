//! A choice of versions that may serve with the needs that are left.
//!
//! It is only a guess, so no clause speaks of it, and `serving` says whether it serves. From the roots on each needed node is
//! chosen: at the version that is wished for where that is permitted, else at the first in its order that is.
use crate::kept::flag_at;
use crate::needs::CoreNeed;
use crate::serving::choice_at;
use std::alloc::{AllocError, Global};
use ul_problem::{Need, NodeFacts, Problem};
use ul_ranges::Ordinals;

/// What earlier needs told of where to look first. It is only a hint, so no clause speaks of it.
#[derive(Drop)]
pub(crate) struct Hints {
    /// The version of each node that is wished for.
    pub wishes: Vec<Option<u32>>,
    /// How often the needs that are ahead are halved before they are tried.
    pub halvings: u32,
}

// What a choice is made by: the places of the first flags of nodes' versions, the flags, and the versions that are
// wished for.
#[derive(Drop)]
struct Wishes<'a> {
    firsts: &'a [Vec<usize>],
    flags: &'a [bool],
    versions: &'a [Option<u32>],
}

// Whether a version may be chosen.
fn is_allowed(facts: &NodeFacts, permitted: &Ordinals, version: u32) -> bool {
    permitted.has(version) && !facts.barred.has(version)
}

// The version that is wished for, where it may be chosen, else the first in the node's order that may be.
fn first_allowed(facts: &NodeFacts, permitted: &Ordinals, wish: Option<u32>) -> Option<u32> {
    if let Some(version) = wish {
        if is_allowed(facts, permitted, version) {
            return wish;
        }
    }
    for version in facts.order.as_vec().as_slice() {
        if is_allowed(facts, permitted, *version) {
            return Some(*version);
        }
    }
    None
}

// The version of a node to wish for: of an extra that of its base.
fn wish_of(facts: &NodeFacts, wishes: &Wishes, choice: &[Option<u32>], node: u64) -> Option<u32> {
    if let Some(base) = facts.base {
        let version = choice_at(choice, base);
        if version.is_some() {
            return version;
        }
    }
    choice_at(wishes.versions, node)
}

// Chooses a version of a node, and puts the node at the end of the queue.
fn put(
    choice: &mut Vec<Option<u32>>,
    queue: &mut Vec<u64>,
    node: u64,
    version: u32,
) -> Result<(), AllocError> {
    let place = node as usize;
    if place < choice.len() && choice[place].is_none() {
        choice[place] = Some(version);
        queue.push(node)?;
    }
    Ok(())
}

// Chooses a version of a need's target, unless one is chosen.
fn choose(
    nodes: &[NodeFacts],
    wishes: &Wishes,
    choice: &mut Vec<Option<u32>>,
    queue: &mut Vec<u64>,
    need: &Need,
) -> Result<(), AllocError> {
    if let Some(facts) = nodes.get(need.node as usize) {
        let wish = wish_of(facts, wishes, choice.as_slice(), need.node);
        if let Some(version) = first_allowed(facts, &need.permitted, wish) {
            put(choice, queue, need.node, version)?;
        }
    }
    Ok(())
}

// Chooses the targets of a version's needs that are left. Flags of the version begin at `first`.
fn choose_all(
    nodes: &[NodeFacts],
    wishes: &Wishes,
    choice: &mut Vec<Option<u32>>,
    queue: &mut Vec<u64>,
    needs: &[Need],
    first: usize,
) -> Result<(), AllocError> {
    for k in 0..needs.len() {
        if flag_at(wishes.flags, first.saturating_add(k)) {
            choose(nodes, wishes, choice, queue, &needs[k])?;
        }
    }
    Ok(())
}

// Chooses what a node asks for at its version: its base, and the targets of its needs that are left.
fn ask(
    nodes: &[NodeFacts],
    wishes: &Wishes,
    choice: &mut Vec<Option<u32>>,
    queue: &mut Vec<u64>,
    place: usize,
    version: u32,
) -> Result<(), AllocError> {
    if place < nodes.len() && place < wishes.firsts.len() {
        let facts = &nodes[place];
        if let Some(base) = facts.base {
            put(choice, queue, base, version)?;
        }
        let rows = facts.needs.as_slice();
        let firsts = wishes.firsts[place].as_slice();
        let version = version as usize;
        if version < rows.len() && version < firsts.len() {
            let needs = rows[version].as_slice();
            choose_all(nodes, wishes, choice, queue, needs, firsts[version])?;
        }
    }
    Ok(())
}

/// A choice that may serve with the needs whose flags are set.
pub(crate) fn guess(
    alloc: Global,
    problem: &Problem,
    firsts: &[Vec<usize>],
    flags: &[bool],
    versions: &[Option<u32>],
) -> Result<Vec<Option<u32>>, AllocError> {
    let nodes = problem.nodes();
    let wishes = Wishes {
        firsts,
        flags,
        versions,
    };
    let mut choice = vec![in alloc; None; nodes.len()]?;
    let mut queue = Vec::new(alloc);
    for root in problem.roots() {
        put(&mut choice, &mut queue, *root, 0)?;
    }
    for next in 0..nodes.len() {
        if next >= queue.len() {
            return Ok(choice);
        }
        let node = queue[next];
        if let Some(version) = choice_at(choice.as_slice(), node) {
            ask(
                nodes,
                &wishes,
                &mut choice,
                &mut queue,
                node as usize,
                version,
            )?;
        }
    }
    Ok(choice)
}

// Wishes for a version of a node.
fn wish_for(wishes: &mut Vec<Option<u32>>, node: u64, version: u32) {
    let place = node as usize;
    if place < wishes.len() {
        wishes[place] = Some(version);
    }
}

/// Wishes for the version of the need at a place, which a selection has that serves without the need.
pub(crate) fn wish(wishes: &mut Vec<Option<u32>>, all: &[CoreNeed], place: usize) {
    if place < all.len() {
        let need = all[place];
        wish_for(wishes, need.node, need.version);
    }
}

/// Wishes for the versions of a selection.
pub(crate) fn wish_all(wishes: &mut Vec<Option<u32>>, picks: &[(u64, u32)]) {
    for pick in picks {
        wish_for(wishes, pick.0, pick.1);
    }
}
