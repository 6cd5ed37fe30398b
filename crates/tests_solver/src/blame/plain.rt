//! The core by its definition: one need after the other is dropped where nothing serves without it.
//!
//! All selections are tried for that, as many as the product of the nodes' versions, so it is for small problems.
use std::alloc::{AllocError, Global};
use ul_blame::CoreNeed;
use ul_problem::Problem;

// The needs of a problem in their order.
fn all_needs(alloc: Global, problem: &Problem) -> Result<Vec<CoreNeed>, AllocError> {
    let mut all = Vec::new(alloc);
    let nodes = problem.nodes();
    for node in 0..nodes.len() {
        let rows = nodes[node].needs.as_slice();
        for version in 0..rows.len().min(1000) {
            for place in 0..rows[version].as_slice().len() {
                all.push(CoreNeed {
                    node: node as u64,
                    version: version as u32,
                    place: place as u64,
                })?;
            }
        }
    }
    Ok(all)
}

// The next selection in the order of numbers; none behind the last. It has of each node nothing, as 0, or one more than
// the version's place.
fn go_on(problem: &Problem, selection: &mut Vec<u32>) -> bool {
    let nodes = problem.nodes();
    for node in 0..nodes.len() {
        if node < selection.len() {
            if selection[node] < nodes[node].barred.size() {
                selection[node] = selection[node].saturating_add(1);
                return true;
            }
            selection[node] = 0;
        }
    }
    false
}

fn picked(selection: &[u32], node: u64) -> u32 {
    match selection.get(node as usize) {
        Some(version) => *version,
        None => 0,
    }
}

// Whether a node's version is fit and its base has the same.
fn is_fit(problem: &Problem, selection: &[u32], node: usize) -> bool {
    let version = picked(selection, node as u64);
    let nodes = problem.nodes();
    if version == 0 || node >= nodes.len() {
        return true;
    }
    if nodes[node].barred.has(version.saturating_sub(1)) {
        return false;
    }
    match nodes[node].base {
        Some(base) => picked(selection, base) == version,
        None => true,
    }
}

// Whether a need is met.
fn is_met(problem: &Problem, selection: &[u32], need: &CoreNeed) -> bool {
    if picked(selection, need.node) != need.version.saturating_add(1) {
        return true;
    }
    let Some(facts) = problem.nodes().get(need.node as usize) else {
        return false;
    };
    let Some(row) = facts.needs.as_slice().get(need.version as usize) else {
        return false;
    };
    match row.as_slice().get(need.place as usize) {
        Some(target) => {
            let version = picked(selection, target.node);
            version > 0 && target.permitted.has(version.saturating_sub(1))
        }
        None => false,
    }
}

fn serves(problem: &Problem, selection: &[u32], needs: &[CoreNeed], left: &[bool]) -> bool {
    for root in problem.roots() {
        if picked(selection, *root) == 0 {
            return false;
        }
    }
    for node in 0..problem.nodes().len() {
        if !is_fit(problem, selection, node) {
            return false;
        }
    }
    for k in 0..needs.len() {
        if k < left.len() && left[k] && !is_met(problem, selection, &needs[k]) {
            return false;
        }
    }
    true
}

// Whether some selection serves with the needs that are left.
fn is_served(
    alloc: Global,
    problem: &Problem,
    needs: &[CoreNeed],
    left: &[bool],
) -> Result<bool, AllocError> {
    let mut selection = vec![in alloc; 0u32; problem.nodes().len()]?;
    for _ in 0..100000 {
        if serves(problem, selection.as_slice(), needs, left) {
            return Ok(true);
        }
        if !go_on(problem, &mut selection) {
            return Ok(false);
        }
    }
    Err(AllocError)
}

// The needs that are left.
fn kept(alloc: Global, needs: &[CoreNeed], left: &[bool]) -> Result<Vec<CoreNeed>, AllocError> {
    let mut kept = Vec::new(alloc);
    for k in 0..needs.len() {
        if k < left.len() && left[k] {
            kept.push(needs[k])?;
        }
    }
    Ok(kept)
}

/// The core, or none where some selection serves.
pub(crate) fn plain_core(
    alloc: Global,
    problem: &Problem,
) -> Result<Option<Vec<CoreNeed>>, AllocError> {
    let all = all_needs(alloc, problem)?;
    let needs = all.as_slice();
    let mut left = vec![in alloc; true; needs.len()]?;
    if is_served(alloc, problem, needs, left.as_slice())? {
        return Ok(None);
    }
    for k in 0..needs.len() {
        if k < left.len() {
            left[k] = false;
            left[k] = is_served(alloc, problem, needs, left.as_slice())?;
        }
    }
    let core = kept(alloc, needs, left.as_slice())?;
    Ok(Some(core))
}
