//! Decisions and propagation, one after the other.
ghost use Rattle.std.specs.Prelude.{◌≡◌, ◌<◌, IfOk, IfSome, length};
ghost use Rattle.ul_trail.specs.Propagation.{IsTrailOf, IsConflict};

use std::alloc::{AllocError, Global};
use ul_problem::Problem;
use ul_trail::{Progress, Trail};

// Holds the steps of each version of a node.
fn hold_node(
    alloc: Global,
    problem: &Problem,
    trail: &mut Trail,
    node: u64,
) -> Result<(), AllocError>
    requires right { IsTrailOf problem.now trail.old }
    requires node { node < length problem.now.nodes }
    ensures { IfOk result (λ _. IsTrailOf problem.now trail.new) }
{
    for version in 0..problem.size_at(node) {
        trail.hold(alloc, problem, node, version)?;
    }
    Ok(())
}

/// A trail at its beginning that holds the steps of all versions.
pub fn begun(alloc: Global, problem: &Problem) -> Result<Trail, AllocError>
    ensures { IfOk result (λ t. IsTrailOf problem.now t) }
{
    let mut trail = Trail::begin(alloc, problem)?;
    for node in 0..problem.nodes().len() {
        hold_node(alloc, problem, &mut trail, node as u64)?;
    }
    Ok(trail)
}

// Holds the steps of the version of a fact's node, if that is certain.
fn hold_at(
    alloc: Global,
    problem: &Problem,
    trail: &mut Trail,
    place: usize,
) -> Result<(), AllocError>
    requires { IsTrailOf problem.now trail.old }
    ensures { IfOk result (λ _. IsTrailOf problem.now trail.new) }
{
    if place >= trail.facts().len() {
        return Ok(());
    }
    if let Some((node, version)) = trail.certain(problem, place) {
        trail.hold(alloc, problem, node, version)?;
    }
    Ok(())
}

/// Holds the steps of the versions that the facts make certain, and propagates.
pub fn pass(alloc: Global, problem: &Problem, trail: &mut Trail) -> Result<(), AllocError>
    requires { IsTrailOf problem.now trail.old }
    ensures { IfOk result (λ _. IsTrailOf problem.now trail.new) }
{
    for place in 0..trail.facts().len() {
        hold_at(alloc, problem, trail, place)?;
    }
    let _ = trail.propagate(alloc, problem)?;
    Ok(())
}

/// Decides the next node at a version that no fact excludes: at this one, whose steps are held then, or at the first in
/// order. The answer is the node and the version, where there is one.
pub fn decided(
    alloc: Global,
    problem: &Problem,
    trail: &mut Trail,
    wish: Option<u32>,
) -> Result<Option<(u64, u32)>, AllocError>
    requires { IsTrailOf problem.now trail.old }
    ensures { IfOk result (λ _. IsTrailOf problem.now trail.new) }
{
    let Some(node) = trail.next(problem) else {
        return Ok(None);
    };
    if node as usize >= problem.nodes().len() {
        return Ok(None);
    }
    let allowed = trail.allowed(alloc, problem, node)?;
    let version = match wish {
        Some(version) => version,
        None => match allowed.first_in(problem.order_at(node)) {
            Some(version) => version,
            None => return Ok(None),
        },
    };
    if version >= problem.size_at(node) || !allowed.has(version) {
        return Ok(None);
    }
    if wish.is_some() {
        trail.hold(alloc, problem, node, version)?;
    }
    trail.decide(alloc, problem, node, version)?;
    Ok(Some((node, version)))
}

/// The number of decisions, and the place of the conflict that ended them.
#[derive(Clone, Copy)]
pub struct Ending {
    pub count: u64,
    pub conflict: Option<u64>,
}

/// Propagates and decides until nothing is left to decide, or a conflict, or as many decisions are made.
pub fn run(
    alloc: Global,
    problem: &Problem,
    trail: &mut Trail,
    most: u64,
) -> Result<Ending, AllocError>
    requires { IsTrailOf problem.now trail.old }
    ensures right { IfOk result (λ _. IsTrailOf problem.now trail.new) }
    ensures conflict { IfOk result (λ r. IfSome r.conflict (λ k. IsConflict problem.now trail.new k)) }
{
    for count in 0..most {
        let progress = trail.propagate(alloc, problem)?;
        if let Progress::Conflict(place) = progress {
            return Ok(Ending {
                count,
                conflict: Some(place),
            });
        }
        let decided = decided(alloc, problem, trail, None)?;
        if decided.is_none() {
            return Ok(Ending {
                count,
                conflict: None,
            });
        }
    }
    Ok(Ending {
        count: most,
        conflict: None,
    })
}
