//! Whether a choice of versions serves with the needs that are left.
//!
//! Where it does, no problem has to be solved to see that some selection does.
ghost use Rattle.std.specs.Prelude.{◌≡◌, ◌<◌, ◌≤◌, ℕ, Contains, IsTrue, Some, length};
ghost use Rattle.ul_blame.specs.Choices.{AreFit, AreListed, HasBaseAt, HasRoots, IsFitAt, IsMetAt, chosen};
ghost use Rattle.ul_blame.specs.Needs.{StandsIn, all_needs};
ghost use Rattle.ul_blame.specs.Serving.{IsMet, IsServed};
ghost use Rattle.ul_blame.specs.Turns.{left_of};

use crate::kept::flag_at;
use crate::needs::{CoreNeed, need_at};
use ul_problem::Problem;

/// The version that is chosen of a node; past the end none is.
pub(crate) fn choice_at(choice: &[Option<u32>], node: u64) -> Option<u32>
    ensures { result ≡ chosen choice.now node }
{
    match choice.get(node as usize) {
        Some(version) => *version,
        None => None,
    }
}

// Whether the base is chosen at the version, where there is one.
fn has_base(choice: &[Option<u32>], base: Option<u64>, version: u32) -> bool
    ensures { IsTrue result → HasBaseAt (chosen choice.now) base version }
{
    match base {
        None => true,
        Some(base) => match choice_at(choice, base) {
            None => false,
            Some(other) => other == version,
        },
    }
}

// Whether a version of a node is fit, and its base is chosen at it.
fn is_fit(problem: &Problem, choice: &[Option<u32>], node: u64, version: u32) -> bool
    requires { node < length problem.now.nodes }
    ensures { IsTrue result → IsFitAt problem.now (chosen choice.now) node version }
{
    if version >= problem.size_at(node) {
        return false;
    }
    if problem.nodes()[node as usize].barred.has(version) {
        return false;
    }
    has_base(choice, problem.base_at(node), version)
}

// Whether what is chosen of a node, if anything, is fit.
fn is_fit_where_chosen(problem: &Problem, choice: &[Option<u32>], node: u64) -> bool
    requires { node < length problem.now.nodes }
    ensures { IsTrue result → (v : ℕ) → chosen choice.now node ≡ Some v
        → IsFitAt problem.now (chosen choice.now) node v }
{
    match choice_at(choice, node) {
        None => true,
        Some(version) => is_fit(problem, choice, node, version),
    }
}

// Whether all that is chosen is fit.
fn are_fit(problem: &Problem, choice: &[Option<u32>]) -> bool
    ensures { IsTrue result → AreFit problem.now (chosen choice.now) }
{
    let nodes = problem.nodes();
    if choice.len() > nodes.len() {
        return false;
    }
    for node in 0..nodes.len() {
        if !is_fit_where_chosen(problem, choice, node as u64) {
            return false;
        }
    }
    true
}

// Whether the roots are chosen.
fn has_roots(choice: &[Option<u32>], roots: &[u64]) -> bool
    ensures { IsTrue result → HasRoots (chosen choice.now) roots.now }
{
    for root in roots {
        if choice_at(choice, *root).is_none() {
            return false;
        }
    }
    true
}

// Whether a permitted version of a need's target is chosen.
fn is_reached(problem: &Problem, choice: &[Option<u32>], need: &CoreNeed) -> bool
    requires { StandsIn problem.now need.now }
    ensures { IsTrue result → IsMet problem.now (chosen choice.now) need.now }
{
    let target = need_at(problem, *need);
    match choice_at(choice, target.node) {
        None => false,
        Some(version) => target.permitted.has(version),
    }
}

// Whether a need is met. It is where its version isn't chosen.
fn is_met(problem: &Problem, choice: &[Option<u32>], need: &CoreNeed) -> bool
    requires { StandsIn problem.now need.now }
    ensures { IsTrue result → IsMet problem.now (chosen choice.now) need.now }
{
    match choice_at(choice, need.node) {
        None => true,
        Some(version) => {
            if version != need.version {
                return true;
            }
            is_reached(problem, choice, need)
        }
    }
}

// Whether the need at a place is met, where its flag is set.
fn is_met_at(
    problem: &Problem,
    all: &[CoreNeed],
    flags: &[bool],
    choice: &[Option<u32>],
    place: usize,
) -> bool
    requires { all.now ≡ all_needs problem.now }
    ensures { IsTrue result → IsMetAt problem.now (chosen choice.now) flags.now all.now place }
{
    let _ = problem.nodes();
    if place >= all.len() {
        return true;
    }
    if flag_at(flags, place) {
        return is_met(problem, choice, &all[place]);
    }
    true
}

// Whether the needs at these places are met whose flags are set.
fn are_met_at(
    problem: &Problem,
    all: &[CoreNeed],
    flags: &[bool],
    choice: &[Option<u32>],
    places: &[usize],
) -> bool
    requires { all.now ≡ all_needs problem.now }
    ensures { IsTrue result → (k : ℕ) → Contains places.now k
        → IsMetAt problem.now (chosen choice.now) flags.now all.now k }
{
    for place in places {
        if !is_met_at(problem, all, flags, choice, *place) {
            return false;
        }
    }
    true
}

// Whether the needs from a place on are met whose flags are set.
fn are_met_from(
    problem: &Problem,
    all: &[CoreNeed],
    flags: &[bool],
    choice: &[Option<u32>],
    place: usize,
) -> bool
    requires { all.now ≡ all_needs problem.now }
    ensures { IsTrue result → (k : ℕ) → place ≤ k
        → IsMetAt problem.now (chosen choice.now) flags.now all.now k }
{
    for k in place..all.len() {
        if !is_met_at(problem, all, flags, choice, k) {
            return false;
        }
    }
    true
}

/// Whether a choice serves with the needs whose flags are set. Those before a place stand at the places that are kept,
/// so that the flags before it aren't looked through.
pub(crate) fn serves(
    problem: &Problem,
    all: &[CoreNeed],
    flags: &[bool],
    choice: &[Option<u32>],
    kept: &[usize],
    place: usize,
) -> bool
    requires all { all.now ≡ all_needs problem.now }
    requires kept { AreListed flags.now place kept.now }
    ensures { IsTrue result → IsServed problem.now (left_of problem.now flags.now) }
{
    if !has_roots(choice, problem.roots()) {
        return false;
    }
    if !are_fit(problem, choice) {
        return false;
    }
    if !are_met_at(problem, all, flags, choice, kept) {
        return false;
    }
    are_met_from(problem, all, flags, choice, place)
}
