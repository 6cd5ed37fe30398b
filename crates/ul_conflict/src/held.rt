//! Held steps that say given terms.
ghost use Rattle.std.specs.Prelude.{◌≡◌, ◌<◌, Some, length, slice_get, IfSome};
ghost use Rattle.ul_problem.specs.Steps.{AreTermsOf};
ghost use Rattle.ul_trail.specs.Propagation.{IsTrailOf};
ghost use Rattle.ul_conflict.specs.Held.{AreHeldPlaces};

use ul_problem::{Incompat, Problem, Term, same_terms};
use ul_trail::Trail;

// The first of these places whose incompatibility has these terms.
fn found_in(trail: &Trail, places: &[u64], terms: &[Term]) -> Option<u64>
    requires { AreHeldPlaces trail.now places.now }
    ensures said { IfSome result (λ place. slice_get trail.now.terms place ≡ Some terms.now) }
    ensures within { IfSome result (λ place. place < length trail.now.steps) }
{
    for place in places {
        if same_terms(trail.terms(*place).terms(), terms) {
            return Some(*place);
        }
    }
    None
}

// The shorter of two lists of places.
fn shorter<'a>(trail: &Trail, best: Option<&'a Vec<u64>>, row: &'a Vec<u64>) -> Option<&'a Vec<u64>>
    requires best { IfSome best (λ places. AreHeldPlaces trail.now places.now.items) }
    requires row { AreHeldPlaces trail.now row.now.items }
    ensures { IfSome result (λ places. AreHeldPlaces trail.now places.now.items) }
{
    let Some(other) = best else {
        return Some(row);
    };
    if row.len() < other.len() {
        return Some(row);
    }
    Some(other)
}

// The shortest list of the incompatibilities on a node of these terms.
fn shortest<'a>(problem: &Problem, trail: &'a Trail, terms: &[Term]) -> Option<&'a Vec<u64>>
    requires right { IsTrailOf problem.now trail.now }
    requires fits { AreTermsOf problem.now terms.now }
    ensures { IfSome result (λ places. AreHeldPlaces trail.now places.now.items) }
{
    let mut best: Option<&Vec<u64>> = None;
    for term in terms {
        let row = trail.watched(term.node());
        best = shorter(trail, best, row);
    }
    best
}

/// The place of a held incompatibility with these terms, if there is one.
pub fn place_of(problem: &Problem, trail: &Trail, terms: &Incompat) -> Option<u64>
    requires right { IsTrailOf problem.now trail.now }
    requires fits { AreTermsOf problem.now terms.now }
    ensures said { IfSome result (λ place. slice_get trail.now.terms place ≡ Some terms.now) }
    ensures within { IfSome result (λ place. place < length trail.now.steps) }
{
    let list = terms.terms();
    match shortest(problem, trail, list) {
        Some(places) => found_in(trail, places.as_slice(), list),
        None => None,
    }
}
