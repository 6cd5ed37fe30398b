//! The requirement that a need comes from, and where it fails.
ghost use Rattle.std.specs.Prelude.{◌≡◌, ◌+◌, Decides, length};
ghost use Rattle.ul_requirement.specs.Truth.{targets};
ghost use Rattle.ul_region.specs.Asked.{HasAsked, IsAtNode};
ghost use Rattle.ul_split.specs.CoreAnswers.{FailsAt, IsFalseSomewhere, OriginAt};

use ul_algebra::{Algebra, Diagram};
use ul_region::{Asked, AtNode};
use ul_requirement::Requirement;

// How many extras a requirement asks for: it gives a need for each of them, and one for the base of its name.
fn extra_count(one: &Asked<'_>) -> u64
    ensures { length (targets one.now.requirement.now) ≡ result + 1 }
{
    let requirement: &Requirement = one.requirement;
    requirement.extras.len() as u64
}

// The firm requirement that the need at a place of a release's needs comes from. One that isn't asked about is never
// applied.
fn origin<'s, 'r>(
    algebra: &Algebra<'_>,
    at_node: &'s AtNode<'_, 'r>,
    place: u64,
) -> Option<&'s Asked<'r>>
    requires { IsAtNode algebra.now at_node.now }
    ensures { OriginAt at_node.now place result }
{
    ul_requirement::laws::unnamed_never_applies();
    let asked: &[Asked<'r>] = at_node.row.asked.as_slice();
    let mut left = place;
    for one in asked {
        if !at_node.is_firm(algebra, one) {
            continue;
        }
        let extras = extra_count(one);
        if left <= extras {
            return Some(one);
        }
        left = left - extras - 1;
    }
    None
}

// Whether a requirement fails at some world of the region.
fn fails_somewhere(algebra: &Algebra<'_>, at_node: &AtNode<'_, '_>, one: &Asked<'_>) -> bool
    requires whole { IsAtNode algebra.now at_node.now }
    requires one { HasAsked at_node.now one.now }
    ensures { Decides result (IsFalseSomewhere at_node.now one.now) }
{
    let within = at_node.place.holds_at(one.truth);
    !algebra.same(within, at_node.place.region)
}

/// The truth of the requirement that the need at a place of a release's needs comes from, where it fails at some world
/// of the region.
pub fn failing_truth<'s>(
    algebra: &Algebra<'_>,
    at_node: &'s AtNode<'_, '_>,
    place: u64,
) -> Option<&'s Diagram>
    requires { IsAtNode algebra.now at_node.now }
    ensures { FailsAt algebra.now at_node.now place result }
{
    let Some(one) = origin(algebra, at_node, place) else {
        return None;
    };
    if !fails_somewhere(algebra, at_node, one) {
        return None;
    }
    Some(at_node.place.truth_held(one.truth))
}
