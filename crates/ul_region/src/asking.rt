//! The rows of releases.
ghost use Rattle.std.specs.Prelude.{◌≡◌, ◌≤◌, IfOk, IfSome, All, length, map};
ghost use Rattle.ul_algebra.specs.Answers.{IsDiagram};
ghost use Rattle.ul_requirement.specs.Truth.{applies_at};
ghost use Rattle.ul_index.specs.Catalogs.{is_release_fit};
ghost use Rattle.ul_region.specs.Truths.{IsGrown, IsTruthAt};
ghost use Rattle.ul_region.specs.Rows.{AreAsked, AreTruthsOf, AreTruthsOfFirst, IsAsked, IsPlaceOfAlike};
ghost use Rattle.ul_region.specs.Rows.{next_in, number_in, requirement_of, truth_in};
ghost use Rattle.ul_region.specs.Numbers.{AreNextOthers, fields_in, numbers_of};

use crate::by_extra::ByExtra;
use crate::numbers::{name_numbers, next_others};
use crate::rows::{Asked, Truths};
use crate::truths::{fit_truth, truth_at};
use std::alloc::{AllocError, Global};
use std::sync::Wait;
use ul_algebra::Algebra;
use ul_base::Node;
use ul_base::owned::with_made;
use ul_ranges::SharedList;
use ul_requirement::{Release, Requirement};

// The place that stands beside the last of the requirements that have one, if that has the same marker as this one.
fn last_place(
    requirements: &[&Requirement],
    places: &[usize],
    requirement: &Requirement,
) -> Option<usize>
    requires { length places.now ≤ length requirements.now }
    ensures { IfSome result (IsPlaceOfAlike (fields_in requirements.now) places.now requirement.now) }
{
    let count = places.len();
    if count == 0 {
        return None;
    }
    if requirements[count - 1].has_marker_of(requirement) {
        return Some(places[count - 1]);
    }
    None
}

// The place of a requirement's truth at a node, where none is known.
fn new_place<R: Wait>(
    rt: &R,
    alloc: Global,
    algebra: &mut Algebra<'_>,
    truths: &mut Truths,
    node: &Node,
    requirement: &Requirement,
) -> Result<usize, AllocError>
    requires { All (IsDiagram algebra.old) truths.old.marks.items }
    ensures grown { IsGrown algebra.old truths.old.marks.items algebra.new truths.new.marks.items }
    ensures truth { IfOk result (λ k.
        IsTruthAt algebra.new truths.new.marks.items k (applies_at requirement.now node.now)) }
{
    let truth = truth_at(rt, alloc, algebra, node, requirement)?;
    let place = truths.put(algebra, &truth)?;
    Ok(place)
}

// The place of a requirement's truth at a node, behind those of requirements before it. At one node the truth follows from
// the marker, so a requirement with the marker of the one before it has its place.
fn truth_place<R: Wait>(
    rt: &R,
    alloc: Global,
    algebra: &mut Algebra<'_>,
    truths: &mut Truths,
    node: &Node,
    requirements: &[&Requirement],
    places: &[usize],
    requirement: &Requirement,
) -> Result<usize, AllocError>
    requires truths { All (IsDiagram algebra.old) truths.old.marks.items }
    requires few { length places.now ≤ length requirements.now }
    requires places { AreTruthsOfFirst algebra.old node.now truths.old.marks.items
        (fields_in requirements.now) places.now }
    ensures grown { IsGrown algebra.old truths.old.marks.items algebra.new truths.new.marks.items }
    ensures truth { IfOk result (λ k.
        IsTruthAt algebra.new truths.new.marks.items k (applies_at requirement.now node.now)) }
{
    if let Some(place) = last_place(requirements, places, requirement) {
        return Ok(place);
    }
    new_place(rt, alloc, algebra, truths, node, requirement)
}

// Of each requirement the place of its truth at a node.
fn truth_places<R: Wait>(
    rt: &R,
    alloc: Global,
    algebra: &mut Algebra<'_>,
    truths: &mut Truths,
    node: &Node,
    requirements: &[&Requirement],
) -> Result<Vec<usize>, AllocError>
    requires { All (IsDiagram algebra.old) truths.old.marks.items }
    ensures grown { IsGrown algebra.old truths.old.marks.items algebra.new truths.new.marks.items }
    ensures truths { IfOk result (λ v.
        AreTruthsOf algebra.new node.now truths.new.marks.items (fields_in requirements.now) v.items) }
{
    let mut places = Vec::with_capacity(alloc, requirements.len())?;
    for requirement in requirements {
        let place = truth_place(
            rt,
            alloc,
            algebra,
            truths,
            node,
            requirements,
            places.as_slice(),
            requirement,
        );
        places = with_made(places, place)?;
    }
    Ok(places)
}

// The requirements, each with the place of its truth, the number of its name and the place of the next one on it.
fn put_together<'a>(
    alloc: Global,
    requirements: &[&'a Requirement],
    truths: &[usize],
    numbers: &[usize],
    nexts: &[usize],
) -> Result<Vec<Asked<'a>>, AllocError>
    requires truths { length truths.now ≡ length requirements.now }
    requires numbers { length numbers.now ≡ length requirements.now }
    requires nexts { length nexts.now ≡ length requirements.now }
    ensures same { IfOk result (λ v. map requirement_of v.items ≡ fields_in requirements.now) }
    ensures truths { IfOk result (λ v. map truth_in v.items ≡ truths.now) }
    ensures numbers { IfOk result (λ v. map number_in v.items ≡ numbers.now) }
    ensures nexts { IfOk result (λ v. map next_in v.items ≡ nexts.now) }
{
    let mut asked = Vec::with_capacity(alloc, requirements.len())?;
    for place in 0..requirements.len() {
        asked.push(Asked {
            requirement: requirements[place],
            truth: truths[place],
            name: numbers[place],
            next: nexts[place],
        })?;
    }
    Ok(asked)
}

// The requirements at a node, in order.
fn ask_all<'a, R: Wait>(
    rt: &R,
    alloc: Global,
    algebra: &mut Algebra<'_>,
    truths: &mut Truths,
    node: &Node,
    requirements: &[&'a Requirement],
) -> Result<Vec<Asked<'a>>, AllocError>
    requires { All (IsDiagram algebra.old) truths.old.marks.items }
    ensures grown { IsGrown algebra.old truths.old.marks.items algebra.new truths.new.marks.items }
    ensures asked { IfOk result (λ v. All (IsAsked algebra.new node.now truths.new.marks.items) v.items) }
    ensures same { IfOk result (λ v. map requirement_of v.items ≡ fields_in requirements.now) }
    ensures numbers { IfOk result (λ v. map number_in v.items ≡ numbers_of (fields_in requirements.now)) }
    ensures next { IfOk result (λ v.
        AreNextOthers (map number_in v.items) (map truth_in v.items) (map next_in v.items)) }
{
    let places = truth_places(rt, alloc, algebra, truths, node, requirements)?;
    let numbers = name_numbers(alloc, requirements)?;
    let nexts = next_others(alloc, numbers.as_slice(), places.as_slice())?;
    let asked = put_together(
        alloc,
        requirements,
        places.as_slice(),
        numbers.as_slice(),
        nexts.as_slice(),
    )?;
    Ok(asked)
}

/// Those of requirements that may be true at a node, in order, with the places of their truths.
///
/// # Errors
///
/// Only for want of memory.
pub fn asked_at<'a, R: Wait>(
    rt: &R,
    alloc: Global,
    algebra: &mut Algebra<'_>,
    truths: &mut Truths,
    node: &Node,
    requirements: &ByExtra<'a>,
) -> Result<SharedList<Asked<'a>>, AllocError>
    requires { All (IsDiagram algebra.old) truths.old.marks.items }
    ensures grown { IsGrown algebra.old truths.old.marks.items algebra.new truths.new.marks.items }
    ensures asked { IfOk result
        (AreAsked algebra.new node.now truths.new.marks.items requirements.now) }
{
    let kept = requirements.at(alloc, node)?;
    let asked = ask_all(rt, alloc, algebra, truths, node, kept.as_slice())?;
    let list = SharedList::of(alloc, asked)?;
    Ok(list)
}

/// The place of where a release is fit.
///
/// # Errors
///
/// Only for want of memory.
pub fn fit_at<R: Wait>(
    rt: &R,
    alloc: Global,
    algebra: &mut Algebra<'_>,
    truths: &mut Truths,
    release: &Release,
) -> Result<usize, AllocError>
    requires { All (IsDiagram algebra.old) truths.old.marks.items }
    ensures grown { IsGrown algebra.old truths.old.marks.items algebra.new truths.new.marks.items }
    ensures fit { IfOk result (λ k.
        IsTruthAt algebra.new truths.new.marks.items k (is_release_fit release.now)) }
{
    let fit = fit_truth(rt, alloc, algebra, release)?;
    let place = truths.put(algebra, &fit)?;
    Ok(place)
}
