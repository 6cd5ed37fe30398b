//! The tests of a step.
ghost use Rattle.std.specs.Prelude.{◌≡◌, ◌<◌, ◌↔◌, ℕ, [], true, length, get_or, option_map, IfOk, IfSome, IsTrue};
ghost use Rattle.std.specs.Option.{option_copied};
ghost use Rattle.ul_problem.specs.Plain.{size_of};
ghost use Rattle.ul_problem.specs.Terms.{IsOrdered};
ghost use Rattle.ul_problem.specs.Steps.{AreOfOne, AreRightAfter, AreTermsOf, HasNeed, HasTermOn, IsResolvent, IsRight, IsRightBase, IsCutOf, IsStepWithin, IsRightNeed, IsRightPython, says, step_of};
ghost use Rattle.ul_derivation.specs.Looking.{AreCut, AreCutOf, AreNeedsOfSize, HaveNeed, IsSaid, said_or};

use crate::index::{Entry, Index};
use std::alloc::{AllocError, Global};
use ul_problem::{Incompat, Need, NeedRow, Problem, Step, Term, is_resolvent, term_on};
use ul_ranges::Ordinals;

// Whether the problem has the node, and the set has the size of its versions.
pub fn is_set_of(problem: &Problem, node: u64, set: &Ordinals) -> bool
    ensures { IsTrue result ↔ ((node < length problem.now.nodes) × (length set.now ≡ size_of problem.now node)) }
{
    match problem.nodes().get(node as usize) {
        Some(facts) => facts.versions.as_slice().len() == set.size() as usize,
        None => false,
    }
}

// Whether the need at a place has this target, and its permitted versions are all in the set.
fn is_need_at(needs: &[Need], place: usize, target: u64, permitted: &Ordinals) -> bool
    requires { AreNeedsOfSize needs.now target (length permitted.now) }
    ensures { IsTrue result → HasNeed needs.now target permitted.now }
{
    if place >= needs.len() {
        return false;
    }
    let need = &needs[place];
    need.node == target && need.permitted.is_within(permitted)
}

// Whether an index of the needs leads to such a need.
fn is_led_to(needs: &[Need], entries: &[Entry], target: u64, permitted: &Ordinals) -> bool
    requires { AreNeedsOfSize needs.now target (length permitted.now) }
    ensures { IsTrue result → HasNeed needs.now target permitted.now }
{
    let first = match entries.binary_search(&(target, 0)) {
        Ok(first) => first,
        Err(first) => first,
    };
    for entry in &entries[first..] {
        if entry.0 != target {
            return false;
        }
        if is_need_at(needs, entry.1, target, permitted) {
            return true;
        }
    }
    false
}

// Whether among the needs of a version is one of this target, whose permitted versions are all in the set.
fn has_need(needs: &[Need], target: u64, permitted: &Ordinals) -> bool
    requires { AreNeedsOfSize needs.now target (length permitted.now) }
    ensures { IsTrue result ↔ HasNeed needs.now target permitted.now }
{
    for need in needs {
        if need.node == target && need.permitted.is_within(permitted) {
            return true;
        }
    }
    false
}

// Whether each of the versions has the need.
fn all_need(
    alloc: Global,
    index: &mut Index,
    node: u64,
    rows: &[NeedRow],
    versions: &Ordinals,
    target: u64,
    permitted: &Ordinals,
) -> Result<bool, AllocError>
    requires rows { length rows.now ≡ length versions.now }
    requires sizes { (v : ℕ) → AreNeedsOfSize (get_or rows.now v []) target (length permitted.now) }
    ensures { IfOk result (λ b. IsTrue b ↔ HaveNeed rows.now versions.now target permitted.now) }
{
    let size = versions.size();
    let mut from = 0;
    while from < size {
        let version = match versions.next_from(from) {
            Some(version) => version,
            None => return Ok(true),
        };
        let needs = rows[version as usize].as_slice();
        index.prepare(alloc, node, version, needs)?;
        if !is_led_to(needs, index.entries(node, version), target, permitted)
            && !has_need(needs, target, permitted)
        {
            return Ok(false);
        }
        from = version + 1;
    }
    Ok(true)
}

fn need_is_right(
    alloc: Global,
    index: &mut Index,
    problem: &Problem,
    node: u64,
    versions: &Ordinals,
    target: u64,
    permitted: &Ordinals,
) -> Result<bool, AllocError>
    ensures { IfOk result (λ b. IsTrue b ↔ IsRightNeed problem.now node versions.now target permitted.now) }
{
    if is_set_of(problem, node, versions) && is_set_of(problem, target, permitted) {
        let rows = problem.nodes()[node as usize].needs.as_slice();
        all_need(alloc, index, node, rows, versions, target, permitted)
    } else {
        Ok(false)
    }
}

fn python_is_right(problem: &Problem, node: u64, versions: &Ordinals) -> bool
    ensures { IsTrue result ↔ IsRightPython problem.now node versions.now }
{
    is_set_of(problem, node, versions) && versions.is_within(&problem.nodes()[node as usize].barred)
}

fn base_is_right(problem: &Problem, node: u64, versions: &Ordinals) -> bool
    ensures { IsTrue result ↔ IsRightBase problem.now node versions.now }
{
    is_set_of(problem, node, versions) && problem.nodes()[node as usize].base.is_some()
}

// The step of a number, from 1.
fn step_of(earlier: &[Step], number: u64) -> Option<&Step>
    ensures { option_copied result ≡ step_of earlier.now number }
{
    if number == 0 {
        None
    } else {
        earlier.get(number as usize - 1)
    }
}

fn are_terms_of(problem: &Problem, terms: &[Term]) -> bool
    ensures { IsTrue result ↔ AreTermsOf problem.now terms.now }
{
    for term in terms {
        if !is_set_of(problem, term.node(), term.set()) {
            return false;
        }
    }
    true
}

fn has_term_on(terms: &[Term], node: u64) -> bool
    ensures { IsTrue result ↔ HasTermOn node terms.now }
{
    term_on(terms, node).is_some()
}

// What a step says, where it isn't a cut, whose terms stand in it.
fn made(alloc: Global, problem: &Problem, step: &Step) -> Result<Option<Incompat>, AllocError>
    requires { IsStepWithin problem.now step.now }
    ensures { IfOk result (λ o. IsSaid problem.now step.now (said_or step.now o)) }
{
    match step {
        Step::Cut { .. } => Ok(None),
        _ => {
            let terms = step.says(alloc, problem)?;
            Ok(Some(terms))
        }
    }
}

// What a step says, as it was made, or as it stands in a cut.
fn said<'a>(step: &'a Step, made: &'a Option<Incompat>) -> &'a [Term]
    ensures { result.now ≡ said_or step.now made.now }
{
    match made {
        Some(terms) => terms.terms(),
        None => match step {
            Step::Cut { terms, .. } => terms.as_slice(),
            _ => &[],
        },
    }
}

// Whether both have a term on the node, and the terms are their resolvent on it.
fn are_cut(
    alloc: Global,
    node: u64,
    left: &[Term],
    right: &[Term],
    terms: &[Term],
) -> Result<bool, AllocError>
    requires sizes { AreOfOne left.now right.now }
    requires in_order { IsOrdered left.now × IsOrdered right.now }
    ensures { IfOk result (λ b. IsTrue b ↔ AreCut node left.now right.now terms.now) }
{
    if has_term_on(left, node) && has_term_on(right, node) {
        is_resolvent(alloc, node, left, right, terms)
    } else {
        Ok(false)
    }
}

// Whether the terms are what a cut of two steps on the node says.
fn is_cut_of(
    alloc: Global,
    problem: &Problem,
    left: &Step,
    right: &Step,
    node: u64,
    terms: &[Term],
) -> Result<bool, AllocError>
    requires left { IsStepWithin problem.now left.now }
    requires right { IsStepWithin problem.now right.now }
    ensures { IfOk result (λ b. IsTrue b ↔ AreCutOf problem.now left.now right.now node terms.now) }
{
    let made_left = made(alloc, problem, left)?;
    let made_right = made(alloc, problem, right)?;
    are_cut(
        alloc,
        node,
        said(left, &made_left),
        said(right, &made_right),
        terms,
    )
}

// Whether the terms are the resolvent on a node of the steps of two numbers.
fn is_cut(
    alloc: Global,
    problem: &Problem,
    earlier: &[Step],
    numbers: (u64, u64),
    node: u64,
    terms: &[Term],
) -> Result<bool, AllocError>
    requires { AreRightAfter problem.now [] earlier.now }
    ensures { IfOk result (λ b. IsTrue b ↔ IsCutOf problem.now earlier.now numbers.0 numbers.1 node terms.now) }
{
    match step_of(earlier, numbers.0) {
        None => Ok(false),
        Some(left) => match step_of(earlier, numbers.1) {
            None => Ok(false),
            Some(right) => is_cut_of(alloc, problem, left, right, node, terms),
        },
    }
}

// Whether a step is right after earlier ones, which are right.
pub fn is_right(
    alloc: Global,
    index: &mut Index,
    problem: &Problem,
    earlier: &[Step],
    step: &Step,
) -> Result<bool, AllocError>
    requires { AreRightAfter problem.now [] earlier.now }
    ensures { IfOk result (λ b. IsTrue b ↔ IsRight problem.now earlier.now step.now) }
{
    match step {
        Step::Need {
            node,
            versions,
            target,
            permitted,
        } => need_is_right(alloc, index, problem, *node, versions, *target, permitted),
        Step::Python { node, versions } => Ok(python_is_right(problem, *node, versions)),
        Step::Base { node, versions } => Ok(base_is_right(problem, *node, versions)),
        Step::Cut {
            left,
            right,
            node,
            terms,
        } => {
            let terms = terms.as_slice();
            if are_terms_of(problem, terms) {
                is_cut(alloc, problem, earlier, (*left, *right), *node, terms)
            } else {
                Ok(false)
            }
        }
    }
}
