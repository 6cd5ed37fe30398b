//! The resolvent of two incompatibilities.
ghost use Rattle.std.specs.Prelude.{◌≡◌, ◌≤◌, ◌↔◌, ◌++◌, Option, Some, length, IfOk, IfSome, IsTrue};
ghost use Rattle.std.specs.Option.{option_copied, option_to_list};
ghost use Rattle.ul_problem.specs.Terms.{node_of, set_of, IsOrdered};
ghost use Rattle.ul_problem.specs.Plain.{Plain};
ghost use Rattle.ul_problem.specs.Steps.{AreOfOne, AreTermsOf, IsResolvent, resolvent_term};
ghost use Rattle.ul_problem.specs.declared.term.Term.{Term};
ghost use Rattle.ul_problem.specs.Turns.{turn_of, lone_of, AreLevel, IsPassed};

use crate::incompat::Incompat;
use crate::saying::written;
use crate::term::{Term, Terms, same_terms};
use std::alloc::{AllocError, Global};

// What the next turn of a merge takes from each side, and the term that it gives.
#[derive(Drop)]
struct Turn {
    left: usize,
    right: usize,
    term: Option<Term>,
}

/// The resolvent of two incompatibilities on a node: their terms on that node joined, and on every other node met.
///
/// Both are of one problem, and so is the resolvent.
pub fn resolvent(
    alloc: Global,
    node: u64,
    left: &Incompat,
    right: &Incompat,
) -> Result<Incompat, AllocError>
    requires { AreOfOne left.now right.now }
    ensures value { IfOk result (λ ts. IsResolvent node left.now right.now ts) }
    ensures fits { IfOk result (λ ts. (p : Plain) → AreTermsOf p left.now → AreTermsOf p right.now → AreTermsOf p ts) }
{
    let terms = merged(alloc, node, left.terms(), right.terms())?;
    Ok(Incompat::of(terms))
}

/// Whether terms are the resolvent of two incompatibilities on a node. The three lists are merged in step.
pub fn is_resolvent(
    alloc: Global,
    node: u64,
    left: &[Term],
    right: &[Term],
    terms: &[Term],
) -> Result<bool, AllocError>
    requires sizes { AreOfOne left.now right.now }
    requires in_order { IsOrdered left.now × IsOrdered right.now }
    ensures { IfOk result (λ b. IsTrue b ↔ IsResolvent node left.now right.now terms.now) }
{
    if is_merged(alloc, node, left, right, terms)? {
        return Ok(true);
    }
    let wanted = merged(alloc, node, left, right)?;
    Ok(same_terms(wanted.as_slice(), terms))
}

// Whether the merge of two lists gives the terms, one after another.
fn is_merged(
    alloc: Global,
    node: u64,
    left: &[Term],
    right: &[Term],
    terms: &[Term],
) -> Result<bool, AllocError>
    requires sizes { AreOfOne left.now right.now }
    requires in_order { IsOrdered left.now × IsOrdered right.now }
    ensures { IfOk result (λ b. IsTrue b → IsResolvent node left.now right.now terms.now) }
{
    let mut place = 0;
    let mut i = 0;
    let mut j = 0;
    while i < left.len() || j < right.len() {
        let turn = next_turn(alloc, node, left[i..].first(), right[j..].first())?;
        i += turn.left;
        j += turn.right;
        place = match place_after(terms, place, turn.term) {
            Some(next) => next,
            None => return Ok(false),
        };
    }
    Ok(place == terms.len())
}

// The place after a term, where the list has it at a place; the place itself where there is none.
fn place_after(terms: &[Term], place: usize, term: Option<Term>) -> Option<usize>
    requires { place ≤ length terms.now }
    ensures { IfSome result (λ next. IsPassed terms.now place term next) }
{
    match term {
        Some(term) => if place < terms.len() && terms[place].same(&term) {
            Some(place + 1)
        } else {
            None
        },
        None => Some(place),
    }
}

// The merge of two lists of terms in the order of their nodes.
fn merged(alloc: Global, node: u64, left: &[Term], right: &[Term]) -> Result<Terms, AllocError>
    requires sizes { AreOfOne left.now right.now }
    requires in_order { IsOrdered left.now × IsOrdered right.now }
    ensures { IfOk result (λ ts. IsResolvent node left.now right.now ts) }
{
    let mut terms = Vec::new(alloc);
    let mut i = 0;
    let mut j = 0;
    while i < left.len() || j < right.len() {
        let turn = next_turn(alloc, node, left[i..].first(), right[j..].first())?;
        i += turn.left;
        j += turn.right;
        push_some(&mut terms, turn.term)?;
    }
    Ok(Terms::of(terms))
}

// A term at the end of a list, where there is one.
fn push_some(terms: &mut Vec<Term>, term: Option<Term>) -> Result<(), AllocError>
    ensures { IfOk result (λ _. terms.new.items ≡ terms.old.items ++ option_to_list term) }
{
    if let Some(term) = term {
        terms.push(term)?;
    }
    Ok(())
}

// The turn of a merge: the side whose first term is on the earlier node, or both.
fn next_turn(
    alloc: Global,
    node: u64,
    left: Option<&Term>,
    right: Option<&Term>,
) -> Result<Turn, AllocError>
    requires { AreLevel (option_copied left) (option_copied right) }
    ensures { IfOk result (λ t. t ≡ turn_of node (option_copied left.entry) (option_copied right.entry)) }
{
    match (left, right) {
        (Some(a), Some(b)) if a.node() == b.node() => turn_with(
            1,
            1,
            both_terms(alloc, node, a, b),
        ),
        (Some(a), Some(b)) if b.node() < a.node() => turn_with(0, 1, lone_term(alloc, node, b)),
        (Some(a), Some(_)) => turn_with(1, 0, lone_term(alloc, node, a)),
        (Some(a), None) => turn_with(1, 0, lone_term(alloc, node, a)),
        (None, Some(b)) => turn_with(0, 1, lone_term(alloc, node, b)),
        (None, None) => Ok(Turn {
            left: 0,
            right: 0,
            term: None,
        }),
    }
}

// A turn that takes so many terms of each side, with the term that was made.
fn turn_with(
    left: usize,
    right: usize,
    made: Result<Option<Term>, AllocError>,
) -> Result<Turn, AllocError>
    ensures { (term : Option Term) → IfOk made (λ t. t ≡ term)
        → IfOk result (λ t. t ≡ record { left = left; right = right; term = term }) }
{
    let term = made?;
    Ok(Turn { left, right, term })
}

// The resolvent's term on the node of a term that one side alone has.
fn lone_term(alloc: Global, node: u64, term: &Term) -> Result<Option<Term>, AllocError>
    ensures { IfOk result (λ t. t ≡ lone_of node term.now) }
{
    if term.node() == node {
        Ok(None)
    } else {
        Ok(Some(term.copy(alloc)?))
    }
}

// The resolvent's term on the node that two terms have.
fn both_terms(
    alloc: Global,
    node: u64,
    left: &Term,
    right: &Term,
) -> Result<Option<Term>, AllocError>
    requires nodes { node_of left.now ≡ node_of right.now }
    requires sizes { length (set_of left.now) ≡ length (set_of right.now) }
    ensures { IfOk result (λ t. t ≡ resolvent_term node (node_of left.now) (Some left.now) (Some right.now)) }
{
    let term = if left.node() == node {
        left.join(alloc, right)?
    } else {
        left.meet(alloc, right)?
    };
    Ok(written(term))
}
