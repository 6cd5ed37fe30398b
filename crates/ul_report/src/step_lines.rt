//! The lines of a derivation.

ghost use Rattle.std.specs.Prelude.{◌≡◌, ◌++◌, ◌∷◌, ◌<◌, ℕ, List, [], IfOk, OnOk, Some, length, string_bytes, true};
ghost use Rattle.ul_problem.specs.Plain.{node_at};
ghost use Rattle.ul_problem.specs.Steps.{AreTermsOf, IsTermOf};
ghost use Rattle.ul_problem.specs.declared.term.Term as Declared;
ghost use Rattle.ul_report.specs.Naming.{HasNames, HaveNames, IsPlaced, flagged_elements, named_step, named_steps, named_term, named_terms, node_of_place, versions_of_set};
ghost use Rattle.ul_report.specs.Texts as spec;
ghost use Rattle.ul_report.specs.Texts.{comma, node_text, placed_text, step_line, step_text, steps_text, term_text, terms_text, versions_text};
ghost use Rattle.ul_version.specs.Texts.{version_text};

use crate::refusals::push_number;
use std::alloc::{AllocError, Global};
use ul_base::Node;
use ul_problem::{Derivation, NodeFacts, Problem, Step, Term};
use ul_ranges::Ordinals;
use ul_version::Version;

// ---- nodes and sets

fn facts_at<'a>(problem: &'a Problem, node: u64) -> &'a NodeFacts
    requires { node < length problem.now.nodes }
    ensures { node_at problem.now node ≡ Some result.now }
{
    &problem.nodes()[node as usize]
}

/// Writes a node: `name` or `name[extra]`.
#[tactic(auto, unfolding(crate::specs::Texts::node_text))]
pub fn push_node(out: &mut String, node: &Node) -> Result<(), AllocError>
    ensures { OnOk result (string_bytes out.new ≡ string_bytes out.old ++ node_text node.now) }
{
    out.push_str(node.name.text())?;
    if let Some(extra) = &node.extra {
        out.push_str("[")?;
        out.push_str(extra.text())?;
        out.push_str("]")?;
    }
    Ok(())
}

fn push_comma(out: &mut String, first: bool) -> Result<(), AllocError>
    ensures { OnOk result (string_bytes out.new ≡ string_bytes out.old ++ comma first) }
{
    if !first {
        out.push_str(",")?;
    }
    Ok(())
}

// Writes a version, behind others where it isn't the first.
fn push_version(
    alloc: Global,
    out: &mut String,
    first: bool,
    version: &Version,
) -> Result<(), AllocError>
    ensures { OnOk result (string_bytes out.new ≡ string_bytes out.old ++ (comma first ++ version_text version.now)) }
{
    let text = version.text(alloc)?;
    push_comma(out, first)?;
    out.push_str(text.as_str())?;
    Ok(())
}

// Writes the versions of a set. Only its members are gone over.
fn push_versions(
    alloc: Global,
    out: &mut String,
    versions: &[Version],
    set: &Ordinals,
) -> Result<(), AllocError>
    requires { length set.now ≡ length versions.now }
    ensures { OnOk result (string_bytes out.new ≡ string_bytes out.old
        ++ versions_text true (flagged_elements set.now versions.now)) }
{
    let size = set.size();
    let mut first = true;
    let mut from = 0;
    while from < size {
        let place = match set.next_from(from) {
            Some(place) => place,
            None => return Ok(()),
        };
        push_version(alloc, out, first, &versions[place as usize])?;
        first = false;
        from = place + 1;
    }
    Ok(())
}

/// Writes a node and a set of its versions in braces.
#[tactic(auto, unfolding(crate::specs::Texts::placed_text))]
pub fn push_placed(
    alloc: Global,
    out: &mut String,
    problem: &Problem,
    node: u64,
    set: &Ordinals,
) -> Result<(), AllocError>
    requires { IsPlaced problem.now node set.now }
    ensures { OnOk result (string_bytes out.new ≡ string_bytes out.old
        ++ placed_text (node_of_place problem.now node) (versions_of_set problem.now node set.now)) }
{
    let facts = facts_at(problem, node);
    push_node(out, &facts.node)?;
    out.push_str(" {")?;
    push_versions(alloc, out, facts.versions.as_slice(), set)?;
    out.push_str("}")?;
    Ok(())
}

// ---- terms

#[tactic(auto, unfolding(crate::specs::Texts::term_text))]
fn push_term(
    alloc: Global,
    out: &mut String,
    problem: &Problem,
    term: &Term,
) -> Result<(), AllocError>
    requires { IsTermOf problem.now term.now }
    ensures { OnOk result (string_bytes out.new ≡ string_bytes out.old ++ term_text (named_term problem.now term.now)) }
{
    match term {
        Term::In(node, set) => push_placed(alloc, out, problem, *node, set),
        Term::NotIn(node, set) => {
            out.push_str("not ")?;
            push_placed(alloc, out, problem, *node, set)
        }
    }
}

fn separator(first: bool) -> &'static str
    ensures { result.now ≡ spec.separator first }
{
    if first { " " } else { ", " }
}

// Writes a term of a cut, unless it is left out, and says whether the next one is the first.
fn push_next(
    alloc: Global,
    out: &mut String,
    problem: &Problem,
    first: bool,
    term: &Term,
) -> Result<bool, AllocError>
    requires { IsTermOf problem.now term.now }
    ensures { IfOk result (λ next. (rest : List Declared.Term)
        → string_bytes out.new ++ terms_text next (named_terms problem.now rest)
        ≡ string_bytes out.old ++ terms_text first (named_terms problem.now (term.now ∷ rest))) }
{
    if term.always_holds() {
        return Ok(first);
    }
    out.push_str(separator(first))?;
    push_term(alloc, out, problem, term)?;
    Ok(false)
}

fn push_terms(
    alloc: Global,
    out: &mut String,
    problem: &Problem,
    terms: &[Term],
) -> Result<(), AllocError>
    requires { AreTermsOf problem.now terms.now }
    ensures { OnOk result (string_bytes out.new ≡ string_bytes out.old
        ++ terms_text true (named_terms problem.now terms.now)) }
{
    let mut first = true;
    for term in terms {
        first = push_next(alloc, out, problem, first, term)?;
    }
    Ok(())
}

// ---- steps

// Writes ` WORD ` and a node with a set of its versions.
fn push_word(
    alloc: Global,
    out: &mut String,
    problem: &Problem,
    word: &str,
    node: u64,
    set: &Ordinals,
) -> Result<(), AllocError>
    requires { IsPlaced problem.now node set.now }
    ensures { OnOk result (string_bytes out.new ≡ string_bytes out.old
        ++ (word.now ++ placed_text (node_of_place problem.now node) (versions_of_set problem.now node set.now))) }
{
    out.push_str(word)?;
    push_placed(alloc, out, problem, node, set)?;
    Ok(())
}

// Writes what a cut says in front of its terms.
fn push_cut(
    out: &mut String,
    problem: &Problem,
    left: u64,
    right: u64,
    node: u64,
) -> Result<(), AllocError>
    requires { node < length problem.now.nodes }
    ensures { OnOk result (string_bytes out.new ≡ string_bytes out.old
        ++ spec.cut_text left right (node_of_place problem.now node)) }
{
    out.push_str(" cut ")?;
    push_number(out, left)?;
    out.push_str(" ")?;
    push_number(out, right)?;
    out.push_str(" on ")?;
    push_node(out, &facts_at(problem, node).node)?;
    out.push_str(":")?;
    Ok(())
}

#[tactic(auto, unfolding(crate::specs::Texts::step_text))]
fn push_step(
    alloc: Global,
    out: &mut String,
    problem: &Problem,
    step: &Step,
) -> Result<(), AllocError>
    requires { HasNames problem.now step.now }
    ensures { OnOk result (string_bytes out.new ≡ string_bytes out.old ++ step_text (named_step problem.now step.now)) }
{
    match step {
        Step::Need {
            node,
            versions,
            target,
            permitted,
        } => {
            push_word(alloc, out, problem, " need ", *node, versions)?;
            push_word(alloc, out, problem, " ", *target, permitted)
        }
        Step::Python { node, versions } => {
            push_word(alloc, out, problem, " python ", *node, versions)
        }
        Step::Base { node, versions } => push_word(alloc, out, problem, " base ", *node, versions),
        Step::Cut {
            left,
            right,
            node,
            terms,
        } => {
            push_cut(out, problem, *left, *right, *node)?;
            push_terms(alloc, out, problem, terms.as_slice())
        }
    }
}

#[tactic(auto, unfolding(crate::specs::Texts::step_line))]
fn push_line(
    alloc: Global,
    out: &mut String,
    problem: &Problem,
    number: u64,
    step: &Step,
) -> Result<(), AllocError>
    requires { HasNames problem.now step.now }
    ensures { OnOk result (string_bytes out.new ≡ string_bytes out.old
        ++ step_line number (named_step problem.now step.now)) }
{
    push_number(out, number)?;
    push_step(alloc, out, problem, step)?;
    out.push_str("\n")?;
    Ok(())
}

/// The lines of a derivation's steps, numbered from 1. A place is printed as the name of its node, a set as the texts
/// of its versions in increasing order. Terms stand in the order of the step, which in a right step is that of the nodes;
/// `not n {}`, which always holds, is left out.
///
/// Each place is one of the problem, and each set has the size of its node's versions. An error is want of memory.
pub fn steps(
    alloc: Global,
    problem: &Problem,
    derivation: &Derivation,
) -> Result<Vec<u8>, AllocError>
    requires { HaveNames problem.now derivation.now }
    ensures { IfOk result (λ v. v.items ≡ steps_text (named_steps problem.now derivation.now)) }
{
    let mut out = String::new(alloc);
    let steps = derivation.as_slice();
    for i in 0..steps.len() {
        push_line(alloc, &mut out, problem, i as u64 + 1, &steps[i])?;
    }
    Ok(out.into_bytes())
}
