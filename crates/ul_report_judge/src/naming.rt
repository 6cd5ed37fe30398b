//! Steps by names, as steps of a problem.
ghost use Rattle.std.specs.Prelude.{◌≡◌, ◌++◌, IfOk, Some, option_map};
ghost use Rattle.ul_report_judge.specs.Front.{IsFrontOf};
ghost use Rattle.ul_report_judge.specs.Names.{base_of_names, cut_of_names, need_of_names, python_of_names, step_of_names, term_of_names, terms_of_names};

use crate::places::{place_of_node, placed};
use std::alloc::{AllocError, Global};
use ul_base::Node;
use ul_problem::{Problem, Step, Term, Terms};
use ul_report::{TextStep, TextTerm};
use ul_version::Version;

fn term(alloc: Global, problem: &Problem, text: &TextTerm) -> Result<Option<Term>, AllocError>
    ensures { IfOk result (λ o. o ≡ term_of_names problem.now text.now) }
{
    match text {
        TextTerm::In(node, versions) => match placed(alloc, problem, node, versions.as_slice())? {
            Some((place, set)) => Ok(Some(Term::In(place, set))),
            None => Ok(None),
        },
        TextTerm::NotIn(node, versions) => match placed(
            alloc,
            problem,
            node,
            versions.as_slice(),
        )? {
            Some((place, set)) => Ok(Some(Term::NotIn(place, set))),
            None => Ok(None),
        },
    }
}

fn terms(
    alloc: Global,
    problem: &Problem,
    texts: &[TextTerm],
) -> Result<Option<Vec<Term>>, AllocError>
    ensures { IfOk result (λ o. option_map (λ v. v.items) o ≡ terms_of_names problem.now texts.now) }
{
    let mut terms = Vec::with_capacity(alloc, texts.len())?;
    for text in texts {
        match term(alloc, problem, text)? {
            Some(term) => terms.push(term)?,
            None => return Ok(None),
        }
    }
    Ok(Some(terms))
}

fn need(
    alloc: Global,
    problem: &Problem,
    node: &Node,
    versions: &[Version],
    target: &Node,
    permitted: &[Version],
) -> Result<Option<Step>, AllocError>
    ensures { IfOk result (λ o. o ≡ need_of_names problem.now node.now versions.now target.now permitted.now) }
{
    let Some((node, versions)) = placed(alloc, problem, node, versions)? else {
        return Ok(None);
    };
    match placed(alloc, problem, target, permitted)? {
        Some((target, permitted)) => Ok(Some(Step::Need {
            node,
            versions,
            target,
            permitted,
        })),
        None => Ok(None),
    }
}

fn cut(
    alloc: Global,
    problem: &Problem,
    left: u64,
    right: u64,
    node: &Node,
    texts: &[TextTerm],
) -> Result<Option<Step>, AllocError>
    ensures { IfOk result (λ o. o ≡ cut_of_names problem.now left right node.now texts.now) }
{
    let Some(node) = place_of_node(problem, node) else {
        return Ok(None);
    };
    match terms(alloc, problem, texts)? {
        Some(terms) => Ok(Some(Step::Cut {
            left,
            right,
            node,
            terms: Terms::of(terms),
        })),
        None => Ok(None),
    }
}

fn python(
    alloc: Global,
    problem: &Problem,
    node: &Node,
    versions: &[Version],
) -> Result<Option<Step>, AllocError>
    ensures { IfOk result (λ o. o ≡ python_of_names problem.now node.now versions.now) }
{
    match placed(alloc, problem, node, versions)? {
        Some((node, versions)) => Ok(Some(Step::Python { node, versions })),
        None => Ok(None),
    }
}

fn base(
    alloc: Global,
    problem: &Problem,
    node: &Node,
    versions: &[Version],
) -> Result<Option<Step>, AllocError>
    ensures { IfOk result (λ o. o ≡ base_of_names problem.now node.now versions.now) }
{
    match placed(alloc, problem, node, versions)? {
        Some((node, versions)) => Ok(Some(Step::Base { node, versions })),
        None => Ok(None),
    }
}

// The step that is named; `None` where a node or a version isn't the problem's.
fn step(alloc: Global, problem: &Problem, text: &TextStep) -> Result<Option<Step>, AllocError>
    ensures { IfOk result (λ o. o ≡ step_of_names problem.now text.now) }
{
    match text {
        TextStep::Need {
            node,
            versions,
            target,
            permitted,
        } => need(
            alloc,
            problem,
            node,
            versions.as_slice(),
            target,
            permitted.as_slice(),
        ),
        TextStep::Python { node, versions } => python(alloc, problem, node, versions.as_slice()),
        TextStep::Base { node, versions } => base(alloc, problem, node, versions.as_slice()),
        TextStep::Cut {
            left,
            right,
            node,
            terms,
        } => cut(alloc, problem, *left, *right, node, terms.as_slice()),
    }
}

/// The steps that are named, up to the first that names what the problem hasn't.
pub fn front(alloc: Global, problem: &Problem, texts: &[TextStep]) -> Result<Vec<Step>, AllocError>
    ensures { IfOk result (λ v. IsFrontOf problem.now texts.now v.items) }
{
    let mut steps = Vec::new(alloc);
    for text in texts {
        match step(alloc, problem, text)? {
            Some(step) => steps.push(step)?,
            None => return Ok(steps),
        }
    }
    Ok(steps)
}
