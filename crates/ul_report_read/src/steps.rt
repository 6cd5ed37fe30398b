//! Reading what a step says.
ghost use Rattle.std.specs.Prelude.{◌≡◌, IfOk, option_map};
ghost use Rattle.ul_report_read.specs.Proofs as shape;
ghost use Rattle.ul_report_read.specs.StepReading as spec;
ghost use Rattle.ul_report_read.specs.StepReading.{front_at, step_at, term_at, terms_at};
ghost use Rattle.ul_report_read.specs.Tokens.{rises, rises_from};

use crate::tokens::{after, node, number, placed};
use std::alloc::{AllocError, Global};
use ul_base::Node;
use ul_base::owned::{beside, refused};
use ul_lines::{divided, stripped};
use ul_report::{Terms, TextStep, TextTerm, Versions};
use ul_version::ascii::{Only, piece_len};

// ---- terms

// A term, up to its closing brace.
#[tactic(auto, unfolding(crate::specs::StepReading::term_at))]
fn term(alloc: Global, bytes: &[u8]) -> Result<Option<TextTerm>, AllocError>
    ensures { IfOk result (λ o. o ≡ term_at bytes.now) }
{
    if let Some((node, versions)) = placed(alloc, bytes)? {
        return Ok(Some(TextTerm::In(node, versions)));
    }
    negative(alloc, bytes)
}

fn negative(alloc: Global, bytes: &[u8]) -> Result<Option<TextTerm>, AllocError>
    ensures { IfOk result (λ o. o ≡ spec.negative_at bytes.now) }
{
    match stripped(bytes, b"not ") {
        None => Ok(None),
        Some(rest) => match placed(alloc, rest)? {
            None => Ok(None),
            Some((node, versions)) => {
                if versions.as_slice().is_empty() {
                    Ok(refused((node, versions)))
                } else {
                    Ok(Some(TextTerm::NotIn(node, versions)))
                }
            }
        },
    }
}

fn separator(first: bool) -> &'static [u8]
    ensures { result.now ≡ spec.separator first }
{
    if first { b" " } else { b", " }
}

// A term behind what stands before it.
fn parted(alloc: Global, first: bool, bytes: &[u8]) -> Result<Option<TextTerm>, AllocError>
    ensures { IfOk result (λ o. o ≡ spec.parted_at first bytes.now) }
{
    match stripped(bytes, separator(first)) {
        None => Ok(None),
        Some(rest) => term(alloc, rest),
    }
}

// The terms of a cut, as they stand.
fn all_terms(alloc: Global, bytes: &[u8]) -> Result<Option<Vec<TextTerm>>, AllocError>
    ensures { IfOk result (λ o. option_map (λ v. v.items) o ≡ spec.all_terms_at bytes.now) }
{
    let brace = Only { byte: b'}' };
    let mut terms = Vec::new(alloc);
    let mut first = true;
    let mut rest = bytes;
    // Each turn takes a byte at least.
    for turn in 0..bytes.len() + 1 {
        if rest.is_empty() {
            return Ok(Some(terms));
        }
        let count = piece_len(&brace, rest);
        if count >= rest.len() {
            return Ok(None);
        }
        match parted(alloc, first, &rest[..count])? {
            None => return Ok(None),
            Some(term) => terms.push(term)?,
        }
        first = false;
        rest = after(rest, count);
    }
    unreachable!()
}

fn node_in(term: &TextTerm) -> &Node
    ensures { result.now ≡ shape.node_in term.now }
{
    match term {
        TextTerm::In(node, _) => node,
        TextTerm::NotIn(node, _) => node,
    }
}

// Whether the nodes of the terms increase, from this one on.
fn increase_from(first: &TextTerm, rest: &[TextTerm]) -> bool
    ensures { result ≡ rises_from spec.term_less first.now rest.now }
{
    let mut last = first;
    for term in rest {
        if !node_in(last).cmp(node_in(term)).is_lt() {
            return false;
        }
        last = term;
    }
    true
}

fn increase(terms: &[TextTerm]) -> bool
    ensures { result ≡ rises spec.term_less terms.now }
{
    match terms {
        [] => true,
        [first, rest @ ..] => increase_from(first, rest),
    }
}

// The terms of a cut, whose nodes increase.
#[tactic(auto, unfolding(crate::specs::StepReading::terms_at))]
fn terms(alloc: Global, bytes: &[u8]) -> Result<Option<Terms>, AllocError>
    ensures { IfOk result (λ o. o ≡ terms_at bytes.now) }
{
    match all_terms(alloc, bytes)? {
        None => Ok(None),
        Some(terms) => {
            if increase(terms.as_slice()) {
                Ok(Some(Terms::of(terms)))
            } else {
                Ok(None)
            }
        }
    }
}

// ---- steps

// A node and a set in braces, and what follows.
#[tactic(auto, unfolding(crate::specs::StepReading::front_at))]
fn front<'a>(
    alloc: Global,
    bytes: &'a [u8],
) -> Result<Option<(Node, Versions, &'a [u8])>, AllocError>
    ensures { IfOk result (λ o. option_map (λ a. (a.0, a.1, a.2.now)) o ≡ front_at bytes.now) }
{
    match divided(bytes, b'}') {
        None => Ok(None),
        Some((inner, rest)) => match placed(alloc, inner)? {
            None => Ok(None),
            Some((node, versions)) => Ok(Some((node, versions, rest))),
        },
    }
}

// A node and a set to the end.
fn last(alloc: Global, bytes: &[u8]) -> Result<Option<(Node, Versions)>, AllocError>
    ensures { IfOk result (λ o. o ≡ spec.last_at bytes.now) }
{
    match front(alloc, bytes)? {
        None => Ok(None),
        Some((node, versions, rest)) => {
            if rest.is_empty() {
                Ok(Some((node, versions)))
            } else {
                Ok(refused((node, versions)))
            }
        }
    }
}

fn target(
    alloc: Global,
    node: Node,
    versions: Versions,
    bytes: &[u8],
) -> Result<Option<TextStep>, AllocError>
    ensures { IfOk result (λ o. o ≡ spec.target_at node versions bytes.now) }
{
    match stripped(bytes, b" ") {
        None => Ok(refused((node, versions))),
        Some(rest) => {
            let (source, found) = beside((node, versions), last(alloc, rest))?;
            match found {
                None => Ok(refused(source)),
                Some((target, permitted)) => {
                    let (node, versions) = source;
                    Ok(Some(TextStep::Need {
                        node,
                        versions,
                        target,
                        permitted,
                    }))
                }
            }
        }
    }
}

fn need(alloc: Global, bytes: &[u8]) -> Result<Option<TextStep>, AllocError>
    ensures { IfOk result (λ o. o ≡ spec.need_in bytes.now) }
{
    match front(alloc, bytes)? {
        None => Ok(None),
        Some((node, versions, rest)) => target(alloc, node, versions, rest),
    }
}

fn python(alloc: Global, bytes: &[u8]) -> Result<Option<TextStep>, AllocError>
    ensures { IfOk result (λ o. o ≡ spec.python_in bytes.now) }
{
    match last(alloc, bytes)? {
        None => Ok(None),
        Some((node, versions)) => Ok(Some(TextStep::Python { node, versions })),
    }
}

fn base(alloc: Global, bytes: &[u8]) -> Result<Option<TextStep>, AllocError>
    ensures { IfOk result (λ o. o ≡ spec.base_in bytes.now) }
{
    match last(alloc, bytes)? {
        None => Ok(None),
        Some((node, versions)) => Ok(Some(TextStep::Base { node, versions })),
    }
}

// A cut of two numbers, behind them.
fn cut_of(
    alloc: Global,
    left: u64,
    right: u64,
    bytes: &[u8],
) -> Result<Option<TextStep>, AllocError>
    ensures { IfOk result (λ o. o ≡ spec.cut_of left right bytes.now) }
{
    match stripped(bytes, b"on ") {
        None => Ok(None),
        Some(rest) => match divided(rest, b':') {
            None => Ok(None),
            Some((front, back)) => match node(alloc, front)? {
                None => Ok(None),
                Some(node) => match terms(alloc, back)? {
                    None => Ok(None),
                    Some(terms) => Ok(Some(TextStep::Cut {
                        left,
                        right,
                        node,
                        terms,
                    })),
                },
            },
        },
    }
}

/// The number up to a space, and what follows.
pub fn number_front(bytes: &[u8]) -> Option<(u64, &[u8])>
    ensures { option_map (λ a. (a.0, a.1.now)) result ≡ spec.number_front_at bytes.now }
{
    match divided(bytes, b' ') {
        None => None,
        Some((front, back)) => match number(front) {
            None => None,
            Some(number) => Some((number, back)),
        },
    }
}

fn cut(alloc: Global, bytes: &[u8]) -> Result<Option<TextStep>, AllocError>
    ensures { IfOk result (λ o. o ≡ spec.cut_in bytes.now) }
{
    match number_front(bytes) {
        None => Ok(None),
        Some((left, rest)) => match number_front(rest) {
            None => Ok(None),
            Some((right, rest)) => cut_of(alloc, left, right, rest),
        },
    }
}

/// What a step says, behind its number.
#[tactic(auto, unfolding(crate::specs::StepReading::step_at))]
pub fn step(alloc: Global, bytes: &[u8]) -> Result<Option<TextStep>, AllocError>
    ensures { IfOk result (λ o. o ≡ step_at bytes.now) }
{
    if let Some(rest) = stripped(bytes, b"need ") {
        return need(alloc, rest);
    }
    if let Some(rest) = stripped(bytes, b"python ") {
        return python(alloc, rest);
    }
    if let Some(rest) = stripped(bytes, b"base ") {
        return base(alloc, rest);
    }
    match stripped(bytes, b"cut ") {
        None => Ok(None),
        Some(rest) => cut(alloc, rest),
    }
}
