//! Problems and derivations of texts, which the tests share.
//!
//! The nodes of a problem stand between semicolons: `NAME FIRST SIZE FRONT`, an extra as `NAME/EXTRA FIRST SIZE FRONT`,
//! and after a comma what each of its versions needs, a set of another node's. A version is a number, from `FIRST` on,
//! behind each part of `FRONT`, which `#` separates.
//!
//! A set stands as `NODE SIZE LOW HIGH`: of a node with so many versions those from `LOW` to before `HIGH`.
//!
//! The steps of a derivation stand between semicolons: `need SET>SET`, `base SET`, `python SET`, or
//! `cut LEFT RIGHT NODE` and after commas its terms, `in SET` or `not SET`.
ghost use Rattle.std.specs.Prelude.{◌<◌, All};

use std::alloc::{AllocError, Global};
use std::fmt::Write;
use ul_base::owned::{with_made, with_one};
use ul_base::{Name, NameFault, Node};
use ul_problem::{
    Need, NeedRow, NeedRows, NodeFacts, Places, Problem, Step, Term, Terms, Versions,
};
use ul_ranges::Ordinals;
use ul_version::Version;

/// The first word of a text, and what comes after the blank behind it.
pub(crate) fn front(text: &str) -> (&str, &str) {
    text.split_once(' ').unwrap_or((text, ""))
}

/// The number that a word is, or 0.
pub(crate) fn number(word: &str) -> u64 {
    word.parse::<u64>().unwrap_or(0)
}

fn small(word: &str) -> u32 {
    word.parse::<u32>().unwrap_or(0)
}

// The numbers from `low` to before `high`, below a size.
fn set(alloc: Global, size: u32, low: u32, high: u32) -> Result<Ordinals, AllocError> {
    let mut members = Vec::new(alloc);
    for k in low..high.min(size) {
        members.push(k)?;
    }
    Ordinals::of_list(alloc, size, &members)
}

// A node's place and a set of its versions.
fn placed(alloc: Global, text: &str) -> Result<(u64, Ordinals), AllocError> {
    let (node, rest) = front(text);
    let (size, rest) = front(rest);
    let (low, high) = front(rest);
    let set = set(alloc, small(size), small(low), small(high))?;
    Ok((number(node), set))
}

fn node(alloc: Global, text: &str) -> Result<Node, NameFault> {
    let (name, extra) = text.split_once('/').unwrap_or((text, ""));
    let name = Name::read(alloc, name)?;
    let extra = Name::read(alloc, extra).ok();
    Ok(Node { name, extra })
}

fn version_text(alloc: Global, front: &str, number: u32) -> Result<String, AllocError> {
    let mut text = String::new(alloc);
    for part in front.split('#') {
        write!(text, "{part}{number}")?;
    }
    Ok(text)
}

fn version(alloc: Global, front: &str, number: u32) -> Option<Version> {
    match version_text(alloc, front, number) {
        Ok(text) => Version::read(alloc, text.as_str()).ok(),
        Err(_) => None,
    }
}

fn versions(alloc: Global, front: &str, first: u32, size: u32) -> Option<Versions> {
    let mut versions = Vec::new(alloc);
    for k in 0..size {
        let version = version(alloc, front, first.wrapping_add(k))?;
        versions = with_one(versions, version).ok()?;
    }
    Versions::of(alloc, versions).ok()
}

// The places below a size.
fn places(alloc: Global, size: u32) -> Result<Places, AllocError> {
    let mut places = Vec::new(alloc);
    for k in 0..size {
        places.push(k)?;
    }
    Places::of(alloc, places)
}

fn need_row(alloc: Global, text: &str) -> Result<NeedRow, AllocError> {
    if text.is_empty() {
        return Ok(NeedRow::none());
    }
    let (node, permitted) = placed(alloc, text)?;
    let needs = vec![in alloc; Need { node, permitted }]?;
    Ok(NeedRow::of(needs))
}

fn need_rows(alloc: Global, text: &str, size: u32) -> Result<NeedRows, AllocError> {
    let mut rows = Vec::new(alloc);
    for _ in 0..size {
        rows = with_made(rows, need_row(alloc, text))?;
    }
    Ok(NeedRows::of(rows))
}

// The facts of a node with these versions; the base of an extra is node 1.
fn facts(
    alloc: Global,
    node: Node,
    versions: Versions,
    size: u32,
    needs: &str,
) -> Result<NodeFacts, AllocError> {
    let base = if node.extra.is_some() { Some(1) } else { None };
    let order = places(alloc, size)?;
    let barred = Ordinals::none(alloc, size)?;
    let needs = need_rows(alloc, needs, size)?;
    Ok(NodeFacts {
        node,
        base,
        versions,
        order,
        barred,
        needs,
    })
}

fn read_facts(alloc: Global, text: &str) -> Option<NodeFacts> {
    let (head, needs) = text.split_once(',').unwrap_or((text, ""));
    let (name, rest) = front(head);
    let (first, rest) = front(rest);
    let (size, pattern) = front(rest);
    let node = node(alloc, name).ok()?;
    let versions = versions(alloc, pattern, small(first), small(size))?;
    facts(alloc, node, versions, small(size), needs).ok()
}

fn read_nodes(alloc: Global, text: &str) -> Option<Vec<NodeFacts>> {
    let mut nodes = Vec::new(alloc);
    for part in text.split(';') {
        let facts = read_facts(alloc, part)?;
        nodes = with_one(nodes, facts).ok()?;
    }
    Some(nodes)
}

/// The problem of nodes whose root is the first.
pub(crate) fn problem_of(alloc: Global, text: &str) -> Option<Problem> {
    let nodes = read_nodes(alloc, text)?;
    let roots = vec![in alloc; 0u64].ok()?;
    if Problem::fits(alloc, roots.as_slice(), nodes.as_slice()) == Ok(true) {
        Some(Problem::of(roots, nodes))
    } else {
        None
    }
}

fn need(alloc: Global, text: &str) -> Result<Step, AllocError> {
    let (from, to) = text.split_once('>').unwrap_or((text, ""));
    let (node, versions) = placed(alloc, from)?;
    let (target, permitted) = placed(alloc, to)?;
    Ok(Step::Need {
        node,
        versions,
        target,
        permitted,
    })
}

fn term(alloc: Global, text: &str) -> Result<Term, AllocError> {
    let (sign, rest) = front(text);
    let (node, set) = placed(alloc, rest)?;
    Ok(if sign == "in" {
        Term::In(node, set)
    } else {
        Term::NotIn(node, set)
    })
}

fn terms(alloc: Global, text: &str) -> Result<Terms, AllocError> {
    let mut terms = Vec::new(alloc);
    for part in text.split(',') {
        if !part.is_empty() {
            terms = with_made(terms, term(alloc, part))?;
        }
    }
    Ok(Terms::of(terms))
}

fn cut(alloc: Global, text: &str) -> Result<Step, AllocError> {
    let (head, rest) = text.split_once(',').unwrap_or((text, ""));
    let (left, head) = front(head);
    let (right, node) = front(head);
    let terms = terms(alloc, rest)?;
    Ok(Step::Cut {
        left: number(left),
        right: number(right),
        node: number(node),
        terms,
    })
}

fn step(alloc: Global, text: &str) -> Result<Step, AllocError> {
    let (kind, rest) = front(text);
    match kind {
        "need" => need(alloc, rest),
        "cut" => cut(alloc, rest),
        _ => {
            let (node, versions) = placed(alloc, rest)?;
            Ok(if kind == "base" {
                Step::Base { node, versions }
            } else {
                Step::Python { node, versions }
            })
        }
    }
}

/// The steps of a derivation.
pub(crate) fn steps_of(alloc: Global, text: &str) -> Result<Vec<Step>, AllocError> {
    let mut steps = Vec::new(alloc);
    for part in text.split(';') {
        if !part.is_empty() {
            steps = with_made(steps, step(alloc, part))?;
        }
    }
    Ok(steps)
}
