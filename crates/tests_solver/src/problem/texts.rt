//! Problems of texts, which the tests share.
//!
//! The nodes of a problem stand between semicolons: `NAME SIZE`, an extra as `NAME/EXTRA SIZE`, and after commas what
//! each of its versions needs, `TARGET SIZE LOW HIGH`: the versions of the target from `LOW` to before `HIGH`.
//!
//! What finds no memory is left out.
ghost use Rattle.std.specs.Prelude.{◌<◌, All};

use std::alloc::{AllocError, Global};
use tests_rows::cells;
use ul_base::owned::{beside, refused};
use ul_base::{Name, Node};
use ul_problem::{Need, NeedRow, NeedRows, NodeFacts, Places, Problem, Term, Versions};
use ul_ranges::Ordinals;
use ul_version::Version;

/// The number that a word is, or 0.
pub(crate) fn number(word: &str) -> u32 {
    word.parse::<u32>().unwrap_or(0)
}

/// Pushes what was made.
pub(crate) fn push_made<T: Drop>(row: &mut Vec<T>, made: Option<T>) {
    if let Some(item) = made {
        let _ = row.push(item);
    }
}

// The numbers from `low` to before `high`, below a size.
fn set(alloc: Global, size: u32, low: u32, high: u32) -> Result<Ordinals, AllocError> {
    let mut members = Vec::new(alloc);
    for k in low..high.min(size) {
        members.push(k)?;
    }
    Ordinals::of_list(alloc, size, &members)
}

/// The set of a text `SIZE LOW HIGH`.
pub(crate) fn set_of(alloc: Global, text: &str) -> Result<Ordinals, AllocError> {
    let (size, rest) = cells(text, ' ');
    let (low, high) = cells(rest, ' ');
    set(alloc, number(size), number(low), number(high))
}

/// The term of a text, `in` or `not`, `NODE SIZE LOW HIGH`.
pub(crate) fn term(alloc: Global, text: &str) -> Result<Term, AllocError> {
    let (sign, rest) = cells(text, ' ');
    let (node, rest) = cells(rest, ' ');
    let node = number(node) as u64;
    let set = set_of(alloc, rest)?;
    Ok(if sign == "in" {
        Term::In(node, set)
    } else {
        Term::NotIn(node, set)
    })
}

/// A node, `NAME` or `NAME/EXTRA`.
pub(crate) fn node(alloc: Global, text: &str) -> Option<Node> {
    let (name, extra) = cells(text, '/');
    let name = Name::read(alloc, name).ok()?;
    let extra = Name::read(alloc, extra).ok();
    Some(Node { name, extra })
}

// Pushes the version whose release is one number.
fn push_version(alloc: Global, versions: &mut Vec<Version>, number: u64) {
    if let Ok(release) = vec![in alloc; number] {
        let _ = versions.push(Version::plain_of(alloc, release));
    }
}

// The versions 1, 2 and so on.
fn versions(alloc: Global, size: u32) -> Result<Versions, AllocError> {
    let mut versions = Vec::new(alloc);
    for k in 0..size {
        push_version(alloc, &mut versions, k as u64 + 1);
    }
    Versions::of(alloc, versions)
}

// The places below a size, from the last on.
fn places(alloc: Global, size: u32) -> Result<Places, AllocError> {
    let mut places = Vec::new(alloc);
    for k in 0..size {
        let _ = places.push(size - 1 - k);
    }
    Places::of(alloc, places)
}

fn need(alloc: Global, text: &str) -> Option<Need> {
    let (node, rest) = cells(text, ' ');
    let permitted = set_of(alloc, rest).ok()?;
    let node = number(node) as u64;
    Some(Need { node, permitted })
}

fn need_row(alloc: Global, text: &str) -> NeedRow {
    let mut needs = Vec::new(alloc);
    for part in text.split(',') {
        if !part.is_empty() {
            push_made(&mut needs, need(alloc, part));
        }
    }
    NeedRow::of(needs)
}

fn need_rows(alloc: Global, text: &str, size: u32) -> NeedRows {
    let mut rows = Vec::new(alloc);
    for _ in 0..size {
        let _ = rows.push(need_row(alloc, text));
    }
    NeedRows::of(rows)
}

// The versions of a node, their order, and that none of them is barred.
fn sized(alloc: Global, size: u32) -> Result<((Versions, Places), Ordinals), AllocError> {
    let lists = beside(versions(alloc, size)?, places(alloc, size))?;
    beside(lists, Ordinals::none(alloc, size))
}

// The facts of a node of a text; the base of an extra is node 1.
fn facts(alloc: Global, text: &str) -> Option<NodeFacts> {
    let (head, needs) = cells(text, ',');
    let (name, size) = cells(head, ' ');
    let size = number(size);
    let node = node(alloc, name)?;
    let (node, sized) = beside(node, sized(alloc, size)).ok()?;
    let ((versions, order), barred) = sized;
    let base = if node.extra.is_some() { Some(1) } else { None };
    let needs = need_rows(alloc, needs, size);
    Some(NodeFacts {
        node,
        base,
        versions,
        order,
        barred,
        needs,
    })
}

/// The nodes of a text.
pub(crate) fn read_nodes(alloc: Global, text: &str) -> Vec<NodeFacts> {
    let mut nodes = Vec::new(alloc);
    for part in text.split(';') {
        push_made(&mut nodes, facts(alloc, part));
    }
    nodes
}

/// The problem of a root and of nodes; nothing where they are none.
pub(crate) fn problem_of(alloc: Global, root: u32, text: &str) -> Option<Problem> {
    let nodes = read_nodes(alloc, text);
    let mut roots = Vec::new(alloc);
    let _ = roots.push(root as u64);
    if Problem::fits(alloc, roots.as_slice(), nodes.as_slice()) == Ok(true) {
        Some(Problem::of(roots, nodes))
    } else {
        refused((roots, nodes))
    }
}
