//! Problems of texts, which tests of the solver and of cores share.
//!
//! A problem is its root, and after a blank its nodes between semicolons. A node is `NAME`, or `NAME/EXTRA` of the base
//! at place 1, after a blank the first version that isn't fit, if there is one, and behind bars what each of its
//! versions needs: after commas `TARGET SIZE LOW HIGH`, the versions of the target from `LOW` to before `HIGH`.
//!
//! What finds no memory is left out.

ghost use Rattle.std.specs.Prelude.{◌<◌, All};

use std::alloc::{AllocError, Global};
use tests_rows::cells;
use ul_base::owned::{beside, refused};
use ul_base::{Name, Node};
use ul_problem::{Need, NeedRow, NeedRows, NodeFacts, Places, Problem, Versions};
use ul_ranges::Ordinals;
use ul_version::Version;

fn number(word: &str) -> Option<u32> {
    word.parse::<u32>().ok()
}

// The numbers from `low` to before `high`, below a size.
fn set(alloc: Global, size: u32, low: u32, high: u32) -> Result<Ordinals, AllocError> {
    let mut members = Vec::new(alloc);
    for k in low..high.min(size) {
        members.push(k)?;
    }
    Ordinals::of_list(alloc, size, &members)
}

// The first word of a text as a number, or 0, and what comes after the blank behind it.
fn front(text: &str) -> (u32, &str) {
    let (word, rest) = cells(text, ' ');
    (word.parse::<u32>().unwrap_or(0), rest)
}

// Pushes what was made.
fn push_made<T: Drop>(row: &mut Vec<T>, made: Option<T>) {
    if let Some(item) = made {
        let _ = row.push(item);
    }
}

fn need(alloc: Global, text: &str) -> Option<Need> {
    let (node, rest) = front(text);
    let (size, rest) = front(rest);
    let (low, rest) = front(rest);
    let (high, _) = front(rest);
    let permitted = set(alloc, size, low, high).ok()?;
    let node = node as u64;
    Some(Need { node, permitted })
}

fn need_row(alloc: Global, text: &str) -> NeedRow {
    let mut needs = Vec::new(alloc);
    for part in text.split(',') {
        if !part.is_empty() {
            push_made(&mut needs, need(alloc, part));
        }
    }
    NeedRow::of(needs)
}

// The rows of a node's text, each behind a bar.
fn need_rows(alloc: Global, text: &str) -> NeedRows {
    let mut rows = Vec::new(alloc);
    if let Some((_, rest)) = text.split_once('|') {
        for part in rest.split('|') {
            let _ = rows.push(need_row(alloc, part));
        }
    }
    NeedRows::of(rows)
}

// How many rows a node's text has.
fn count(text: &str) -> u32 {
    text.split('|').count().saturating_sub(1).min(100000) as u32
}

// The version that comes in an order after `k` others: the newest first, the oldest, or the one of this number and then
// the newest.
fn version_after(order: &str, size: u32, k: u32) -> u32 {
    let newest = size.saturating_sub(k).saturating_sub(1);
    let Some(first) = number(order) else {
        return if order == "oldest" { k } else { newest };
    };
    if k == 0 {
        return first.min(newest);
    }
    newest + (size.saturating_sub(k) > first) as u32
}

fn places(alloc: Global, size: u32, order: &str) -> Result<Places, AllocError> {
    let mut places = Vec::new(alloc);
    for k in 0..size {
        let _ = places.push(version_after(order, size, k));
    }
    Places::of(alloc, places)
}

// Pushes the version whose release is one number.
fn push_version(alloc: Global, versions: &mut Vec<Version>, number: u64) {
    if let Ok(release) = vec![in alloc; number] {
        let _ = versions.push(Version::plain_of(alloc, release));
    }
}

// The versions 1, 2 and so on.
fn versions(alloc: Global, size: u32) -> Result<Versions, AllocError> {
    let mut versions = Vec::new(alloc);
    for k in 0..size {
        push_version(alloc, &mut versions, k as u64 + 1);
    }
    Versions::of(alloc, versions)
}

// A node, `NAME` or `NAME/EXTRA`.
fn node(alloc: Global, text: &str) -> Option<Node> {
    let (name, extra) = cells(text, '/');
    let name = Name::read(alloc, name).ok()?;
    let extra = Name::read(alloc, extra).ok();
    Some(Node { name, extra })
}

// The versions of a node, their order, and those that aren't fit.
fn sized(
    alloc: Global,
    size: u32,
    order: &str,
    barred: u32,
) -> Result<((Versions, Places), Ordinals), AllocError> {
    let lists = beside(versions(alloc, size)?, places(alloc, size, order))?;
    beside(lists, set(alloc, size, barred, size))
}

fn facts(alloc: Global, text: &str, order: &str) -> Option<NodeFacts> {
    let (head, _) = cells(text, '|');
    let (name, barred) = cells(head, ' ');
    let size = count(text);
    let barred = number(barred).unwrap_or(size);
    let node = node(alloc, name)?;
    let (node, sized) = beside(node, sized(alloc, size, order, barred)).ok()?;
    let ((versions, order), barred) = sized;
    let base = if node.extra.is_some() { Some(1) } else { None };
    let needs = need_rows(alloc, text);
    Some(NodeFacts {
        node,
        base,
        versions,
        order,
        barred,
        needs,
    })
}

fn read_nodes(alloc: Global, text: &str, order: &str) -> Vec<NodeFacts> {
    let mut nodes = Vec::new(alloc);
    for part in text.split(';') {
        push_made(&mut nodes, facts(alloc, part, order));
    }
    nodes
}

/// The problem of a text, where it fits; its versions are preferred in an order.
pub(crate) fn read_problem(alloc: Global, text: &str, order: &str) -> Option<Problem> {
    let (root, nodes) = front(text);
    let nodes = read_nodes(alloc, nodes, order);
    let mut roots = Vec::new(alloc);
    let _ = roots.push(root as u64);
    if Problem::fits(alloc, roots.as_slice(), nodes.as_slice()) == Ok(true) {
        Some(Problem::of(roots, nodes))
    } else {
        refused((roots, nodes))
    }
}
