//! The test of a problem's rules.
ghost use Rattle.std.specs.Prelude.{◌≡◌, ◌<◌, ◌↔◌, [], false, All, IfOk, IsTrue, get_or, length, slice_get};
ghost use Rattle.ul_problem.specs.Marks.{AreMarked, HasNoMark, IsNeedMarked};
ghost use Rattle.ul_problem.specs.Plain.{base_in, size_in};
ghost use Rattle.ul_problem.specs.Problems.{AllAre, AreNeeds, AreOneBase, HasBase, Increases, IsBaseOf, IsExtraOf, IsNodeOf, IsOrderOf, IsSingle, IsWellFormed, NodeBefore, PlaceBefore, VersionBefore};

use crate::problem::{Need, NeedRow, NodeFacts, Problem};
use std::alloc::{AllocError, Global};
use std::cmp::Ordering;
use ul_base::owned::beside;
use ul_ranges::Ordinals;
use ul_version::Version;

impl Problem {
    /// Whether these roots and nodes make a problem, as `Problem::of` wants them, in time proportional to it.
    pub fn fits(alloc: Global, roots: &[u64], nodes: &[NodeFacts]) -> Result<bool, AllocError>
        ensures { IfOk result (λ b. IsTrue b ↔ IsWellFormed (record { roots = roots.now; nodes = nodes.now })) }
    {
        if !nodes_increase(nodes)
            || !roots_increase(roots)
            || !are_one_base(nodes, roots)
            || !are_single(nodes, roots)
        {
            return Ok(false);
        }
        let mut marks = vec![in alloc; false; nodes.len()]?;
        let fit = are_nodes(alloc, nodes, nodes, &mut marks)?;
        Ok(fit)
    }
}

fn nodes_increase(nodes: &[NodeFacts]) -> bool
    ensures { IsTrue result ↔ Increases NodeBefore nodes.now }
{
    for k in 1..nodes.len() {
        if nodes[k - 1].node.cmp(&nodes[k].node) != Ordering::Less {
            return false;
        }
    }
    true
}

fn versions_increase(versions: &[Version]) -> bool
    ensures { IsTrue result ↔ Increases VersionBefore versions.now }
{
    for k in 1..versions.len() {
        if versions[k - 1].cmp(&versions[k]) != Ordering::Less {
            return false;
        }
    }
    true
}

fn roots_increase(roots: &[u64]) -> bool
    ensures { IsTrue result ↔ Increases PlaceBefore roots.now }
{
    for k in 1..roots.len() {
        if roots[k - 1] >= roots[k] {
            return false;
        }
    }
    true
}

fn size_at(nodes: &[NodeFacts], node: u64) -> usize
    ensures { result ≡ size_in (slice_get nodes.now node) }
{
    match nodes.get(node as usize) {
        Some(facts) => facts.versions.as_slice().len(),
        None => 0,
    }
}

/// The base of the node at a place, where there is one.
pub(crate) fn base_at(nodes: &[NodeFacts], node: u64) -> Option<u64>
    ensures { result ≡ base_in (slice_get nodes.now node) }
{
    match nodes.get(node as usize) {
        Some(facts) => facts.base,
        None => None,
    }
}

fn are_single(nodes: &[NodeFacts], roots: &[u64]) -> bool
    ensures { IsTrue result ↔ AllAre (IsSingle nodes.now) roots.now }
{
    for root in roots {
        if size_at(nodes, *root) != 1 {
            return false;
        }
    }
    true
}

fn are_extras_of(nodes: &[NodeFacts], base: u64, extras: &[u64]) -> bool
    ensures { IsTrue result ↔ AllAre (IsExtraOf nodes.now base) extras.now }
{
    for extra in extras {
        if base_at(nodes, *extra) != Some(base) {
            return false;
        }
    }
    true
}

fn are_one_base(nodes: &[NodeFacts], roots: &[u64]) -> bool
    ensures { IsTrue result ↔ AreOneBase nodes.now roots.now }
{
    if roots.is_empty() {
        return false;
    }
    base_at(nodes, roots[0]).is_none() && are_extras_of(nodes, roots[0], &roots[1..])
}

fn has_base(nodes: &[NodeFacts], facts: &NodeFacts) -> bool
    ensures { IsTrue result ↔ HasBase nodes.now facts.now facts.now.node.extra facts.now.base }
{
    match (&facts.node.extra, facts.base) {
        (None, None) => true,
        (Some(_), Some(base)) => match nodes.get(base as usize) {
            Some(base) => is_base_of(base, facts),
            None => false,
        },
        _ => false,
    }
}

fn same_versions(versions: &[Version], others: &[Version]) -> bool
    ensures { IsTrue result ↔ (versions.now ≡ others.now) }
{
    if versions.len() != others.len() {
        return false;
    }
    for k in 0..versions.len() {
        if !versions[k].same(&others[k]) {
            return false;
        }
    }
    true
}

fn is_base_of(base: &NodeFacts, facts: &NodeFacts) -> bool
    ensures { IsTrue result ↔ IsBaseOf base.now facts.now }
{
    base.node.name == facts.node.name
        && base.node.extra.is_none()
        && same_versions(base.versions.as_slice(), facts.versions.as_slice())
}

fn are_below(places: &[u32], size: u32) -> bool
    ensures { IsTrue result ↔ All (λ v. v < size) places.now }
{
    for place in places {
        if *place >= size {
            return false;
        }
    }
    true
}

// Whether the order has each place below a size once.
fn is_order_of(alloc: Global, size: u32, order: &Vec<u32>) -> Result<bool, AllocError>
    ensures { IfOk result (λ b. IsTrue b ↔ IsOrderOf size order.now.items) }
{
    if order.len() != size as usize || !are_below(order.as_slice(), size) {
        return Ok(false);
    }
    let listed = Ordinals::of_list(alloc, size, order)?;
    let both = beside(listed, Ordinals::all(alloc, size))?;
    let fits = both.0.same(&both.1);
    drop(both);
    Ok(fits)
}

// Whether a target is marked.
fn is_marked(marks: &[bool], target: u64) -> bool
    ensures { result ≡ get_or marks.now target false }
{
    match marks.get(target as usize) {
        Some(mark) => *mark,
        None => false,
    }
}

fn is_need_after(nodes: &[NodeFacts], marks: &[bool], need: &Need) -> bool
    ensures { IsTrue result ↔ IsNeedMarked nodes.now marks.now need.now }
{
    if need.node as usize >= nodes.len()
        || need.permitted.size() as usize != size_at(nodes, need.node)
    {
        return false;
    }
    match base_at(nodes, need.node) {
        Some(base) => is_marked(marks, base),
        None => true,
    }
}

// Looks at the needs one after another, and marks the targets of those that it has passed.
fn mark_needs(nodes: &[NodeFacts], needs: &[Need], marks: &mut Vec<bool>) -> bool
    requires { HasNoMark (length nodes.now) marks.old.items }
    ensures fits { IsTrue result ↔ AreNeeds nodes.now needs.now }
    ensures marked { IsTrue result → AreMarked (length nodes.now) needs.now marks.new.items }
{
    for k in 0..needs.len() {
        let need = &needs[k];
        if !is_need_after(nodes, marks, need) {
            return false;
        }
        marks[need.node as usize] = true;
    }
    true
}

// Clears the marks of the needs' targets.
fn clear_marks(needs: &[Need], size: usize, marks: &mut Vec<bool>)
    requires { AreMarked size needs.now marks.old.items }
    ensures { HasNoMark size marks.new.items }
{
    for k in 0..needs.len() {
        marks[needs[k].node as usize] = false;
    }
}

fn are_needs(nodes: &[NodeFacts], needs: &[Need], marks: &mut Vec<bool>) -> bool
    requires { HasNoMark (length nodes.now) marks.old.items }
    ensures fits { IsTrue result ↔ AreNeeds nodes.now needs.now }
    ensures clear { IsTrue result → HasNoMark (length nodes.now) marks.new.items }
{
    let fits = mark_needs(nodes, needs, marks);
    if fits {
        clear_marks(needs, nodes.len(), marks);
    }
    fits
}

fn are_rows(nodes: &[NodeFacts], rows: &[NeedRow], marks: &mut Vec<bool>) -> bool
    requires { HasNoMark (length nodes.now) marks.old.items }
    ensures fits { IsTrue result ↔ AllAre (AreNeeds nodes.now) rows.now }
    ensures clear { IsTrue result → HasNoMark (length nodes.now) marks.new.items }
{
    for row in rows {
        if !are_needs(nodes, row.as_slice(), marks) {
            return false;
        }
    }
    true
}

fn is_node_of(
    alloc: Global,
    nodes: &[NodeFacts],
    facts: &NodeFacts,
    marks: &mut Vec<bool>,
) -> Result<bool, AllocError>
    requires { HasNoMark (length nodes.now) marks.old.items }
    ensures fits { IfOk result (λ b. IsTrue b ↔ IsNodeOf nodes.now facts.now) }
    ensures clear { IfOk result (λ b. IsTrue b → HasNoMark (length nodes.now) marks.new.items) }
{
    let versions = facts.versions.as_slice();
    let rows = facts.needs.as_slice();
    if facts.barred.size() as usize != versions.len() || rows.len() != versions.len() {
        return Ok(false);
    }
    if !versions_increase(versions) || !has_base(nodes, facts) || !are_rows(nodes, rows, marks) {
        return Ok(false);
    }
    is_order_of(alloc, facts.barred.size(), facts.order.as_vec())
}

fn are_nodes(
    alloc: Global,
    all: &[NodeFacts],
    nodes: &[NodeFacts],
    marks: &mut Vec<bool>,
) -> Result<bool, AllocError>
    requires { HasNoMark (length all.now) marks.old.items }
    ensures { IfOk result (λ b. IsTrue b ↔ AllAre (IsNodeOf all.now) nodes.now) }
{
    for facts in nodes {
        if !is_node_of(alloc, all, facts, marks)? {
            return Ok(false);
        }
    }
    Ok(true)
}
