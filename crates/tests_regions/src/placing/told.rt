//! Problems in one line.
use std::alloc::{AllocError, Global};
use std::fmt::Write;
use ul_base::Node;
use ul_problem::{Need, NeedRow, NodeFacts, Problem};
use ul_ranges::Ordinals;

// The flags of a set.
fn push_set(text: &mut String, set: &Ordinals) -> Result<(), AllocError> {
    for k in 0..set.size() {
        text.push(if set.has(k) { '1' } else { '0' })?;
    }
    Ok(())
}

fn push_node(text: &mut String, node: &Node) -> Result<(), AllocError> {
    text.push_str(node.name.text())?;
    if let Some(extra) = &node.extra {
        text.push('/')?;
        text.push_str(extra.text())?;
    }
    Ok(())
}

fn push_needs(text: &mut String, needs: &[Need]) -> Result<(), AllocError> {
    for need in needs {
        let place = need.node;
        write!(text, " {place}:")?;
        push_set(text, &need.permitted)?;
    }
    Ok(())
}

// The needs of each version, behind a bar each.
fn push_rows(text: &mut String, rows: &[NeedRow]) -> Result<(), AllocError> {
    for row in rows {
        text.push_str(" |")?;
        push_needs(text, row.as_slice())?;
    }
    Ok(())
}

// A node: its name, the place of its base, the order of its versions, the barred ones, and the needs of each version.
fn push_facts(text: &mut String, facts: &NodeFacts) -> Result<(), AllocError> {
    push_node(text, &facts.node)?;
    if let Some(base) = facts.base {
        write!(text, " of {base}")?;
    }
    for place in facts.order.as_slice() {
        write!(text, " {place}")?;
    }
    text.push_str(" -")?;
    push_set(text, &facts.barred)?;
    push_rows(text, facts.needs.as_slice())
}

/// A problem: its roots, and its nodes.
pub fn told(alloc: Global, problem: &Problem) -> Result<String, AllocError> {
    let mut text = String::new(alloc);
    for root in problem.roots() {
        write!(text, "{root} ")?;
    }
    for facts in problem.nodes() {
        text.push_str("; ")?;
        push_facts(&mut text, facts)?;
    }
    Ok(text)
}
