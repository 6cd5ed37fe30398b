//! The steps that a problem gives.
ghost use Rattle.std.specs.Prelude.{◌≡◌, ◌<◌, ◌++◌, [], length, get_or, IfOk};
ghost use Rattle.ul_trail.specs.Facts.{one_of};
ghost use Rattle.ul_trail.specs.First.{base_steps, need_steps, node_steps, python_steps, version_steps};

use crate::deciding::single;
use std::alloc::{AllocError, Global};
use ul_problem::{Need, NodeFacts, Step};
use ul_ranges::Ordinals;

// The steps of a version's needs.
fn push_needs(
    alloc: Global,
    steps: &mut Vec<Step>,
    node: u64,
    size: u32,
    version: u32,
    needs: &[Need],
) -> Result<(), AllocError>
    requires { version < size }
    ensures { IfOk result (λ _. steps.new.items ≡ steps.old.items ++ need_steps node (one_of size version) needs.now) }
{
    for need in needs {
        let permitted = need.permitted.copy(alloc)?;
        steps.push(Step::Need {
            node,
            versions: single(size, version),
            target: need.node,
            permitted,
        })?;
    }
    Ok(())
}

fn push_version(
    alloc: Global,
    steps: &mut Vec<Step>,
    facts: &NodeFacts,
    node: u64,
    version: u32,
) -> Result<(), AllocError>
    requires barred { length facts.now.barred ≡ length facts.now.versions }
    requires rows { length facts.now.needs ≡ length facts.now.versions }
    requires version { version < length facts.now.versions }
    ensures { IfOk result (λ _. steps.new.items ≡ steps.old.items ++ version_steps facts.now node version) }
{
    let size = facts.barred.size();
    push_base(steps, node, size, version, facts.base)?;
    let rows = facts.needs.as_slice();
    push_needs(
        alloc,
        steps,
        node,
        size,
        version,
        rows[version as usize].as_slice(),
    )
}

/// The steps that a version gives.
pub fn version_steps(
    alloc: Global,
    facts: &NodeFacts,
    node: u64,
    version: u32,
) -> Result<Vec<Step>, AllocError>
    requires barred { length facts.now.barred ≡ length facts.now.versions }
    requires rows { length facts.now.needs ≡ length facts.now.versions }
    requires version { version < length facts.now.versions }
    ensures { IfOk result (λ v. v.items ≡ version_steps facts.now node version) }
{
    let mut steps = Vec::new(alloc);
    push_version(alloc, &mut steps, facts, node, version)?;
    Ok(steps)
}

/// The steps that a node gives, whichever of its versions is picked.
pub fn node_steps(alloc: Global, facts: &NodeFacts, node: u64) -> Result<Vec<Step>, AllocError>
    ensures { IfOk result (λ v. v.items ≡ node_steps facts.now node) }
{
    let mut steps = Vec::new(alloc);
    push_barred(alloc, &mut steps, node, &facts.barred)?;
    Ok(steps)
}

// The step of a version of an extra.
fn push_base(
    steps: &mut Vec<Step>,
    node: u64,
    size: u32,
    version: u32,
    base: Option<u64>,
) -> Result<(), AllocError>
    requires { version < size }
    ensures { IfOk result (λ _. steps.new.items ≡ steps.old.items ++ base_steps node (one_of size version) base) }
{
    if base.is_some() {
        steps.push(Step::Base {
            node,
            versions: single(size, version),
        })?;
    }
    Ok(())
}

fn push_barred(
    alloc: Global,
    steps: &mut Vec<Step>,
    node: u64,
    barred: &Ordinals,
) -> Result<(), AllocError>
    ensures { IfOk result (λ _. steps.new.items ≡ steps.old.items ++ python_steps node barred.now) }
{
    if !barred.is_empty() {
        let versions = barred.copy(alloc)?;
        steps.push(Step::Python { node, versions })?;
    }
    Ok(())
}
