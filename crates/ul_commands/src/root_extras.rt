//! Whether the root of a lock lists no extras but the project's and those that the lock's own edges lead to.
ghost use Rattle.std.specs.Prelude.{◌≡◌, [], Decides, IfOk, OnOk, flat_map};
ghost use Rattle.std.specs.List.{list_any};
ghost use Rattle.std.specs.Str.{bytes_eq};
ghost use Rattle.indexmap.specs.IndexSet.{insert_all, insert_key};
ghost use Rattle.ul_commands.specs.Relocking.{ListsNoOther};
ghost use Rattle.ul_commands.specs.RootExtras as spec;

use indexmap::IndexSet;
use std::alloc::{AllocError, Global};
use ul_base::Name;
use ul_lock::{Edge, Extra, Lock, Locked};
use ul_project::Project;

// Allows an extra, which is kept where it isn't there yet.
fn allow(alloc: Global, names: &mut IndexSet<Name>, extra: &Name) -> Result<(), AllocError>
    ensures { OnOk result (names.new.keys ≡ insert_key bytes_eq names.old.keys extra.now) }
{
    if !names.contains(extra) {
        let copy = extra.copy(alloc)?;
        names.insert(copy)?;
    }
    Ok(())
}

// Allows the extras of a project.
fn allow_all(alloc: Global, names: &mut IndexSet<Name>, extras: &[Name]) -> Result<(), AllocError>
    ensures { OnOk result (names.new.keys ≡ insert_all bytes_eq names.old.keys extras.now) }
{
    for extra in extras {
        allow(alloc, names, extra)?;
    }
    Ok(())
}

// Allows the extra of the root that an edge leads to.
fn allow_edge(
    alloc: Global,
    names: &mut IndexSet<Name>,
    root: &Name,
    edge: &Edge,
) -> Result<(), AllocError>
    ensures { OnOk result (names.new.keys
        ≡ insert_all bytes_eq names.old.keys (spec.asked_by_edge root.now edge.now)) }
{
    if edge.target.name == *root {
        if let Some(extra) = &edge.target.extra {
            allow(alloc, names, extra)?;
        }
    }
    Ok(())
}

// Allows those that edges lead to.
fn allow_edges(
    alloc: Global,
    names: &mut IndexSet<Name>,
    root: &Name,
    edges: &[Edge],
) -> Result<(), AllocError>
    ensures { OnOk result (names.new.keys
        ≡ insert_all bytes_eq names.old.keys (spec.asked_by_edges root.now edges.now)) }
{
    for edge in edges {
        allow_edge(alloc, names, root, edge)?;
    }
    Ok(())
}

// Allows those that the edges of an extra lead to.
fn allow_extra(
    alloc: Global,
    names: &mut IndexSet<Name>,
    root: &Name,
    extra: &Extra,
) -> Result<(), AllocError>
    ensures { OnOk result (names.new.keys
        ≡ insert_all bytes_eq names.old.keys (spec.asked_by_edges root.now extra.now.edges)) }
{
    allow_edges(alloc, names, root, extra.edges.as_slice())
}

// Allows those that the edges of extras lead to.
fn allow_extras(
    alloc: Global,
    names: &mut IndexSet<Name>,
    root: &Name,
    extras: &[Extra],
) -> Result<(), AllocError>
    ensures { OnOk result (names.new.keys
        ≡ insert_all bytes_eq names.old.keys (flat_map (λ x. spec.asked_by_edges root.now x.edges) extras.now)) }
{
    for extra in extras {
        allow_extra(alloc, names, root, extra)?;
    }
    Ok(())
}

// Allows those that the edges of a package and of its extras lead to.
#[tactic(auto, using(crate::proofs::RootExtras::joined))]
fn allow_package(
    alloc: Global,
    names: &mut IndexSet<Name>,
    root: &Name,
    block: &Locked,
) -> Result<(), AllocError>
    ensures { OnOk result (names.new.keys
        ≡ insert_all bytes_eq names.old.keys (spec.asked_by_package root.now block.now)) }
{
    allow_edges(alloc, names, root, block.edges.as_slice())?;
    allow_extras(alloc, names, root, block.extras.as_slice())?;
    Ok(())
}

// Allows those that the edges of packages lead to.
fn allow_packages(
    alloc: Global,
    names: &mut IndexSet<Name>,
    root: &Name,
    packages: &[Locked],
) -> Result<(), AllocError>
    ensures { OnOk result (names.new.keys
        ≡ insert_all bytes_eq names.old.keys (flat_map (spec.asked_by_package root.now) packages.now)) }
{
    for block in packages {
        allow_package(alloc, names, root, block)?;
    }
    Ok(())
}

// The extras that the root of a lock may list.
#[tactic(auto, using(crate::proofs::RootExtras::joined))]
fn allowed_extras(
    alloc: Global,
    project: &Project,
    lock: &Lock,
) -> Result<IndexSet<Name>, AllocError>
    ensures { IfOk result (λ names. names.keys
        ≡ insert_all bytes_eq [] (spec.allowed_extras project.now lock.now)) }
{
    let mut names = IndexSet::new(alloc);
    allow_all(alloc, &mut names, project.extras.as_slice())?;
    allow_packages(alloc, &mut names, &lock.root, lock.packages.as_slice())?;
    Ok(names)
}

// Whether an extra is among the names.
fn is_among(names: &IndexSet<Name>, extra: &Extra) -> bool
    ensures { result ≡ list_any (bytes_eq extra.now.name) names.now.keys }
{
    names.contains(&extra.name)
}

// Whether all extras are among the names.
fn are_among(names: &IndexSet<Name>, extras: &[Extra]) -> bool
    ensures { result ≡ spec.are_among names.now.keys extras.now }
{
    for extra in extras {
        if !is_among(names, extra) {
            return false;
        }
    }
    true
}

// Whether a package is another one than the root, or its extras are among the names.
fn package_is_among(names: &IndexSet<Name>, root: &Name, block: &Locked) -> bool
    ensures { result ≡ spec.package_is_among names.now.keys root.now block.now }
{
    if block.name != *root {
        return true;
    }
    are_among(names, block.extras.as_slice())
}

// Whether the extras of the root are among the names.
fn root_is_among(names: &IndexSet<Name>, root: &Name, packages: &[Locked]) -> bool
    ensures { result ≡ spec.root_is_among names.now.keys root.now packages.now }
{
    for block in packages {
        if !package_is_among(names, root, block) {
            return false;
        }
    }
    true
}

/// Whether the root of a lock lists no extras but the project's and those that the lock's own edges lead to.
///
/// # Errors
///
/// Only for want of memory.
pub(crate) fn lists_no_other(
    alloc: Global,
    project: &Project,
    lock: &Lock,
) -> Result<bool, AllocError>
    ensures { IfOk result (λ b. Decides b (ListsNoOther project.now lock.now)) }
{
    let names = allowed_extras(alloc, project, lock)?;
    Ok(root_is_among(&names, &lock.root, lock.packages.as_slice()))
}
