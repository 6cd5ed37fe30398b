//! The lock that leaves merge into.
ghost use Rattle.std.specs.Prelude.{◌≡◌, IfOk, All, flat_map, map};
ghost use Rattle.ul_workers.specs.WorkerCount.{IsWorkerCount};
ghost use Rattle.ul_interner.specs.Known.{Knows};
ghost use Rattle.ul_algebra.specs.Answers.{IsDiagram};
ghost use Rattle.ul_algebra.specs.Spelled.{tree_of};
ghost use Rattle.ul_project.specs.Fields.{IsProject};
ghost use Rattle.ul_lock_write.specs.Markers.{package_markers};
ghost use Rattle.ul_sound.specs.Merged.{AreBlocks};
ghost use Rattle.ul_merge.specs.Merging.{AreLeaves};
ghost use Rattle.ul_merge.specs.Over.{IsMergedOrOver, OrOver, items_in, lock_by};
ghost use Rattle.ul_merge.specs.Views.{ForkLeaf, leaf_of};

use crate::choices::choices_of;
use crate::forks::fork_regions;
use crate::members::members_of;
use crate::over::both;
use crate::releases::all_differ;
use crate::runs::blocks_by;
use crate::sources::Sources;
use crate::truths::marker_of;
use std::alloc::{AllocError, Global};
use std::sync::Wait;
use std::thread::Threads;
use ul_algebra::{Algebra, Diagram, DiagramLabel};
use ul_base::owned::{beside, made_from, with_made};
use ul_base::{Name, Node};
use ul_generations::Leaf;
use ul_index::Catalog;
use ul_interner::Interner;
use ul_lock::{Lock, Locked, Packages, Region, Regions};
use ul_project::Project;
use ul_tree::Tree;
use ul_version::Version;

// The regions of leaves, in order.
fn regions_of(
    alloc: Global,
    leaves: &[Leaf<Diagram, Vec<(Node, Version)>>],
) -> Result<Vec<Diagram>, AllocError>
    ensures { IfOk result (λ v. v.items ≡ map (λ (l : ForkLeaf). l.region) leaves.now) }
{
    let mut regions = Vec::with_capacity(alloc, leaves.len())?;
    for leaf in leaves {
        let region = leaf.region.share();
        regions = with_made(regions, region)?;
    }
    Ok(regions)
}

// The region that a project supports.
fn supported_of<R: Wait>(
    rt: &R,
    alloc: Global,
    algebra: &mut Algebra<'_>,
    project: &Project,
) -> Result<Diagram, AllocError>
    ensures knows { Knows algebra.old algebra.new }
    ensures diagram { IfOk result (IsDiagram algebra.new) }
    ensures tree { IfOk result (λ d. tree_of d ≡ project.now.region) }
    ensures project { IsProject project.now }
{
    let tree: &Tree = &project.region;
    let d = algebra.of_tree(rt, alloc, tree)?;
    Ok(d)
}

// The name of a project's package.
fn root_of(alloc: Global, project: &Project) -> Result<Name, AllocError>
    ensures { IfOk result (λ n. n ≡ project.now.package.name) }
{
    let name: &Name = &project.package.name;
    let root = name.copy(alloc)?;
    Ok(root)
}

// The packages of a row, if it was made.
fn packages_in(row: Option<Vec<Locked>>) -> Option<Packages>
    ensures { result ≡ items_in row }
{
    row.map(Packages::of)
}

// The packages of the lock, made by so many workers; none where not all of their markers are printed.
fn packages_of<R: Threads + Wait + Sync>(
    rt: &R,
    alloc: Global,
    workers: u64,
    interner: &Interner<DiagramLabel>,
    algebra: Algebra<'_>,
    catalog: &Catalog,
    project: &Project,
    supported: &Diagram,
    leaves: &[Leaf<Diagram, Vec<(Node, Version)>>],
) -> Result<Option<Packages>, AllocError>
    requires workers { IsWorkerCount workers }
    requires own { algebra.table ≡ interner.now }
    requires supported { IsDiagram algebra supported.now }
    requires region { tree_of supported.now ≡ project.now.region }
    requires leaves { AreLeaves algebra catalog.now project.now leaves.now }
    ensures { IfOk result (OrOver (flat_map package_markers)
        (AreBlocks catalog.now project.now (map leaf_of leaves.now))) }
{
    let regions = regions_of(alloc, leaves)?;
    let choices = choices_of(alloc, leaves)?;
    let groups = members_of(alloc, choices.as_slice())?;
    all_differ(catalog);
    ul_index::laws::eligible_same();
    ul_index::laws::eligible_rises();
    let sources = Sources {
        supported,
        regions: regions.as_slice(),
        choices: choices.as_slice(),
        catalog,
    };
    let blocks = blocks_by(
        rt,
        alloc,
        workers,
        interner,
        algebra,
        &sources,
        groups.as_slice(),
    );
    let blocks = made_from(blocks, ((regions, choices), groups))?;
    Ok(packages_in(blocks))
}

// The lock of its parts.
fn lock_with(
    alloc: Global,
    project: &Project,
    supported: Region,
    forks: Regions,
    packages: Packages,
) -> Result<Lock, AllocError>
    ensures root { IfOk result (λ l. l.root ≡ project.now.package.name) }
    ensures supported { IfOk result (λ l. l.supported ≡ supported) }
    ensures forks { IfOk result (λ l. l.forks ≡ forks) }
    ensures packages { IfOk result (λ l. l.packages ≡ packages) }
{
    let (parts, root) = beside((supported, (forks, packages)), root_of(alloc, project))?;
    let (supported, (forks, packages)) = parts;
    Ok(Lock {
        root,
        supported,
        forks,
        packages,
    })
}

// The lock of its parts, if these were made.
fn whole_lock(
    alloc: Global,
    project: &Project,
    parts: Option<(Region, (Regions, Packages))>,
) -> Result<Option<Lock>, AllocError>
    ensures { IfOk result (λ l. l ≡ lock_by project.now.package.name parts) }
{
    match parts {
        None => Ok(None),
        Some((supported, rows)) => {
            let (forks, packages) = rows;
            let lock = lock_with(alloc, project, supported, forks, packages)?;
            Ok(Some(lock))
        }
    }
}

/// The lock that leaves merge into; none where not all of its markers are printed. The leaves are those of the fork
/// answer: each has its region and the decisions of its selection.
///
/// No tree is made of a marker that isn't printed: a diagram takes as little memory as its shared parts, and its tree
/// may have more paths than fit anywhere.
///
/// From 1 to 64 workers make the packages, each a run of neighbouring ones, and the lock is the same for every number of
/// them; where there is little to do, no more of them begin than have enough. What was found on the way is left to the
/// end of the process, where the system takes it back at once.
///
/// # Errors
///
/// Only for want of memory.
pub fn merge<R: Threads + Wait + Sync>(
    rt: &R,
    alloc: Global,
    workers: u64,
    interner: &Interner<DiagramLabel>,
    mut algebra: Algebra<'_>,
    catalog: &Catalog,
    project: &Project,
    leaves: &[Leaf<Diagram, Vec<(Node, Version)>>],
) -> Result<Option<Lock>, AllocError>
    requires workers { IsWorkerCount workers }
    requires own { algebra.table ≡ interner.now }
    requires leaves { AreLeaves algebra catalog.now project.now leaves.now }
    ensures { IfOk result (IsMergedOrOver catalog.now project.now (map leaf_of leaves.now)) }
{
    let supported = supported_of(rt, alloc, &mut algebra, project)?;
    let forks = fork_regions(rt, alloc, &mut algebra, leaves, &supported)?;
    let region = marker_of(alloc, &algebra, &supported);
    let (forks, region) = beside(forks, region)?;
    let packages = packages_of(
        rt, alloc, workers, interner, algebra, catalog, project, &supported, leaves,
    );
    let packages = made_from(packages, supported);
    let (kept, packages) = beside((forks, region), packages)?;
    let (forks, region) = kept;
    let rows = both(forks, packages);
    let lock = whole_lock(alloc, project, both(region, rows))?;
    Ok(lock)
}
