//! The forks of a lock.
ghost use Rattle.std.specs.Prelude.{◌≡◌, IfOk, All, flat_map, map};
ghost use Rattle.ul_interner.specs.Known.{Knows};
ghost use Rattle.ul_algebra.specs.Answers.{IsDiagram};
ghost use Rattle.ul_algebra.specs.Spelled.{tree_of};
ghost use Rattle.ul_lock_write.specs.Markers.{fork_marker};
ghost use Rattle.ul_sound.specs.Merged.{AreForks, AreSimplified};
ghost use Rattle.ul_merge.specs.Over.{OrOver, items_in};
ghost use Rattle.ul_merge.specs.Unions.{IsForkIn};
ghost use Rattle.ul_merge.specs.Views.{leaf_of};

use crate::over::with_whole;
use crate::truths::simplified;
use std::alloc::{AllocError, Global};
use std::sync::Wait;
use ul_algebra::{Algebra, Diagram};
use ul_base::Node;
use ul_generations::Leaf;
use ul_lock::{Region, Regions};
use ul_version::Version;

// The regions of a row, if it was made.
fn regions_in(row: Option<Vec<Region>>) -> Option<Regions>
    ensures { result ≡ items_in row }
{
    row.map(Regions::of)
}

// What each leaf's region becomes under the supported one, in order; none where not all of this is printed.
fn regions_of<R: Wait>(
    rt: &R,
    alloc: Global,
    algebra: &mut Algebra<'_>,
    leaves: &[Leaf<Diagram, Vec<(Node, Version)>>],
    supported: &Diagram,
) -> Result<Option<Regions>, AllocError>
    requires leaves { All (IsForkIn algebra.old supported.now) leaves.now }
    requires supported { IsDiagram algebra.old supported.now }
    ensures knows { Knows algebra.old algebra.new }
    ensures forks { IfOk result (OrOver (flat_map fork_marker)
        (AreSimplified (tree_of supported.now) (map leaf_of leaves.now))) }
{
    let mut regions = Some(Vec::with_capacity(alloc, leaves.len())?);
    for leaf in leaves {
        let region = simplified(rt, alloc, algebra, &leaf.region, supported);
        regions = with_whole(regions, region)?;
    }
    Ok(regions_in(regions))
}

/// The forks of a lock: what each leaf's region becomes under the supported one, in order, and no fork for one leaf;
/// none at all where not all of their markers are printed.
///
/// # Errors
///
/// Only for want of memory.
pub fn fork_regions<R: Wait>(
    rt: &R,
    alloc: Global,
    algebra: &mut Algebra<'_>,
    leaves: &[Leaf<Diagram, Vec<(Node, Version)>>],
    supported: &Diagram,
) -> Result<Option<Regions>, AllocError>
    requires leaves { All (IsForkIn algebra.old supported.now) leaves.now }
    requires supported { IsDiagram algebra.old supported.now }
    ensures knows { Knows algebra.old algebra.new }
    ensures forks { IfOk result (OrOver (flat_map fork_marker)
        (AreForks (tree_of supported.now) (map leaf_of leaves.now))) }
{
    if leaves.len() < 2 {
        return Ok(Some(Regions::new(alloc)));
    }
    let regions = regions_of(rt, alloc, algebra, leaves, supported)?;
    Ok(regions)
}
