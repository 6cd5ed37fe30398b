//! Truths of edges: unions of diagrams, and what they become under the supported region.
ghost use Rattle.std.specs.Prelude.{◌≡◌, IfOk, All, ◌<◌, ◌≤◌};
ghost use Rattle.ul_interner.specs.Known.{Knows};
ghost use Rattle.ul_tree.specs.Simplify.{Simplifies};
ghost use Rattle.ul_algebra.specs.Answers.{IsDiagram};
ghost use Rattle.ul_algebra.specs.Spelled.{tree_of};
ghost use Rattle.ul_lock.specs.Region.{IsRegion as IsLineRegion};
ghost use Rattle.ul_lock_write.specs.Markers.{fork_marker};
ghost use Rattle.ul_region.specs.Truths.{IsRegion, IsTruth};
ghost use Rattle.ul_region.specs.Unions.{some_holds};
ghost use Rattle.ul_merge.specs.Over.{OrOver};
ghost use Rattle.ul_merge.specs.Unions.{MeetSomewhere};

use crate::targets::Use;
use std::alloc::{AllocError, Global};
use std::sync::Wait;
use ul_algebra::{Algebra, Diagram};
use ul_lock::Region;
use ul_region::unions::{either, nowhere};

// The marker of a diagram that asks for no extra; none where that isn't printed.
pub(crate) fn marker_of(
    alloc: Global,
    algebra: &Algebra<'_>,
    diagram: &Diagram,
) -> Result<Option<Region>, AllocError>
    requires diagram { IsDiagram algebra.now diagram.now }
    requires region { IsLineRegion (tree_of diagram.now) }
    ensures marker { IfOk result (OrOver fork_marker (λ m. m ≡ tree_of diagram.now)) }
{
    if algebra.is_printable(diagram) {
        let tree = algebra.tree(alloc, diagram)?;
        return Ok(Some(Region::of(tree)));
    }
    Ok(None)
}

// What a truth becomes under the supported region; none where that isn't printed.
pub(crate) fn simplified<R: Wait>(
    rt: &R,
    alloc: Global,
    algebra: &mut Algebra<'_>,
    truth: &Diagram,
    supported: &Diagram,
) -> Result<Option<Region>, AllocError>
    requires truth { IsRegion algebra.old truth.now }
    requires supported { IsDiagram algebra.old supported.now }
    requires meet { MeetSomewhere truth.now supported.now }
    ensures knows { Knows algebra.old algebra.new }
    ensures rule { IfOk result (OrOver fork_marker (Simplifies (tree_of truth.now) (tree_of supported.now))) }
{
    let simpler = algebra.simplify(rt, alloc, truth, supported)?;
    let marker = marker_of(alloc, algebra, &simpler)?;
    Ok(marker)
}

// How many uses lie before those whose leaves' places agree with the last one's, and not with the first one's, in the
// highest power of two in which the two differ.
fn turn_of(uses: &[Use]) -> usize {
    if uses.is_empty() {
        return 0;
    }
    let first = uses[0].leaf;
    let last = uses[uses.len() - 1].leaf;
    uses.partition_point(|one| (one.leaf ^ first) < (one.leaf ^ last))
}

// Where parts are cut in two: at such a turn, so that parts of different lists that lie between the same places are
// joined alike, and the algebra knows their union; in the middle where the leaves' places don't differ.
fn cut_of(uses: &[Use], count: usize) -> usize
    requires { 2 ≤ count }
    ensures low { 0 < result }
    ensures high { result < count }
{
    let cut = turn_of(uses);
    if cut == 0 {
        return count / 2;
    }
    if cut >= count {
        return count / 2;
    }
    cut
}

// Uses before and behind a place.
fn cut_at(uses: &[Use], place: usize) -> (&[Use], &[Use]) {
    if place < uses.len() {
        return uses.split_at(place);
    }
    (uses, &[])
}

/// The union of regions, each with the use that it is of.
pub(crate) fn union_of<R: Wait>(
    rt: &R,
    alloc: Global,
    algebra: &mut Algebra<'_>,
    parts: &[Diagram],
    uses: &[Use],
) -> Result<Diagram, AllocError>
    requires { All (IsRegion algebra.old) parts.now }
    ensures knows { Knows algebra.old algebra.new }
    ensures truth { IfOk result (λ d. IsTruth algebra.new d (some_holds parts.now)) }
{
    if parts.len() == 0 {
        let d = nowhere(rt, alloc, algebra)?;
        return Ok(d);
    }
    if parts.len() == 1 {
        let d = parts[0].share()?;
        return Ok(d);
    }
    let cut = cut_of(uses, parts.len());
    let (front, back) = parts.split_at(cut);
    let (front_uses, back_uses) = cut_at(uses, cut);
    let first = union_of(rt, alloc, algebra, front, front_uses)?;
    let second = union_of(rt, alloc, algebra, back, back_uses)?;
    either(rt, alloc, algebra, &first, &second)
}
