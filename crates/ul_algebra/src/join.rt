//! A diagram made of two, part by part.
ghost use Rattle.std.specs.Prelude.{◌≡◌, ◌∷◌, ◌++◌, [], Some, IfOk, map};
ghost use Rattle.ul_interner.specs.Known.{Known, Knows};
ghost use Rattle.ul_nodes.specs.Reduced.{IsReduced};
ghost use Rattle.ul_nodes.specs.Apply.{first_of};
ghost use Rattle.ul_nodes.specs.Rows.{IfSome};
ghost use Rattle.ul_nodes.specs.Keys.{level_view, AreKeysOf, KeysOf};
ghost use Rattle.ul_algebra.specs.Answers.{IsDiagram};
ghost use Rattle.ul_algebra.specs.Joinings.{IsJoin, IsJoinAtOnce, at_once_tree, FollowsSide};
ghost use Rattle.ul_algebra.specs.Made.{AreKnown, PartsKnown, AreJoined, closed_tree};
ghost use Rattle.ul_algebra.specs.Spelled.{spelling, tree_of};
ghost use Rattle.ul_algebra.specs.declared.labels.DiagramLabel.TheVariants.{Opaque};

use crate::Diagram;
use crate::algebra::Algebra;
use crate::labels::DiagramLabel;
use crate::lists::{Points, Starts};
use crate::nodes::{Diagrams, known, truth_value};
use crate::questions::{AtOnce, Joining, Operation};
use std::alloc::{AllocError, Global};
use std::sync::Wait;
use ul_base::owned::{beside, made_from};
use ul_marker::Atom;
use ul_nodes::branches::add;
use ul_nodes::closing::{Closed, closed_level};
use ul_nodes::level::{Key, Level};
use ul_nodes::nodes::{first_level, level_keys, part_at, rest_at};
use ul_tree::deeper;

// The parts of keys, and then the other part.
fn parts_and_other(parts: Vec<Diagram>, other: Diagram) -> Result<Vec<Diagram>, AllocError>
    ensures { IfOk result (λ ps. ps.items ≡ parts.items ++ (other ∷ [])) }
{
    let mut parts = parts;
    parts.push(other)?;
    Ok(parts)
}

// The parts of an opaque comparison: where it holds, and where it doesn't.
fn halves(alloc: Global, holds: Diagram, fails: Diagram) -> Result<Vec<Diagram>, AllocError>
    ensures { IfOk result (λ ps. ps.items ≡ holds ∷ fails ∷ []) }
{
    let mut parts = Vec::new(alloc);
    parts.push(holds)?;
    parts.push(fails)?;
    Ok(parts)
}

// A node of points: the parts of their keys, and the other part.
fn points_node<R: Wait>(
    algebra: &mut Algebra<'_>,
    rt: &R,
    alloc: Global,
    label: DiagramLabel,
    parts: Vec<Diagram>,
    other: Diagram,
) -> Result<Diagram, AllocError>
    requires { AreKnown algebra.old (parts.items ++ (other ∷ [])) }
    ensures knows { Knows algebra.old algebra.new }
    ensures tree { IfOk result (λ d. tree_of d ≡ spelling label (map tree_of (parts.items ++ (other ∷ [])))) }
    ensures known { IfOk result (Known algebra.new) }
{
    let (label, parts) = beside(label, parts_and_other(parts, other))?;
    algebra.node(rt, alloc, label, parts)
}

// A node of an opaque comparison: where it holds, and where it doesn't.
fn opaque_node<R: Wait>(
    algebra: &mut Algebra<'_>,
    rt: &R,
    alloc: Global,
    atom: &Atom,
    holds: Diagram,
    fails: Diagram,
) -> Result<Diagram, AllocError>
    requires { AreKnown algebra.old (holds ∷ fails ∷ []) }
    ensures knows { Knows algebra.old algebra.new }
    ensures tree { IfOk result (λ d. tree_of d ≡ spelling (Opaque atom.now) (map tree_of (holds ∷ fails ∷ []))) }
    ensures known { IfOk result (Known algebra.new) }
{
    let parts = halves(alloc, holds, fails)?;
    let (sides, atom) = beside(parts, atom.copy(alloc))?;
    algebra.node(rt, alloc, DiagramLabel::Opaque { atom }, sides)
}

// A node of a level that has these branches; its other part where it has none.
pub(crate) fn closed<R: Wait>(
    algebra: &mut Algebra<'_>,
    rt: &R,
    alloc: Global,
    level: Level<'_>,
    other: &Diagram,
    made: Vec<(Key<'_>, Diagram)>,
) -> Result<Diagram, AllocError>
    requires kinds { KeysOf (level_view level) made.items }
    requires reduced { IsReduced (closed_tree level other.now made.items) }
    requires parts { PartsKnown algebra.old made.items }
    requires other { Known algebra.old other.now }
    ensures knows { Knows algebra.old algebra.new }
    ensures tree { IfOk result (λ d. tree_of d ≡ closed_tree level.entry other.now made.entry.items) }
    ensures known { IfOk result (Known algebra.new) }
{
    let lists = closed_level(alloc, level, other.share()?, made)?;
    match lists {
        Closed::Part(part) => Ok(part),
        Closed::Extra {
            texts,
            parts,
            other,
        } => {
            let points = Points::of(texts);
            points_node(
                algebra,
                rt,
                alloc,
                DiagramLabel::Extra { points },
                parts,
                other,
            )
        }
        Closed::Python { starts, parts } => {
            let starts = Starts::of(starts);
            algebra.node(rt, alloc, DiagramLabel::Python { starts }, parts)
        }
        Closed::Text {
            variable,
            texts,
            parts,
            other,
        } => {
            let points = Points::of(texts);
            let label = DiagramLabel::Text { variable, points };
            points_node(algebra, rt, alloc, label, parts, other)
        }
        Closed::Opaque { atom, holds, fails } => {
            opaque_node(algebra, rt, alloc, atom, holds, fails)
        }
    }
}

// What follows the truth of a side, where that is a truth or the side itself.
fn following(on_true: bool, on_false: bool, side: AtOnce) -> Option<AtOnce>
    ensures { IfSome (λ k. FollowsSide on_true on_false side k) result }
{
    if on_true {
        if on_false {
            return Some(AtOnce::Truth(true));
        }
        return Some(side);
    }
    if on_false {
        return None;
    }
    Some(AtOnce::Truth(false))
}

// The join of two diagrams where it is known at once: one of them is a truth, or they are equal.
fn at_once(algebra: &Algebra<'_>, op: Joining, a: &Diagram, b: &Diagram) -> Option<AtOnce>
    requires a { IsDiagram algebra.now a.now }
    requires b { IsDiagram algebra.now b.now }
    ensures { IfSome (λ k. IsJoinAtOnce op a.now b.now k) result }
{
    if let Some(value) = truth_value(a) {
        return following(
            op.truth(value, true),
            op.truth(value, false),
            AtOnce::Second,
        );
    }
    if let Some(value) = truth_value(b) {
        return following(op.truth(true, value), op.truth(false, value), AtOnce::First);
    }
    if algebra.same(a, b) {
        return following(op.truth(true, true), op.truth(false, false), AtOnce::First);
    }
    None
}

// The diagram that is known at once.
fn taken<R: Wait>(
    algebra: &mut Algebra<'_>,
    rt: &R,
    alloc: Global,
    found: AtOnce,
    a: &Diagram,
    b: &Diagram,
) -> Result<Diagram, AllocError>
    requires a { Known algebra.old a.now }
    requires b { Known algebra.old b.now }
    ensures knows { Knows algebra.old algebra.new }
    ensures tree { IfOk result (λ d. tree_of d ≡ at_once_tree (tree_of a.now) (tree_of b.now) found) }
    ensures known { IfOk result (Known algebra.new) }
{
    match found {
        AtOnce::Truth(value) => algebra.truth(rt, alloc, value),
        AtOnce::First => a.share(),
        AtOnce::Second => b.share(),
    }
}

// Whether the identity of one diagram is before that of another.
fn is_before(a: &Diagram, b: &Diagram) -> bool {
    let (shard, place) = a.id();
    let (other_shard, other_place) = b.id();
    if shard == other_shard {
        return place < other_place;
    }
    shard < other_shard
}

/// The diagram that has the joined truth of two; want of memory where a path has more levels than `room`. Where
/// the two sides may change places, they are joined in the order of their identities.
#[cycle(joined)]
pub(crate) fn joined<R: Wait>(
    algebra: &mut Algebra<'_>,
    rt: &R,
    alloc: Global,
    op: Joining,
    a: &Diagram,
    b: &Diagram,
    room: usize,
) -> Result<Diagram, AllocError>
    requires a { IsDiagram algebra.old a.now }
    requires b { IsDiagram algebra.old b.now }
    ensures knows { Knows algebra.old algebra.new }
    ensures joined { IfOk result (IsJoin op a.now b.now) }
    ensures known { IfOk result (Known algebra.new) }
    ensures reduced { IfOk result (λ d. IsReduced (tree_of d)) }
{
    if let Some(found) = at_once(algebra, op, a, b) {
        return taken(algebra, rt, alloc, found, a, b);
    }
    if op.commutes() {
        if is_before(b, a) {
            return joined_once(algebra, rt, alloc, op, b, a, room);
        }
    }
    joined_once(algebra, rt, alloc, op, a, b, room)
}

// The same in this order. An answer that was found before is found again by the two identities, so each pair of
// nodes is joined once.
#[cycle(joined)]
fn joined_once<R: Wait>(
    algebra: &mut Algebra<'_>,
    rt: &R,
    alloc: Global,
    op: Joining,
    a: &Diagram,
    b: &Diagram,
    room: usize,
) -> Result<Diagram, AllocError>
    requires a { IsDiagram algebra.old a.now }
    requires b { IsDiagram algebra.old b.now }
    ensures knows { Knows algebra.old algebra.new }
    ensures joined { IfOk result (IsJoin op a.now b.now) }
    ensures known { IfOk result (Known algebra.new) }
    ensures reduced { IfOk result (λ d. IsReduced (tree_of d)) }
{
    if let Some(found) = algebra.recall(Operation::Joined(op), a, b) {
        return found.share();
    }
    let made = joined_anew(algebra, rt, alloc, op, a, b, room)?;
    algebra.remembered(Operation::Joined(op), a, b, made)
}

// The same, part by part.
#[cycle(joined)]
fn joined_anew<R: Wait>(
    algebra: &mut Algebra<'_>,
    rt: &R,
    alloc: Global,
    op: Joining,
    a: &Diagram,
    b: &Diagram,
    room: usize,
) -> Result<Diagram, AllocError>
    requires a { IsDiagram algebra.old a.now }
    requires b { IsDiagram algebra.old b.now }
    ensures knows { Knows algebra.old algebra.new }
    ensures joined { IfOk result (IsJoin op a.now b.now) }
    ensures known { IfOk result (Known algebra.new) }
    ensures reduced { IfOk result (λ d. IsReduced (tree_of d)) }
{
    let room = deeper(room)?;
    match first_level::<Diagrams>(a, b) {
        None => algebra.truth(rt, alloc, op.truth(known(a), known(b))),
        Some(level) => {
            let keys = level_keys::<Diagrams>(alloc, level, a, b)?;
            let other = joined(
                algebra,
                rt,
                alloc,
                op,
                rest_at::<Diagrams>(a, level),
                rest_at::<Diagrams>(b, level),
                room,
            )?;
            let made = branches(algebra, rt, alloc, op, a, b, level, &keys, &other, room);
            let (rest, made) = beside(other, made_from(made, keys))?;
            made_from(closed(algebra, rt, alloc, level, &rest, made), rest)
        }
    }
}

// The branches of keys: the parts of two diagrams there, joined, without those that say what stands already.
#[cycle(joined)]
fn branches<'x, R: Wait>(
    algebra: &mut Algebra<'_>,
    rt: &R,
    alloc: Global,
    op: Joining,
    a: &Diagram,
    b: &Diagram,
    level: Level<'_>,
    keys: &[Key<'x>],
    other: &Diagram,
    room: usize,
) -> Result<Vec<(Key<'x>, Diagram)>, AllocError>
    requires a { IsDiagram algebra.old a.now }
    requires b { IsDiagram algebra.old b.now }
    requires other { IsDiagram algebra.old other.now }
    requires first { Some (level_view level) ≡ first_of (tree_of a.now) (tree_of b.now) }
    requires kinds { AreKeysOf (level_view level) keys.now }
    ensures knows { Knows algebra.old algebra.new }
    ensures made { IfOk result (λ bs. AreJoined op level.entry a.now b.now keys.now other.now bs.items) }
    ensures kinds { IfOk result (λ bs. KeysOf (level_view level.entry) bs.items) }
    ensures parts { IfOk result (λ bs. PartsKnown algebra.new bs.items) }
{
    let carried = level.is_carried();
    let mut made: Vec<(Key<'x>, Diagram)> = Vec::new(alloc);
    for key in keys {
        let next = joined(
            algebra,
            rt,
            alloc,
            op,
            part_at::<Diagrams>(a, level, *key),
            part_at::<Diagrams>(b, level, *key),
            room,
        )?;
        add(&*algebra, &mut made, other, carried, *key, next)?;
    }
    Ok(made)
}
