//! Unit propagation. A step looks at one incompatibility; a walk at those that a fact's node is in; and the spread at all that is new.
ghost use Rattle.std.specs.Prelude.{◌≡◌, ◌+◌, ◌≤◌, ◌<◌, ℕ, Some, suc, length, slice_get, IfOk};
ghost use Rattle.ul_problem.specs.Terms.{node_of, negation};
ghost use Rattle.ul_problem.specs.declared.term.Term.{Term};
ghost use Rattle.ul_trail.specs.Counts.{open_in};
ghost use Rattle.ul_trail.specs.declared.fact.Fact.{Fact};
ghost use Rattle.ul_trail.specs.Standing.{AreSized, AllSized, IsSettled};
ghost use Rattle.ul_trail.specs.Findings.{IsFinding, IsWalked, IsSpread};
ghost use Rattle.ul_trail.specs.Parts.{Grows, IsSettledBy, IsWalkedBy, Settles, Stands, Watches};

use crate::fact::{Fact, Progress};
use crate::standing::Standing;
use crate::watching::Watching;
use std::alloc::{AllocError, Global};
use ul_problem::{Incompat, Relation, Term};

/// What a look at one incompatibility finds.
#[derive(Clone, Copy)]
pub enum Finding {
    /// All terms hold.
    Held,
    /// Nothing is derived.
    Calm,
    /// All terms hold but the one at this place, which can fail.
    Forced(usize),
}

/// Which facts and which incompatibilities have been looked at: those before these places.
#[derive(Clone, Copy)]
pub struct Cursor {
    pub seen: usize,
    pub checked: usize,
}

// Looks at one incompatibility.
fn examine(standing: &Standing, terms: &[Term]) -> Finding
    requires standing { Stands standing.now }
    requires sized { AreSized standing.now.sizes.items terms.now }
    ensures { IsFinding standing.now.sizes.items standing.now.facts.items terms.now result }
{
    let mut loose = None;
    for (place, term) in terms.iter().enumerate() {
        let told = standing.told(term);
        match told {
            Relation::Holds => {}
            Relation::Fails => return Finding::Calm,
            Relation::Unknown => {
                if loose.is_some() {
                    return Finding::Calm;
                }
                loose = Some(place);
            }
        }
    }
    match loose {
        Some(place) => Finding::Forced(place),
        None => Finding::Held,
    }
}

// Looks at the incompatibility at a place and appends what it forces. The answer is whether all its terms hold.
fn settle(
    alloc: Global,
    terms: &[Incompat],
    standing: &mut Standing,
    place: usize,
    level: u64,
) -> Result<bool, AllocError>
    requires standing { Stands standing.old }
    requires place { place < length terms.now }
    requires sized { AllSized standing.old.sizes.items terms.now }
    ensures standing { IfOk result (λ _. Stands standing.new) }
    ensures sizes { IfOk result (λ _. standing.new.sizes.items ≡ standing.old.sizes.items) }
    ensures settlement { IfOk result (λ b. Settles terms.now level place standing.old standing.new b) }
{
    let list = terms[place].terms();
    let finding = examine(standing, list);
    match finding {
        Finding::Held => Ok(true),
        Finding::Calm => Ok(false),
        Finding::Forced(at) => {
            let term = list[at].negation(alloc)?;
            let fact = Fact {
                term,
                level,
                cause: Some(place as u64),
            };
            standing.push(alloc, fact)?;
            Ok(false)
        }
    }
}

// Looks at the incompatibilities on the node of the fact at `seen`. The answer is the place of one whose terms all hold, if there is one.
fn walk(
    alloc: Global,
    watching: &Watching,
    standing: &mut Standing,
    cursor: Cursor,
    level: u64,
) -> Result<Option<u64>, AllocError>
    requires standing { Stands standing.old }
    requires watched { Watches watching.now }
    requires width { length watching.now.rows.items ≡ length standing.old.sizes.items }
    requires sized { AllSized standing.old.sizes.items watching.now.terms.items }
    requires seen { cursor.seen < length standing.old.facts.items }
    requires checked { cursor.checked ≤ length watching.now.terms.items }
    requires settled { IsSettledBy watching.now standing.old cursor }
    ensures standing { IfOk result (λ _. Stands standing.new) }
    ensures sizes { IfOk result (λ _. standing.new.sizes.items ≡ standing.old.sizes.items) }
    ensures grown { IfOk result (λ _. Grows watching.now level standing.old standing.new) }
    ensures walked { IfOk result (λ r. IsWalkedBy watching.now standing.new cursor r) }
{
    let node = standing.facts[cursor.seen].term.node() as usize;
    let row = watching.rows[node].as_vec().as_slice();
    for place in row {
        let held = settle(
            alloc,
            watching.terms.as_slice(),
            standing,
            *place as usize,
            level,
        )?;
        if held {
            return Ok(Some(*place));
        }
    }
    Ok(None)
}

/// Looks at all that is new, until nothing is, or until the terms of an incompatibility all hold.
pub fn spread(
    alloc: Global,
    watching: &Watching,
    standing: &mut Standing,
    cursor: &mut Cursor,
    level: u64,
) -> Result<Progress, AllocError>
    requires standing { Stands standing.old }
    requires watched { Watches watching.now }
    requires width { length watching.now.rows.items ≡ length standing.old.sizes.items }
    requires sized { AllSized standing.old.sizes.items watching.now.terms.items }
    requires seen { cursor.old.seen ≤ length standing.old.facts.items }
    requires checked { cursor.old.checked ≤ length watching.now.terms.items }
    requires settled { IsSettledBy watching.now standing.old cursor.old }
    ensures standing { IfOk result (λ _. Stands standing.new) }
    ensures sizes { IfOk result (λ _. standing.new.sizes.items ≡ standing.old.sizes.items) }
    ensures grown { IfOk result (λ _. Grows watching.now level standing.old standing.new) }
    ensures seen { IfOk result (λ _. cursor.new.seen ≤ length standing.new.facts.items) }
    ensures checked { IfOk result (λ _. cursor.new.checked ≤ length watching.now.terms.items) }
    ensures settled { IfOk result (λ _. IsSettledBy watching.now standing.new cursor.new) }
    ensures progress { IfOk result (λ r. IsSpread watching.now.terms.items standing.new.facts.items r) }
{
    let mut now = *cursor;
    loop {
        if now.seen < standing.facts.len() {
            let held = walk(alloc, watching, standing, now, level)?;
            if let Some(place) = held {
                *cursor = now;
                return Ok(Progress::Conflict(place));
            }
            now.seen += 1;
        } else if now.checked < watching.terms.len() {
            let held = settle(
                alloc,
                watching.terms.as_slice(),
                standing,
                now.checked,
                level,
            )?;
            if held {
                *cursor = now;
                return Ok(Progress::Conflict(now.checked as u64));
            }
            now.checked += 1;
        } else {
            *cursor = now;
            return Ok(Progress::Quiet);
        }
    }
}
