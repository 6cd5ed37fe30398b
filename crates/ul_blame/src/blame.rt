//! The core: what a pass over all needs leaves.
//!
//! Each need is left out where nothing serves without it. That is so where a derivation that nothing serves doesn't use the need; else
//! the problem without it is solved.
ghost use Rattle.std.specs.Prelude.{◌≡◌, ◌<◌, ◌+◌, IfOk, IfSome, IsTrue, false, length, set};
ghost use Rattle.ul_problem.specs.Serving.{HasNone};
ghost use Rattle.ul_blame.specs.Choices.{AreListed};
ghost use Rattle.ul_blame.specs.Core.{IsCore};
ghost use Rattle.ul_blame.specs.Flags.{kept_of};
ghost use Rattle.ul_blame.specs.Headline.{IsBlamed};
ghost use Rattle.ul_blame.specs.Needs.{all_needs};
ghost use Rattle.ul_blame.specs.Serving.{IsServed};
ghost use Rattle.ul_blame.specs.Turns.{ArePassed, AreSome, AreUsed, IsRefusal, IsTried, left_of};

use crate::choosing::{Hints, guess, wish, wish_all};
use crate::kept::{flag_at, kept_problem};
use crate::needs::{CoreNeed, all_needs};
use crate::serving::serves;
use crate::used::{firsts_of, used_by};
use std::alloc::{AllocError, Global};
use ul_base::owned::refused;
use ul_problem::{Derivation, Problem};
use ul_solver::{Answer, solve};

// Flags without the one at a place.
fn without(alloc: Global, flags: &[bool], place: usize) -> Result<Vec<bool>, AllocError>
    ensures { IfOk result (λ others. others.items ≡ set flags.now place false) }
{
    let mut others = Vec::from_slice(alloc, flags)?;
    if place < others.len() {
        others[place] = false;
    }
    Ok(others)
}

// Solves the problem with the needs that are left. What is selected is wished for from then on.
fn tried(
    alloc: Global,
    problem: &Problem,
    flags: &[bool],
    hints: &mut Hints,
) -> Result<Option<Derivation>, AllocError>
    ensures { IfOk result (λ o. IsTried problem.now flags.now o) }
{
    let kept = kept_problem(alloc, problem, flags)?;
    match solve(alloc, &kept)? {
        Answer::Best { picks, trail } => {
            wish_all(&mut hints.wishes, picks.as_slice());
            Ok(refused((picks, trail)))
        }
        Answer::Nothing(derivation) => Ok(Some(derivation)),
    }
}

// The needs by which nothing serves with those that are left, as the solver finds; none where some selection serves.
fn refusal_by_solving(
    alloc: Global,
    problem: &Problem,
    firsts: &[Vec<usize>],
    flags: &[bool],
    hints: &mut Hints,
) -> Result<Option<Vec<bool>>, AllocError>
    ensures { IfOk result (λ o. IsRefusal problem.now flags.now o) }
{
    match tried(alloc, problem, flags, hints)? {
        Some(derivation) => {
            let used = used_by(alloc, problem, firsts, flags, &derivation)?;
            Ok(Some(used))
        }
        None => Ok(None),
    }
}

// Whether a choice that is guessed serves with the needs that are left. It is wished for from then on.
fn is_guessed(
    alloc: Global,
    problem: &Problem,
    all: &[CoreNeed],
    firsts: &[Vec<usize>],
    flags: &[bool],
    kept: &[usize],
    place: usize,
    hints: &mut Hints,
) -> Result<bool, AllocError>
    requires all { all.now ≡ all_needs problem.now }
    requires kept { AreListed flags.now place kept.now }
    ensures { IfOk result (λ b. IsTrue b → IsServed problem.now (left_of problem.now flags.now)) }
{
    let choice = guess(alloc, problem, firsts, flags, hints.wishes.as_slice())?;
    let is_guessed = serves(problem, all, flags, choice.as_slice(), kept, place);
    if is_guessed {
        hints.wishes = choice;
    }
    Ok(is_guessed)
}

// The needs by which nothing serves with the other used needs, which are few; none where some selection serves. That
// is so mostly, so first a choice is guessed.
fn refusal_by_others(
    alloc: Global,
    problem: &Problem,
    all: &[CoreNeed],
    firsts: &[Vec<usize>],
    others: &[bool],
    kept: &[usize],
    place: usize,
    hints: &mut Hints,
) -> Result<Option<Vec<bool>>, AllocError>
    requires all { all.now ≡ all_needs problem.now }
    requires kept { AreListed others.now place kept.now }
    ensures { IfOk result (λ o. IsRefusal problem.now others.now o) }
{
    if is_guessed(alloc, problem, all, firsts, others, kept, place, hints)? {
        return Ok(None);
    }
    let refusal = refusal_by_solving(alloc, problem, firsts, others, hints)?;
    Ok(refusal)
}

// So many halved so often; one at least.
fn halved(count: usize, halvings: u32) -> usize {
    let mut left = count;
    for _ in 0..halvings {
        if left < 2 {
            return 1;
        }
        left = left / 2;
    }
    left.max(1)
}

// The flags before a place, and of those from it on the last so many.
fn last_ahead(
    alloc: Global,
    flags: &[bool],
    place: usize,
    count: usize,
) -> Result<Vec<bool>, AllocError>
    ensures { IfOk result (λ last. AreSome flags.now last.items) }
{
    let first = flags.len().saturating_sub(count);
    let mut last = Vec::with_capacity(alloc, flags.len())?;
    for k in 0..flags.len() {
        last.push(flags[k] && (k < place || first <= k))?;
    }
    Ok(last)
}

// The needs by which nothing serves with those before a place that are left and a last part of the others; none where
// that doesn't tell. All needs up to them are then passed without a search.
fn refusal_by_part(
    alloc: Global,
    problem: &Problem,
    firsts: &[Vec<usize>],
    flags: &[bool],
    place: usize,
    hints: &mut Hints,
) -> Result<Option<Vec<bool>>, AllocError>
    ensures { IfOk result (λ o. IfSome o (λ used. AreUsed problem.now flags.now used.items)) }
{
    let count = halved(flags.len().saturating_sub(place), hints.halvings);
    let last = last_ahead(alloc, flags, place, count)?;
    let refusal = refusal_by_solving(alloc, problem, firsts, last.as_slice(), hints)?;
    Ok(refusal)
}

// The needs by which nothing serves with such a part. As long as parts tell, each is halved twice as often as the one
// before, so that a core near the end is found by few of them; where one doesn't, half is tried.
fn refusal_by_parts(
    alloc: Global,
    problem: &Problem,
    firsts: &[Vec<usize>],
    flags: &[bool],
    place: usize,
    hints: &mut Hints,
) -> Result<Option<Vec<bool>>, AllocError>
    ensures { IfOk result (λ o. IfSome o (λ used. AreUsed problem.now flags.now used.items)) }
{
    if hints.halvings > 1 {
        if let Some(used) = refusal_by_part(alloc, problem, firsts, flags, place, hints)? {
            hints.halvings = hints.halvings.saturating_mul(2);
            return Ok(Some(used));
        }
        hints.halvings = 1;
    }
    let refusal = refusal_by_part(alloc, problem, firsts, flags, place, hints)?;
    if refusal.is_some() {
        hints.halvings = 2;
    }
    Ok(refusal)
}

// The needs by which nothing serves with those that are left; none where some selection serves. First a choice is
// guessed, then the problem with the other used needs alone is tried, then the one with a last part of the needs that
// are ahead, and only where that doesn't tell the whole one.
fn refusal(
    alloc: Global,
    problem: &Problem,
    all: &[CoreNeed],
    firsts: &[Vec<usize>],
    flags: &[bool],
    others: &[bool],
    kept: &[usize],
    place: usize,
    hints: &mut Hints,
) -> Result<Option<Vec<bool>>, AllocError>
    requires all { all.now ≡ all_needs problem.now }
    requires kept { AreListed flags.now place kept.now }
    requires some { AreSome flags.now others.now }
    ensures { IfOk result (λ o. IsRefusal problem.now flags.now o) }
{
    if is_guessed(alloc, problem, all, firsts, flags, kept, place, hints)? {
        return Ok(None);
    }
    if let Some(used) = refusal_by_others(
        alloc, problem, all, firsts, others, kept, place, hints,
    )? {
        return Ok(Some(used));
    }
    if is_guessed(alloc, problem, all, firsts, flags, kept, place, hints)? {
        return Ok(None);
    }
    if let Some(used) = refusal_by_parts(alloc, problem, firsts, flags, place, hints)? {
        return Ok(Some(used));
    }
    let refusal = refusal_by_solving(alloc, problem, firsts, flags, hints)?;
    Ok(refusal)
}

// Looks at the need at a place.
fn look_at(
    alloc: Global,
    problem: &Problem,
    all: &[CoreNeed],
    firsts: &[Vec<usize>],
    flags: &mut Vec<bool>,
    used: Vec<bool>,
    kept: &mut Vec<usize>,
    place: usize,
    hints: &mut Hints,
) -> Result<Vec<bool>, AllocError>
    requires all { all.now ≡ all_needs problem.now }
    requires there { place < length flags.old.items }
    requires kept { AreListed flags.old.items place kept.old.items }
    requires passed { ArePassed problem.now place flags.old.items used.items }
    ensures passed { IfOk result (λ now. ArePassed problem.now (place + 1) flags.new.items now.items) }
    ensures kept { IfOk result (λ now. AreListed flags.new.items (place + 1) kept.new.items) }
{
    flags[place] = false;
    if !flag_at(used.as_slice(), place) {
        return Ok(used);
    }
    wish(&mut hints.wishes, all, place);
    let others = without(alloc, used.as_slice(), place)?;
    match refusal(
        alloc,
        problem,
        all,
        firsts,
        flags.as_slice(),
        others.as_slice(),
        kept.as_slice(),
        place,
        hints,
    )? {
        Some(now) => Ok(now),
        None => {
            flags[place] = true;
            kept.push(place)?;
            Ok(used)
        }
    }
}

// The needs whose flags are set.
fn kept_list(alloc: Global, flags: &[bool], all: &[CoreNeed]) -> Result<Vec<CoreNeed>, AllocError>
    ensures { IfOk result (λ kept. kept.items ≡ kept_of flags.now all.now) }
{
    let mut kept = Vec::new(alloc);
    for k in 0..all.len() {
        if flag_at(flags, k) {
            kept.push(all[k])?;
        }
    }
    Ok(kept)
}

/// The core of a problem that nothing serves, found by a derivation that nothing does: what the derivation doesn't use is
/// left out without a search. Any derivation serves; an error is want of memory.
pub fn core_by(
    alloc: Global,
    problem: &Problem,
    derivation: &Derivation,
) -> Result<Vec<CoreNeed>, AllocError>
    requires { HasNone problem.now }
    ensures { IfOk result (λ core. IsCore problem.now core.items) }
{
    let all = all_needs(alloc, problem)?;
    let needs = all.as_slice();
    let firsts = firsts_of(alloc, problem)?;
    let mut flags = vec![in alloc; true; needs.len()]?;
    let mut used = used_by(
        alloc,
        problem,
        firsts.as_slice(),
        flags.as_slice(),
        derivation,
    )?;
    let wishes = vec![in alloc; None; problem.nodes().len()]?;
    let mut kept = Vec::new(alloc);
    let mut hints = Hints {
        wishes,
        halvings: 1,
    };
    for place in 0..needs.len() {
        used = look_at(
            alloc,
            problem,
            needs,
            firsts.as_slice(),
            &mut flags,
            used,
            &mut kept,
            place,
            &mut hints,
        )?;
    }
    let core = kept_list(alloc, flags.as_slice(), needs)?;
    Ok(core)
}

/// The core of a problem; `None` exactly where some selection serves. An error is want of memory.
pub fn core(alloc: Global, problem: &Problem) -> Result<Option<Vec<CoreNeed>>, AllocError>
    ensures { IfOk result (λ o. IsBlamed problem.now o) }
{
    match solve(alloc, problem)? {
        Answer::Best { picks, trail } => Ok(refused((picks, trail))),
        Answer::Nothing(derivation) => {
            let core = core_by(alloc, problem, &derivation)?;
            Ok(Some(core))
        }
    }
}
