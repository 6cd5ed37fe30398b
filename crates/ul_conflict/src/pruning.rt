//! The steps that a derivation rests on: the last one, and with each cut the two steps that it is made of.
ghost use Rattle.std.specs.Prelude.{◌≡◌, ◌+◌, ◌++◌, ◌<◌, ◌≤◌, suc, [], Some, length, slice_get, IfOk};
ghost use Rattle.ul_problem.specs.Steps.{AreRightAfter, Accepts};
ghost use Rattle.ul_conflict.specs.Needed.{new_number, renumbered_step, AreMarkedFor, AreNeeded};
ghost use Rattle.ul_conflict.specs.Needed.{ArePartsMarked, ClosesAt, HaveGrown, IsMarkedFor};
ghost use Rattle.ul_conflict.specs.Pruned.{IsKept, IsPrunedTo};

use std::alloc::{AllocError, Global};
use ul_problem::{Derivation, Problem, Step};

/// The steps kept, and the new number of each step that was looked at.
#[derive(Drop)]
pub struct Pruned {
    pub kept: Vec<Step>,
    pub numbers: Vec<u64>,
}

// The step at a place, of held ones and then learned ones.
fn step_at<'a>(held: &'a [Step], learned: &'a [Step], place: usize) -> &'a Step
    requires { place < length held.now + length learned.now }
    ensures { slice_get (held.now ++ learned.now) place ≡ Some result.now }
{
    if place < held.len() {
        return &held[place];
    }
    &learned[place - held.len()]
}

// Marks the step of a number, where it is before a place.
fn mark(marks: &mut Vec<bool>, number: u64, place: usize)
    requires { place ≤ length marks.old.items }
    ensures grown { HaveGrown place marks.old.items marks.new.items }
    ensures marked { IsMarkedFor place number marks.new.items }
{
    let number = number as usize;
    if number == 0 {
        return;
    }
    if number > place {
        return;
    }
    marks[number - 1] = true;
}

// Marks the steps before a place that a step there is made of.
fn mark_parts(marks: &mut Vec<bool>, step: &Step, place: usize)
    requires { place ≤ length marks.old.items }
    ensures grown { HaveGrown place marks.old.items marks.new.items }
    ensures marked { AreMarkedFor place step.now marks.new.items }
{
    match step {
        Step::Need { .. } => return,
        Step::Python { .. } => return,
        Step::Base { .. } => return,
        Step::Cut { left, right, .. } => {
            mark(marks, *left, place);
            mark(marks, *right, place);
        }
    }
}

// Marks what the step at a place is made of, where that place is marked.
fn visit(marks: &mut Vec<bool>, held: &[Step], learned: &[Step], place: usize)
    requires within { place < length marks.old.items }
    requires there { place < length held.now + length learned.now }
    requires parts { ArePartsMarked (held.now ++ learned.now) (suc place) marks.old.items }
    ensures grown { HaveGrown place marks.old.items marks.new.items }
    ensures parts { ArePartsMarked (held.now ++ learned.now) place marks.new.items }
{
    if !marks[place] {
        return;
    }
    mark_parts(marks, step_at(held, learned, place), place);
}

// The steps that the last of so many rests on.
fn needed(
    alloc: Global,
    held: &[Step],
    learned: &[Step],
    count: usize,
) -> Result<Vec<bool>, AllocError>
    requires some { 0 < count }
    requires there { count ≤ length held.now + length learned.now }
    ensures { IfOk result (λ v. AreNeeded (held.now ++ learned.now) count v.items) }
{
    let mut marks = vec![in alloc; false; count]?;
    marks[count - 1] = true;
    let mut place = count;
    while place > 0 {
        visit(&mut marks, held, learned, place - 1);
        place -= 1;
    }
    Ok(marks)
}

// The new number of a step, or 0.
fn renumber(numbers: &[u64], number: u64) -> u64
    ensures { result ≡ new_number numbers.now number }
{
    let number = number as usize;
    if number == 0 || number > numbers.len() {
        return 0;
    }
    numbers[number - 1]
}

// The step with new numbers.
fn renumbered(alloc: Global, numbers: &[u64], step: &Step) -> Result<Step, AllocError>
    ensures { IfOk result (λ s. s ≡ renumbered_step numbers.now step.now) }
{
    match step {
        Step::Need { .. } => step.copy(alloc),
        Step::Python { .. } => step.copy(alloc),
        Step::Base { .. } => step.copy(alloc),
        Step::Cut {
            left,
            right,
            node,
            terms,
        } => {
            let terms = terms.copy(alloc)?;
            Ok(Step::Cut {
                left: renumber(numbers, *left),
                right: renumber(numbers, *right),
                node: *node,
                terms,
            })
        }
    }
}

// Keeps a step under the next number.
fn keep(alloc: Global, step: &Step, pruned: &mut Pruned) -> Result<(), AllocError>
    ensures { IfOk result (λ _. IsKept step.now pruned.old pruned.new) }
{
    let again = renumbered(alloc, pruned.numbers.as_slice(), step)?;
    pruned.kept.push(again)?;
    let number = pruned.kept.len() as u64;
    pruned.numbers.push(number)?;
    Ok(())
}

// Looks at the next step, which is kept where it is marked.
fn turn(
    alloc: Global,
    problem: &Problem,
    held: &[Step],
    learned: &[Step],
    marks: &[bool],
    pruned: &mut Pruned,
) -> Result<(), AllocError>
    requires there { length pruned.old.numbers.items < length held.now + length learned.now }
    requires marked { length pruned.old.numbers.items < length marks.now }
    requires right { AreRightAfter problem.now [] (held.now ++ learned.now) }
    requires parts { ArePartsMarked (held.now ++ learned.now) 0 marks.now }
    requires pruned { IsPrunedTo problem.now (held.now ++ learned.now) marks.now pruned.old }
    ensures pruned { IfOk result (λ _. IsPrunedTo problem.now (held.now ++ learned.now) marks.now pruned.new) }
    ensures count { IfOk result (λ _. length pruned.new.numbers.items ≡ length pruned.old.numbers.items + 1) }
{
    let _ = problem.roots();
    let place = pruned.numbers.len();
    if !marks[place] {
        pruned.numbers.push(0)?;
        return Ok(());
    }
    keep(alloc, step_at(held, learned, place), pruned)?;
    Ok(())
}

/// The derivation that ends in the step of a number: the steps that it rests on, in their order.
pub fn derivation_of(
    alloc: Global,
    problem: &Problem,
    held: &[Step],
    learned: &[Step],
    number: u64,
) -> Result<Derivation, AllocError>
    requires right { AreRightAfter problem.now [] (held.now ++ learned.now) }
    requires closes { ClosesAt problem.now (held.now ++ learned.now) number }
    requires there { number ≤ length held.now + length learned.now }
    requires some { 0 < number }
    ensures { IfOk result (λ d. Accepts problem.now d) }
{
    let _ = problem.roots();
    let count = number as usize;
    let marks = needed(alloc, held, learned, count)?;
    let mut pruned = Pruned {
        kept: Vec::new(alloc),
        numbers: Vec::with_capacity(alloc, count)?,
    };
    for _ in 0..count {
        turn(alloc, problem, held, learned, marks.as_slice(), &mut pruned)?;
    }
    Ok(Derivation::of(pruned.kept))
}
