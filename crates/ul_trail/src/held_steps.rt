//! The held steps, beside what they say.
ghost use Rattle.std.specs.Prelude.{◌≡◌, ◌<◌, ◌∷◌, [], length, get_or, IfOk};
ghost use Rattle.ul_problem.specs.declared.step.Step.TheVariants.{Need as NeedStep};
ghost use Rattle.ul_trail.specs.HeldSteps.{no_need, need_in, need_of, is_read_off, step_read, IsNumbered, HoldsAlso};

use std::alloc::{AllocError, Global};
use ul_problem::{Step, Term};
use ul_ranges::Ordinals;

/// Held steps beside what they say. Nearly all are needs, which are read off their two terms; the others are kept
/// as they are.
#[derive(Drop)]
pub struct HeldSteps {
    /// Of each held step 0 where it is read off its terms, and else one more than its place among the others.
    pub places: Vec<u64>,
    pub others: Vec<Step>,
}

impl HeldSteps {
    /// No step, with room for so many that are read off.
    pub fn with_room(alloc: Global, room: usize) -> Result<HeldSteps, AllocError>
        ensures places { IfOk result (λ h. h.places.items ≡ []) }
        ensures others { IfOk result (λ h. h.others.items ≡ []) }
    {
        Ok(HeldSteps {
            places: Vec::with_capacity(alloc, room)?,
            others: Vec::new(alloc),
        })
    }

    /// The step at a place, which says the terms.
    pub fn step(&self, alloc: Global, place: usize, terms: &[Term]) -> Result<Step, AllocError>
        requires { place < length self.now.places.items }
        ensures { IfOk result (λ s.
            s ≡ step_read self.now.others.items terms.now (get_or self.now.places.items place 0)) }
    {
        let number = self.places[place] as usize;
        if number == 0 {
            return need_of(alloc, terms);
        }
        match self.others.get(number - 1) {
            Some(other) => other.copy(alloc),
            None => need_of(alloc, terms),
        }
    }

    /// One step more.
    pub fn push(&mut self, step: Step) -> Result<(), AllocError>
        ensures { IfOk result (λ _. HoldsAlso (step ∷ []) self.old self.new) }
    {
        let number = number_of(&mut self.others, step)?;
        self.places.push(number)?;
        Ok(())
    }

    /// Steps more.
    pub fn append(&mut self, steps: Vec<Step>) -> Result<(), AllocError>
        ensures { IfOk result (λ _. HoldsAlso steps.items self.old self.new) }
    {
        for step in steps {
            self.push(step)?;
        }
        Ok(())
    }
}

// The number of a step that is held: 0 where it is read off its terms, and else one more than its place, which is then at
// the end of the others.
fn number_of(others: &mut Vec<Step>, step: Step) -> Result<u64, AllocError>
    ensures { IfOk result (λ k. IsNumbered step others.old.items others.new.items k) }
{
    if is_read_off(&step) {
        drop(step);
        return Ok(0);
    }
    let number = others.len() as u64 + 1;
    others.push(step)?;
    Ok(number)
}

// Whether a step is a need that says two terms, off which it can be read.
fn is_read_off(step: &Step) -> bool
    ensures { result ≡ is_read_off step.now }
{
    match step {
        Step::Need {
            node,
            target,
            permitted,
            ..
        } => {
            if *node == *target {
                return false;
            }
            !permitted.is_empty()
        }
        Step::Python { .. } => false,
        Step::Base { .. } => false,
        Step::Cut { .. } => false,
    }
}

// The need that says terms.
fn need_of(alloc: Global, terms: &[Term]) -> Result<Step, AllocError>
    ensures { IfOk result (λ s. s ≡ need_of terms.now) }
{
    if terms.len() < 2 {
        no_need(alloc)
    } else {
        need_in(alloc, &terms[0], &terms[1])
    }
}

// The need that says two terms.
fn need_in(alloc: Global, first: &Term, second: &Term) -> Result<Step, AllocError>
    ensures { IfOk result (λ s. s ≡ need_in first.now second.now) }
{
    match first {
        Term::In(node, versions) => match second {
            Term::In(_, _) => no_need(alloc),
            Term::NotIn(target, permitted) => need(alloc, *node, versions, *target, permitted),
        },
        Term::NotIn(target, permitted) => match second {
            Term::In(node, versions) => need(alloc, *node, versions, *target, permitted),
            Term::NotIn(_, _) => no_need(alloc),
        },
    }
}

// A need.
fn need(
    alloc: Global,
    node: u64,
    versions: &Ordinals,
    target: u64,
    permitted: &Ordinals,
) -> Result<Step, AllocError>
    ensures { IfOk result (λ s. s ≡ NeedStep node versions.now target permitted.now) }
{
    let versions = versions.copy(alloc)?;
    let permitted = permitted.copy(alloc)?;
    Ok(Step::Need {
        node,
        versions,
        target,
        permitted,
    })
}

// What is read off terms that aren't a need's.
fn no_need(alloc: Global) -> Result<Step, AllocError>
    ensures { IfOk result (λ s. s ≡ no_need) }
{
    let versions = Ordinals::none(alloc, 0)?;
    Ok(Step::Python { node: 0, versions })
}
