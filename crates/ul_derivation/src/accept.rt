//! Whether a derivation is accepted.
ghost use Rattle.ul_derivation.specs.Headline.{IsJudged};

use crate::checks::is_right;
use crate::closing::closes;
use crate::index::Index;
use std::alloc::{AllocError, Global};
use ul_problem::{Derivation, Problem};

/// Why a derivation isn't accepted.
#[derive(Clone, Copy)]
pub enum AcceptFault {
    /// The first bad step, from 1. It is the number of steps plus one where each step is right and the last doesn't forbid what the
    /// roots are, or there is none.
    StepFault { step: u64 },
    /// Memory ran out.
    NoMemory,
}

/// Whether the derivation is accepted: each step is right after those before it, and the last has only positive terms on the roots,
/// each with a set that isn't empty. Where it is, no selection serves the problem.
pub fn accepts(alloc: Global, problem: &Problem, derivation: &Derivation) -> Result<(), AcceptFault>
    ensures { IsJudged problem.now derivation.now result }
{
    let steps = derivation.as_slice();
    let mut index = Index::new(alloc);
    for i in 0..steps.len() {
        let right = match is_right(alloc, &mut index, problem, &steps[..i], &steps[i]) {
            Ok(right) => right,
            Err(_) => return Err(AcceptFault::NoMemory),
        };
        if !right {
            return Err(AcceptFault::StepFault { step: i as u64 + 1 });
        }
    }
    let closed = match closes(alloc, problem, steps) {
        Ok(closed) => closed,
        Err(_) => return Err(AcceptFault::NoMemory),
    };
    if closed {
        Ok(())
    } else {
        Err(AcceptFault::StepFault {
            step: steps.len() as u64 + 1,
        })
    }
}
