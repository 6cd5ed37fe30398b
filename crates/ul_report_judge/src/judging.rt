//! Whether the steps of a text are accepted.
ghost use Rattle.std.specs.Prelude.{◌≡◌, ◌≤◌, length};
ghost use Rattle.ul_report_judge.specs.Front as spec;
ghost use Rattle.ul_report_judge.specs.Front.{IsFrontOf};
ghost use Rattle.ul_report_judge.specs.Headline.{IsJudgedByNames};

use crate::naming::front;
use std::alloc::Global;
use ul_derivation::{AcceptFault, accepts};
use ul_problem::{Derivation, Problem, Step};
use ul_report::{Steps, TextStep};

// What is said of all texts, where so many in front are named and these are judged so. It takes no memory.
fn answer_of(
    named: usize,
    texts: &[TextStep],
    front: Result<(), AcceptFault>,
) -> Result<(), AcceptFault>
    requires { named ≤ length texts.now }
    ensures { result ≡ spec.answer_of named texts.now front }
{
    match front {
        Ok(()) => {
            if named == texts.len() {
                Ok(())
            } else {
                Err(AcceptFault::StepFault {
                    step: named as u64 + 1,
                })
            }
        }
        Err(fault) => Err(fault),
    }
}

// Whether all are named, and those that are named are accepted.
fn judged(
    alloc: Global,
    problem: &Problem,
    texts: &[TextStep],
    named: Vec<Step>,
) -> Result<(), AcceptFault>
    requires { IsFrontOf problem.now texts.now named.items }
    ensures { IsJudgedByNames problem.now texts.now result }
{
    let count = named.len();
    let derivation = Derivation::of(named);
    let front = accepts(alloc, problem, &derivation);
    answer_of(count, texts, front)
}

/// Whether steps by names and versions are accepted on a problem: each names nodes and versions of the problem, and
/// `accepts` of ul_derivation accepts what they name. A version is named up to the order of versions: `1` names `1.0`.
///
/// # Errors
///
/// `StepFault` exactly at the first step that names a node or version that the problem hasn't, or that isn't right; it
/// is the number of steps plus one where each step is right and the last doesn't forbid what the roots are, or there
/// is none.
pub fn judge(alloc: Global, problem: &Problem, steps: &Steps) -> Result<(), AcceptFault>
    ensures { IsJudgedByNames problem.now steps.now result }
{
    let texts = steps.as_slice();
    match front(alloc, problem, texts) {
        Ok(named) => judged(alloc, problem, texts, named),
        Err(_) => Err(AcceptFault::NoMemory),
    }
}
