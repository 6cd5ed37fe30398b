//! The answer of `verify`.
//!
//! What an answer is found with is left to the end of the process by `mem::forget`: that comes soon, and the system
//! takes large values back at once, where letting go of them goes through them piece by piece.
ghost use Rattle.std.specs.Prelude.{◌≡◌, IfOk, Ok};
ghost use Rattle.ul_lock.specs.WellFormed.{IsWellFormed};
ghost use Rattle.ul_answers.specs.Views.{view as answer_view};
ghost use Rattle.ul_inputs.specs.Inputs.{only};
ghost use Rattle.ul_inputs.specs.Refusals.{Answers};
ghost use Rattle.ul_inputs.specs.Resolutions.{view};
ghost use Rattle.ul_commands.specs.Verifying.{IsVerifyAnswer, answer_of};

use std::alloc::{AllocError, Global};
use std::mem;
use std::sync::Wait;
use ul_algebra::Algebra;
use ul_answers::Answer;
use ul_inputs::{Refusal, Resolution};
use ul_interner::Interner;
use ul_lock::Lock;
use ul_verify::{VerifyFault, verify as judged};

// The answer that a judgement of a lock gives; want of memory where that ended it.
fn answer_of(judgement: Result<(), VerifyFault>) -> Result<Answer, AllocError>
    ensures { result ≡ answer_of judgement }
{
    match judgement {
        Ok(()) => Ok(Answer::Verified),
        Err(VerifyFault::Root) => Ok(Answer::RejectedRoot),
        Err(VerifyFault::Supported) => Ok(Answer::RejectedSupported),
        Err(VerifyFault::Package(name, version)) => Ok(Answer::RejectedPackage { name, version }),
        Err(VerifyFault::NoMemory) => Err(AllocError),
    }
}

// The answer, by an algebra.
fn answer_for<R: Wait>(
    rt: &R,
    alloc: Global,
    algebra: &mut Algebra<'_>,
    resolution: &Resolution,
    lock: &Lock,
) -> Result<Answer, AllocError>
    requires { IsWellFormed lock.now }
    ensures { IfOk result (λ a. IsVerifyAnswer (view resolution.now) lock.now (Ok (answer_view a))) }
{
    let judgement = judged(
        rt,
        alloc,
        algebra,
        lock,
        &resolution.project,
        &resolution.catalog,
    );
    answer_of(judgement)
}

/// The answer of `verify` to a resolution and a lock. What it is found with is left to the end of the process.
///
/// # Errors
///
/// Only for want of memory.
pub(crate) fn verdict<R: Wait>(
    rt: &R,
    alloc: Global,
    resolution: &Resolution,
    lock: &Lock,
) -> Result<Answer, AllocError>
    requires { IsWellFormed lock.now }
    ensures { IfOk result (λ a. IsVerifyAnswer (view resolution.now) lock.now (Ok (answer_view a))) }
{
    let (interner, pass) = Interner::begin(alloc)?;
    let mut algebra = Algebra::begin(alloc, &interner, pass);
    let answer = answer_for(rt, alloc, &mut algebra, resolution, lock);
    mem::forget(algebra);
    mem::forget(interner);
    answer
}

/// The answer of `verify`, or a refusal, which is want of memory alone.
pub(crate) fn verify<R: Wait>(
    rt: &R,
    alloc: Global,
    resolution: &Resolution,
    lock: &Lock,
) -> Result<Answer, Refusal>
    requires { IsWellFormed lock.now }
    ensures { Answers answer_view result (only (IsVerifyAnswer (view resolution.now) lock.now)) }
{
    let answer = verdict(rt, alloc, resolution, lock)?;
    Ok(answer)
}
