//! The answer of `check`.
//!
//! What an answer is found with is left to the end of the process by `mem::forget`: that comes soon, and the system
//! takes large values back at once, where letting go of them goes through them piece by piece.
ghost use Rattle.std.specs.Prelude.{◌≡◌, ℕ, List, IfOk, Ok};
ghost use Rattle.ul_files.specs.Files.{ByReads, Remembers};
ghost use Rattle.ul_algebra.specs.Spelled.{tree_of};
ghost use Rattle.ul_region.specs.Truths.{IsRegion};
ghost use Rattle.ul_answers.specs.Views.{view as answer_view};
ghost use Rattle.ul_inputs.specs.FileFaults.{refused_file};
ghost use Rattle.ul_inputs.specs.Inputs.{only};
ghost use Rattle.ul_inputs.specs.Refusals.{Answers, Cause, IsRefusalFor};
ghost use Rattle.ul_inputs.specs.Resolutions.{IsResolution, view};
ghost use Rattle.ul_commands.specs.Checking as spec;
ghost use Rattle.ul_commands.specs.Questions.{IsProblemIn};

use crate::forking::starts_in;
use std::alloc::{AllocError, Global};
use std::mem;
use std::sync::Wait;
use ul_algebra::{Algebra, Diagram};
use ul_answers::Answer;
use ul_derivation::AcceptFault;
use ul_files::Files;
use ul_inputs::{FileFault, FilePlace, Refusal, Resolution, file_refusal, large_file};
use ul_interner::Interner;
use ul_placing::problem_of;
use ul_problem::Problem;
use ul_report_judge::judge;
use ul_report_read::{Proof, ProofFault, read};

// What is wrong with a derivation file.
fn file_fault(fault: ProofFault) -> FileFault
    ensures { (path : List ℕ) → refused_file path result ≡ spec.refused_proof path fault }
{
    match fault {
        ProofFault::Line(line) => FileFault::At(FilePlace::Numbered("line", line)),
        ProofFault::NoMemory => FileFault::NoMemory,
    }
}

// The refusal of a derivation file for its fault.
fn refusal(alloc: Global, path: &str, fault: ProofFault) -> Refusal
    ensures { IsRefusalFor (spec.refused_proof path.now fault) result }
{
    file_refusal(alloc, path, file_fault(fault))
}

// The derivation of a text.
#[tactic(auto, using(crate::proofs::ProofFaults::proof_found, crate::proofs::ProofFaults::proof_fault))]
fn proof_in(alloc: Global, path: &str, bytes: &[u8]) -> Result<Proof, Refusal>
    ensures { Answers (λ x. x) result (only (spec.IsProofOf path.now bytes.now)) }
{
    match read(alloc, bytes) {
        Ok(proof) => Ok(proof),
        Err(fault) => Err(refusal(alloc, path, fault)),
    }
}

/// The derivation of the derivation file at a path.
pub(crate) fn proof_file<F: Files>(
    alloc: Global,
    files: &mut F,
    path: &str,
) -> Result<Proof, Refusal>
    ensures told { ByReads (F.reads files.new) (λ m. Answers (λ x. x) result (spec.proof_at path.now m)) }
    ensures same { F.map files.new ≡ F.map files.old }
    ensures grown { Remembers (F.reads files.old) (F.reads files.new) }
    ensures cause { Cause (F.faults files.old) (F.faults files.new) (F.last_failed files.new) result }
{
    let bytes = large_file(alloc, files, path)?;
    proof_in(alloc, path, &bytes)
}

// The problem of a region of a resolution.
fn problem_at<R: Wait>(
    rt: &R,
    alloc: Global,
    algebra: &mut Algebra<'_>,
    resolution: &Resolution,
    region: &Diagram,
) -> Result<Problem, AllocError>
    requires resolution { IsResolution (view resolution.now) }
    requires region { IsRegion algebra.old region.now }
    ensures { IfOk result (IsProblemIn (view resolution.now) (tree_of region.now)) }
{
    let starts = starts_in(alloc, resolution)?;
    problem_of(
        rt,
        alloc,
        &resolution.catalog,
        starts.as_slice(),
        &resolution.wish,
        algebra,
        region,
    )
}

// The answer that a judgement gives; want of memory where that ended it.
fn answer_of(judgement: Result<(), AcceptFault>) -> Result<Answer, AllocError>
    ensures { result ≡ spec.answer_of judgement }
{
    match judgement {
        Ok(()) => Ok(Answer::Accepted),
        Err(AcceptFault::StepFault { step }) => Ok(Answer::Rejected(step)),
        Err(AcceptFault::NoMemory) => Err(AllocError),
    }
}

// The judgement of a derivation on the problem of its region.
fn judged(
    alloc: Global,
    resolution: &Resolution,
    problem: &Problem,
    proof: &Proof,
) -> Result<Answer, AllocError>
    requires { IsProblemIn (view resolution.now) proof.now.region problem.now }
    ensures { IfOk result (λ a. spec.IsCheckAnswer (view resolution.now) proof.now (Ok (answer_view a))) }
{
    answer_of(judge(alloc, problem, &proof.steps))
}

// The answer to a resolution and a derivation, by an algebra.
fn answer_for<R: Wait>(
    rt: &R,
    alloc: Global,
    algebra: &mut Algebra<'_>,
    resolution: &Resolution,
    proof: &Proof,
) -> Result<Answer, AllocError>
    requires { IsResolution (view resolution.now) }
    ensures { IfOk result (λ a. spec.IsCheckAnswer (view resolution.now) proof.now (Ok (answer_view a))) }
{
    ul_tree::laws::no_extra();
    let region = algebra.of_tree(rt, alloc, proof.region.as_tree())?;
    let problem = problem_at(rt, alloc, algebra, resolution, &region)?;
    let answer = judged(alloc, resolution, &problem, proof);
    mem::forget(problem);
    answer
}

/// The answer of `check` to a resolution and a derivation. What it is found with is left to the end of the process.
pub(crate) fn check<R: Wait>(
    rt: &R,
    alloc: Global,
    resolution: &Resolution,
    proof: &Proof,
) -> Result<Answer, Refusal>
    requires { IsResolution (view resolution.now) }
    ensures { Answers answer_view result (only (spec.IsCheckAnswer (view resolution.now) proof.now)) }
{
    let (interner, pass) = Interner::begin(alloc)?;
    let mut algebra = Algebra::begin(alloc, &interner, pass);
    let answer = answer_for(rt, alloc, &mut algebra, resolution, proof);
    mem::forget(algebra);
    mem::forget(interner);
    Ok(answer?)
}
