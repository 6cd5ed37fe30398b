//! The fork answer of a resolution.
ghost use Rattle.std.specs.Prelude.{◌≡◌, IfErr, IfOk};
ghost use Rattle.ul_workers.specs.WorkerCount.{IsWorkerCount};
ghost use Rattle.ul_forks.specs.Outcome.{starts_of};
ghost use Rattle.ul_inputs.specs.Refusals.{IsRefusalFor};
ghost use Rattle.ul_inputs.specs.Resolutions.{IsResolution, view};
ghost use Rattle.ul_commands.specs.Forking.{AreForksOf, HasRounds, IsForkRefusal, IsQuestionOf, IsSharedOf, refused_forks};
ghost use Rattle.ul_commands.specs.Questions.{question_of};

use std::alloc::{AllocError, Global};
use std::sync::Wait;
use std::thread::Threads;
use ul_algebra::DiagramLabel;
use ul_base::{Gate, Name, Node};
use ul_forks::{ForkFault, Forks, Question, fork_all, start_nodes};
use ul_generations::MOST_FORKS;
use ul_inputs::{Refusal, Resolution};
use ul_interner::{Interner, Pass};
use ul_project::Project;

// The refusal of a fork answer.
fn fork_refusal(fault: ForkFault) -> Refusal
    ensures { IsRefusalFor (refused_forks fault) result }
{
    match fault {
        ForkFault::TooManyForks { count: _ } => Refusal::Limit("forks", MOST_FORKS as u64),
        ForkFault::NoMemory => Refusal::NoMemory,
    }
}

/// The nodes that each selection of a resolution starts from.
pub(crate) fn starts_in(alloc: Global, resolution: &Resolution) -> Result<Vec<Node>, AllocError>
    ensures { IfOk result (λ v. v.items ≡ starts_of (question_of (view resolution.now))) }
{
    let project: &Project = &resolution.project;
    let starts = start_nodes(alloc, &project.package.name, project.extras.as_slice())?;
    Ok(starts)
}

/// What is asked of a resolution's catalog, with these nodes.
pub(crate) fn question_in<'q>(resolution: &'q Resolution, starts: &'q [Node]) -> Question<'q>
    requires { starts.now ≡ starts_of (question_of (view resolution.now)) }
    ensures { IsQuestionOf (view resolution.now) result }
{
    let project: &'q Project = &resolution.project;
    let extras: &'q Vec<Name> = &project.extras;
    Question {
        catalog: &resolution.catalog,
        extras: extras.as_slice(),
        starts,
        wish: &resolution.wish,
    }
}

/// The fork answer of a resolution's supported region, on the interner, with what it was found with.
pub(crate) fn forks_of<'i, 'q, R: Threads + Wait + Sync, G: Gate + Sync>(
    rt: &R,
    alloc: Global,
    workers: u64,
    interner: &'i Interner<DiagramLabel>,
    pass: Pass<DiagramLabel>,
    gate: &G,
    resolution: &Resolution,
    question: &Question<'q>,
) -> Result<Forks<'i, 'q>, Refusal>
    requires workers { IsWorkerCount workers }
    requires own { pass.table ≡ interner.now }
    requires resolution { IsResolution (view resolution.now) }
    requires question { IsQuestionOf (view resolution.now) question.now }
    ensures forks { IfOk result (λ f. AreForksOf (view resolution.now) f.algebra f.answer) }
    ensures rounds { IfOk result (λ f. HasRounds (view resolution.now) workers f.answer f.rounds.items) }
    ensures own { IfOk result (λ f. f.algebra.table ≡ interner.now) }
    ensures shared { IfOk result (λ f. IsSharedOf (view resolution.now) f.algebra f.prepared) }
    ensures refused { IfErr result (IsForkRefusal (view resolution.now)) }
{
    let project: &Project = &resolution.project;
    match fork_all(
        rt,
        alloc,
        workers,
        interner,
        pass,
        gate,
        question,
        &project.region,
    ) {
        Ok(forks) => Ok(forks),
        Err(fault) => Err(fork_refusal(fault)),
    }
}
