//! The answers of `lock` and `why` to a resolution: both are told of its fork answer.
//!
//! What an answer is found with is left to the end of the process by `mem::forget`: that comes soon, and the system
//! takes large values back at once, where letting go of them goes through them piece by piece.
ghost use Rattle.std.specs.Prelude.{◌≡◌, ◌≢◌, IfOk, Ok, false};
ghost use Rattle.ul_nodes.specs.Plain.{truth};
ghost use Rattle.ul_algebra.specs.Spelled.{tree_of};
ghost use Rattle.ul_interner.specs.Known.{Knows};
ghost use Rattle.ul_workers.specs.WorkerCount.{IsWorkerCount};
ghost use Rattle.ul_problem.specs.Serving.{HasNone};
ghost use Rattle.ul_region.specs.Truths.{IsRegion};
ghost use Rattle.ul_generations.specs.declared.answers.Forked.TheVariants.{Leaves, Refused};
ghost use Rattle.ul_forks.specs.Judged.{IsAccepted};
ghost use Rattle.ul_report.specs.Naming.{HaveNames};
ghost use Rattle.ul_answers.specs.Views.{view as answer_view};
ghost use Rattle.ul_inputs.specs.Inputs.{only};
ghost use Rattle.ul_inputs.specs.Refusals.{Answers};
ghost use Rattle.ul_inputs.specs.Resolutions.{IsResolution, view};
ghost use Rattle.ul_commands.specs.Forking.{AreForksOf, IsQuestionOf, IsSharedOf};
ghost use Rattle.ul_commands.specs.Questions.{question_of};
ghost use Rattle.ul_commands.specs.Wanted as spec;

use crate::forking::{forks_of, question_in, starts_in};
use crate::locking::{core_lines, lock_answer};
use crate::wanted::Wanted;
use std::alloc::{AllocError, Global};
use std::mem;
use std::sync::Wait;
use std::thread::Threads;
use ul_algebra::{Algebra, Diagram, DiagramLabel};
use ul_answers::Answer;
use ul_base::Gate;
use ul_forks::{ForkAnswer, ForkLeaf, Forked, Forks, Path, Question};
use ul_inputs::{Refusal, Resolution};
use ul_interner::Interner;
use ul_lock::Region;
use ul_placing::problem_at;
use ul_prepared::Prepared;
use ul_problem::{Derivation, Problem};
use ul_report::steps;

// The tree of a region that isn't empty.
fn region_in(alloc: Global, algebra: &Algebra<'_>, region: &Diagram) -> Result<Region, AllocError>
    requires region { IsRegion algebra.now region.now }
    requires some { tree_of region.now ≢ truth false }
    ensures { IfOk result (λ r. r ≡ tree_of region.now) }
{
    ul_tree::laws::no_extra();
    let tree = algebra.tree(alloc, region)?;
    Ok(Region::of(tree))
}

// The lines that are told of a problem that nothing serves, by a derivation of that.
fn lines_by(
    alloc: Global,
    wanted: Wanted,
    problem: &Problem,
    derivation: &Derivation,
) -> Result<Vec<u8>, AllocError>
    requires none { HasNone problem.now }
    requires names { HaveNames problem.now derivation.now }
    ensures { IfOk result (λ v. spec.AreLines wanted problem.now derivation.now v.items) }
{
    match wanted {
        Wanted::Lock => core_lines(alloc, problem, derivation),
        Wanted::Reason => steps(alloc, problem, derivation),
    }
}

// The lines that are told of a region, whose problem accepts the derivation.
fn lines_at<R: Wait>(
    rt: &R,
    alloc: Global,
    wanted: Wanted,
    algebra: &mut Algebra<'_>,
    prepared: &Prepared<'_>,
    resolution: &Resolution,
    region: &Diagram,
    derivation: &Derivation,
) -> Result<Vec<u8>, AllocError>
    requires resolution { IsResolution (view resolution.now) }
    requires shared { IsSharedOf (view resolution.now) algebra.old prepared.now }
    requires region { IsRegion algebra.old region.now }
    requires accepted { IsAccepted (question_of (view resolution.now)) region.now derivation.now }
    ensures lines { IfOk result (λ v. spec.AreLinesOf wanted (view resolution.now) (tree_of region.now) v.items) }
    ensures knows { Knows algebra.old algebra.new }
{
    ul_derivation::laws::accepted_law();
    ul_report::laws::right_steps_have_names();
    ul_placing::laws::equal_problems();
    let problem = problem_at(rt, alloc, prepared, algebra, region)?;
    let lines = lines_by(alloc, wanted, &problem, derivation);
    mem::forget(problem);
    lines
}

// The answer that tells a fork that no selection serves, with these lines.
fn refused_answer(wanted: Wanted, path: Vec<bool>, region: Region, lines: Vec<u8>) -> Answer
    ensures { answer_view result ≡ spec.refused_with wanted path.items region lines.items }
{
    match wanted {
        Wanted::Lock => Answer::NoSelection {
            path,
            region,
            core: lines,
        },
        Wanted::Reason => Answer::Derived {
            path,
            region,
            steps: lines,
        },
    }
}

// The answer to a fork that no selection serves. No tree is made of a region that isn't printable.
fn answer_of_refused<R: Wait>(
    rt: &R,
    alloc: Global,
    wanted: Wanted,
    algebra: &mut Algebra<'_>,
    prepared: &Prepared<'_>,
    resolution: &Resolution,
    path: &Path,
    region: &Diagram,
    derivation: &Derivation,
) -> Result<Answer, AllocError>
    requires resolution { IsResolution (view resolution.now) }
    requires shared { IsSharedOf (view resolution.now) algebra.old prepared.now }
    requires forks { AreForksOf (view resolution.now) algebra.old (Refused path.now region.now derivation.now) }
    ensures { IfOk result (λ a. spec.IsAnswerFor wanted (view resolution.now) (Ok (answer_view a))) }
{
    ul_forks::laws::fork_laws();
    ul_tree::laws::has_world();
    ul_tree::laws::no_extra();
    if !algebra.is_printable(region) {
        return Ok(Answer::Untold);
    }
    let path = Vec::from_slice(alloc, path.digits())?;
    let lines = lines_at(
        rt, alloc, wanted, algebra, prepared, resolution, region, derivation,
    )?;
    let region = region_in(alloc, &*algebra, region)?;
    Ok(refused_answer(wanted, path, region, lines))
}

// The answer to leaves that are all served.
fn answer_of_leaves<R: Threads + Wait + Sync>(
    rt: &R,
    alloc: Global,
    wanted: Wanted,
    workers: u64,
    interner: &Interner<DiagramLabel>,
    algebra: Algebra<'_>,
    resolution: &Resolution,
    leaves: &Vec<ForkLeaf>,
) -> Result<Answer, AllocError>
    requires workers { IsWorkerCount workers }
    requires own { algebra.table ≡ interner.now }
    requires resolution { IsResolution (view resolution.now) }
    requires forks { AreForksOf (view resolution.now) algebra (Leaves leaves.now) }
    ensures { IfOk result (λ a. spec.IsAnswerFor wanted (view resolution.now) (Ok (answer_view a))) }
{
    match wanted {
        Wanted::Lock => lock_answer(rt, alloc, workers, interner, algebra, resolution, leaves),
        Wanted::Reason => {
            mem::forget(algebra);
            Ok(Answer::NoneRefused)
        }
    }
}

// The answer to a fork answer whose regions the algebra knows. The algebra is left to the end of the process.
fn answer_known<R: Threads + Wait + Sync>(
    rt: &R,
    alloc: Global,
    wanted: Wanted,
    workers: u64,
    interner: &Interner<DiagramLabel>,
    mut algebra: Algebra<'_>,
    prepared: &Prepared<'_>,
    resolution: &Resolution,
    forked: &ForkAnswer,
) -> Result<Answer, AllocError>
    requires workers { IsWorkerCount workers }
    requires own { algebra.table ≡ interner.now }
    requires resolution { IsResolution (view resolution.now) }
    requires shared { IsSharedOf (view resolution.now) algebra prepared.now }
    requires forks { AreForksOf (view resolution.now) algebra forked.now }
    ensures { IfOk result (λ a. spec.IsAnswerFor wanted (view resolution.now) (Ok (answer_view a))) }
{
    match forked {
        Forked::Leaves(leaves) => answer_of_leaves(
            rt, alloc, wanted, workers, interner, algebra, resolution, leaves,
        ),
        Forked::Refused {
            path,
            region,
            refusal,
        } => {
            let known = &mut algebra;
            let answer = answer_of_refused(
                rt, alloc, wanted, known, prepared, resolution, path, region, refusal,
            );
            mem::forget(algebra);
            answer
        }
    }
}

// The answer to a fork answer, by an algebra on the interner. What it was found with is left to the end of the process.
fn answer_to<R: Threads + Wait + Sync>(
    rt: &R,
    alloc: Global,
    wanted: Wanted,
    workers: u64,
    interner: &Interner<DiagramLabel>,
    resolution: &Resolution,
    forks: Forks<'_, '_>,
) -> Result<Answer, AllocError>
    requires workers { IsWorkerCount workers }
    requires own { forks.algebra.table ≡ interner.now }
    requires resolution { IsResolution (view resolution.now) }
    requires shared { IsSharedOf (view resolution.now) forks.algebra forks.prepared }
    requires forks { AreForksOf (view resolution.now) forks.algebra forks.answer }
    ensures { IfOk result (λ a. spec.IsAnswerFor wanted (view resolution.now) (Ok (answer_view a))) }
{
    let Forks {
        answer: forked,
        rounds,
        prepared,
        algebra,
    } = forks;
    let answer = answer_known(
        rt, alloc, wanted, workers, interner, algebra, &prepared, resolution, &forked,
    );
    mem::forget((forked, rounds));
    mem::forget(prepared);
    answer
}

// The answer to a resolution, by its question.
fn answer_by<R: Threads + Wait + Sync, G: Gate + Sync>(
    rt: &R,
    alloc: Global,
    wanted: Wanted,
    workers: u64,
    gate: &G,
    resolution: &Resolution,
    question: &Question<'_>,
) -> Result<Answer, Refusal>
    requires workers { IsWorkerCount workers }
    requires resolution { IsResolution (view resolution.now) }
    requires question { IsQuestionOf (view resolution.now) question.now }
    ensures { Answers answer_view result (only (spec.IsAnswerFor wanted (view resolution.now))) }
{
    let (interner, pass) = Interner::begin(alloc)?;
    match forks_of(
        rt, alloc, workers, &interner, pass, gate, resolution, question,
    ) {
        Ok(forks) => {
            let answer = answer_to(rt, alloc, wanted, workers, &interner, resolution, forks);
            mem::forget(interner);
            Ok(answer?)
        }
        Err(refusal) => {
            mem::forget(interner);
            Err(refusal)
        }
    }
}

/// The answer to a resolution of which this is wanted. What it is found with is left to the end of the process.
pub(crate) fn answer<R: Threads + Wait + Sync, G: Gate + Sync>(
    rt: &R,
    alloc: Global,
    wanted: Wanted,
    workers: u64,
    gate: &G,
    resolution: &Resolution,
) -> Result<Answer, Refusal>
    requires workers { IsWorkerCount workers }
    requires resolution { IsResolution (view resolution.now) }
    ensures { Answers answer_view result (only (spec.IsAnswerFor wanted (view resolution.now))) }
{
    let starts = starts_in(alloc, resolution)?;
    let question = question_in(resolution, starts.as_slice());
    let answer = answer_by(rt, alloc, wanted, workers, gate, resolution, &question);
    answer
}
