//! What `lock` alone answers: the lock that leaves merge into, and the core of a problem that nothing serves.
ghost use Rattle.std.specs.Prelude.{◌≡◌, IfOk, Ok};
ghost use Rattle.ul_workers.specs.WorkerCount.{IsWorkerCount};
ghost use Rattle.ul_generations.specs.declared.answers.Forked.TheVariants.{Leaves};
ghost use Rattle.ul_problem.specs.Serving.{HasNone};
ghost use Rattle.ul_blame.specs.Texts.{IsCoreText};
ghost use Rattle.ul_answers.specs.Views.{view as answer_view};
ghost use Rattle.ul_inputs.specs.Resolutions.{IsResolution, view};
ghost use Rattle.ul_commands.specs.Forking.{AreForksOf};
ghost use Rattle.ul_commands.specs.Locking.{IsLockAnswer};

use std::alloc::{AllocError, Global};
use std::sync::Wait;
use std::thread::Threads;
use ul_algebra::{Algebra, DiagramLabel};
use ul_answers::Answer;
use ul_blame::{core_by, lines};
use ul_forks::ForkLeaf;
use ul_inputs::Resolution;
use ul_interner::Interner;
use ul_merge::merge;
use ul_problem::{Derivation, Problem};

/// The answer of the lock that the leaves of a fork answer merge into: the lock, or that it isn't written. The algebra is
/// left to the end of the process.
pub(crate) fn lock_answer<R: Threads + Wait + Sync>(
    rt: &R,
    alloc: Global,
    workers: u64,
    interner: &Interner<DiagramLabel>,
    algebra: Algebra<'_>,
    resolution: &Resolution,
    leaves: &Vec<ForkLeaf>,
) -> Result<Answer, AllocError>
    requires workers { IsWorkerCount workers }
    requires own { algebra.table ≡ interner.now }
    requires resolution { IsResolution (view resolution.now) }
    requires forks { AreForksOf (view resolution.now) algebra (Leaves leaves.now) }
    ensures { IfOk result (λ a. IsLockAnswer (view resolution.now) (Ok (answer_view a))) }
{
    ul_forks::laws::fork_laws();
    ul_tree::laws::has_world();
    ul_tree::laws::no_extra();
    let lock = merge(
        rt,
        alloc,
        workers,
        interner,
        algebra,
        &resolution.catalog,
        &resolution.project,
        leaves.as_slice(),
    )?;
    match lock {
        Some(lock) => Ok(Answer::Locked {
            lock,
            forks: leaves.len() as u64,
        }),
        None => Ok(Answer::Unwritten),
    }
}

/// The lines of the core of a problem that nothing serves, found by a derivation of that.
pub(crate) fn core_lines(
    alloc: Global,
    problem: &Problem,
    derivation: &Derivation,
) -> Result<Vec<u8>, AllocError>
    requires { HasNone problem.now }
    ensures { IfOk result (λ v. IsCoreText problem.now v.items) }
{
    ul_blame::laws::core_laws();
    let core = core_by(alloc, problem, derivation)?;
    let text = lines(alloc, problem, core.as_slice())?;
    Ok(text)
}
