//! What `relock` answers: an old lock that is right stays, with the files that the index has today. Where it isn't, the
//! answer is that of `lock` with its versions; and where that gives no lock, that of `lock` without them.
//!
//! What an answer is found with is left to the end of the process by `mem::forget`: that comes soon, and the system
//! takes large values back at once, where letting go of them goes through them piece by piece.
ghost use Rattle.std.specs.Prelude.{◌≡◌, Decides, IfOk, Ok, option_map};
ghost use Rattle.ul_files.specs.Files.{ByReads, Remembers};
ghost use Rattle.ul_workers.specs.WorkerCount.{IsWorkerCount};
ghost use Rattle.ul_lock.specs.WellFormed.{IsWellFormed};
ghost use Rattle.ul_answers.specs.Answer.{locked};
ghost use Rattle.ul_answers.specs.Printed.{printed};
ghost use Rattle.ul_answers.specs.Views.{view as answer_view};
ghost use Rattle.ul_inputs.specs.Inputs.{only};
ghost use Rattle.ul_inputs.specs.Locks.{kept_of};
ghost use Rattle.ul_inputs.specs.Refusals.{Answers, Cause};
ghost use Rattle.ul_inputs.specs.Resolutions.{HasUsable, IsResolution, ResolutionFields, view};
ghost use Rattle.ul_lock.specs.declared.parts.Lock.{Lock as PlainLock};
ghost use Rattle.ul_commands.specs.Keeping.{lock_of_answer};
ghost use Rattle.ul_commands.specs.Locking.{IsLockAnswer};
ghost use Rattle.ul_commands.specs.Relocking as spec;
ghost use Rattle.ul_commands.specs.Views.{GivesAnswer};

use crate::keeping::{is_writable, stays};
use crate::resolving::answer;
use crate::wanted::Wanted;
use std::alloc::{AllocError, Global};
use std::mem;
use std::sync::Wait;
use std::thread::Threads;
use ul_answers::Answer;
use ul_base::{Gate, Name};
use ul_files::Files;
use ul_inputs::{Refusal, Resolution, kept, lock_file, project_file, resolution_with};
use ul_lock::{Lock, Region};
use ul_project::Project;
use ul_requirement::Wish;
use ul_version::Version;

// How many leaves a lock of these forks has.
fn fork_count(forks: &[Region]) -> u64
    ensures { result ≡ spec.fork_count forks.now }
{
    if forks.is_empty() {
        return 1;
    }
    forks.len() as u64
}

// The answer that a lock stays.
fn kept_answer(lock: Lock) -> Answer
    ensures { answer_view result ≡ locked lock (spec.fork_count lock.forks) }
{
    let forks = fork_count(lock.forks.as_slice());
    Answer::Locked { lock, forks }
}

// The lock of an answer, if it is one.
fn lock_in(answer: &Answer) -> Option<&Lock>
    ensures { option_map (λ l. l.now) result ≡ lock_of_answer (answer_view answer.now) }
{
    match answer {
        Answer::Locked { lock, forks: _ } => Some(lock),
        _ => None,
    }
}

// Whether an answer of `lock` is a lock that is printed.
#[tactic(auto, using(crate::proofs::Relocked::lock_decides, crate::proofs::Relocked::other_decides))]
fn is_printed(alloc: Global, answer: &Answer) -> Result<bool, AllocError>
    ensures { IfOk result (λ b. (r : ResolutionFields) → IsLockAnswer r (Ok (answer_view answer.now))
        → Decides b ((printed (Ok (answer_view answer.now))).0 ≡ 0)) }
{
    match lock_in(answer) {
        Some(lock) => is_writable(alloc, lock),
        None => Ok(false),
    }
}

// A resolution in which no version comes first for an old lock.
fn unkept(alloc: Global, resolution: Resolution) -> Resolution
    ensures { view result ≡ spec.unkept (view resolution) }
{
    let Resolution {
        project,
        catalog,
        wish,
    } = resolution;
    mem::forget(wish);
    let wish = Wish {
        mode: project.mode,
        strategy: project.strategy,
        kept: Vec::new(alloc),
    };
    Resolution {
        project,
        catalog,
        wish,
    }
}

// The answer of `lock` without the versions of the old lock.
#[tactic(auto, using(crate::proofs::Relocked::unkept_is))]
fn locked_anew<R: Threads + Wait + Sync, G: Gate + Sync>(
    rt: &R,
    alloc: Global,
    workers: u64,
    gate: &G,
    resolution: Resolution,
) -> Result<Answer, Refusal>
    requires workers { IsWorkerCount workers }
    requires resolution { IsResolution (view resolution) }
    ensures { Answers answer_view result (only (IsLockAnswer (spec.unkept (view resolution)))) }
{
    let resolution = unkept(alloc, resolution);
    let answer = answer(rt, alloc, Wanted::Lock, workers, gate, &resolution);
    mem::forget(resolution);
    answer
}

// The answer of `lock` with the versions of the old lock, if it is a lock that is printed; else the one without them.
fn again_or_anew<R: Threads + Wait + Sync, G: Gate + Sync>(
    rt: &R,
    alloc: Global,
    workers: u64,
    gate: &G,
    resolution: Resolution,
    again: Answer,
) -> Result<Answer, Refusal>
    requires workers { IsWorkerCount workers }
    requires resolution { IsResolution (view resolution) }
    requires again { IsLockAnswer (view resolution) (Ok (answer_view again)) }
    ensures { (l : PlainLock) → (spec.IsKept (view resolution) l → ⊥)
        → Answers answer_view result (only (spec.IsRelockAnswer (view resolution) l)) }
{
    match is_printed(alloc, &again) {
        Ok(printed) => {
            if printed {
                mem::forget(resolution);
                Ok(again)
            } else {
                mem::forget(again);
                locked_anew(rt, alloc, workers, gate, resolution)
            }
        }
        Err(_) => {
            mem::forget((resolution, again));
            Err(Refusal::NoMemory)
        }
    }
}

// The answer where the old lock doesn't stay.
#[tactic(auto, using(crate::proofs::Relocked::refused_again))]
fn unkept_answer<R: Threads + Wait + Sync, G: Gate + Sync>(
    rt: &R,
    alloc: Global,
    workers: u64,
    gate: &G,
    resolution: Resolution,
) -> Result<Answer, Refusal>
    requires workers { IsWorkerCount workers }
    requires resolution { IsResolution (view resolution) }
    ensures { (l : PlainLock) → (spec.IsKept (view resolution) l → ⊥)
        → Answers answer_view result (only (spec.IsRelockAnswer (view resolution) l)) }
{
    match answer(rt, alloc, Wanted::Lock, workers, gate, &resolution) {
        Ok(again) => again_or_anew(rt, alloc, workers, gate, resolution, again),
        Err(Refusal::NoMemory) => {
            mem::forget(resolution);
            Err(Refusal::NoMemory)
        }
        Err(refusal) => {
            mem::forget(refusal);
            locked_anew(rt, alloc, workers, gate, resolution)
        }
    }
}

// The answer of `relock` to a resolution that keeps the versions of an old lock, and that lock.
#[tactic(auto, using(crate::proofs::Relocked::kept_answers, crate::proofs::Relocked::stays_not))]
fn relock<R: Threads + Wait + Sync, G: Gate + Sync>(
    rt: &R,
    alloc: Global,
    workers: u64,
    gate: &G,
    resolution: Resolution,
    lock: Lock,
) -> Result<Answer, Refusal>
    requires workers { IsWorkerCount workers }
    requires resolution { IsResolution (view resolution) }
    requires well_formed { IsWellFormed lock }
    ensures { Answers answer_view result (only (spec.IsRelockAnswer (view resolution) lock)) }
{
    let mut lock = lock;
    match stays(rt, alloc, &resolution, &mut lock) {
        Ok(stays) => {
            if stays {
                mem::forget(resolution);
                Ok(kept_answer(lock))
            } else {
                mem::forget(lock);
                unkept_answer(rt, alloc, workers, gate, resolution)
            }
        }
        Err(_) => {
            mem::forget((resolution, lock));
            Err(Refusal::NoMemory)
        }
    }
}

// What becomes of a lock whose versions are kept, for a project that is read.
fn relock_keeping<R: Threads + Wait + Sync, F: Files, G: Gate + Sync>(
    rt: &R,
    alloc: Global,
    files: &mut F,
    gate: &G,
    folder: &str,
    workers: u64,
    project: Project,
    lock: Lock,
    kept: Vec<(Name, Version)>,
) -> Result<Answer, Refusal>
    requires workers { IsWorkerCount workers }
    requires usable { HasUsable project.package }
    requires well_formed { IsWellFormed lock }
    requires kept { kept.items ≡ kept_of lock }
    ensures told { ByReads (F.reads files.new)
        (λ m. Answers answer_view result (spec.relock_with folder.now project lock m)) }
    ensures same { F.map files.new ≡ F.map files.old }
    ensures grown { Remembers (F.reads files.old) (F.reads files.new) }
    ensures cause { Cause (F.faults files.old) (F.faults files.new) (F.last_failed files.new) result }
    ensures answering { GivesAnswer result }
{
    match resolution_with(alloc, files, folder, project, kept) {
        Ok(resolution) => relock(rt, alloc, workers, gate, resolution, lock),
        Err(refusal) => {
            mem::forget(lock);
            Err(refusal)
        }
    }
}

// What becomes of a lock that is read, for a project that is read.
#[tactic(auto, using(crate::proofs::Relocked::kept_same))]
fn relock_with<R: Threads + Wait + Sync, F: Files, G: Gate + Sync>(
    rt: &R,
    alloc: Global,
    files: &mut F,
    gate: &G,
    folder: &str,
    workers: u64,
    project: Project,
    lock: Lock,
) -> Result<Answer, Refusal>
    requires workers { IsWorkerCount workers }
    requires usable { HasUsable project.package }
    requires well_formed { IsWellFormed lock }
    ensures told { ByReads (F.reads files.new)
        (λ m. Answers answer_view result (spec.relock_with folder.now project lock m)) }
    ensures same { F.map files.new ≡ F.map files.old }
    ensures grown { Remembers (F.reads files.old) (F.reads files.new) }
    ensures cause { Cause (F.faults files.old) (F.faults files.new) (F.last_failed files.new) result }
    ensures answering { GivesAnswer result }
{
    match kept(alloc, &lock) {
        Ok(kept) => relock_keeping(rt, alloc, files, gate, folder, workers, project, lock, kept),
        Err(_) => {
            mem::forget((project, lock));
            Err(Refusal::NoMemory)
        }
    }
}

// What becomes of the lock of a file, for a project that is read.
fn relock_on<R: Threads + Wait + Sync, F: Files, G: Gate + Sync>(
    rt: &R,
    alloc: Global,
    files: &mut F,
    gate: &G,
    folder: &str,
    workers: u64,
    project: Project,
    old: &str,
) -> Result<Answer, Refusal>
    requires workers { IsWorkerCount workers }
    requires usable { HasUsable project.package }
    ensures told { ByReads (F.reads files.new)
        (λ m. Answers answer_view result (spec.relock_on folder.now old.now project m)) }
    ensures same { F.map files.new ≡ F.map files.old }
    ensures grown { Remembers (F.reads files.old) (F.reads files.new) }
    ensures cause { Cause (F.faults files.old) (F.faults files.new) (F.last_failed files.new) result }
    ensures answering { GivesAnswer result }
{
    match lock_file(alloc, files, old) {
        Ok(lock) => relock_with(rt, alloc, files, gate, folder, workers, project, lock),
        Err(refusal) => {
            mem::forget(project);
            Err(refusal)
        }
    }
}

/// What becomes of an old lock.
pub(crate) fn relock_files<R: Threads + Wait + Sync, F: Files, G: Gate + Sync>(
    rt: &R,
    alloc: Global,
    files: &mut F,
    gate: &G,
    project: &str,
    folder: &str,
    workers: u64,
    old: &str,
) -> Result<Answer, Refusal>
    requires { IsWorkerCount workers }
    ensures told { ByReads (F.reads files.new)
        (λ m. Answers answer_view result (spec.relock_of project.now folder.now old.now m)) }
    ensures same { F.map files.new ≡ F.map files.old }
    ensures grown { Remembers (F.reads files.old) (F.reads files.new) }
    ensures cause { Cause (F.faults files.old) (F.faults files.new) (F.last_failed files.new) result }
    ensures answering { GivesAnswer result }
{
    let project = project_file(alloc, files, project)?;
    relock_on(rt, alloc, files, gate, folder, workers, project, old)
}
