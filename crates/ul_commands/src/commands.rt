//! The commands.
//!
//! What a command has read is left to the end of the process by `mem::forget`: that comes soon, and the system takes
//! large values back at once, where letting go of them goes through them piece by piece.
ghost use Rattle.std.specs.Prelude.{◌≡◌, ◌≤◌, map, option_map, string_bytes};
ghost use Rattle.ul_files.specs.Files.{ByReads, FileMap, Remembers};
ghost use Rattle.ul_workers.specs.WorkerCount.{IsWorkerCount};
ghost use Rattle.ul_answers.specs.Views.{view as answer_view};
ghost use Rattle.ul_inputs.specs.Refusals.{Answers, Cause};
ghost use Rattle.ul_inputs.specs.Resolutions.{HasUsable};
ghost use Rattle.ul_commands.specs.Asked as asked;
ghost use Rattle.ul_lock.specs.WellFormed.{IsWellFormed};
ghost use Rattle.ul_lock_commands.specs.Environments as environments;
ghost use Rattle.ul_commands.specs.Checking as checking;
ghost use Rattle.ul_commands.specs.Commands as spec;
ghost use Rattle.ul_commands.specs.Generating.{gen_said};
ghost use Rattle.ul_commands.specs.Verifying as verifying;
ghost use Rattle.ul_commands.specs.Views.{GivesAnswer, HasWorkers, IsByWords, IsSure, view};
ghost use Rattle.ul_commands.specs.Wanted.{asked_for};

use crate::asked::Asked;
use crate::checking::{check, proof_file};
use crate::generating::{INDEX, PROJECT, counted, files};
use crate::markers::marker_files;
use crate::relocking::relock_files;
use crate::resolving::answer;
use crate::verifying::verify;
use crate::wanted::Wanted;
use std::alloc::Global;
use std::mem;
use std::sync::Wait;
use std::thread::Threads;
use ul_answers::Answer;
use ul_base::Gate;
use ul_files::{Files, SureFiles};
use ul_inputs::{Refusal, lock_file, machine_file, project_file, resolution_in, resolution_with};
use ul_lock::Lock;
use ul_lock_commands::{env, export};
use ul_project::Project;
use ul_report_read::Proof;

// What is wanted of a project's resolution.
fn resolved_files<R: Threads + Wait + Sync, F: Files, G: Gate + Sync>(
    rt: &R,
    alloc: Global,
    files: &mut F,
    gate: &G,
    wanted: Wanted,
    project: &str,
    folder: &str,
    workers: u64,
    old: Option<&str>,
) -> Result<Answer, Refusal>
    requires { IsWorkerCount workers }
    ensures told { ByReads (F.reads files.new) (λ m. Answers answer_view result (spec.command
        (asked_for wanted project.now folder.now workers (option_map (λ p. p.now) old.entry)) m)) }
    ensures same { F.map files.new ≡ F.map files.old }
    ensures grown { Remembers (F.reads files.old) (F.reads files.new) }
    ensures cause { Cause (F.faults files.old) (F.faults files.new) (F.last_failed files.new) result }
    ensures answering { GivesAnswer result }
{
    let resolution = resolution_in(alloc, files, project, folder, old)?;
    let answer = answer(rt, alloc, wanted, workers, gate, &resolution);
    mem::forget(resolution);
    answer
}

// The counts of a generated project's lock.
fn gen_files<R: Threads + Wait + Sync, G: Gate + Sync>(
    rt: &R,
    alloc: Global,
    gate: &G,
    seed: u64,
    size: u64,
    workers: u64,
) -> Result<Answer, Refusal>
    requires size { (1 ≤ size) × (size ≤ 2000) }
    requires workers { IsWorkerCount workers }
    ensures told { (m : FileMap) → Answers answer_view result (gen_said seed size m) }
    ensures sure { IsSure result }
    ensures answering { GivesAnswer result }
{
    let list = files(alloc, seed, size)?;
    let mut files = SureFiles::of(alloc, list);
    let answer = resolved_files(
        rt,
        alloc,
        &mut files,
        gate,
        Wanted::Lock,
        PROJECT,
        INDEX,
        workers,
        None,
    );
    mem::forget(files);
    match answer {
        Ok(answer) => Ok(counted(answer)),
        Err(refusal) => Err(refusal),
    }
}

// What a lock that is read gives on a machine.
fn env_on<F: Files>(
    alloc: Global,
    files: &mut F,
    machine: &str,
    extras: &[String],
    lock: &Lock,
) -> Result<Answer, Refusal>
    requires { IsWellFormed lock.now }
    ensures told { ByReads (F.reads files.new)
        (λ m. Answers answer_view result (environments.env_on machine.now (map string_bytes extras.now) lock.now m)) }
    ensures same { F.map files.new ≡ F.map files.old }
    ensures grown { Remembers (F.reads files.old) (F.reads files.new) }
    ensures cause { Cause (F.faults files.old) (F.faults files.new) (F.last_failed files.new) result }
    ensures answering { GivesAnswer result }
{
    let machine = machine_file(alloc, files, machine)?;
    let answer = env(alloc, lock, &machine, extras);
    mem::forget(machine);
    answer
}

// What a lock gives on a machine.
fn env_files<F: Files>(
    alloc: Global,
    files: &mut F,
    lock: &str,
    machine: &str,
    extras: &[String],
) -> Result<Answer, Refusal>
    ensures told { ByReads (F.reads files.new) (λ m. Answers answer_view result
        (spec.command (asked.env lock.now machine.now (map string_bytes extras.now)) m)) }
    ensures same { F.map files.new ≡ F.map files.old }
    ensures grown { Remembers (F.reads files.old) (F.reads files.new) }
    ensures cause { Cause (F.faults files.old) (F.faults files.new) (F.last_failed files.new) result }
    ensures answering { GivesAnswer result }
{
    let lock = lock_file(alloc, files, lock)?;
    let answer = env_on(alloc, files, machine, extras, &lock);
    mem::forget(lock);
    answer
}

// In which worlds a lock gives each of its nodes.
fn export_files<R: Wait, F: Files>(
    rt: &R,
    alloc: Global,
    files: &mut F,
    lock: &str,
    extras: &[String],
) -> Result<Answer, Refusal>
    ensures told { ByReads (F.reads files.new) (λ m. Answers answer_view result
        (spec.command (asked.export lock.now (map string_bytes extras.now)) m)) }
    ensures same { F.map files.new ≡ F.map files.old }
    ensures grown { Remembers (F.reads files.old) (F.reads files.new) }
    ensures cause { Cause (F.faults files.old) (F.faults files.new) (F.last_failed files.new) result }
    ensures answering { GivesAnswer result }
{
    let lock = lock_file(alloc, files, lock)?;
    let answer = export(rt, alloc, &lock, extras);
    mem::forget(lock);
    answer
}

// Whether a derivation is accepted, for a project that is read.
fn check_with<R: Wait, F: Files>(
    rt: &R,
    alloc: Global,
    files: &mut F,
    folder: &str,
    project: Project,
    proof: &Proof,
) -> Result<Answer, Refusal>
    requires { HasUsable project.package }
    ensures told { ByReads (F.reads files.new)
        (λ m. Answers answer_view result (checking.check_with folder.now project proof.now m)) }
    ensures same { F.map files.new ≡ F.map files.old }
    ensures grown { Remembers (F.reads files.old) (F.reads files.new) }
    ensures cause { Cause (F.faults files.old) (F.faults files.new) (F.last_failed files.new) result }
    ensures answering { GivesAnswer result }
{
    let resolution = resolution_with(alloc, files, folder, project, Vec::new(alloc))?;
    let answer = check(rt, alloc, &resolution, proof);
    mem::forget(resolution);
    answer
}

// Whether the derivation of a file is accepted, for a project that is read.
fn check_on<R: Wait, F: Files>(
    rt: &R,
    alloc: Global,
    files: &mut F,
    folder: &str,
    project: Project,
    derivation: &str,
) -> Result<Answer, Refusal>
    requires { HasUsable project.package }
    ensures told { ByReads (F.reads files.new)
        (λ m. Answers answer_view result (checking.check_on folder.now derivation.now project m)) }
    ensures same { F.map files.new ≡ F.map files.old }
    ensures grown { Remembers (F.reads files.old) (F.reads files.new) }
    ensures cause { Cause (F.faults files.old) (F.faults files.new) (F.last_failed files.new) result }
    ensures answering { GivesAnswer result }
{
    match proof_file(alloc, files, derivation) {
        Ok(proof) => {
            let answer = check_with(rt, alloc, files, folder, project, &proof);
            mem::forget(proof);
            answer
        }
        Err(refusal) => {
            mem::forget(project);
            Err(refusal)
        }
    }
}

// Whether a derivation is accepted.
fn check_files<R: Wait, F: Files>(
    rt: &R,
    alloc: Global,
    files: &mut F,
    project: &str,
    folder: &str,
    derivation: &str,
) -> Result<Answer, Refusal>
    ensures told { ByReads (F.reads files.new) (λ m. Answers answer_view result
        (spec.command (asked.check project.now folder.now derivation.now) m)) }
    ensures same { F.map files.new ≡ F.map files.old }
    ensures grown { Remembers (F.reads files.old) (F.reads files.new) }
    ensures cause { Cause (F.faults files.old) (F.faults files.new) (F.last_failed files.new) result }
    ensures answering { GivesAnswer result }
{
    let project = project_file(alloc, files, project)?;
    check_on(rt, alloc, files, folder, project, derivation)
}

// Whether a lock is verified, for a project that is read.
fn verify_with<R: Wait, F: Files>(
    rt: &R,
    alloc: Global,
    files: &mut F,
    folder: &str,
    project: Project,
    lock: &Lock,
) -> Result<Answer, Refusal>
    requires usable { HasUsable project.package }
    requires well_formed { IsWellFormed lock.now }
    ensures told { ByReads (F.reads files.new)
        (λ m. Answers answer_view result (verifying.verify_with folder.now project lock.now m)) }
    ensures same { F.map files.new ≡ F.map files.old }
    ensures grown { Remembers (F.reads files.old) (F.reads files.new) }
    ensures cause { Cause (F.faults files.old) (F.faults files.new) (F.last_failed files.new) result }
    ensures answering { GivesAnswer result }
{
    let resolution = resolution_with(alloc, files, folder, project, Vec::new(alloc))?;
    let answer = verify(rt, alloc, &resolution, lock);
    mem::forget(resolution);
    answer
}

// Whether the lock of a file is verified, for a project that is read.
fn verify_on<R: Wait, F: Files>(
    rt: &R,
    alloc: Global,
    files: &mut F,
    folder: &str,
    project: Project,
    lock: &str,
) -> Result<Answer, Refusal>
    requires { HasUsable project.package }
    ensures told { ByReads (F.reads files.new)
        (λ m. Answers answer_view result (verifying.verify_on folder.now lock.now project m)) }
    ensures same { F.map files.new ≡ F.map files.old }
    ensures grown { Remembers (F.reads files.old) (F.reads files.new) }
    ensures cause { Cause (F.faults files.old) (F.faults files.new) (F.last_failed files.new) result }
    ensures answering { GivesAnswer result }
{
    match lock_file(alloc, files, lock) {
        Ok(lock) => {
            let answer = verify_with(rt, alloc, files, folder, project, &lock);
            mem::forget(lock);
            answer
        }
        Err(refusal) => {
            mem::forget(project);
            Err(refusal)
        }
    }
}

// Whether a lock is verified.
fn verify_files<R: Wait, F: Files>(
    rt: &R,
    alloc: Global,
    files: &mut F,
    project: &str,
    folder: &str,
    lock: &str,
) -> Result<Answer, Refusal>
    ensures told { ByReads (F.reads files.new) (λ m. Answers answer_view result
        (spec.command (asked.verify project.now folder.now lock.now) m)) }
    ensures same { F.map files.new ≡ F.map files.old }
    ensures grown { Remembers (F.reads files.old) (F.reads files.new) }
    ensures cause { Cause (F.faults files.old) (F.faults files.new) (F.last_failed files.new) result }
    ensures answering { GivesAnswer result }
{
    let project = project_file(alloc, files, project)?;
    verify_on(rt, alloc, files, folder, project, lock)
}

/// Answers what is asked: reads the files that it names, in the order in which `specs/Commands.antt` reads them.
///
/// Where the files tell their contents, the answer or the refusal is what they say, whatever the number of workers. A
/// read that failed is refused by its path, and only where a read failed.
#[tactic(auto, using(crate::proofs::Counting::sure_cause))]
pub fn command<R: Threads + Wait + Sync, F: Files, G: Gate + Sync>(
    rt: &R,
    alloc: Global,
    files: &mut F,
    gate: &G,
    question: &Asked<'_>,
) -> Result<Answer, Refusal>
    requires { HasWorkers question.now }
    ensures told { ByReads (F.reads files.new) (λ m. Answers answer_view result (spec.command (view question.now) m)) }
    ensures same { F.map files.new ≡ F.map files.old }
    ensures grown { Remembers (F.reads files.old) (F.reads files.new) }
    ensures cause { Cause (F.faults files.old) (F.faults files.new) (F.last_failed files.new) result }
    ensures by_words { IsByWords question.now result }
{
    match question {
        Asked::Usage => Ok(Answer::Usage),
        Asked::Lock {
            project,
            folder,
            workers,
            old,
        } => {
            let wanted = Wanted::Lock;
            resolved_files(
                rt, alloc, files, gate, wanted, project, folder, *workers, *old,
            )
        }
        Asked::Why {
            project,
            folder,
            workers,
            old,
        } => {
            let wanted = Wanted::Reason;
            resolved_files(
                rt, alloc, files, gate, wanted, project, folder, *workers, *old,
            )
        }
        Asked::Relock {
            project,
            folder,
            workers,
            old,
        } => relock_files(rt, alloc, files, gate, project, folder, *workers, old),
        Asked::Gen {
            seed,
            size,
            workers,
        } => gen_files(rt, alloc, gate, *seed, *size, *workers),
        Asked::Env {
            lock,
            machine,
            extras,
        } => env_files(alloc, files, lock, machine, extras),
        Asked::Export { lock, extras } => export_files(rt, alloc, files, lock, extras),
        Asked::Marker { file } => marker_files(rt, alloc, files, file),
        Asked::Check {
            project,
            folder,
            derivation,
        } => check_files(rt, alloc, files, project, folder, derivation),
        Asked::Verify {
            project,
            folder,
            lock,
        } => verify_files(rt, alloc, files, project, folder, lock),
    }
}
