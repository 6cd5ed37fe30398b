//! Locks that are read, and what an old one keeps.
ghost use Rattle.std.specs.Prelude.{◌≡◌, ℕ, List, Some, IfOk, Ok, bytes_eq, option_map};
ghost use Rattle.ul_files.specs.Files.{ByReads, Remembers};
ghost use Rattle.ul_lock.specs.WellFormed.{IsWellFormed};
ghost use Rattle.ul_inputs.specs.FileFaults.{refused_file};
ghost use Rattle.ul_inputs.specs.Inputs.{only};
ghost use Rattle.ul_inputs.specs.Locks as spec;
ghost use Rattle.ul_inputs.specs.Refusals.{Answers, Cause, IsRefusalFor};

use crate::file_faults::{FileFault, FilePlace, file_refusal};
use crate::files::large_file;
use crate::refusal::Refusal;
use std::alloc::{AllocError, Global};
use ul_base::Name;
use ul_base::owned::with_made;
use ul_files::Files;
use ul_lock::{Lock, Locked};
use ul_lock_read::{LockFault, read};
use ul_version::Version;

// What is wrong with a lock file.
fn file_fault(fault: LockFault) -> FileFault
    ensures { (path : List ℕ) → refused_file path result ≡ spec.refused_lock path fault }
{
    match fault {
        LockFault::Line(line) => FileFault::At(FilePlace::Numbered("line", line)),
        LockFault::Root => FileFault::At(FilePlace::Fixed("root")),
        LockFault::Target(package) => FileFault::At(FilePlace::Numbered("target", package)),
        LockFault::NoMemory => FileFault::NoMemory,
    }
}

// The refusal of a lock file for its fault.
fn refusal(alloc: Global, path: &str, fault: LockFault) -> Refusal
    ensures { IsRefusalFor (spec.refused_lock path.now fault) result }
{
    file_refusal(alloc, path, file_fault(fault))
}

// The lock of a text.
#[tactic(auto, using(crate::proofs::LockFaults::lock_found, crate::proofs::LockFaults::lock_fault))]
fn lock_in(alloc: Global, path: &str, bytes: &[u8]) -> Result<Lock, Refusal>
    ensures { Answers (λ l. l) result (only (spec.IsLockOf path.now bytes.now)) }
{
    match read(alloc, bytes) {
        Ok(lock) => Ok(lock),
        Err(fault) => Err(refusal(alloc, path, fault)),
    }
}

/// The lock of the lock file at a path, which is well formed.
pub fn lock_file<F: Files>(alloc: Global, files: &mut F, path: &str) -> Result<Lock, Refusal>
    ensures told { ByReads (F.reads files.new) (λ m. Answers (λ l. l) result (spec.lock_at path.now m)) }
    ensures same { F.map files.new ≡ F.map files.old }
    ensures grown { Remembers (F.reads files.old) (F.reads files.new) }
    ensures cause { Cause (F.faults files.old) (F.faults files.new) (F.last_failed files.new) result }
    ensures well_formed { IfOk result IsWellFormed }
{
    let bytes = large_file(alloc, files, path)?;
    lock_in(alloc, path, &bytes)
}

// The name and the version of a package.
fn kept_one(alloc: Global, one: &Locked) -> Result<(Name, Version), AllocError>
    ensures { IfOk result (λ k. k ≡ (one.now.name, one.now.version)) }
{
    let name = one.name.copy(alloc)?;
    let version = one.version.copy(alloc)?;
    Ok((name, version))
}

// Whether the package is the root.
fn is_root(root: &Name, one: &Locked) -> bool
    ensures { result ≡ bytes_eq one.now.name root.now }
{
    one.name == *root
}

// What packages keep beside the root.
fn kept_in(
    alloc: Global,
    root: &Name,
    packages: &[Locked],
) -> Result<Vec<(Name, Version)>, AllocError>
    ensures { IfOk result (λ k. k.items ≡ spec.kept_beside root.now packages.now) }
{
    let mut kept = Vec::new(alloc);
    for one in packages {
        if !is_root(root, one) {
            kept = with_made(kept, kept_one(alloc, one))?;
        }
    }
    Ok(kept)
}

/// What a lock keeps: the names and versions of its packages but the root.
///
/// # Errors
///
/// Only for want of memory.
pub fn kept(alloc: Global, lock: &Lock) -> Result<Vec<(Name, Version)>, Refusal>
    ensures { Answers (λ k. k.items) result (only (λ r. r ≡ Ok (spec.kept_of lock.now))) }
{
    let kept = kept_in(alloc, &lock.root, lock.packages.as_slice())?;
    Ok(kept)
}

// What the lock at a path keeps.
fn kept_at<F: Files>(
    alloc: Global,
    files: &mut F,
    path: &str,
) -> Result<Vec<(Name, Version)>, Refusal>
    ensures told { ByReads (F.reads files.new) (λ m. Answers (λ k. k.items) result (spec.old_lock (Some path.now) m)) }
    ensures same { F.map files.new ≡ F.map files.old }
    ensures grown { Remembers (F.reads files.old) (F.reads files.new) }
    ensures cause { Cause (F.faults files.old) (F.faults files.new) (F.last_failed files.new) result }
{
    let lock = lock_file(alloc, files, path)?;
    let kept = kept(alloc, &lock);
    drop(lock);
    kept
}

// What an old lock keeps, if there is one.
pub(crate) fn old_lock<F: Files>(
    alloc: Global,
    files: &mut F,
    path: Option<&str>,
) -> Result<Vec<(Name, Version)>, Refusal>
    ensures told { ByReads (F.reads files.new)
        (λ m. Answers (λ k. k.items) result (spec.old_lock (option_map (λ p. p.now) path.entry) m)) }
    ensures same { F.map files.new ≡ F.map files.old }
    ensures grown { Remembers (F.reads files.old) (F.reads files.new) }
    ensures cause { Cause (F.faults files.old) (F.faults files.new) (F.last_failed files.new) result }
{
    match path {
        Some(path) => kept_at(alloc, files, path),
        None => Ok(Vec::new(alloc)),
    }
}
