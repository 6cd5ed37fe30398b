//! Whether an old lock stays, and with which files.
ghost use Rattle.std.specs.Prelude.{◌≡◌, Decides, IfOk, OnOk, map};
ghost use Rattle.ul_lock.specs.WellFormed.{IsWellFormed};
ghost use Rattle.ul_answers.specs.Views.{view as answer_view};
ghost use Rattle.ul_inputs.specs.Resolutions.{view};
ghost use Rattle.ul_verified.specs.Verified.{IsVerified};
ghost use Rattle.ul_commands.specs.Keeping.{IsWritable, StaysAs, is_acceptance, was_written};
ghost use Rattle.ul_commands.specs.Relocking.{refreshed, refreshed_package};

use crate::root_extras::lists_no_other;
use crate::verifying::verdict;
use std::alloc::{AllocError, Global};
use std::mem;
use std::sync::Wait;
use ul_answers::Answer;
use ul_index::Catalog;
use ul_inputs::Resolution;
use ul_lock::{Lock, Locked, Packages};
use ul_lock_write::{WriteFault, write};
use ul_merge::files_at;

// Whether it is answered that a lock is verified.
fn is_acceptance(answer: &Answer) -> bool
    ensures { result ≡ is_acceptance (answer_view answer.now) }
{
    match answer {
        Answer::Verified => true,
        _ => false,
    }
}

// Whether a lock is verified for a resolution's project and catalog.
#[tactic(auto, using(crate::proofs::Relocked::accepted_decides))]
fn is_verified<R: Wait>(
    rt: &R,
    alloc: Global,
    resolution: &Resolution,
    lock: &Lock,
) -> Result<bool, AllocError>
    requires { IsWellFormed lock.now }
    ensures { IfOk result
        (λ b. Decides b (IsVerified (view resolution.now).catalog (view resolution.now).project lock.now)) }
{
    let answer = verdict(rt, alloc, resolution, lock)?;
    let accepted = is_acceptance(&answer);
    mem::forget(answer);
    Ok(accepted)
}

// Gives a package the files of its release.
fn refresh_package(alloc: Global, catalog: &Catalog, block: &mut Locked) -> Result<(), AllocError>
    ensures { OnOk result (block.new ≡ refreshed_package catalog.now block.old) }
{
    let files = files_at(alloc, catalog, &block.name, &block.version)?;
    block.files = files;
    Ok(())
}

// Gives each package the files of its release.
fn refresh_packages(
    alloc: Global,
    catalog: &Catalog,
    packages: &mut [Locked],
) -> Result<(), AllocError>
    ensures { OnOk result (packages.new ≡ map (refreshed_package catalog.now) packages.old) }
{
    for block in packages.iter_mut() {
        refresh_package(alloc, catalog, block)?;
    }
    Ok(())
}

// Gives each package of a lock the files of its release.
fn refresh(alloc: Global, catalog: &Catalog, lock: &mut Lock) -> Result<(), AllocError>
    ensures { OnOk result (lock.new ≡ refreshed catalog.now lock.old) }
{
    let packages = mem::replace(&mut lock.packages, Packages::new(alloc));
    let mut list = packages.into_vec();
    let done = refresh_packages(alloc, catalog, list.as_mut_slice());
    lock.packages = Packages::of(list);
    done
}

// Whether a lock was written; want of memory where that ended it.
fn was_written(written: Result<Vec<u8>, WriteFault>) -> Result<bool, AllocError>
    ensures { result ≡ was_written written }
{
    match written {
        Ok(text) => {
            drop(text);
            Ok(true)
        }
        Err(WriteFault::TooManyPaths { paths: _ }) => Ok(false),
        Err(WriteFault::TooLong) => Ok(false),
        Err(WriteFault::NoMemory) => Err(AllocError),
    }
}

/// Whether a lock can be written. Its text is made for that, and let go again.
///
/// # Errors
///
/// Only for want of memory.
pub(crate) fn is_writable(alloc: Global, lock: &Lock) -> Result<bool, AllocError>
    ensures { IfOk result (λ b. Decides b (IsWritable lock.now)) }
{
    was_written(write(alloc, lock))
}

/// Whether an old lock stays for a resolution's project and catalog. It is given the catalog's files where it does.
///
/// # Errors
///
/// Only for want of memory.
#[tactic(auto, using(crate::proofs::Relocked::not_verified, crate::proofs::Relocked::lists_other))]
pub(crate) fn stays<R: Wait>(
    rt: &R,
    alloc: Global,
    resolution: &Resolution,
    lock: &mut Lock,
) -> Result<bool, AllocError>
    requires { IsWellFormed lock.old }
    ensures { IfOk result (StaysAs (view resolution.now) lock.old lock.new) }
{
    if !is_verified(rt, alloc, resolution, &*lock)? {
        return Ok(false);
    }
    if !lists_no_other(alloc, &resolution.project, &*lock)? {
        return Ok(false);
    }
    refresh(alloc, &resolution.catalog, lock)?;
    let fits = is_writable(alloc, &*lock)?;
    Ok(fits)
}
