//! The releases of a name, and the lists of requirements that they have.
ghost use Rattle.std.specs.Prelude.{◌≡◌, ◌<◌, ◌-◌, IfOk, IsTrue, Some, length, map, slice_get};
ghost use Rattle.ul_prepared.specs.Lists.{AreListed, IsListed, StaysListed, lists_of, releases_in};

use std::alloc::{AllocError, Global};
use ul_base::owned::with_made;
use ul_requirement::{Release, Requirement, same_requirements};

/// A release, and the place of its requirements among lists.
#[derive(Drop)]
pub(crate) struct Listed<'a> {
    pub(crate) release: &'a Release,
    pub(crate) list: usize,
}

/// The releases of a name's eligible versions, in the order of the versions, and the lists of requirements that they
/// have. Neighbours with the same requirements have one list.
#[derive(Drop)]
pub(crate) struct Releases<'a> {
    pub(crate) releases: Vec<Listed<'a>>,
    pub(crate) lists: Vec<&'a [Requirement]>,
}

fn requirements_in(release: &Release) -> &[Requirement]
    ensures { result.now ≡ release.now.requirements }
{
    let requirements: &Vec<Requirement> = release.requirements.as_vec();
    requirements.as_slice()
}

// Whether these are the requirements of the last list.
fn is_last(lists: &[&[Requirement]], requirements: &[Requirement]) -> bool
    ensures there { IsTrue result → 0 < length lists.now }
    ensures same { IsTrue result → slice_get (lists_of lists.now) (length lists.now - 1) ≡ Some requirements.now }
{
    match lists.last() {
        Some(last) => same_requirements(last, requirements),
        None => false,
    }
}

// The place of requirements among lists: the last one, where that has the same, and else one more.
fn list_place<'a>(
    lists: &mut Vec<&'a [Requirement]>,
    requirements: &'a [Requirement],
) -> Result<usize, AllocError>
    ensures there { IfOk result (λ k. slice_get (lists_of lists.new.items) k ≡ Some requirements.now) }
    ensures stays { StaysListed (lists_of lists.old.items) (lists_of lists.new.items) }
{
    let count = lists.len();
    if is_last(lists.as_slice(), requirements) {
        return Ok(count - 1);
    }
    lists.push(requirements)?;
    Ok(count)
}

// A release with the place of its requirements among lists.
fn list_release<'a>(
    lists: &mut Vec<&'a [Requirement]>,
    release: &'a Release,
) -> Result<Listed<'a>, AllocError>
    ensures release { IfOk result (λ l. l.release.now ≡ release.now) }
    ensures listed { IfOk result (IsListed (lists_of lists.new.items)) }
    ensures stays { StaysListed (lists_of lists.old.items) (lists_of lists.new.items) }
{
    let list = list_place(lists, requirements_in(release))?;
    Ok(Listed { release, list })
}

/// Releases with the lists of their requirements.
///
/// # Errors
///
/// Only for want of memory.
pub(crate) fn listed_releases<'a>(
    alloc: Global,
    list: &[&'a Release],
) -> Result<Releases<'a>, AllocError>
    ensures same { IfOk result (λ r. releases_in r ≡ map (λ l. l.now) list.now) }
    ensures listed { IfOk result AreListed }
{
    let mut lists: Vec<&'a [Requirement]> = Vec::new(alloc);
    let mut releases = Vec::with_capacity(alloc, list.len())?;
    for release in list {
        let release: &'a Release = release;
        let one = list_release(&mut lists, release);
        releases = with_made(releases, one)?;
    }
    Ok(Releases { releases, lists })
}
