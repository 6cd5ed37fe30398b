//! What the nodes of a name share.
ghost use Rattle.std.specs.Prelude.{◌≡◌, All, IfOk, MatchOption, map};
ghost use Rattle.ul_algebra.specs.Answers.{IsDiagram};
ghost use Rattle.ul_index.specs.Catalogs.{is_release_fit};
ghost use Rattle.ul_region.specs.Truths.{IsGrown, IsTruthAt};
ghost use Rattle.ul_prepared.specs.Lists.{AreListed, listed_in, lists_in, lists_of, releases_in};
ghost use Rattle.ul_prepared.specs.Shared.{IsFitted, IsShared, fitted_in, lists_shared, releases_shared};

use crate::gathering::extra_counts;
use crate::prepared::Planned;
use crate::releases::{Listed, Releases};
use std::alloc::{AllocError, Global};
use std::sync::Wait;
use ul_algebra::Algebra;
use ul_base::owned::{beside, made_from, with_made};
use ul_region::{ByExtra, Truths, fit_at};
use ul_requirement::{Release, Requirement, same_specifiers};

/// A release, as the nodes of its name share it.
#[derive(Drop)]
pub(crate) struct Fitted<'a> {
    pub(crate) release: &'a Release,
    /// The place of where it is fit, among truths.
    pub(crate) fit: usize,
    /// The place of its requirements among lists.
    pub(crate) list: usize,
}

/// What the nodes of a name share: its releases in the order of their versions, and the lists of requirements that they
/// have.
#[derive(Drop)]
pub(crate) struct Shared<'a> {
    pub(crate) releases: Vec<Fitted<'a>>,
    pub(crate) lists: Vec<ByExtra<'a>>,
}

// The place of where a release is fit: that of the one before, where the two ask for the same interpreters.
fn fit_place<R: Wait>(
    rt: &R,
    alloc: Global,
    algebra: &mut Algebra<'_>,
    truths: &mut Truths,
    before: Option<&Fitted<'_>>,
    release: &Release,
) -> Result<usize, AllocError>
    requires truths { All (IsDiagram algebra.old) truths.old.marks.items }
    requires before { MatchOption before (Unit {0}) (λ f. IsFitted algebra.old truths.old.marks.items f.now) }
    ensures grown { IsGrown algebra.old truths.old.marks.items algebra.new truths.new.marks.items }
    ensures fit { IfOk result (λ k. IsTruthAt algebra.new truths.new.marks.items k (is_release_fit release.now)) }
{
    if let Some(before) = before {
        let earlier: &Release = before.release;
        if same_specifiers(&earlier.python, &release.python) {
            return Ok(before.fit);
        }
    }
    fit_at(rt, alloc, algebra, truths, release)
}

// A release with the place of where it is fit.
fn fit_release<'a, R: Wait>(
    rt: &R,
    alloc: Global,
    algebra: &mut Algebra<'_>,
    truths: &mut Truths,
    before: Option<&Fitted<'_>>,
    listed: &Listed<'a>,
) -> Result<Fitted<'a>, AllocError>
    requires truths { All (IsDiagram algebra.old) truths.old.marks.items }
    requires before { MatchOption before (Unit {0}) (λ f. IsFitted algebra.old truths.old.marks.items f.now) }
    ensures grown { IsGrown algebra.old truths.old.marks.items algebra.new truths.new.marks.items }
    ensures fitted { IfOk result (IsFitted algebra.new truths.new.marks.items) }
    ensures listed { IfOk result (λ f. fitted_in f ≡ listed_in listed.now) }
{
    let release: &'a Release = listed.release;
    let fit = fit_place(rt, alloc, algebra, truths, before, release)?;
    Ok(Fitted {
        release,
        fit,
        list: listed.list,
    })
}

// Releases with the places of where they are fit, in order.
fn fitted_releases<'a, R: Wait>(
    rt: &R,
    alloc: Global,
    algebra: &mut Algebra<'_>,
    truths: &mut Truths,
    releases: &[Listed<'a>],
) -> Result<Vec<Fitted<'a>>, AllocError>
    requires { All (IsDiagram algebra.old) truths.old.marks.items }
    ensures grown { IsGrown algebra.old truths.old.marks.items algebra.new truths.new.marks.items }
    ensures fitted { IfOk result (λ v. All (IsFitted algebra.new truths.new.marks.items) v.items) }
    ensures listed { IfOk result (λ v. map fitted_in v.items ≡ map listed_in releases.now) }
{
    let mut list: Vec<Fitted<'a>> = Vec::with_capacity(alloc, releases.len())?;
    for listed in releases {
        let one = fit_release(rt, alloc, algebra, truths, list.last(), listed);
        list = with_made(list, one)?;
    }
    Ok(list)
}

// Lists of requirements that are asked for at so many extras, in order.
fn lists_by_extra<'a>(
    alloc: Global,
    lists: &[&'a [Requirement]],
    extras: usize,
) -> Result<Vec<ByExtra<'a>>, AllocError>
    ensures { IfOk result (λ v. v.items ≡ lists_of lists.now) }
{
    let mut found = Vec::with_capacity(alloc, lists.len())?;
    for requirements in lists {
        let requirements: &'a [Requirement] = requirements;
        found = with_made(found, ByExtra::of(alloc, requirements, extras))?;
    }
    Ok(found)
}

// What the nodes of a name share, among which are so many extras.
fn shared_of<'a, R: Wait>(
    rt: &R,
    alloc: Global,
    algebra: &mut Algebra<'_>,
    truths: &mut Truths,
    own: Releases<'a>,
    extras: usize,
) -> Result<Shared<'a>, AllocError>
    requires truths { All (IsDiagram algebra.old) truths.old.marks.items }
    requires listed { AreListed own }
    ensures grown { IsGrown algebra.old truths.old.marks.items algebra.new truths.new.marks.items }
    ensures shared { IfOk result (IsShared algebra.new truths.new.marks.items) }
    ensures releases { IfOk result (λ s. releases_shared s ≡ releases_in own.entry) }
    ensures lists { IfOk result (λ s. s.lists.items ≡ lists_in own.entry) }
{
    let Releases { releases, lists } = own;
    let fitted = fitted_releases(rt, alloc, algebra, truths, releases.as_slice());
    let (lists, releases) = beside(lists, made_from(fitted, releases))?;
    let listed = lists_by_extra(alloc, lists.as_slice(), extras);
    let (releases, lists) = beside(releases, made_from(listed, lists))?;
    Ok(Shared { releases, lists })
}

fn count_at(counts: &[usize], name: usize) -> usize {
    match counts.get(name) {
        Some(count) => *count,
        None => 0,
    }
}

// What the nodes of each name share, in the order of the names; `extras` says of each how many extras of it are nodes.
fn shared_with<'a, R: Wait>(
    rt: &R,
    alloc: Global,
    algebra: &mut Algebra<'_>,
    truths: &mut Truths,
    names: Vec<Releases<'a>>,
    extras: &[usize],
) -> Result<Vec<Shared<'a>>, AllocError>
    requires truths { All (IsDiagram algebra.old) truths.old.marks.items }
    requires listed { All AreListed names.items }
    ensures grown { IsGrown algebra.old truths.old.marks.items algebra.new truths.new.marks.items }
    ensures shared { IfOk result (λ v. All (IsShared algebra.new truths.new.marks.items) v.items) }
    ensures releases { IfOk result (λ v. map releases_shared v.items ≡ map releases_in names.entry.items) }
    ensures lists { IfOk result (λ v. map lists_shared v.items ≡ map lists_in names.entry.items) }
{
    let mut shared = Vec::with_capacity(alloc, names.len())?;
    for own in names {
        let count = count_at(extras, shared.len());
        let one = shared_of(rt, alloc, algebra, truths, own, count);
        shared = with_made(shared, one)?;
    }
    Ok(shared)
}

/// What the nodes of each name share, in the order of the names.
///
/// # Errors
///
/// Only for want of memory.
pub(crate) fn shared_names<'a, R: Wait>(
    rt: &R,
    alloc: Global,
    algebra: &mut Algebra<'_>,
    truths: &mut Truths,
    names: Vec<Releases<'a>>,
    nodes: &[Planned<'_>],
) -> Result<Vec<Shared<'a>>, AllocError>
    requires truths { All (IsDiagram algebra.old) truths.old.marks.items }
    requires listed { All AreListed names.items }
    ensures grown { IsGrown algebra.old truths.old.marks.items algebra.new truths.new.marks.items }
    ensures shared { IfOk result (λ v. All (IsShared algebra.new truths.new.marks.items) v.items) }
    ensures releases { IfOk result (λ v. map releases_shared v.items ≡ map releases_in names.entry.items) }
    ensures lists { IfOk result (λ v. map lists_shared v.items ≡ map lists_in names.entry.items) }
{
    let extras = extra_counts(alloc, names.len(), nodes);
    let (names, extras) = beside(names, extras)?;
    let shared = shared_with(rt, alloc, algebra, truths, names, extras.as_slice());
    made_from(shared, extras)
}
