//! Packages that workers make: each job makes those of a run of neighbouring groups.
//!
//! A job begins with nothing that another has found, and what one package asks the next one mostly asks too. So there are
//! as many runs as workers, of about the same work.
//!
//! What was found on the way is left to the end of the process by `mem::forget`: that comes soon, and the system takes
//! large values back at once, where letting go of them goes through them piece by piece.
ghost use Rattle.std.specs.Prelude.{◌≡◌, ◌≤◌, IfOk, All, flat_map, length};
ghost use Rattle.ul_workers.specs.WorkerCount.{IsWorkerCount};
ghost use Rattle.ul_merge.specs.Blocks.{AreSources, IsPairGroup};
ghost use Rattle.ul_merge.specs.Over.{items_in};
ghost use Rattle.ul_merge.specs.Runs.{AreMadeOf, IsCut, joined_of, run_of};

use crate::blocks::made_blocks;
use crate::gathering::Group;
use crate::keys::PairKey;
use crate::members::Member;
use crate::over::with_row;
use crate::releases::{release_at, requirements_of};
use crate::sources::Sources;
use std::alloc::{AllocError, Global};
use std::mem;
use std::sync::Wait;
use std::thread::Threads;
use ul_algebra::{Algebra, DiagramLabel, DiagramPass};
use ul_claims::Claim;
use ul_index::Catalog;
use ul_interner::Interner;
use ul_lock::Locked;
use ul_workers::{Job, run_all};

// Makes the packages of each run of groups.
#[derive(Drop)]
struct Runs<'a, 's, 'g> {
    sources: &'a Sources<'s>,
    groups: &'a [Group<PairKey<'g>, Member<'g>>],
    // Where each run begins and ends.
    cuts: Vec<(usize, usize)>,
}

impl<'a, 's, 'g> Job<DiagramLabel> for Runs<'a, 's, 'g> {
    type Out = Option<Vec<Locked>>;

    ghost use Rattle.std.specs.Prelude.{◌≡◌, ◌<◌, ℕ, All, length, slice_get, slice_index_or, Some};
    ghost use Rattle.ul_region.specs.Truths.{region_at};
    ghost use Rattle.ul_region.proofs.ForCallers.{still, truth_still};
    ghost use Rattle.ul_merge.specs.Blocks.{AreSources, IsPairGroup};
    ghost use Rattle.ul_merge.specs.Runs.{AreMadeOf, IsCut, run_of};

    ghost ready = { λ j p n. AreSources p j.sources.now × (n < length j.cuts.items) × All (IsPairGroup j.sources.now.choices.now) j.groups.now × All (IsCut (length j.groups.now)) j.cuts.items };

    ghost fits = { λ j n o. (c : ℕ × ℕ) → slice_get j.cuts.items n ≡ Some c → AreMadeOf j.sources.now (run_of j.groups.now c) o };

    ghost known = { λ _ _. Unit {0} };

    ghost ready_stays = { λ j p q n k r. (
      record {
        supported = still p q j.sources.now.supported.now k r.0.supported;
        regions = λ i d l. truth_still p q (slice_index_or j.sources.now.regions.now i d) (region_at (slice_index_or j.sources.now.regions.now i d)) k (r.0.regions i d l);
        within = r.0.within;
        as_many = r.0.as_many;
        eligible = r.0.eligible;
        differ = r.0.differ;
      },
      r.1,
      r.2,
      r.3,
    ) };

    ghost known_stays = { λ p q o k r. r };

    fn run<R: Wait>(
        &self,
        rt: &R,
        alloc: Global,
        interner: &Interner<DiagramLabel>,
        pass: &mut DiagramPass,
        claim: Claim,
    ) -> Result<Option<Vec<Locked>>, AllocError> {
        let own = interner.split(pass);
        let mut algebra = Algebra::begin(alloc, interner, own);
        let (start, end) = self.cuts[claim.number() as usize];
        let groups = &self.groups[start..end];
        let made = made_blocks(rt, alloc, &mut algebra, self.sources, groups);
        mem::forget(algebra);
        made
    }
}

// About how much work a package is: each leaf that chose it looks at each of its requirements.
fn work_of(catalog: &Catalog, group: &Group<PairKey<'_>, Member<'_>>) -> u64 {
    let members: &Vec<Member<'_>> = &group.values;
    let release = release_at(catalog, group.key.name, group.key.version);
    let required = requirements_of(release).len() as u64;
    (members.len() as u64).saturating_mul(required.saturating_add(1))
}

// About how much work packages are.
fn work_in(catalog: &Catalog, groups: &[Group<PairKey<'_>, Member<'_>>]) -> u64 {
    let mut work = 0u64;
    for group in groups {
        work = work.saturating_add(work_of(catalog, group));
    }
    work
}

// How many groups at the front are about so much work: one at least, if there is one.
fn front_of(catalog: &Catalog, groups: &[Group<PairKey<'_>, Member<'_>>], share: u64) -> usize
    ensures { result ≤ length groups.now }
{
    let mut work = 0u64;
    for place in 0..groups.len() {
        let more = work_of(catalog, &groups[place]);
        if place > 0 && work.saturating_add(more / 2) > share {
            return place;
        }
        work = work.saturating_add(more);
    }
    groups.len()
}

// Where so many runs of groups begin and end, each of about so much work, but for the last, which has what is left.
fn cuts_of(
    alloc: Global,
    catalog: &Catalog,
    groups: &[Group<PairKey<'_>, Member<'_>>],
    count: u64,
    share: u64,
) -> Result<Vec<(usize, usize)>, AllocError>
    requires { 1 ≤ count }
    ensures count { IfOk result (λ v. length v.items ≡ count) }
    ensures all { IfOk result (λ v. flat_map (run_of groups.now) v.items ≡ groups.now) }
    ensures cuts { IfOk result (λ v. All (IsCut (length groups.now)) v.items) }
{
    let mut cuts = Vec::with_capacity(alloc, count as usize)?;
    let mut start = 0;
    for _ in 1..count {
        let end = start + front_of(catalog, &groups[start..], share);
        cuts.push((start, end))?;
        start = end;
    }
    cuts.push((start, groups.len()))?;
    Ok(cuts)
}

// The rows that were made, one behind another; none where some of them weren't.
fn joined(
    alloc: Global,
    mut made: Vec<Option<Vec<Locked>>>,
) -> Result<Option<Vec<Locked>>, AllocError>
    ensures { IfOk result (λ all. items_in all ≡ joined_of made.items) }
{
    let mut blocks = Some(Vec::new(alloc));
    made.reverse();
    while let Some(run) = made.pop() {
        blocks = with_row(blocks, run)?;
    }
    Ok(blocks)
}

// The packages that leaves chose, in order, made in so many runs, each of about so much work; none where not all of
// their markers are printed.
fn blocks_in_runs<'a, R: Threads + Wait + Sync>(
    rt: &R,
    alloc: Global,
    interner: &Interner<DiagramLabel>,
    pass: &mut DiagramPass,
    sources: &'a Sources<'_>,
    groups: &'a [Group<PairKey<'_>, Member<'_>>],
    count: u64,
    share: u64,
) -> Result<Option<Vec<Locked>>, AllocError>
    requires count { IsWorkerCount count }
    requires own { pass.old.table ≡ interner.now }
    requires sources { AreSources pass.old sources.now }
    requires groups { All (IsPairGroup sources.now.choices.now) groups.now }
    ensures { IfOk result (AreMadeOf sources.now groups.now) }
{
    let cuts = cuts_of(alloc, sources.catalog, groups, count, share)?;
    let job = Runs {
        sources,
        groups,
        cuts,
    };
    let (made, _round) = run_all(rt, alloc, count, interner, pass, &job, count)?;
    let blocks = joined(alloc, made)?;
    Ok(blocks)
}

// The work for which another worker is begun: about a tenth of a millisecond.
const WORK_OF_ONE: u64 = 2048;

// How many of so many workers have enough to do, and how much each has.
fn shares_of(
    workers: u64,
    catalog: &Catalog,
    groups: &[Group<PairKey<'_>, Member<'_>>],
) -> (u64, u64)
    requires { 1 ≤ workers }
    ensures some { 1 ≤ result.0 }
    ensures few { result.0 ≤ workers }
{
    if workers == 1 {
        return (1, 0);
    }
    let work = work_in(catalog, groups);
    let hands = workers.min(work / WORK_OF_ONE).max(1);
    (hands, work / hands)
}

/// The packages that leaves chose, in order, made by so many workers; none where not all of their markers are printed.
///
/// One worker makes them with the given algebra.
pub(crate) fn blocks_by<'a, R: Threads + Wait + Sync>(
    rt: &R,
    alloc: Global,
    workers: u64,
    interner: &Interner<DiagramLabel>,
    mut algebra: Algebra<'_>,
    sources: &'a Sources<'_>,
    groups: &'a [Group<PairKey<'_>, Member<'_>>],
) -> Result<Option<Vec<Locked>>, AllocError>
    requires workers { IsWorkerCount workers }
    requires own { algebra.table ≡ interner.now }
    requires sources { AreSources algebra sources.now }
    requires groups { All (IsPairGroup sources.now.choices.now) groups.now }
    ensures { IfOk result (AreMadeOf sources.now groups.now) }
{
    let (hands, share) = shares_of(workers, sources.catalog, groups);
    if hands > 1 {
        let mut pass = algebra.end();
        return blocks_in_runs(
            rt, alloc, interner, &mut pass, sources, groups, hands, share,
        );
    }
    let blocks = made_blocks(rt, alloc, &mut algebra, sources, groups);
    mem::forget(algebra);
    blocks
}
