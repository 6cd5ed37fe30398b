// The call that runs a job by several workers.
ghost use Rattle.std.specs.Prelude.{◌≡◌, ◌<◌, ◌≤◌, ℕ, [], length, vec_len, IfOk, Some};
ghost use Rattle.std.specs.List.{slice_get};
ghost use Rattle.std.specs.Vec.{vec_capacity};
ghost use Rattle.ul_interner.specs.Known.{Knows};
ghost use Rattle.ul_workers.specs.Headline.{AreResults};
ghost use Rattle.ul_workers.specs.WorkerCount.{IsWorkerCount};
ghost use Rattle.ul_workers.specs.Work.{Filled, AreIn};

use crate::gather::take_all;
use crate::jobs::Job;
use crate::rounds::Round;
use crate::start::{empty_places, prepare};
use crate::threads::work_all;
use std::alloc::{AllocError, Global};
use std::sync::Wait;
use std::thread::Threads;
use ul_claims::Claims;
use ul_core::Label;
use ul_interner::{Interner, Pass};

// The results in their places.
fn take_places<O: Drop>(mut places: Vec<Option<O>>, mut results: Vec<O>) -> Vec<O>
    requires filled { (k : ℕ) → k < vec_len places → Filled places.items k }
    requires room { (results.items ≡ []) × (vec_len places ≤ vec_capacity results) }
    ensures len { length result.items ≡ length places.items }
    ensures each { AreIn places.items result.items }
{
    for i in 0..places.len() {
        match places[i].take() {
            Some(out) => results.push_reserved(out),
            None => unreachable!(),
        }
    }
    results
}

// Whether the caller's thread is one worker's and doesn't wait for all of them: where there is only one, or where there
// are two numbers at most, whose work the one thread may have done before another begins. With more numbers it waits: a
// thread that is begun by one that goes on working is often put on its core, and stands there until the other is moved.
fn is_worker(hands: u64, count: u64) -> bool {
    hands == 1 || count <= 2
}

/// Runs the job on each number below the count, by so many workers, from 1 to 64, of which no more begin than there are
/// numbers. The result at place k fits k, and the marks in it are known to the pass. After want of memory too the pass knows
/// what it knew.
pub fn run_all<R: Threads + Wait + Sync, L: Label, J: Job<L>>(
    rt: &R,
    alloc: Global,
    workers: u64,
    interner: &Interner<L>,
    pass: &mut Pass<L>,
    job: &J,
    count: u64,
) -> Result<(Vec<J::Out>, Round), AllocError>
    requires workers { IsWorkerCount workers }
    requires count { count ≤ 4096 }
    requires own { pass.old.table ≡ interner.now }
    requires ready { (n : ℕ) → n < count → J.ready job.now pass.old n }
    ensures learns { Knows pass.old pass.new }
    ensures results { IfOk result (λ r. AreResults (J.fits job.now) (J.known pass.new) count r.0.items) }
    ensures round { IfOk result (λ r. r.1 ≡ (workers, count)) }
{
    let (claims, mut first) = Claims::begin(alloc, count)?;
    let mut places = empty_places(alloc, count)?;
    let results = Vec::with_capacity(alloc, count as usize)?;
    let hands = workers.min(count).max(1);
    let mut seats = Vec::with_capacity(alloc, hands as usize + 1)?;
    let mut all = prepare(alloc, hands, &claims, &mut first, interner, pass, count)?;
    seats.push_reserved(first);
    let here = is_worker(hands, count);
    work_all(rt, alloc, &claims, interner, job, all.as_mut_slice(), here);
    if !take_all(
        job,
        count,
        &claims,
        interner,
        pass,
        all,
        &mut seats,
        &mut places,
    ) {
        return Err(AllocError);
    }
    let _numbers = claims.gather(alloc, seats)?;
    Ok((take_places(places, results), Round::of(workers, count)))
}
