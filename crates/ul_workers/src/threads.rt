// What one thread does, and all threads.
ghost use Rattle.std.specs.Prelude.{◌≡◌, ◌<◌, ◌≤◌, ℕ, length, All};
ghost use Rattle.ul_workers.specs.Work.{Fresh, MayBegin, Worked, HaveWorked, Within};

use crate::begun::each_from;
use crate::jobs::Job;
use std::alloc::Global;
use std::sync::Wait;
use std::thread::Threads;
use ul_claims::{ClaimSeat, Claims};
use ul_core::Label;
use ul_interner::{Interner, Pass};

/// What one thread works with. There is room for all results.
#[derive(Drop)]
pub(crate) struct Worker<L: Label, O> {
    pub(crate) pass: Pass<L>,
    pub(crate) seat: ClaimSeat,
    pub(crate) results: Vec<(u64, O)>,
    pub(crate) failed: bool,
}

/// Draws numbers until there is none, and runs the job on each.
pub(crate) fn work<R: Wait, L: Label, J: Job<L>>(
    rt: &R,
    alloc: Global,
    claims: &Claims,
    interner: &Interner<L>,
    job: &J,
    worker: &mut Worker<L, J::Out>,
)
    requires few { claims.now.limit ≤ 4096 }
    requires own { worker.old.pass.table ≡ interner.now }
    requires fresh { Fresh claims.now worker.old }
    requires ready { (n : ℕ) → n < claims.now.limit → J.ready job.now worker.old.pass n }
    ensures { Worked (Within claims.now.limit (J.fits job.now)) J.known claims.now worker.old.pass worker.new }
{
    for _ in rt.forever() {
        let Some(claim) = claims.draw(&mut worker.seat) else {
            return;
        };
        let number = claim.number();
        match job.run(rt, alloc, interner, &mut worker.pass, claim) {
            Ok(out) => worker.results.push_reserved((number, out)),
            Err(_) => {
                worker.failed = true;
                return;
            }
        }
    }
    unreachable!()
}

/// Each worker works in a thread of its own, where one can be made; the last of them in this one, where `here` says so.
pub(crate) fn work_all<R: Threads + Wait + Sync, L: Label, J: Job<L>>(
    rt: &R,
    alloc: Global,
    claims: &Claims,
    interner: &Interner<L>,
    job: &J,
    workers: &mut [Worker<L, J::Out>],
    here: bool,
)
    requires few { claims.now.limit ≤ 4096 }
    requires some { 0 < length workers.old }
    requires own { All (λ w. w.pass.table ≡ interner.now) workers.old }
    requires fresh { All (λ w. Fresh claims.now w) workers.old }
    requires ready { All (λ w. (n : ℕ) → n < claims.now.limit → J.ready job.now w.pass n) workers.old }
    ensures { HaveWorked (Within claims.now.limit (J.fits job.now)) J.known claims.now workers.old workers.new }
{
    each_from(
        rt,
        &|_: usize, worker: &mut Worker<L, J::Out>|
            requires { MayBegin (J.ready job.now) claims.now interner.now worker.now }
            ensures { Worked (Within claims.entry.now.limit (J.fits job.entry.now))
                J.known claims.entry.now worker.entry.now.pass worker.exit.now }
        { work(rt, alloc, claims, interner, job, worker) },
        0,
        workers,
        here,
    );
}
