//! Two workers run side by side.
ghost use Rattle.std.specs.Prelude.{◌≡◌};

use crate::interner::labels::Number;
use std::alloc::{AllocError, Global};
use std::sync::Wait;
use std::sync::atomic::{AtomicU64, Ordering};
use std::thread::Threads;
use ul_claims::Claim;
use ul_interner::{Interner, Pass};
use ul_workers::{Job, run_all};

// Work that waits until it has begun on two numbers, and tells whether it has.
#[derive(Drop)]
struct Meeting {
    begun: AtomicU64,
}

impl Job<Number> for Meeting {
    type Out = bool;

    ghost ready = { λ _ _ _. Unit {0} };

    ghost fits = { λ _ _ _. Unit {0} };

    ghost known = { λ _ _. Unit {0} };

    ghost ready_stays = { λ j p q n k r. r };

    ghost known_stays = { λ p q o k r. r };

    fn run<R: Wait>(
        &self,
        _rt: &R,
        _alloc: Global,
        _interner: &Interner<Number>,
        _pass: &mut Pass<Number>,
        _claim: Claim,
    ) -> Result<bool, AllocError> {
        self.begun.fetch_add(1, Ordering::SeqCst);
        for _turn in 0..100_000_000u64 {
            if self.begun.load(Ordering::SeqCst) == 2 {
                return Ok(true);
            }
        }
        Ok(false)
    }
}

// Whether the work on each of two numbers saw the other begin.
fn have_met(met: &[bool]) -> bool {
    met.len() == 2 && met[0] && met[1]
}

// Whether two workers meet.
fn two_meet<R: Threads + Wait + Sync>(
    rt: &R,
    alloc: Global,
    interner: &Interner<Number>,
    pass: &mut Pass<Number>,
) -> bool
    requires { pass.old.table ≡ interner.now }
{
    let job = Meeting {
        begun: AtomicU64::new(0),
    };
    match run_all(rt, alloc, 2, interner, pass, &job, 2) {
        Ok((met, _round)) => have_met(met.as_slice()),
        Err(_) => false,
    }
}

fn workers_meet<R: Threads + Wait + Sync>(rt: &R, alloc: Global) -> bool {
    match Interner::<Number>::begin(alloc) {
        Ok((interner, mut pass)) => two_meet(rt, alloc, &interner, &mut pass),
        Err(_) => false,
    }
}

#[test]
fn two_workers_run_side_by_side(rt: HostRuntime) {
    assert!(rt; workers_meet(&rt, rt.alloc()));
}
