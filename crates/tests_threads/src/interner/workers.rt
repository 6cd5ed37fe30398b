//! Work on each number below a count, by several workers.
ghost use Rattle.std.specs.Prelude.{◌≡◌, ◌≤◌};
ghost use Rattle.ul_workers.specs.WorkerCount.{IsWorkerCount};

use crate::interner::labels::Number;
use std::alloc::{AllocError, Global};
use std::sync::Wait;
use std::thread::Threads;
use ul_claims::Claim;
use ul_interner::{Interner, Mark, Pass};
use ul_workers::{Job, run_all};

// Makes a leaf of each number's square, and fails at one number, as for want of memory.
#[derive(Drop)]
struct Squares {
    failing: u64,
}

impl Job<Number> for Squares {
    type Out = (u64, Mark<Number>);

    ghost use Rattle.std.specs.Prelude.{◌≡◌, ◌<◌, ◌*◌};
    ghost use Rattle.ul_interner.specs.Known.{Known};
    ghost use Rattle.ul_interner.proofs.ForCallers.{known_stays};

    ghost ready = { λ _ _ n. n < 4096 };

    ghost fits = { λ _ n o. o.0 ≡ n * n };

    ghost known = { λ p o. Known p o.1 };

    ghost ready_stays = { λ j p q n k r. r };

    ghost known_stays = { λ p q o k r. known_stays p q k o.1 r };

    fn run<R: Wait>(
        &self,
        rt: &R,
        alloc: Global,
        interner: &Interner<Number>,
        pass: &mut Pass<Number>,
        claim: Claim,
    ) -> Result<(u64, Mark<Number>), AllocError> {
        let number = claim.number();
        if number == self.failing {
            return Err(AllocError);
        }
        let square = number * number;
        let mark = interner.make(rt, alloc, pass, Number { number: square }, Vec::new(alloc))?;
        Ok((square, mark))
    }
}

// Whether some of the 4,096 results are right; of fewer none is looked at.
fn are_squares(squares: &[(u64, Mark<Number>)]) -> bool {
    if squares.len() < 4096 {
        return true;
    }
    squares[7].0 == 49 && squares[4095].0 == 16_769_025 && squares[9].1.label().number == 81
}

// Whether so many workers do the work on each number below a count, exactly where the failing one isn't among them.
fn is_done<R: Threads + Wait + Sync>(
    rt: &R,
    alloc: Global,
    interner: &Interner<Number>,
    pass: &mut Pass<Number>,
    workers: u64,
    count: u64,
    failing: u64,
) -> bool
    requires workers { IsWorkerCount workers }
    requires count { count ≤ 4096 }
    requires own { pass.old.table ≡ interner.now }
    ensures { pass.new.table ≡ pass.old.table }
{
    match run_all(
        rt,
        alloc,
        workers,
        interner,
        pass,
        &Squares { failing },
        count,
    ) {
        Ok((squares, round)) => {
            let all = squares.len() as u64 == count && are_squares(squares.as_slice());
            failing >= count && all && round.workers() == workers && round.count() == count
        }
        Err(_) => failing < count,
    }
}

// The identity of a leaf.
fn identity<R: Wait>(
    rt: &R,
    alloc: Global,
    interner: &Interner<Number>,
    pass: &mut Pass<Number>,
    number: u64,
) -> Option<(u8, u64)>
    requires { pass.old.table ≡ interner.now }
    ensures { pass.new.table ≡ pass.old.table }
{
    match interner.make(rt, alloc, pass, Number { number }, Vec::new(alloc)) {
        Ok(mark) => Some(mark.id()),
        Err(_) => None,
    }
}

// Whether rounds of work are done, and leave a leaf its identity.
fn are_done<R: Threads + Wait + Sync>(
    rt: &R,
    alloc: Global,
    interner: &Interner<Number>,
    pass: &mut Pass<Number>,
) -> bool
    requires { pass.old.table ≡ interner.now }
{
    let before = identity(rt, alloc, interner, pass, 7);
    let each = is_done(rt, alloc, interner, pass, 3, 4096, 4096);
    let nothing = is_done(rt, alloc, interner, pass, 64, 0, 500);
    let failed = is_done(rt, alloc, interner, pass, 8, 1000, 500);
    let again = is_done(rt, alloc, interner, pass, 8, 500, 500);
    let after = identity(rt, alloc, interner, pass, 7);
    each && nothing && failed && again && before.is_some() && before == after
}

fn rounds_are_done<R: Threads + Wait + Sync>(rt: &R, alloc: Global) -> bool {
    match Interner::<Number>::begin(alloc) {
        Ok((interner, mut pass)) => are_done(rt, alloc, &interner, &mut pass),
        Err(_) => false,
    }
}

#[test]
fn each_result_at_its_place(rt: HostRuntime) {
    assert!(rt; rounds_are_done(&rt, rt.alloc()));
}
