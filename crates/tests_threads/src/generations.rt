//! Tests of generations.

ghost use Rattle.std.specs.Prelude.{◌≡◌, ◌<◌, ◌+◌, IfOk};
ghost use Rattle.ul_interner.specs.Known.{Known, Knows};
ghost use Rattle.ul_workers.specs.WorkerCount.{IsWorkerCount};

use std::alloc::{AllocError, Global};
use std::sync::Wait;
use std::sync::atomic::{AtomicU64, Ordering};
use std::test::Fail;
use std::thread::Threads;
use ul_base::{Gate, Open};
use ul_core::Label;
use ul_generations::{ForkFault, Forked, Judge, Outcome, fork_all};
use ul_interner::{Interner, Mark, Pass};
use ul_workers::Round;

// A label whose hash is its number.
#[derive(Drop)]
struct Number {
    number: u64,
}

impl Label for Number {
    ghost hash_of = { λ n. n.number };

    fn same(&self, other: &Number) -> bool {
        self.number == other.number
    }

    fn hash(&self) -> u64 {
        self.number
    }

    fn copy(&self, _alloc: Global) -> Result<Number, AllocError> {
        Ok(Number {
            number: self.number,
        })
    }
}

// The numbers from `low` to below `high`, and the mark of `low`.
#[derive(Drop)]
struct Range {
    low: u64,
    high: u64,
    mark: Mark<Number>,
}

fn make_range<R: Wait>(
    rt: &R,
    alloc: Global,
    interner: &Interner<Number>,
    pass: &mut Pass<Number>,
    low: u64,
    high: u64,
) -> Result<Range, AllocError>
    requires { pass.old.table ≡ interner.now }
    ensures learns { Knows pass.old pass.new }
    ensures known { IfOk result (λ r. Known pass.new r.mark) }
    ensures ends { IfOk result (λ r. (r.low ≡ low) × (r.high ≡ high)) }
{
    let mark = interner.make(rt, alloc, pass, Number { number: low }, Vec::new(alloc))?;
    Ok(Range { low, high, mark })
}

// Halves a range of several numbers, or takes its first number off. One number is done, or refused from `refused` on.
#[derive(Drop)]
struct Halves {
    refused: u64,
    in_line: bool,
}

impl Judge<Number> for Halves {
    type Region = Range;

    type Done = u64;

    type Refusal = u64;

    ghost use Rattle.std.specs.Prelude.{◌<◌};
    ghost use Rattle.ul_interner.specs.Known.{Known};
    ghost use Rattle.ul_interner.proofs.ForCallers.{known_stays};

    ghost ready = { λ _ _. Unit {0} };

    ghost may = { λ _ r. r.low < r.high };

    ghost outcome = { λ _ _ _. Unit {0} };

    ghost region_known = { λ p r. Known p r.mark };

    ghost done_known = { λ _ _. Unit {0} };

    ghost refusal_known = { λ _ _. Unit {0} };

    ghost ready_stays = { λ j p q k h. h };

    ghost region_stays = { λ p q r k h. known_stays p q k r.mark h };

    ghost done_stays = { λ p q d k h. h };

    ghost refusal_stays = { λ p q f k h. h };

    fn judge<R: Wait>(
        &self,
        rt: &R,
        alloc: Global,
        interner: &Interner<Number>,
        pass: &mut Pass<Number>,
        region: &Range,
    ) -> Result<Outcome<Range, u64, u64>, AllocError> {
        let (low, high) = (region.low, region.high);
        if high - low < 2 {
            if low >= self.refused {
                return Ok(Outcome::Refused(low));
            }
            return Ok(Outcome::Done(low));
        }
        let part = if self.in_line { 1 } else { (high - low) / 2 };
        let middle = low + part;
        let left = make_range(rt, alloc, interner, pass, low, middle)?;
        let right = make_range(rt, alloc, interner, pass, middle, high)?;
        Ok(Outcome::Split(left, right))
    }
}

// A gate that counts who came.
#[derive(Drop)]
struct Counter {
    count: AtomicU64,
}

impl Gate for Counter {
    fn enter(&self, _number: u64) {
        self.count.fetch_add(1, Ordering::SeqCst);
    }
}

type Answer = Result<(Forked<Range, u64, u64>, Vec<Round>), ForkFault>;

// Ranges of several numbers are halved, and no number up to 5,000 is refused.
const HALVES: Halves = Halves {
    refused: 5000,
    in_line: false,
};

// The fork answer of the numbers below `high`.
fn forks<R: Threads + Wait + Sync, G: Gate + Sync>(
    rt: &R,
    alloc: Global,
    workers: u64,
    high: u64,
    judge: &Halves,
    gate: &G,
) -> Answer
    requires workers { IsWorkerCount workers }
    requires some { 0 < high }
{
    let (interner, mut pass) = Interner::<Number>::begin(alloc)?;
    let region = make_range(rt, alloc, &interner, &mut pass, 0, high)?;
    fork_all(
        rt, alloc, workers, &interner, &mut pass, judge, gate, region,
    )
}

// Whether these are the leaves of the numbers below `count`, in order.
fn are_leaves(forked: &Forked<Range, u64, u64>, count: usize) -> bool {
    let Forked::Leaves(leaves) = forked else {
        return false;
    };
    let mut right = leaves.len() == count;
    for (place, leaf) in leaves.iter().enumerate() {
        right = right && leaf.done == place as u64 && leaf.region.low == place as u64;
    }
    right
}

#[test]
fn each_number_of_workers_gives_one_answer(rt: HostRuntime) -> Result<(), Fail> {
    let alloc = rt.alloc();
    let gate = Counter {
        count: AtomicU64::new(0),
    };
    for workers in [1u64, 2, 8, 64] {
        let before = gate.count.load(Ordering::SeqCst);
        let (forked, rounds) = forks(&rt, alloc, workers, 100, &HALVES, &gate)?;
        assert!(rt; are_leaves(&forked, 100));
        assert_eq!(rt; rounds.len(), 8);
        assert!(rt; rounds[0].count() == 1 && rounds[1].count() == 2 && rounds[7].count() == 72);
        assert!(rt; rounds[7].workers() == workers);
        assert_eq!(rt; gate.count.load(Ordering::SeqCst).wrapping_sub(before), 199);
    }
    Ok(())
}

// Whether this is the refusal of 5, on its path.
fn is_refused_five(forked: &Forked<Range, u64, u64>) -> bool {
    match forked {
        Forked::Refused {
            path,
            region,
            refusal,
        } => {
            *refusal == 5
                && region.low == 5
                && path.digits() == [false, true, false, true].as_slice()
        }
        Forked::Leaves(_) => false,
    }
}

#[test]
fn first_refused_in_path_order(rt: HostRuntime) -> Result<(), Fail> {
    let alloc = rt.alloc();
    let five = Halves {
        refused: 5,
        in_line: false,
    };
    let (forked, rounds) = forks(&rt, alloc, 3, 16, &five, &Open)?;
    assert!(rt; is_refused_five(&forked) && rounds.len() == 5);
    Ok(())
}

#[test]
fn many_leaves_and_one_too_many(rt: HostRuntime) -> Result<(), Fail> {
    let alloc = rt.alloc();
    let (forked, rounds) = forks(&rt, alloc, 4, 2048, &HALVES, &Open)?;
    assert!(rt; are_leaves(&forked, 2048) && rounds.len() == 12);
    let fault = match forks(&rt, alloc, 4, 2049, &HALVES, &Open) {
        Ok(_) => ForkFault::NoMemory,
        Err(fault) => fault,
    };
    assert!(rt; fault == ForkFault::TooManyForks { count: 2049 });
    Ok(())
}

// As many generations as there may be: each has one number less, and paths have a digit for each.
#[test]
fn as_many_generations_as_leaves(rt: HostRuntime) -> Result<(), Fail> {
    let alloc = rt.alloc();
    let line = Halves {
        refused: 5000,
        in_line: true,
    };
    let (forked, rounds) = forks(&rt, alloc, 1, 2048, &line, &Open)?;
    assert!(rt; are_leaves(&forked, 2048) && rounds.len() == 2048);
    Ok(())
}

// A gate whose second and third entries wait for each other.
#[derive(Drop)]
struct Meeting {
    entries: AtomicU64,
    second: AtomicU64,
    third: AtomicU64,
    met: AtomicU64,
}

// Sets one flag, and looks at the other until it is set.
fn meet(mine: &AtomicU64, other: &AtomicU64, met: &AtomicU64) {
    mine.store(1, Ordering::SeqCst);
    for _turn in 0..100_000_000u64 {
        if other.load(Ordering::SeqCst) == 1 {
            met.fetch_add(1, Ordering::SeqCst);
            return;
        }
    }
}

impl Gate for Meeting {
    fn enter(&self, _number: u64) {
        match self.entries.fetch_add(1, Ordering::SeqCst) {
            1 => meet(&self.second, &self.third, &self.met),
            2 => meet(&self.third, &self.second, &self.met),
            _ => {}
        }
    }
}

#[test]
fn two_workers_run_side_by_side(rt: HostRuntime) -> Result<(), Fail> {
    let alloc = rt.alloc();
    let gate = Meeting {
        entries: AtomicU64::new(0),
        second: AtomicU64::new(0),
        third: AtomicU64::new(0),
        met: AtomicU64::new(0),
    };
    let (forked, rounds) = forks(&rt, alloc, 2, 2, &HALVES, &gate)?;
    assert!(rt; are_leaves(&forked, 2) && rounds.len() == 2);
    assert_eq!(rt; gate.entries.load(Ordering::SeqCst), 3);
    assert_eq!(rt; gate.met.load(Ordering::SeqCst), 2);
    Ok(())
}
