// The loop over generations.
ghost use Rattle.std.specs.Prelude.{◌≡◌, ◌≤◌, ◌++◌, ◌∷◌, ℕ, [], List, length, IfOk, OnOk, IfErr, Some};
ghost use Rattle.std.specs.List.{slice_get};
ghost use Rattle.ul_interner.specs.Known.{Knows};
ghost use Rattle.ul_workers.specs.WorkerCount.{IsWorkerCount};
ghost use Rattle.ul_generations.specs.declared.outcomes.Outcome.{Outcome};
ghost use Rattle.ul_generations.specs.Rows.{open_regions};
ghost use Rattle.ul_generations.specs.Generations.{AreOutcomes, most_forks};
ghost use Rattle.ul_generations.specs.Answers.{Answers, Fails};
ghost use Rattle.ul_generations.specs.Known.{RowsKnown, OutcomeKnown, StepKnown, AnswerKnown};
ghost use Rattle.ul_generations.specs.Steps.{MakesStep};

use crate::answers::{ForkFault, Forked};
use crate::jobs::Generation;
use crate::judges::Judge;
use crate::outcomes::Outcome;
use crate::rows::Row;
use crate::steps::{Step, advance, first_rows, has_open, regions_of, take_leaves};
use std::alloc::{AllocError, Global};
use std::sync::Wait;
use std::thread::Threads;
use ul_base::Gate;
use ul_core::Label;
use ul_interner::{Interner, Pass};
use ul_workers::{Round, run_all};

/// How many leaves and open regions a generation may have together.
pub const MOST_FORKS: usize = 2_048;

// Judges the open regions of the rows, by one call of `run_all`.
fn judge_rows<R: Threads + Wait + Sync, L: Label, J: Judge<L>, G: Gate + Sync>(
    rt: &R,
    alloc: Global,
    workers: u64,
    interner: &Interner<L>,
    pass: &mut Pass<L>,
    judge: &J,
    gate: &G,
    rows: &[Row<J::Region, J::Done>],
) -> Result<(Vec<Outcome<J::Region, J::Done, J::Refusal>>, Round), AllocError>
    requires workers { IsWorkerCount workers }
    requires few { length rows.now ≤ most_forks }
    requires own { pass.old.table ≡ interner.now }
    requires ready { J.ready judge.now pass.old }
    requires known { RowsKnown (J.may judge.now) (J.region_known pass.old) (J.done_known pass.old) rows.now }
    ensures learns { Knows pass.old pass.new }
    ensures outcomes { IfOk result (λ r. AreOutcomes (J.outcome judge.now) rows.now r.0.items) }
    ensures known { IfOk result (λ r. (k : ℕ) (o : _) → slice_get r.0.items k ≡ Some o
        → OutcomeKnown (J.may judge.now) (J.region_known pass.new)
        (J.done_known pass.new) (J.refusal_known pass.new) o) }
    ensures round { IfOk result (λ r. r.1 ≡ (workers, length (open_regions rows.now))) }
{
    let regions = regions_of(alloc, rows)?;
    let count = regions.len() as u64;
    let job = Generation {
        judge,
        gate,
        regions,
    };
    let judged = run_all(rt, alloc, workers, interner, pass, &job, count)?;
    Ok(judged)
}

// One generation: its open regions are judged, by one call of `run_all`, and what follows is found.
fn turn<R: Threads + Wait + Sync, L: Label, J: Judge<L>, G: Gate + Sync>(
    rt: &R,
    alloc: Global,
    workers: u64,
    interner: &Interner<L>,
    pass: &mut Pass<L>,
    judge: &J,
    gate: &G,
    rows: Vec<Row<J::Region, J::Done>>,
    rounds: &mut Vec<Round>,
) -> Result<Step<J::Region, J::Done, J::Refusal>, AllocError>
    requires workers { IsWorkerCount workers }
    requires few { length rows.items ≤ most_forks }
    requires own { pass.old.table ≡ interner.now }
    requires ready { J.ready judge.now pass.old }
    requires known { RowsKnown (J.may judge.now) (J.region_known pass.old) (J.done_known pass.old) rows.items }
    ensures learns { Knows pass.old pass.new }
    ensures step { IfOk result (MakesStep (J.outcome judge.now) rows.items) }
    ensures known { IfOk result (λ s. StepKnown (J.may judge.now)
        (J.region_known pass.new) (J.done_known pass.new) (J.refusal_known pass.new) s) }
    ensures round { OnOk result (rounds.new.items
        ≡ rounds.old.items ++ (workers, length (open_regions rows.items)) ∷ []) }
{
    let (outcomes, round) = judge_rows(
        rt,
        alloc,
        workers,
        interner,
        pass,
        judge,
        gate,
        rows.as_slice(),
    )?;
    rounds.push(round)?;
    let step = advance(alloc, rows, outcomes)?;
    Ok(step)
}

/// The fork answer of the region: all that it is split into is judged, one generation after another, by so many workers,
/// from 1 to 64. There is one round for each generation, with as many results as it has regions. Each region's job enters
/// the gate first, with its number in its generation. What is answered is known to the pass.
pub fn fork_all<R: Threads + Wait + Sync, L: Label, J: Judge<L>, G: Gate + Sync>(
    rt: &R,
    alloc: Global,
    workers: u64,
    interner: &Interner<L>,
    pass: &mut Pass<L>,
    judge: &J,
    gate: &G,
    region: J::Region,
) -> Result<(Forked<J::Region, J::Done, J::Refusal>, Vec<Round>), ForkFault>
    requires workers { IsWorkerCount workers }
    requires own { pass.old.table ≡ interner.now }
    requires ready { J.ready judge.now pass.old }
    requires may { J.may judge.now region }
    requires known { J.region_known pass.old region }
    ensures learns { Knows pass.old pass.new }
    ensures answer { IfOk result (λ r. Answers (J.outcome judge.now) region workers r.0 r.1.items) }
    ensures fault { IfErr result (λ e. Fails (J.outcome judge.now) region e) }
    ensures known { IfOk result (λ r. AnswerKnown
        (J.region_known pass.new) (J.done_known pass.new) (J.refusal_known pass.new) r.0) }
{
    let mut rows = first_rows(alloc, region)?;
    let mut rounds = Vec::new(alloc);
    // Each generation that isn't the last one has a row more than the one before it.
    for generation in 0..MOST_FORKS + 1 {
        if rows.len() > MOST_FORKS {
            return Err(ForkFault::TooManyForks {
                count: rows.len() as u64,
            });
        }
        match turn(
            rt,
            alloc,
            workers,
            interner,
            pass,
            judge,
            gate,
            rows,
            &mut rounds,
        )? {
            Step::Stop {
                path,
                region,
                refusal,
            } => {
                return Ok((
                    Forked::Refused {
                        path,
                        region,
                        refusal,
                    },
                    rounds,
                ));
            }
            Step::Next(next) => rows = next,
        }
        if !has_open(rows.as_slice()) {
            let leaves = take_leaves(alloc, rows)?;
            return Ok((Forked::Leaves(leaves), rounds));
        }
    }
    unreachable!()
}
