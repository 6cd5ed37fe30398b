// What is done with the workers' results.
ghost use Rattle.std.specs.Prelude.{◌≡◌, ◌+◌, ◌<◌, ◌≤◌, ◌++◌, ◌∷◌, ℕ, List, All, Contains, true, [], length, vec_len, sum_by, Some};
ghost use Rattle.std.specs.List.{slice_get};
ghost use Rattle.std.specs.Vec.{vec_capacity};
ghost use Rattle.ul_interner.specs.Known.{Knows};
ghost use Rattle.ul_claims.specs.Rule.{parts_in_all};
ghost use Rattle.ul_claims.specs.Seats.{HadNone};
ghost use Rattle.ul_workers.specs.Work.{WorkedFrom, Within, Good, Full, Filled, numbers, parts_of_seats};

use crate::jobs::Job;
use crate::threads::Worker;
use ul_claims::{ClaimSeat, Claims};
use ul_core::Label;
use ul_interner::{Interner, Pass};

// Puts each result at its number.
fn place<L: Label, J: Job<L>>(
    job: &J,
    pass: &Pass<L>,
    limit: u64,
    mut results: Vec<(u64, J::Out)>,
    places: &mut Vec<Option<J::Out>>,
)
    requires len { length places.old.items ≡ limit }
    requires results { All (λ p. Within limit (J.fits job.now) p.0 p.1 × J.known pass.now p.1) results.items }
    requires good { Good (J.fits job.now) (J.known pass.now) places.old.items }
    ensures len { length places.new.items ≡ limit }
    ensures good { Good (J.fits job.now) (J.known pass.now) places.new.items }
    ensures kept { (k : ℕ) → Filled places.old.items k → Filled places.new.items k }
    ensures filled { (k : ℕ) → Contains (numbers results.items) k → Filled places.new.items k }
{
    let (_job, _pass) = (job, pass);
    while let Some((number, out)) = results.pop() {
        places[number as usize] = Some(out);
    }
}

// Takes in what a worker did: its pass, its seat and its results. False where it failed.
fn take_in<L: Label, J: Job<L>>(
    job: &J,
    limit: u64,
    claims: &Claims,
    interner: &Interner<L>,
    pass: &mut Pass<L>,
    worker: Worker<L, J::Out>,
    seats: &mut Vec<ClaimSeat>,
    places: &mut Vec<Option<J::Out>>,
) -> bool
    requires limit { claims.now.limit ≡ limit }
    requires own { pass.old.table ≡ interner.now }
    requires room { vec_len seats.old < vec_capacity seats.old }
    requires worked { WorkedFrom (Within limit (J.fits job.now)) J.known claims.now interner.now worker }
    requires len { length places.old.items ≡ limit }
    requires good { Good (J.fits job.now) (J.known pass.old) places.old.items }
    requires seats { All (λ s. s.claims ≡ claims.now) seats.old.items }
    requires full { Full limit seats.old.items places.old.items }
    ensures learns { Knows pass.old pass.new }
    ensures count { (vec_len seats.new ≡ vec_len seats.old + 1) × (vec_capacity seats.new ≡ vec_capacity seats.old) }
    ensures len { length places.new.items ≡ limit }
    ensures good { Good (J.fits job.now) (J.known pass.new) places.new.items }
    ensures seats { All (λ s. s.claims ≡ claims.now) seats.new.items }
    ensures parts { parts_of_seats seats.new.items ≡ parts_of_seats seats.old.items + 1 }
    ensures full { result ≡ true → Full limit seats.new.items places.new.items }
    ensures none { result ≡ true → HadNone seats.new.items }
{
    let _claims = claims;
    let Worker {
        pass: other,
        seat,
        results,
        failed,
    } = worker;
    interner.join(pass, other);
    seats.push_reserved(seat);
    place(job, pass, limit, results, places);
    !failed
}

/// Takes in all workers, each in turn. False where one failed.
pub(crate) fn take_all<L: Label, J: Job<L>>(
    job: &J,
    limit: u64,
    claims: &Claims,
    interner: &Interner<L>,
    pass: &mut Pass<L>,
    mut workers: Vec<Worker<L, J::Out>>,
    seats: &mut Vec<ClaimSeat>,
    places: &mut Vec<Option<J::Out>>,
) -> bool
    requires limit { claims.now.limit ≡ limit }
    requires some { 0 < vec_len workers }
    requires own { pass.old.table ≡ interner.now }
    requires room { vec_len seats.old + vec_len workers ≤ vec_capacity seats.old }
    requires worked { All (WorkedFrom (Within limit (J.fits job.now)) J.known claims.now interner.now) workers.items }
    requires len { length places.old.items ≡ limit }
    requires good { Good (J.fits job.now) (J.known pass.old) places.old.items }
    requires seats { All (λ s. s.claims ≡ claims.now) seats.old.items }
    requires parts { parts_of_seats seats.old.items + vec_len workers ≡ parts_in_all }
    requires full { Full limit seats.old.items places.old.items }
    ensures learns { Knows pass.old pass.new }
    ensures len { length places.new.items ≡ limit }
    ensures good { Good (J.fits job.now) (J.known pass.new) places.new.items }
    ensures seats { All (λ s. s.claims ≡ claims.now) seats.new.items }
    ensures parts { result ≡ true → parts_of_seats seats.new.items ≡ parts_in_all }
    ensures full { result ≡ true → Full limit seats.new.items places.new.items }
    ensures none { result ≡ true → HadNone seats.new.items }
{
    while let Some(worker) = workers.pop() {
        if !take_in(job, limit, claims, interner, pass, worker, seats, places) {
            return false;
        }
    }
    true
}
