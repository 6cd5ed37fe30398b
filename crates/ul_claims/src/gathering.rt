// What all seats together drew.
ghost use Rattle.std.specs.Prelude.{◌≡◌, ◌++◌, All, IfOk, OnOk};
ghost use Rattle.ul_claims.specs.Headline.{AreDrawn};
ghost use Rattle.ul_claims.specs.Seats.{below, joined_me};

use crate::counters::Claims;
use crate::seats::ClaimSeat;
use crate::steps::{Look, Part, TableSeat};
use std::alloc::{AllocError, Global};

impl Claims {
    // The seat's parts and its list go to `all`, and its numbers below the limit behind `numbers`.
    fn take_in(
        &self,
        all: &mut TableSeat,
        numbers: &mut Vec<u64>,
        seat: ClaimSeat,
    ) -> Result<(), AllocError>
        requires own { (all.old.table_id ≡ self.now.table) × (seat.claims ≡ self.now) }
        ensures seat { (all.new.table_id ≡ all.old.table_id) × (all.new.me ≡ joined_me all.old.me seat) }
        ensures numbers { OnOk result (numbers.new.items ≡ numbers.old.items ++ below self.now.limit seat.drawn) }
    {
        let ClaimSeat {
            seat: other,
            mut kept,
            limit: _,
        } = seat;
        self.table.shared.join_seat::<Part>(all, other);
        numbers.append(&mut kept)
    }

    /// The numbers below the limit that the seats drew, increasing, each once. Where the seats are the first seat and
    /// all that were split from it, and one of them was answered None, these are all numbers below the limit. All seats
    /// are of these claims. The one error is want of memory.
    pub fn gather(self, alloc: Global, mut seats: Vec<ClaimSeat>) -> Result<Vec<u64>, AllocError>
        requires own { All (λ s. s.claims ≡ self) seats.items }
        ensures { IfOk result (λ v. AreDrawn self seats.items v.items) }
    {
        // One seat takes in the others, and its own numbers theirs.
        let Some(last) = seats.pop() else {
            return Ok(Vec::new(alloc));
        };
        let ClaimSeat {
            seat: mut all,
            kept: mut numbers,
            limit: _,
        } = last;
        while let Some(seat) = seats.pop() {
            self.take_in(&mut all, &mut numbers, seat)?;
        }
        self.table.shared.load::<Look>(&mut all, 0);
        numbers.sort_unstable();
        Ok(numbers)
    }
}
