// The claims, and what is done with one seat.
ghost use Rattle.std.specs.Prelude.{◌≡◌, ◌-◌, ◌<◌, ◌≤◌, ◌^◌, length, IfOk, OnErr};
ghost use Rattle.std.specs.List.Sorted.{IsStrictlyIncreasing};
ghost use Rattle.ul_claims.specs.Seats.{first_seat, split_seat, IsDraw};

use crate::seats::{Claim, ClaimSeat};
use crate::steps::{Counter, Draw, Part, Tally};
use atomic_table::Table;
use std::alloc::{AllocError, Global};
use std::marker::Model;

/// The numbers from 0 on, which any number of threads draw, each once. Those below the limit are claims.
#[derive(Drop)]
pub struct Claims {
    pub(crate) table: Table<u8, Tally, (), Counter, Global>,
    pub(crate) limit: u64,
}

impl Model for Claims {
    ghost use Rattle.std.specs.Prelude.{◌≡◌};
    ghost use Rattle.ul_claims.specs.Seats.{ClaimsView};

    ghost Value = { ClaimsView };

    ghost view = { λ c. record { table = c.table.shared.table_id; limit = c.limit } };

    ghost invariant = { λ c. c.table.shared.table_id.words ≡ 1 };
}

impl Claims {
    /// Claims of the numbers below the limit, none of them drawn yet, and the first seat. The limit is at most 2^32.
    pub fn begin(alloc: Global, limit: u64) -> Result<(Claims, ClaimSeat), AllocError>
        requires { limit ≤ 2 ^ 32 }
        ensures limit { IfOk result (λ r. r.0.limit ≡ limit) }
        ensures seat { IfOk result (λ r. r.1 ≡ first_seat r.0) }
    {
        let kept = Vec::with_capacity(alloc, limit as usize)?;
        let (table, seat) = Table::of_words(alloc, &[0], &())?;
        Ok((Claims { table, limit }, ClaimSeat { seat, kept, limit }))
    }

    /// Draws the next number: one fetch_add, which takes no memory and waits for no thread. The number is what the word
    /// held, and the word then holds one more. It answers None exactly where the number is the limit or more. The seat
    /// drew fewer than 2^32 times.
    pub fn draw(&self, seat: &mut ClaimSeat) -> Option<Claim>
        requires own { seat.old.claims ≡ self.now }
        requires few { length seat.old.drawn < 2 ^ 32 }
        ensures drawn { IsDraw seat.old result seat.new }
        ensures rising { IsStrictlyIncreasing seat.new.drawn }
    {
        let number = self.table.shared.fetch_add::<Draw>(&mut seat.seat, 0, 1);
        if number >= seat.limit {
            return None;
        }
        seat.kept.push_reserved(number);
        Some(Claim { number })
    }

    /// A seat that drew nothing, with room for all numbers below the limit. Only the first seat is split, fewer than 2^31 times: it is the one with more than one
    /// part. After want of memory it is as before.
    pub fn split(&self, alloc: Global, seat: &mut ClaimSeat) -> Result<ClaimSeat, AllocError>
        requires own { seat.old.claims ≡ self.now }
        requires first { 1 < seat.old.parts }
        ensures part { IfOk result (λ _. seat.new ≡ record seat.old { parts = seat.old.parts - 1 }) }
        ensures seat { IfOk result (λ s. s ≡ split_seat self.now) }
        ensures same { OnErr result (seat.new ≡ seat.old) }
    {
        let kept = Vec::with_capacity(alloc, self.limit as usize)?;
        Ok(ClaimSeat {
            seat: self.table.shared.split_seat::<Part>(&mut seat.seat),
            kept,
            limit: self.limit,
        })
    }
}
