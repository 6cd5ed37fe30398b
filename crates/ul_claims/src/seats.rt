// What a thread draws with, and what it draws.
ghost use Rattle.std.specs.Prelude.{◌≡◌};

use crate::steps::TableSeat;
use std::marker::Model;

/// A number below the limit that was drawn. Only [`Claims::draw`](crate::Claims::draw) makes one, and no number twice.
#[derive(Debug, Drop)]
pub struct Claim {
    pub(crate) number: u64,
}

impl Model for Claim {
    ghost use Rattle.std.specs.Prelude.{ℕ};

    ghost Value = { ℕ };

    ghost view = { λ c. c.number };
}

impl Claim {
    /// The number.
    pub fn number(&self) -> u64
        ensures { result ≡ self.now }
    {
        self.number
    }
}

/// What one thread draws with. A draw takes no memory, so each seat has room for all numbers below the limit from the
/// start: eight bytes for each of them, in every seat. With a limit of 4,096 and 64 seats that is 2 MB.
#[derive(Drop)]
pub struct ClaimSeat {
    pub(crate) seat: TableSeat,
    pub(crate) kept: Vec<u64>,
    pub(crate) limit: u64,
}

impl Model for ClaimSeat {
    ghost use Rattle.std.specs.Vec.{vec_capacity};
    ghost use Rattle.ul_claims.specs.Seats.{SeatView, Keeps};

    ghost Value = { SeatView };

    ghost view = { λ s. record { claims = record { table = s.seat.table_id; limit = s.limit }; parts = s.seat.me.0.parts; drawn = s.seat.me.0.drawn } };

    ghost invariant = { λ s. Keeps s.seat.me.1 s.limit s.seat.me.0.parts s.seat.me.0.drawn s.kept.items (vec_capacity s.kept) };
}
