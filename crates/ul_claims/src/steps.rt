// The claim word's rule, and the steps that threads take on it.
use atomic_table::{Join, Play, Seat, Split, TableRule};
use std::collections::LinkedList;

/// What a seat knows. No value of it is made.
pub struct Tally {
    pub parts: u64,
    pub drawn: LinkedList<u64>,
}

/// The rule of the claim word.
pub struct Counter;

impl TableRule<u8, Tally, ()> for Counter {
    ghost use Rattle.std.specs.Prelude.{[]};
    ghost use Rattle.ul_claims.specs.Rule.{EachOnce, tally, parts_in_all};

    ghost holds = { λ _. EachOnce };

    ghost first = { λ _. tally parts_in_all [] };
}

/// The step of a draw.
pub struct Draw;

impl Play<u8, Tally> for Draw {
    ghost use Rattle.ul_claims.specs.Rule.{Draws};

    ghost then = { Draws };
}

/// A look at the word.
pub struct Look;

impl Play<u8, Tally> for Look {
    ghost use Rattle.ul_claims.specs.Rule.{Looks};

    ghost then = { Looks };
}

/// One part goes to a new seat, and comes back with the numbers that it drew.
pub struct Part;

impl Split<Tally> for Part {
    ghost use Rattle.std.specs.Prelude.{◌-◌, []};
    ghost use Rattle.ul_claims.specs.Rule.{tally};

    ghost left = { λ v. tally (v.parts - 1) v.drawn };

    ghost right = { λ v. tally 1 [] };
}

impl Join<Tally> for Part {
    ghost use Rattle.std.specs.Prelude.{◌+◌, ◌++◌, []};
    ghost use Rattle.ul_claims.specs.Rule.{tally};

    ghost both = { λ v w. tally (v.parts + w.parts) (v.drawn ++ w.drawn) };

    ghost spent = { tally 0 [] };
}

/// A seat at the table of the claim word, which has no slots.
pub type TableSeat = Seat<u8, Tally>;
