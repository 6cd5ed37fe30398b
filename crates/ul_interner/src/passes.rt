// Passes: what threads know of the interner.
ghost use Rattle.std.specs.Prelude.{◌≡◌, ◌↔◌, IsTrue};
ghost use Rattle.ul_interner.specs.Marked.{plain};
ghost use Rattle.ul_interner.specs.Known.{Known};

use crate::marks::Mark;
use crate::views::TableSeat;
use std::marker::Model;
use ul_core::Label;

/// What a thread knows of an interner: the logs that it has seen. It has no bytes.
#[derive(Drop)]
pub struct Pass<L: Label> {
    pub(crate) seat: TableSeat<L>,
}

impl<L: Label> Model for Pass<L> {
    ghost use Rattle.ul_interner.specs.Known.{Held, held_code};
    ghost use Rattle.ul_interner.specs.Rule.{IsIdle};

    ghost Value = { Held L };

    ghost coded = { held_code L.code };

    ghost view = { λ p. record { table = p.seat.table_id; logs = p.seat.me.0.logs } };

    ghost invariant = { λ p. IsIdle L.hash_of p.seat.table_id.slots p.seat.me };
}

/// Whether the identities of two marks that are known to the pass are equal, which is exactly where the trees are.
pub fn same<L: Label>(pass: &Pass<L>, left: &Mark<L>, right: &Mark<L>) -> bool
    requires left { Known pass.now left.now }
    requires right { Known pass.now right.now }
    ensures { IsTrue result ↔ (plain left.now ≡ plain right.now) }
{
    let _pass = &pass.seat;
    left.id() == right.id()
}
