// What the interner's table has, its rule, and what each step tells.
use crate::bodies::Body;
use atomic_table::{Join, Play, Seat, Split, TableRule};
use std::collections::LinkedList;
use std::marker::{Brand, PhantomData};
use ul_core::{Label, Tree};

/// What a seat knows: the logs that it has seen, those that it was told of, the shard whose turn it holds, and what it
/// knows of that shard's body. No value of it is made.
pub struct View<L> {
    pub logs: LinkedList<LinkedList<Tree<(L, (u64, u64), u64)>>>,
    pub told: LinkedList<LinkedList<Tree<(L, (u64, u64), u64)>>>,
    pub holds: Option<u64>,
    pub hand: LinkedList<Tree<(L, (u64, u64), u64)>>,
}

/// A slot has its shard's body, unless it is taken out.
pub type Slot<L> = Option<Body<L>>;

/// A seat at the interner's table.
pub type TableSeat<L> = Seat<Slot<L>, View<L>>;

/// The rule of the table, whose key is the number of shards.
pub struct ShardRule<L> {
    label: PhantomData<L>,
}

impl<L: Label> TableRule<Slot<L>, View<L>, usize> for ShardRule<L> {
    ghost use Rattle.std.specs.Prelude.{[], None, replicate};
    ghost use Rattle.ul_interner.specs.Rule.{Kept, view};

    ghost holds = { λ n. Kept L.hash_of n };

    ghost first = { λ n. view (replicate n []) [] None [] };
}

/// The turn of a shard is tried for.
pub struct Take;

impl<L: Label> Play<Slot<L>, View<L>> for Take {
    ghost use Rattle.ul_interner.specs.Rule.{TakesTurn};

    ghost then = { TakesTurn };
}

/// The holder looks at the count.
pub struct Look;

impl<L: Label> Play<Slot<L>, View<L>> for Look {
    ghost use Rattle.ul_interner.specs.Rule.{Looks};

    ghost then = { Looks L.hash_of };
}

/// The mark that a publication adds, if there is one.
pub trait Item<L> {
    ghost use Rattle.std.specs.Prelude.{List};
    ghost use Rattle.ul_interner.specs.Marked.{Marked};

    ghost item: { List (Marked L) };
}

impl<L> Item<L> for Brand {
    ghost use Rattle.std.specs.Prelude.{[]};

    ghost item = { [] };
}

/// The holder publishes one mark more.
pub struct Grow<I> {
    item: PhantomData<I>,
}

impl<L: Label, I: Item<L>> Play<Slot<L>, View<L>> for Grow<I> {
    ghost use Rattle.ul_interner.specs.Rule.{Grows};

    ghost then = { Grows L.hash_of I.item };
}

/// The holder gives the turn back.
pub struct Give;

impl<L: Label> Play<Slot<L>, View<L>> for Give {
    ghost use Rattle.ul_interner.specs.Rule.{Gives};

    ghost then = { Gives };
}

/// A pass takes in what it was told.
pub struct Settle;

impl<L: Label> Play<Slot<L>, View<L>> for Settle {
    ghost use Rattle.ul_interner.specs.Rule.{Settles};

    ghost then = { Settles L.hash_of };
}

/// A new pass has seen what the old one has; of two passes one is told what the other has seen.
pub struct Both;

impl<L> Split<View<L>> for Both {
    ghost use Rattle.std.specs.Prelude.{[], None};
    ghost use Rattle.ul_interner.specs.Rule.{view};

    ghost left = { λ v. v };

    ghost right = { λ v. view v.logs [] None [] };
}

impl<L> Join<View<L>> for Both {
    ghost use Rattle.std.specs.Prelude.{[], None};
    ghost use Rattle.ul_interner.specs.Rule.{view};

    ghost both = { λ v w. view v.logs w.logs v.holds v.hand };

    ghost spent = { view [] [] None [] };
}
