// The interner, and what a pass does with it.
ghost use Rattle.std.specs.Prelude.{◌≡◌, ◌<◌, ◌≤◌, All, IfOk, [], Some, map, replicate};
ghost use Rattle.ul_core.specs.Trees.{tree_with};
ghost use Rattle.ul_interner.specs.Marked.{IsMade, plain};
ghost use Rattle.ul_interner.specs.Known.{Known, Knows, first_pass};

use crate::bodies::Body;
use crate::marks::{Mark, node_hash};
use crate::passes::Pass;
use crate::views::{Both, Settle, ShardRule, Slot, View};
use atomic_table::Table;
use std::alloc::{AllocError, Global};
use std::marker::Model;
use std::sync::Wait;
use ul_core::Label;

/// A shared table of trees. Each tree has one mark.
#[derive(Drop)]
pub struct Interner<L: Label> {
    pub(crate) table: Table<Slot<L>, View<L>, usize, ShardRule<L>, Global>,
    pub(crate) shards: usize,
}

impl<L: Label> Model for Interner<L> {
    ghost use Rattle.atomic_table.specs.Seated.{TableId, table_id_coded};
    ghost use Rattle.ul_interner.specs.Rule.{IsTable};

    ghost Value = { TableId };

    ghost coded = { table_id_coded };

    ghost view = { λ i. i.table.shared.table_id };

    ghost invariant = { λ i. IsTable i.shards i.table.shared.table_id i.table.shared.key };
}

// How many shards an interner has.
const SHARDS: usize = 16;

impl<L: Label> Interner<L> {
    /// An empty interner of 16 shards, and its first pass. Only memory can be wanting.
    pub fn begin(alloc: Global) -> Result<(Interner<L>, Pass<L>), AllocError>
        ensures shards { IfOk result (λ r. r.0.slots ≡ 16) }
        ensures first { IfOk result (λ r. r.1 ≡ first_pass r.0) }
    {
        Interner::begin_with(alloc, SHARDS)
    }

    // The same with another number of shards.
    fn begin_with(alloc: Global, shards: usize) -> Result<(Interner<L>, Pass<L>), AllocError>
        requires { (0 < shards) × (shards ≤ 256) }
        ensures shards { IfOk result (λ r. r.0.slots ≡ shards) }
        ensures first { IfOk result (λ r. r.1 ≡ first_pass r.0) }
    {
        let words = Vec::from_elem(alloc, 0u64, shards + shards)?;
        let bodies = empty_bodies(alloc, shards)?;
        match Table::new(alloc, words.as_slice(), bodies, &shards) {
            Ok((table, seat)) => Ok((Interner { table, shards }, Pass { seat })),
            Err(_) => Err(AllocError),
        }
    }

    /// A pass that knows what `pass` knows.
    pub fn split(&self, pass: &mut Pass<L>) -> Pass<L>
        requires own { pass.old.table ≡ self.now }
        ensures same { pass.new ≡ pass.old }
        ensures new { result ≡ pass.old }
    {
        Pass {
            seat: self.table.shared.split_seat::<Both>(&mut pass.seat),
        }
    }

    /// `pass` then knows what both knew.
    pub fn join(&self, pass: &mut Pass<L>, other: Pass<L>)
        requires own { (pass.old.table ≡ self.now) × (other.table ≡ self.now) }
        ensures knows { Knows pass.old pass.new }
        ensures others { Knows other pass.new }
    {
        let Pass { seat: other } = other;
        self.table.shared.join_seat::<Both>(&mut pass.seat, other);
        self.table.shared.load::<Settle>(&mut pass.seat, 0);
    }

    /// The mark of the tree with this label and these parts, which the pass knows. It may wait for the tree's shard. After
    /// want of memory the pass knows what it knew, and all marks are as they were.
    pub fn make<R: Wait>(
        &self,
        rt: &R,
        alloc: Global,
        pass: &mut Pass<L>,
        label: L,
        parts: Vec<Mark<L>>,
    ) -> Result<Mark<L>, AllocError>
        requires own { pass.old.table ≡ self.now }
        requires parts { All (λ p. Known pass.old p) parts.items }
        ensures knows { Knows pass.old pass.new }
        ensures tree { IfOk result (λ m. plain m ≡ tree_with label (map plain parts.items)) }
        ensures made { IfOk result (λ m. IsMade label parts.items m) }
        ensures known { IfOk result (λ m. Known pass.new m) }
    {
        let hash = node_hash(&label, parts.as_slice());
        let shard = (hash % self.shards as u64) as usize;
        self.take(rt, &mut pass.seat, shard);
        let made = self.make_here(alloc, &mut pass.seat, shard, hash, label, parts);
        self.give(&mut pass.seat, shard);
        made
    }
}

// So many empty bodies.
fn empty_bodies<L: Label>(alloc: Global, count: usize) -> Result<Vec<Slot<L>>, AllocError>
    ensures { IfOk result (λ v. v.items ≡ replicate count (Some [])) }
{
    let mut bodies = Vec::with_capacity(alloc, count)?;
    for _ in 0..count {
        bodies.push(Some(Body::new(alloc)?))?;
    }
    Ok(bodies)
}
