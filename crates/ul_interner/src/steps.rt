// The steps of `make`, one atomic step or one exchange each, and the search in a body.
ghost use Rattle.std.specs.Prelude.{◌≡◌, ◌≢◌, ◌%◌, ◌+◌, ◌<◌, ◌++◌, ◌∷◌, [], None, Some, ℕ, List, IfOk, length, map, slice_set};
ghost use Rattle.std.specs.List.{fold, slice_get};
ghost use Rattle.ul_core.specs.Hashes.{next_hash};
ghost use Rattle.ul_core.specs.Trees.{Has, parts_of};
ghost use Rattle.ul_interner.specs.Marked.{Marked, hash_at, id_of, stored_hash, IsFresh, HasNone};
ghost use Rattle.ul_interner.specs.Logs.{at, Begins, AllBegin, KnownIn, AllKnownIn, StandsIn, AreSeen};
ghost use Rattle.ul_interner.specs.Marked.{IsMade};
ghost use Rattle.ul_interner.specs.Rule.{view, me_with_turn, me_with_look, me_with_mark, Carries, IsEmptied, IsIdle, HasLooked, IsPublish};

use crate::bodies::Body;
use crate::interners::Interner;
use crate::marks::Mark;
use crate::views::{Give, Grow, Item, Look, TableSeat, Take};
use std::alloc::{AllocError, Global};
use std::marker::Brand;
use std::sync::Wait;
use std::thread;
use ul_core::Label;

impl<L: Label> Interner<L> {
    // Waits for the turn of the shard, with which the body comes.
    pub(crate) fn take<R: Wait>(&self, rt: &R, seat: &mut TableSeat<L>, shard: usize)
        requires own { seat.old.table_id ≡ self.now }
        requires idle { (seat.old.me.0.holds ≡ None) × (seat.old.me.1 ≡ []) }
        requires shard { shard < self.now.slots }
        ensures same { seat.new.table_id ≡ seat.old.table_id }
        ensures taken { (b : List (Marked L)) × (seat.new.me ≡ me_with_turn seat.old.me shard b) }
    {
        for _ in rt.forever() {
            if self
                .table
                .shared
                .compare_exchange::<Take>(seat, shard, 0, 1)
                == 0
            {
                return;
            }
            thread::yield_now();
        }
        unreachable!()
    }

    // Looks at the count: the seat's log of the shard becomes the body's.
    fn look(&self, seat: &mut TableSeat<L>, shard: usize)
        requires own { seat.old.table_id ≡ self.now }
        requires shard { (shard < self.now.slots) × (shard < length seat.old.me.0.logs) }
        requires turn { seat.old.me.0.holds ≡ Some shard }
        ensures same { seat.new.table_id ≡ seat.old.table_id }
        ensures now { seat.new.me ≡ me_with_look seat.old.me shard }
        ensures longer { Begins (at seat.old.me.0.logs shard) seat.old.me.0.hand }
        ensures seen { AreSeen L.hash_of self.now.slots seat.new.me.0.logs }
    {
        self.table.shared.load::<Look>(seat, self.shards + shard);
    }

    // Takes the body out of its slot.
    fn take_out(&self, seat: &mut TableSeat<L>, shard: usize) -> Body<L>
        requires own { seat.old.table_id ≡ self.now }
        requires body { Carries shard seat.old.me.0.hand seat.old.me }
        ensures same { (seat.new.table_id ≡ seat.old.table_id) × (seat.new.me.0 ≡ seat.old.me.0) }
        ensures emptied { IsEmptied shard seat.new.me }
        ensures body { result ≡ seat.old.me.0.hand }
    {
        let Some(body) = self.table.shared.exchange(seat, shard, None) else {
            unreachable!()
        };
        body
    }

    // Puts the body back into its slot.
    fn put_in(&self, seat: &mut TableSeat<L>, shard: usize, body: Body<L>)
        requires own { seat.old.table_id ≡ self.now }
        requires emptied { IsEmptied shard seat.old.me }
        ensures same { (seat.new.table_id ≡ seat.old.table_id) × (seat.new.me.0 ≡ seat.old.me.0) }
        ensures body { Carries shard body seat.new.me }
    {
        self.table.shared.exchange(seat, shard, Some(body));
    }

    // Publishes the mark, while the body is out of its slot.
    fn grow<I: Item<L>>(&self, seat: &mut TableSeat<L>, shard: usize, count: u64, mark: &Mark<L>)
        requires own { seat.old.table_id ≡ self.now }
        requires looked { HasLooked L.hash_of self.now.slots shard seat.old.me.0 }
        requires item { I.item ≡ mark.now ∷ [] }
        requires count { count ≡ length seat.old.me.0.hand + 1 }
        requires here { hash_at L.hash_of mark.now % self.now.slots ≡ shard }
        requires id { id_of mark.now ≡ (shard, length seat.old.me.0.hand) }
        requires hash { stored_hash mark.now ≡ hash_at L.hash_of mark.now }
        requires fresh { IsFresh seat.old.me.0.hand mark.now }
        requires parts { (p : _) → Has (parts_of mark.now) p → StandsIn seat.old.me.0.logs p }
        ensures same { seat.new.table_id ≡ seat.old.table_id }
        ensures now { seat.new.me ≡ me_with_mark seat.old.me shard mark.now }
        ensures seen { AreSeen L.hash_of self.now.slots seat.new.me.0.logs }
        ensures event { IsPublish L.hash_of self.now.slots shard seat.old.me.0.hand mark.now count }
    {
        let _mark = mark;
        self.table
            .shared
            .store::<Grow<I>>(seat, self.shards + shard, count);
    }

    // Gives the turn back, with the body.
    pub(crate) fn give(&self, seat: &mut TableSeat<L>, shard: usize)
        requires own { seat.old.table_id ≡ self.now }
        requires turn { (seat.old.me.0.holds ≡ Some shard) × (shard < self.now.slots) }
        requires body { Carries shard seat.old.me.0.hand seat.old.me }
        ensures same { seat.new.table_id ≡ seat.old.table_id }
        ensures now { seat.new.me ≡ (view seat.old.me.0.logs seat.old.me.0.told None [], []) }
    {
        self.table.shared.store::<Give>(seat, shard, 0);
    }

    // The mark of the tree, by a seat that holds the turn of the tree's shard.
    pub(crate) fn make_here(
        &self,
        alloc: Global,
        seat: &mut TableSeat<L>,
        shard: usize,
        hash: u64,
        label: L,
        parts: Vec<Mark<L>>,
    ) -> Result<Mark<L>, AllocError>
        requires own { seat.old.table_id ≡ self.now }
        requires shard { (shard < self.now.slots) × (length seat.old.me.0.logs ≡ self.now.slots) }
        requires turn { seat.old.me.0.holds ≡ Some shard }
        requires body { Carries shard seat.old.me.0.hand seat.old.me }
        requires hash { hash ≡ fold next_hash (L.hash_of label) (map stored_hash parts.items) }
        requires here { hash % self.now.slots ≡ shard }
        requires parts { AllKnownIn seat.old.me.0.logs parts.items }
        ensures same { seat.new.table_id ≡ seat.old.table_id }
        ensures looked { HasLooked L.hash_of self.now.slots shard seat.new.me.0 }
        ensures body { Carries shard seat.new.me.0.hand seat.new.me }
        ensures knows { AllBegin seat.old.me.0.logs seat.new.me.0.logs }
        ensures made { IfOk result (λ m. IsMade label parts.items m × KnownIn seat.new.me.0.logs m) }
    {
        self.look(seat, shard);
        let mut body = self.take_out(seat, shard);
        let made = self.find_or_add(alloc, seat, shard, &mut body, hash, label, parts);
        self.put_in(seat, shard, body);
        made
    }

    // The mark of the tree from the shard's body, where it is put if it is not there.
    fn find_or_add(
        &self,
        alloc: Global,
        seat: &mut TableSeat<L>,
        shard: usize,
        body: &mut Body<L>,
        hash: u64,
        label: L,
        parts: Vec<Mark<L>>,
    ) -> Result<Mark<L>, AllocError>
        requires own { seat.old.table_id ≡ self.now }
        requires looked { HasLooked L.hash_of self.now.slots shard seat.old.me.0 }
        requires body { body.old ≡ seat.old.me.0.hand }
        requires hash { hash ≡ fold next_hash (L.hash_of label) (map stored_hash parts.items) }
        requires here { hash % self.now.slots ≡ shard }
        requires parts { AllKnownIn seat.old.me.0.logs parts.items }
        ensures same { (seat.new.table_id ≡ seat.old.table_id) × (seat.new.me.1 ≡ seat.old.me.1) }
        ensures looked { HasLooked L.hash_of self.now.slots shard seat.new.me.0 }
        ensures body { body.new ≡ seat.new.me.0.hand }
        ensures knows { AllBegin seat.old.me.0.logs seat.new.me.0.logs }
        ensures made { IfOk result (λ m. IsMade label parts.items m × KnownIn seat.new.me.0.logs m) }
    {
        match body.find(hash, &label, parts.as_slice()) {
            Some(place) => body.share_at(place),
            None => self.add(alloc, seat, shard, body, hash, label, parts),
        }
    }

    // A new mark at the end of the shard's body, which is published.
    fn add(
        &self,
        alloc: Global,
        seat: &mut TableSeat<L>,
        shard: usize,
        body: &mut Body<L>,
        hash: u64,
        label: L,
        parts: Vec<Mark<L>>,
    ) -> Result<Mark<L>, AllocError>
        requires own { seat.old.table_id ≡ self.now }
        requires looked { HasLooked L.hash_of self.now.slots shard seat.old.me.0 }
        requires body { body.old ≡ seat.old.me.0.hand }
        requires hash { hash ≡ fold next_hash (L.hash_of label) (map stored_hash parts.items) }
        requires here { hash % self.now.slots ≡ shard }
        requires parts { AllKnownIn seat.old.me.0.logs parts.items }
        requires fresh { HasNone label parts.items body.old }
        ensures same { (seat.new.table_id ≡ seat.old.table_id) × (seat.new.me.1 ≡ seat.old.me.1) }
        ensures looked { HasLooked L.hash_of self.now.slots shard seat.new.me.0 }
        ensures body { body.new ≡ seat.new.me.0.hand }
        ensures knows { AllBegin seat.old.me.0.logs seat.new.me.0.logs }
        ensures made { IfOk result (λ m. IsMade label parts.items m × KnownIn seat.new.me.0.logs m) }
    {
        let _shards = self.shards;
        let mark = body.append(alloc, shard as u8, hash, label, parts)?;
        self.grow_by(seat, shard, body.len(), &mark);
        Ok(mark)
    }

    // Publishes the mark that is passed.
    fn grow_by(&self, seat: &mut TableSeat<L>, shard: usize, count: u64, mark: &Mark<L>)
        requires own { seat.old.table_id ≡ self.now }
        requires looked { HasLooked L.hash_of self.now.slots shard seat.old.me.0 }
        requires count { count ≡ length seat.old.me.0.hand + 1 }
        requires here { hash_at L.hash_of mark.now % self.now.slots ≡ shard }
        requires id { id_of mark.now ≡ (shard, length seat.old.me.0.hand) }
        requires hash { stored_hash mark.now ≡ hash_at L.hash_of mark.now }
        requires fresh { IsFresh seat.old.me.0.hand mark.now }
        requires parts { (p : _) → Has (parts_of mark.now) p → StandsIn seat.old.me.0.logs p }
        ensures same { seat.new.table_id ≡ seat.old.table_id }
        ensures now { seat.new.me ≡ me_with_mark seat.old.me shard mark.now }
        ensures seen { AreSeen L.hash_of self.now.slots seat.new.me.0.logs }
        ensures event { IsPublish L.hash_of self.now.slots shard seat.old.me.0.hand mark.now count }
    {
        self.grow::<Brand>(seat, shard, count, mark);
    }
}
