// Bodies: the marks of one shard in the order of their publication, with an index by hash.
ghost use Rattle.std.specs.Prelude.{◌≡◌, ◌≢◌, ◌<◌, ◌+◌, ◌++◌, ◌∷◌, [], ℕ, length, replicate, IfOk, IfSome, IfNone, OnErr};
ghost use Rattle.std.specs.List.{slice_get};
ghost use Rattle.ul_interner.specs.Marked.{mark_with, stored_hash, HaveHash, StandsAt, HasNone};
ghost use Rattle.ul_interner.specs.Index.{bucket_of, buckets, IsIndex};

use crate::marks::Mark;
use std::alloc::{AllocError, Global};
use std::marker::Model;
use ul_core::Label;

/// The marks of one shard. Contracts see the list of them.
///
/// A hash has a bucket. `newest` says for each bucket where its newest mark stands, `older` for each mark where the next
/// older one of its bucket stands: the place and one more, or 0 where there is none. There are as many buckets as marks at
/// least, unless memory was wanting.
#[derive(Drop)]
pub struct Body<L: Label> {
    marks: Vec<Mark<L>>,
    older: Vec<u64>,
    newest: Vec<u64>,
}

impl<L: Label> Model for Body<L> {
    ghost use Rattle.std.specs.Prelude.{List};
    ghost use Rattle.std.specs.Coded.{coded_list};
    ghost use Rattle.ul_interner.specs.Marked.{Marked, marked_code};
    ghost use Rattle.ul_interner.specs.Index.{IsIndexed};

    ghost Value = { List (Marked L) };

    ghost coded = { coded_list (marked_code L.code) };

    ghost view = { λ b. b.marks.items };

    ghost invariant = { λ b. IsIndexed b.marks.items b.older.items b.newest.items };
}

// How many buckets an empty body has.
const FEW: usize = 16;

// From how many buckets on a body gets no more.
const MANY: usize = 1 << 40;

impl<L: Label> Body<L> {
    /// A body without marks.
    pub fn new(alloc: Global) -> Result<Body<L>, AllocError>
        ensures { IfOk result (λ b. b ≡ []) }
    {
        let newest = Vec::from_elem(alloc, 0u64, FEW)?;
        Ok(Body {
            marks: Vec::new(alloc),
            older: Vec::new(alloc),
            newest,
        })
    }

    /// How many marks there are.
    pub fn len(&self) -> u64
        ensures { result ≡ length self.now }
    {
        self.marks.len() as u64
    }

    /// Another handle on the mark at the place.
    pub fn share_at(&self, place: usize) -> Result<Mark<L>, AllocError>
        requires { place < length self.now }
        ensures { IfOk result (λ m. slice_get self.now place ≡ Some m) }
    {
        self.marks[place].share()
    }

    /// The place of a mark with this label and parts with the identities of these. Such a mark has the hash.
    pub fn find(&self, hash: u64, label: &L, parts: &[Mark<L>]) -> Option<usize>
        requires { HaveHash label.now parts.now hash self.now }
        ensures some { IfSome result (λ place. StandsAt label.now parts.now self.now place) }
        ensures none { IfNone result (HasNone label.now parts.now self.now) }
    {
        let mut next = self.newest[bucket(hash, self.newest.len())];
        while next != 0 {
            let place = (next - 1) as usize;
            let mark = &self.marks[place];
            if mark.hash() == hash && mark.is_node(label, parts) {
                return Some(place);
            }
            next = self.older[place];
        }
        None
    }

    /// A new mark at the end, or want of memory, which changes nothing.
    pub fn append(
        &mut self,
        alloc: Global,
        shard: u8,
        hash: u64,
        label: L,
        parts: Vec<Mark<L>>,
    ) -> Result<Mark<L>, AllocError>
        ensures made { IfOk result (λ m. m ≡ mark_with label shard (length self.old) hash parts.items) }
        ensures longer { IfOk result (λ m. self.new ≡ self.old ++ m ∷ []) }
        ensures same { OnErr result (self.new ≡ self.old) }
    {
        let mark = Mark::new(alloc, label, parts, shard, self.len(), hash)?;
        self.push(alloc, &mark)?;
        Ok(mark)
    }

    // Another handle on the mark at the end.
    fn push(&mut self, alloc: Global, mark: &Mark<L>) -> Result<(), AllocError>
        ensures made { IfOk result (λ _. self.new ≡ self.old ++ mark.now ∷ []) }
        ensures same { OnErr result (self.new ≡ self.old) }
    {
        self.widen(alloc);
        self.marks.reserve(1)?;
        self.older.reserve(1)?;
        let own = mark.share()?;
        let bucket = bucket(mark.hash(), self.newest.len());
        self.older.push_reserved(self.newest[bucket]);
        self.marks.push_reserved(own);
        self.newest[bucket] = self.marks.len() as u64;
        Ok(())
    }

    // Twice as many buckets where there are fewer than marks, and as many as before where there is no memory for them.
    fn widen(&mut self, alloc: Global)
        ensures { self.new ≡ self.old }
    {
        let count = self.newest.len();
        if self.marks.len() < count || count >= MANY {
            return;
        }
        if let Ok(mut newest) = Vec::from_elem(alloc, 0u64, 2 * count) {
            index_all(
                self.marks.as_slice(),
                self.older.as_mut_slice(),
                newest.as_mut_slice(),
            );
            self.newest = newest;
        }
    }
}

// The bucket of a hash.
fn bucket(hash: u64, count: usize) -> usize
    requires { 0 < count }
    ensures bucket { result ≡ bucket_of count hash }
    ensures below { result < count }
{
    (hash.wrapping_mul(11400714819323198485) >> 32) as usize % count
}

// Puts all marks into their buckets, which are empty.
fn index_all<L>(marks: &[Mark<L>], older: &mut [u64], newest: &mut [u64])
    requires long { length older.old ≡ length marks.now }
    requires some { 0 < length newest.old }
    requires empty { newest.old ≡ replicate (length newest.old) 0 }
    ensures long { (length older.new ≡ length older.old) × (length newest.new ≡ length newest.old) }
    ensures indexed { IsIndex (buckets (length newest.new) marks.now) (length newest.new) older.new newest.new }
{
    for place in 0..marks.len() {
        let bucket = bucket(marks[place].hash(), newest.len());
        older[place] = newest[bucket];
        newest[bucket] = place as u64 + 1;
    }
}
