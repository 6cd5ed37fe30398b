//! The requirements of a release at a node, as every region finds them.
ghost use Rattle.std.specs.Prelude.{◌≡◌, [], IfOk, All, MatchOption};
ghost use Rattle.ul_algebra.specs.Answers.{IsDiagram};
ghost use Rattle.ul_algebra.specs.Spelled.{tree_of};
ghost use Rattle.ul_region.specs.Truths.{Grows, HasTree};

use std::alloc::{AllocError, Global};
use std::collections::HashMap;
use ul_algebra::{Algebra, Diagram};
use ul_ranges::SharedList;
use ul_requirement::{Release, Requirement};

/// A requirement that may be true at a node: the place of its truth, and where those on its name stand.
#[derive(Drop)]
pub struct Asked<'a> {
    pub requirement: &'a Requirement,
    /// The place of its truth at the node, among truths.
    pub truth: usize,
    /// The place of the first requirement on its name. So requirements of one row with equal numbers are those on one name.
    pub name: usize,
    /// The place of the next requirement on its name that has another truth, or how many requirements there are.
    pub next: usize,
}

/// The requirements of a release at a node.
#[derive(Drop)]
pub struct Row<'a> {
    pub release: &'a Release,
    /// The place of where the release is fit, among truths.
    pub fit: usize,
    /// The requirements that may be true at the node, in order. Releases with the same requirements share one list.
    pub asked: SharedList<Asked<'a>>,
}

/// Truths as diagrams, mostly each once.
#[derive(Drop)]
pub struct Truths {
    pub marks: Vec<Diagram>,
    places: HashMap<u64, usize>,
}

impl Truths {
    /// No truths.
    pub fn new(alloc: Global) -> Truths
        ensures { result.marks.items ≡ [] }
    {
        Truths {
            marks: Vec::new(alloc),
            places: HashMap::new(alloc),
        }
    }

    /// The truths, by their places.
    pub fn marks(&self) -> &[Diagram]
        ensures { result.now ≡ self.now.marks.items }
    {
        self.marks.as_slice()
    }

    // The place of a truth, if it is found where its identity was put last.
    fn found(&self, algebra: &Algebra<'_>, truth: &Diagram, key: u64) -> Option<usize>
        requires truth { IsDiagram algebra.now truth.now }
        requires marks { All (IsDiagram algebra.now) self.now.marks.items }
        ensures { MatchOption result (Unit {0}) (λ k. HasTree self.now.marks.items k (tree_of truth.now)) }
    {
        let place = *self.places.get(&key)?;
        let marks: &[Diagram] = self.marks.as_slice();
        if place >= marks.len() {
            return None;
        }
        let mark: &Diagram = &marks[place];
        if !algebra.same(mark, truth) {
            return None;
        }
        Some(place)
    }

    /// The place of a truth, which is put at the end where it isn't there yet.
    ///
    /// # Errors
    ///
    /// Only for want of memory.
    pub fn put(&mut self, algebra: &Algebra<'_>, truth: &Diagram) -> Result<usize, AllocError>
        requires truth { IsDiagram algebra.now truth.now }
        requires marks { All (IsDiagram algebra.now) self.old.marks.items }
        ensures grows { Grows self.old.marks.items self.new.marks.items }
        ensures marks { All (IsDiagram algebra.now) self.new.marks.items }
        ensures there { IfOk result (λ k. HasTree self.new.marks.items k (tree_of truth.now)) }
    {
        let (shard, place) = truth.id();
        let key = place.wrapping_mul(256).wrapping_add(u64::from(shard));
        if let Some(place) = self.found(algebra, truth, key) {
            return Ok(place);
        }
        let place = self.marks.len();
        let mark = truth.share()?;
        self.marks.push(mark)?;
        self.places.insert(key, place)?;
        Ok(place)
    }
}
