// Marks: handles on the nodes of trees.
ghost use Rattle.std.specs.Prelude.{◌≡◌, ◌<◌, ◌↔◌, length, map, IfOk, IsTrue};
ghost use Rattle.std.specs.List.{fold, slice_get};
ghost use Rattle.ul_core.specs.Hashes.{next_hash};
ghost use Rattle.ul_core.specs.Trees.{parts_of};
ghost use Rattle.ul_interner.specs.Marked.{label_of, id_of, mark_with, stored_hash, IsNode};

use std::alloc::{AllocError, Global};
use std::marker::Model;
use std::sync::Arc;
use ul_core::{Label, hash_step};

// One node: its label, its parts, its identity and the structural hash of its tree. Marks and nodes are of any type, since a
// recursion over marks is proved only where they have no bounds.
#[cycle(mark)]
#[derive(Drop)]
struct Node<L> {
    label: L,
    parts: Vec<Mark<L>>,
    hash: u64,
    place: u64,
    shard: u8,
}

/// A handle on a node of the interner. Contracts see it as the tree below it, each label with its node's identity.
#[cycle(mark)]
#[derive(Drop)]
pub struct Mark<L> {
    node: Arc<Node<L>, Global>,
}

impl<L> Model for Mark<L> {
    ghost use Rattle.ul_interner.specs.Marked.{Marked, marked_code, mark_with, weight, lighter_alone};

    ghost Value = { Marked L };

    ghost coded = { marked_code L.code };

    ghost view = { λ m. let n = m.node.value in mark_with n.label n.shard n.place n.hash n.parts.items };

    ghost size = { weight };

    ghost size_decreases = { λ m h. let n = m.node.value in lighter_alone (n.label, (n.shard, n.place), n.hash) n.parts.items };
}

impl<L> Mark<L> {
    /// The label of the tree.
    pub fn label(&self) -> &L
        ensures { result.now ≡ label_of self.now }
    {
        &self.node.label
    }

    /// How many parts the tree has.
    pub fn count(&self) -> usize
        ensures { result ≡ length (parts_of self.now) }
    {
        self.node.parts.len()
    }

    /// The part at the place, from 0 on.
    pub fn part(&self, place: usize) -> &Mark<L>
        requires { place < length (parts_of self.now) }
        ensures { slice_get (parts_of self.now) place ≡ Some result.now }
    {
        &self.node.parts[place]
    }

    /// The identity: the number of the shard, and the place in the shard's log.
    pub fn id(&self) -> (u8, u64)
        ensures { result ≡ id_of self.now }
    {
        (self.node.shard, self.node.place)
    }

    /// Another handle on the node, or want of memory.
    pub fn share(&self) -> Result<Mark<L>, AllocError>
        ensures { IfOk result (λ m. m ≡ self.now) }
    {
        Ok(Mark {
            node: Arc::try_clone(&self.node)?,
        })
    }

    // The hash that is stored with the node: in an interner the structural hash of the tree.
    pub(crate) fn hash(&self) -> u64
        ensures { result ≡ stored_hash self.now }
    {
        self.node.hash
    }
}

impl<L: Label> Mark<L> {
    // The mark of a new node.
    pub(crate) fn new(
        alloc: Global,
        label: L,
        parts: Vec<Mark<L>>,
        shard: u8,
        place: u64,
        hash: u64,
    ) -> Result<Mark<L>, AllocError>
        ensures { IfOk result (λ m. m ≡ mark_with label shard place hash parts.items) }
    {
        let node = Arc::new(
            alloc,
            Node {
                label,
                parts,
                hash,
                place,
                shard,
            },
        )?;
        Ok(Mark { node })
    }

    /// A mark on a node of its own that is equal in all, or want of memory.
    ///
    /// The marks on a node are counted in one place, by all threads. A thread that makes very many on one node takes a mark apart
    /// first, and counts those that it makes of it alone.
    pub fn apart(&self, alloc: Global) -> Result<Mark<L>, AllocError>
        ensures { IfOk result (λ m. m ≡ self.now) }
    {
        let label = self.node.label.copy(alloc)?;
        let parts = shared_marks(alloc, self.node.parts.as_slice())?;
        Mark::new(
            alloc,
            label,
            parts,
            self.node.shard,
            self.node.place,
            self.node.hash,
        )
    }

    // Whether the node has this label and these parts.
    pub(crate) fn is_node(&self, label: &L, parts: &[Mark<L>]) -> bool
        ensures { IsTrue result ↔ IsNode label.now parts.now self.now }
    {
        self.node.label.same(label) && have_same_ids(self.node.parts.as_slice(), parts)
    }
}

// Another mark on the node of each mark, in order.
fn shared_marks<L: Label>(alloc: Global, marks: &[Mark<L>]) -> Result<Vec<Mark<L>>, AllocError>
    ensures { IfOk result (λ v. v.items ≡ marks.now) }
{
    let mut shared = Vec::with_capacity(alloc, marks.len())?;
    for mark in marks {
        shared.push(mark.share()?)?;
    }
    Ok(shared)
}

// Whether the marks of the two lists have the same identities, in order.
fn have_same_ids<L>(a: &[Mark<L>], b: &[Mark<L>]) -> bool
    ensures { IsTrue result ↔ (map id_of a.now ≡ map id_of b.now) }
{
    if a.len() != b.len() {
        return false;
    }
    for i in 0..a.len() {
        if a[i].id() != b[i].id() {
            return false;
        }
    }
    true
}

// The structural hash of the tree with this label and these parts.
pub(crate) fn node_hash<L: Label>(label: &L, parts: &[Mark<L>]) -> u64
    ensures { result ≡ fold next_hash (L.hash_of label.now) (map stored_hash parts.now) }
{
    let mut hash = label.hash();
    for part in parts {
        hash = hash_step(hash, part.hash());
    }
    hash
}
