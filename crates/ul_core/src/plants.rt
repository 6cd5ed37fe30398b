ghost use Rattle.std.specs.Prelude.{◌≡◌, ◌↔◌, IsTrue};
ghost use Rattle.ul_core.specs.Hashes.{next_hash, tree_hash};
ghost use Rattle.ul_core.specs.Trees.{Has};

use crate::labels::Label;
use std::marker::Model;

/// A finite tree: a label and the parts in order. Contracts see it as a `Tree`.
///
/// Hashing, comparing and dropping a plant recur once for each of its levels, and nothing bounds how many there
/// are: 2,000 levels are far within a thread's stack, and a million are not. Who makes plants of outside data
/// bounds their depth.
#[derive(Drop)]
pub struct Plant<L: Label> {
    pub label: L,
    pub parts: Vec<Plant<L>>,
}

impl<L: Label> Model for Plant<L> {
    ghost use Rattle.ul_core.specs.declared.trees.Tree.{Tree};
    ghost use Rattle.ul_core.specs.TreeCode.{tree_code, weight};

    ghost Value = { Tree L };

    ghost coded = { tree_code L.code };

    ghost use Rattle.ul_core.specs.Trees.{tree_with};

    ghost view = { λ p. tree_with p.label p.parts.items };

    ghost size = { weight };

    ghost use Rattle.ul_core.specs.TreeCode.{lighter};

    ghost size_decreases = { λ a h. lighter a.label a.parts.items };
}

/// The structural hash of a tree: it begins with the label's hash, and for each part in order the hash
/// `h` becomes `h * 6364136223846793005 + p + 1` modulo 2^64, where `p` is the part's structural hash.
pub fn structural_hash<L: Label>(plant: &Plant<L>) -> u64
    ensures { result ≡ tree_hash L.hash_of plant.now }
{
    let mut hash = plant.label.hash();
    for part in &plant.parts {
        hash = hash_step(hash, structural_hash(part));
    }
    hash
}

/// The structural hash after one part more: the hash of the label and the parts before it, and the part's.
pub fn hash_step(hash: u64, part: u64) -> u64
    ensures { result ≡ next_hash hash part }
{
    hash.wrapping_mul(6364136223846793005)
        .wrapping_add(part)
        .wrapping_add(1)
}

/// Whether two plants are one tree.
pub fn is_same<L: Label>(one: &Plant<L>, other: &Plant<L>) -> bool
    ensures { IsTrue result ↔ (one.now ≡ other.now) }
{
    if one.parts.len() != other.parts.len() {
        return false;
    }
    if !one.label.same(&other.label) {
        return false;
    }
    let mine = one.parts.as_slice();
    let theirs = other.parts.as_slice();
    for i in 0..mine.len() {
        if !is_same(&mine[i], &theirs[i]) {
            return false;
        }
    }
    true
}

/// Whether the log has the tree.
pub(crate) fn has<L: Label>(log: &[Plant<L>], plant: &Plant<L>) -> bool
    ensures { IsTrue result ↔ Has log.now plant.now }
{
    for listed in log {
        if is_same(listed, plant) {
            return true;
        }
    }
    false
}
