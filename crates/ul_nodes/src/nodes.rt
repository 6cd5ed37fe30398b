//! Nodes of any kind: the part of a node at a level, its keys there, and the first level of two.
//!
//! What is said of a node is said of the plain tree that it stands for.
ghost use Rattle.std.specs.Prelude.{◌≡◌, ◌<◌, ℕ, suc, List, option_map, IfOk, All, true};
ghost use Rattle.ul_nodes.specs.Plain.{Plain};
ghost use Rattle.ul_nodes.specs.Reduced.{IsReduced};
ghost use Rattle.ul_nodes.specs.Apply.{first_of, keys, key_union, leaf_truth, rest_at, part_at, keys_at};
ghost use Rattle.ul_nodes.specs.Keys.{level_view, key_view, keys_view, top_of, rest_of, branches_of, branch_count, is_level, is_key_of, IsBranchAt, AreKeysOf, keys_of_both, part_by};

use crate::level::{Key, Level};
use std::alloc::{AllocError, Global};
use std::cmp::Ordering;

/// A branch of a node: its key, and the part that it leads to.
#[derive(Drop)]
pub struct Branch<'a, T> {
    pub key: Key<'a>,
    pub part: &'a T,
}

/// How nodes are read.
pub trait Nodes {
    type Node: Drop;

    ghost tree: { Self.Node → Plain };

    // what is known of a node is known of a part of it
    ghost below: { Self.Node → Self.Node → Type 0 };

    /// The truth that a node is; false for one with a level.
    fn leaf_truth(node: &Self::Node) -> bool
        requires { IsReduced (tree node.now) }
        ensures { result ≡ leaf_truth (tree node.now) };

    /// The top level of a node; none of a truth.
    fn level_of(node: &Self::Node) -> Option<Level<'_>>
        requires { IsReduced (tree node.now) }
        ensures { option_map level_view result ≡ top_of (tree node.now) };

    /// The part without a key; a truth is its own part.
    fn rest_of(node: &Self::Node) -> &Self::Node
        requires { IsReduced (tree node.now) }
        ensures part { tree result.now ≡ rest_of (tree node.now) }
        ensures below { below node.now result.now };

    /// How many branches a node has beside the part without a key.
    fn branch_count(node: &Self::Node) -> usize
        requires { IsReduced (tree node.now) }
        ensures { result ≡ branch_count (branches_of (tree node.now)) };

    /// The branch at a place.
    fn branch_at(node: &Self::Node, index: usize) -> Branch<'_, Self::Node>
        requires reduced { IsReduced (tree node.now) }
        requires within { index < branch_count (branches_of (tree node.now)) }
        ensures found { IsBranchAt (branches_of (tree node.now)) index (key_view result.key) (tree result.part.now) }
        ensures kind { is_key_of (tree node.now) result.key ≡ true }
        ensures below { below node.now result.part.now };

    ghost below_itself: { (node : Self.Node) → below node node };
}

/// Whether a node's top level is this one.
pub fn is_at<Kind: Nodes>(node: &Kind::Node, level: Level<'_>) -> bool
    requires { IsReduced (Kind.tree node.now) }
    ensures { result ≡ is_level (level_view level.entry) (Kind.tree node.now) }
{
    match Kind::level_of(node) {
        None => false,
        Some(own) => level.cmp(own).is_eq(),
    }
}

/// The part without a key at a level; a node of other levels is its own part.
pub fn rest_at<'a, Kind: Nodes>(node: &'a Kind::Node, level: Level<'_>) -> &'a Kind::Node
    requires { IsReduced (Kind.tree node.now) }
    ensures part { Kind.tree result.now ≡ rest_at (level_view level.entry) (Kind.tree node.now) }
    ensures below { Kind.below node.now result.now }
{
    if is_at::<Kind>(node, level) {
        return Kind::rest_of(node);
    }
    node
}

/// The keys of a node at a level, in order; none where its top level is another.
pub fn keys_at<'a, Kind: Nodes>(
    alloc: Global,
    node: &'a Kind::Node,
    level: Level<'_>,
) -> Result<Vec<Key<'a>>, AllocError>
    requires { IsReduced (Kind.tree node.now) }
    ensures keys { IfOk result (λ ks. keys_view ks.items ≡ keys_at (level_view level.entry) (Kind.tree node.now)) }
    ensures kinds { IfOk result (λ ks. AreKeysOf (level_view level.entry) ks.items) }
{
    if is_at::<Kind>(node, level) {
        return all_keys::<Kind>(alloc, node);
    }
    Ok(Vec::new(alloc))
}

/// The keys of a node's branches, in order.
pub fn all_keys<Kind: Nodes>(alloc: Global, node: &Kind::Node) -> Result<Vec<Key<'_>>, AllocError>
    requires { IsReduced (Kind.tree node.now) }
    ensures keys { IfOk result (λ ks. keys_view ks.items ≡ keys (branches_of (Kind.tree node.now))) }
    ensures kinds { IfOk result (λ ks. All (λ k. is_key_of (Kind.tree node.now) k ≡ true) ks.items) }
{
    let mut made = Vec::new(alloc);
    for index in 0..Kind::branch_count(node) {
        made.push(Kind::branch_at(node, index).key)?;
    }
    Ok(made)
}

/// The part that a value of a level takes; a node of other levels is its own part.
pub fn part_at<'a, Kind: Nodes>(
    node: &'a Kind::Node,
    level: Level<'_>,
    value: Key<'_>,
) -> &'a Kind::Node
    requires { IsReduced (Kind.tree node.now) }
    ensures part { Kind.tree result.now ≡ part_at (level_view level.entry) (key_view value.entry) (Kind.tree node.now) }
    ensures below { Kind.below node.now result.now }
{
    if is_at::<Kind>(node, level) {
        return part_of::<Kind>(node, level.is_carried(), value);
    }
    node
}

/// The part that a value takes among a node's branches, found by halves.
pub fn part_of<'a, Kind: Nodes>(
    node: &'a Kind::Node,
    carried: bool,
    value: Key<'_>,
) -> &'a Kind::Node
    requires { IsReduced (Kind.tree node.now) }
    ensures part { Kind.tree result.now ≡ part_by carried (key_view value.entry) (Kind.tree node.now) }
    ensures below { Kind.below node.now result.now }
{
    let rest = Kind::rest_of(node);
    let mut found = rest;
    let mut low = 0;
    let mut high = Kind::branch_count(node);
    while low < high {
        let middle = low + (high - low) / 2;
        let branch = Kind::branch_at(node, middle);
        match value.cmp(branch.key) {
            Ordering::Less => {
                high = middle;
                continue;
            }
            Ordering::Equal => return branch.part,
            Ordering::Greater => {
                low = middle + 1;
                found = if carried { branch.part } else { rest };
                continue;
            }
        }
    }
    found
}

/// The first level of two nodes.
pub fn first_level<'a, Kind: Nodes>(
    left: &'a Kind::Node,
    right: &'a Kind::Node,
) -> Option<Level<'a>>
    requires left_reduced { IsReduced (Kind.tree left.now) }
    requires right_reduced { IsReduced (Kind.tree right.now) }
    ensures { option_map level_view result ≡ first_of (Kind.tree left.now) (Kind.tree right.now) }
{
    match Kind::level_of(left) {
        None => Kind::level_of(right),
        Some(own) => match Kind::level_of(right) {
            None => Some(own),
            Some(found) => match own.cmp(found) {
                Ordering::Less => Some(own),
                Ordering::Equal => Some(own),
                Ordering::Greater => Some(found),
            },
        },
    }
}

/// The keys of two nodes at a level, in order, each once.
pub fn level_keys<'a, Kind: Nodes>(
    alloc: Global,
    level: Level<'_>,
    left: &'a Kind::Node,
    right: &'a Kind::Node,
) -> Result<Vec<Key<'a>>, AllocError>
    requires left_reduced { IsReduced (Kind.tree left.now) }
    requires right_reduced { IsReduced (Kind.tree right.now) }
    ensures keys { IfOk result (λ ks. keys_view ks.items
        ≡ keys_of_both level.entry (Kind.tree left.now) (Kind.tree right.now)) }
    ensures kinds { IfOk result (λ ks. AreKeysOf (level_view level.entry) ks.items) }
{
    let of_a = keys_at::<Kind>(alloc, left, level)?;
    let of_b = keys_at::<Kind>(alloc, right, level)?;
    let keys = merged_keys(alloc, &of_a, &of_b)?;
    Ok(keys)
}

/// The keys of two lists, in order, each once.
pub fn merged_keys<'a>(
    alloc: Global,
    left: &[Key<'a>],
    right: &[Key<'a>],
) -> Result<Vec<Key<'a>>, AllocError>
    ensures keys { IfOk result (λ ks. keys_view ks.items ≡ key_union (keys_view left.now) (keys_view right.now)) }
    ensures kinds { IfOk result (λ ks. (l : List ℕ) → AreKeysOf l left.now
        → AreKeysOf l right.now → AreKeysOf l ks.items) }
{
    let mut made = Vec::new(alloc);
    let mut i = 0;
    let mut j = 0;
    while i < left.len() && j < right.len() {
        match left[i].cmp(right[j]) {
            Ordering::Less => {
                made.push(left[i])?;
                i += 1;
                continue;
            }
            Ordering::Equal => {
                made.push(left[i])?;
                i += 1;
                j += 1;
                continue;
            }
            Ordering::Greater => {
                made.push(right[j])?;
                j += 1;
                continue;
            }
        }
    }
    made.extend_from_slice(&left[i..])?;
    made.extend_from_slice(&right[j..])?;
    Ok(made)
}
