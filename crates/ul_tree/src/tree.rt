//! Decision trees over environments.

ghost use Rattle.std.specs.Prelude.{◌≡◌, suc, IfOk};

use std::alloc::AllocError;
use ul_marker::{Atom, Variable};

/// The most levels that a path of a tree has which this crate makes. A tree that would have more is refused by
/// want of memory, long before the recursions over trees, dropping among them, reach the end of the stack.
pub const DEEPEST: usize = 2048;

/// The room that is left a level further down; want of memory where there is none.
pub fn deeper(room: usize) -> Result<usize, AllocError>
    ensures { IfOk result (λ rest. suc rest ≡ room) }
{
    match room.checked_sub(1) {
        Some(rest) => Ok(rest),
        None => Err(AllocError),
    }
}

/// A decision tree over environments: the truth of a marker at every world and extra, in one form.
///
/// Levels stand in this order, each at most once on a path: the extra, the interpreter, the eight text
/// variables in their order, opaque comparisons in their order. A tree is reduced: no node has parts that
/// all say the same, and each truth has one tree. Contracts see a tree as plain data, `tree_view`, and say
/// of it that it `IsReduced`.
#[derive(Drop)]
pub enum Tree {
    /// True or false everywhere.
    Truth(bool),
    /// By the extra: points are empty or names in normal form, in increasing order, and `other` is the part
    /// of every extra that is no point, from which each point's part differs.
    Extra {
        points: Vec<(String, Tree)>,
        other: Box<Tree>,
    },
    /// By the interpreter, as the number `major * 2^64 + minor * 2^32 + patch`: pieces that begin at their
    /// starts, the first at 0, strictly increasing and below 2^96, with one part for each; at least two, and
    /// adjacent parts differ.
    Python {
        starts: Vec<u128>,
        parts: Vec<Tree>,
    },
    /// By a text variable: points are literals of markers, in increasing order, and `other` is the part of
    /// every text that is no point, from which each point's part differs.
    Text {
        variable: Variable,
        points: Vec<(String, Tree)>,
        other: Box<Tree>,
    },
    /// By an opaque comparison: the part where it holds, and the part where it doesn't; they differ.
    Opaque {
        atom: Atom,
        yes: Box<Tree>,
        no: Box<Tree>,
    },
}
