//! Nodes: what is resolved.
ghost use Rattle.std.specs.Prelude.{◌≡◌, IfOk};
ghost use Rattle.std.specs.Cmp.{partial_order_from_agreeing_total};
ghost use Rattle.std.specs.Ordering.{as_partial_cmp};
ghost use Rattle.std.proofs.Common.{refl};
ghost use Rattle.ul_base.specs.Nodes.{node_cmp, node_cmp-total, node_ties};

use crate::name::Name;
use std::alloc::{AllocError, Global};
use std::cmp::Ordering;

/// A name, or an extra of it. The node without an extra is the name's base.
///
/// Nodes are ordered by the name, then the base before each extra, then by the extra, in bytes.
#[derive(PartialEq, Eq, Hash, Debug, Drop)]
pub struct Node {
    /// The package.
    pub name: Name,
    /// The extra, or none for the base.
    pub extra: Option<Name>,
}

impl Node {
    /// An equal node.
    pub fn copy(&self, alloc: Global) -> Result<Node, AllocError>
        ensures { IfOk result (λ n. n ≡ self.now) }
    {
        let name = self.name.copy(alloc)?;
        let extra = match &self.extra {
            Some(extra) => Some(extra.copy(alloc)?),
            None => None,
        };
        Ok(Node { name, extra })
    }
}

impl PartialOrd for Node {
    ghost partial_cmp = { as_partial_cmp node_cmp };

    ghost laws = { partial_order_from_agreeing_total node_cmp node_cmp-total (λ a b. refl) node_ties };

    fn partial_cmp(&self, other: &Node) -> Option<Ordering> {
        Some(self.cmp(other))
    }
}

impl Ord for Node {
    ghost cmp = { node_cmp };

    ghost total = { node_cmp-total };

    ghost matches_partial_cmp = { λ a b. refl };

    ghost matches_eq = { node_ties };

    fn cmp(&self, other: &Node) -> Ordering {
        match self.name.cmp(&other.name) {
            Ordering::Equal => match (&self.extra, &other.extra) {
                (None, None) => Ordering::Equal,
                (None, Some(_)) => Ordering::Less,
                (Some(_), None) => Ordering::Greater,
                (Some(mine), Some(theirs)) => mine.cmp(theirs),
            },
            differs => differs,
        }
    }
}
