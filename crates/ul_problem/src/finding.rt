//! The place of a node among a problem's nodes.
ghost use Rattle.ul_problem.specs.Finding.{IsFound};
ghost use Rattle.ul_problem.specs.Problems.{Increases, NodeBefore};

use crate::problem::{NodeFacts, Problem};
use std::cmp::Ordering;
use ul_base::Node;

impl Problem {
    /// The place of a node; `None` exactly where the problem hasn't the node. It is found by halves.
    pub fn place_of(&self, node: &Node) -> Option<u64>
        ensures { IsFound self.now.nodes node.now result }
    {
        place_in(self.nodes(), node)
    }
}

fn place_in(nodes: &[NodeFacts], node: &Node) -> Option<u64>
    requires { Increases NodeBefore nodes.now }
    ensures { IsFound nodes.now node.now result }
{
    let mut low = 0;
    let mut high = nodes.len();
    while low < high {
        let middle = low + (high - low) / 2;
        match nodes[middle].node.cmp(node) {
            Ordering::Less => low = middle + 1,
            Ordering::Equal => return Some(middle as u64),
            Ordering::Greater => high = middle,
        }
    }
    None
}
