//! Which trees are printed as the text of a marker.
ghost use Rattle.std.specs.Prelude.{◌≡◌};
ghost use Rattle.ul_nodes.specs.Reduced.{IsReduced};
ghost use Rattle.ul_tree.specs.Paths.{is_printable as is_printable_plain};
ghost use Rattle.ul_tree.specs.PathsLeft.{AreLeft};
ghost use Rattle.ul_tree.specs.TreeFacts.{IsTree};
ghost use Rattle.ul_tree.specs.Views.{tree_view};

use crate::Tree;
use crate::part::Trees;
use ul_nodes::nodes::Nodes;

/// The most paths to true of a tree that is printed.
pub const MOST_PATHS: usize = 4096;

/// The most nodes on a path of a tree that is printed or read. A text of a tree with more is no text, and a tree with
/// more has none, so that no recursion over a tree of a text reaches the end of the stack.
pub const MOST_LEVELS: usize = 512;

/// Whether a tree is printed: at most `MOST_PATHS` of its paths lead to true, and none has more than `MOST_LEVELS`
/// nodes. Takes no memory.
pub fn is_printable(tree: &Tree) -> bool
    requires { IsTree tree.now }
    ensures { result ≡ is_printable_plain (tree_view tree.now) }
{
    is_node_printable::<Trees>(tree)
}

/// Whether the tree that a node of any kind stands for is printed. No tree is made: the walk ends at the first path
/// that is one too many, so a node that shares its parts is judged as fast as a small one.
pub fn is_node_printable<Kind: Nodes>(node: &Kind::Node) -> bool
    requires { IsReduced (Kind.tree node.now) }
    ensures { result ≡ is_printable_plain (Kind.tree node.now) }
{
    paths_left::<Kind>(node, MOST_PATHS, MOST_LEVELS).is_some()
}

// How many paths to true are left after those of a node; none where it has more, or a path of it has more nodes than
// `levels`. Each part but a false one has a path to true, so a step more is a path more or a level less.
fn paths_left<Kind: Nodes>(node: &Kind::Node, left: usize, levels: usize) -> Option<usize>
    requires { IsReduced (Kind.tree node.now) }
    ensures { AreLeft left levels (Kind.tree node.now) result }
{
    if Kind::level_of(node).is_none() {
        return left.checked_sub(usize::from(Kind::leaf_truth(node)));
    }
    let below = levels.checked_sub(1)?;
    let mut rest = paths_left::<Kind>(Kind::rest_of(node), left, below)?;
    for index in 0..Kind::branch_count(node) {
        rest = paths_left::<Kind>(Kind::branch_at(node, index).part, rest, below)?;
    }
    Some(rest)
}
