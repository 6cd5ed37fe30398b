use std::collections::LinkedList;

/// A finite tree as contracts see it: a label and the parts in order. No value of it is made.
pub struct Tree<L> {
    pub label: L,
    pub parts: LinkedList<Tree<L>>,
}
