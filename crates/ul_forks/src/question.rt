//! What is resolved.
use ul_base::{Name, Node};
use ul_index::Catalog;
use ul_requirement::Wish;

/// What is resolved: a catalog that begins with the project, from the project and some of its extras on.
#[derive(Drop)]
pub struct Question<'a> {
    pub catalog: &'a Catalog,
    /// The project's extras that are asked for.
    pub extras: &'a [Name],
    /// The nodes that each selection starts from: the project's base, and then these extras.
    pub starts: &'a [Node],
    pub wish: &'a Wish,
}
