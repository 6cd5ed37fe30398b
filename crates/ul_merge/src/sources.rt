//! What a lock is merged of.
use crate::choices::Choices;
use ul_algebra::Diagram;
use ul_index::Catalog;

/// The supported region, the regions of the leaves and what they chose, and the catalog.
#[derive(Drop)]
pub(crate) struct Sources<'a> {
    pub(crate) supported: &'a Diagram,
    pub(crate) regions: &'a [Diagram],
    pub(crate) choices: &'a [Choices<'a>],
    pub(crate) catalog: &'a Catalog,
}
