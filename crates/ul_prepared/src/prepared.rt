//! What all regions share.
ghost use Rattle.std.specs.Prelude.{◌≡◌, IfOk};
ghost use Rattle.ul_interner.specs.Known.{Knows};
ghost use Rattle.ul_prepared.specs.Prepared.{IsPrepared};

use crate::gathering::{Gathered, bare_nodes, gather_all};
use crate::planning::placed_nodes;
use std::alloc::{AllocError, Global};
use std::sync::Wait;
use ul_algebra::{Algebra, Diagram};
use ul_base::owned::{beside, made_from};
use ul_base::{Name, Node};
use ul_index::Catalog;
use ul_problem::{NeedRow, Places, Versions};
use ul_ranges::SharedList;
use ul_region::{Row, Truths};
use ul_requirement::Wish;

/// Of a name: its eligible versions, and the order in which they are tried. Its base and all its extras share them.
#[derive(Drop)]
pub struct NameFacts {
    pub name: Name,
    /// The eligible versions, which increase.
    pub versions: Versions,
    /// The places of the versions, in the order in which they are tried.
    pub order: Places,
}

/// Of a node: what its releases ask in every region.
#[derive(Drop)]
pub struct Planned<'a> {
    pub node: Node,
    /// The place of its base among the nodes, where the node has an extra.
    pub base: Option<u64>,
    /// The place of its name among the names.
    pub name: usize,
    /// Of each version, what its release asks at the node. Neighbours that ask for the same share it.
    pub rows: Vec<Row<'a>>,
    /// Of each version and each requirement in its row the needs, by places of nodes.
    pub aims: Vec<SharedList<NeedRow>>,
    /// Of each version the place of its requirements among the lists that the releases of its name have. Versions with one place
    /// share their rows and needs.
    pub lists: Vec<usize>,
}

/// What all regions share.
#[derive(Drop)]
pub struct Prepared<'a> {
    pub catalog: &'a Catalog,
    /// The nodes that a region starts from.
    pub starts: &'a [Node],
    pub wish: &'a Wish,
    pub names: Vec<NameFacts>,
    /// The nodes, which increase.
    pub nodes: Vec<Planned<'a>>,
    /// The places of the nodes that a region starts from.
    pub roots: Vec<u64>,
    /// The truths of requirements at their nodes, and where releases are fit.
    pub truths: Truths,
}

impl<'a> Prepared<'a> {
    /// What all regions share, for the packages of a catalog, the nodes that a region starts from, and a wish.
    ///
    /// # Errors
    ///
    /// Only for want of memory.
    pub fn of<R: Wait>(
        rt: &R,
        alloc: Global,
        algebra: &mut Algebra<'_>,
        catalog: &'a Catalog,
        starts: &'a [Node],
        wish: &'a Wish,
    ) -> Result<Prepared<'a>, AllocError>
        ensures knows { Knows algebra.old algebra.new }
        ensures prepared { IfOk result (IsPrepared algebra.new) }
        ensures catalog { IfOk result (λ p. p.catalog.now ≡ catalog.now) }
        ensures starts { IfOk result (λ p. p.starts.now ≡ starts.now) }
        ensures wish { IfOk result (λ p. p.wish.now ≡ wish.now) }
    {
        let Gathered {
            names,
            releases,
            places,
            nodes,
            ..
        } = gather_all(alloc, catalog, starts, wish)?;
        let bare = bare_nodes(alloc, &places, nodes);
        let (known, bare) = beside((names, releases), made_from(bare, places))?;
        let (names, releases) = known;
        let mut truths = Truths::new(alloc);
        let placed = placed_nodes(
            rt,
            alloc,
            algebra,
            &mut truths,
            names.as_slice(),
            releases,
            bare.as_slice(),
            starts,
        );
        let (shared, placed) = beside((names, truths), made_from(placed, bare))?;
        let (names, truths) = shared;
        let (nodes, roots) = placed;
        Ok(Prepared {
            catalog,
            starts,
            wish,
            names,
            nodes,
            roots,
            truths,
        })
    }
}
