//! The orders of a lock's edges and of a package's files. No function takes memory.

ghost use Rattle.std.specs.Prelude.{◌≡◌};
ghost use Rattle.ul_lock.specs.Orders.{edge_cmp, file_cmp};

use crate::parts::Edge;
use std::cmp::Ordering;
use ul_requirement::FileEntry;

/// Edges by target and version, the base before the extras.
pub fn edge_order(edge: &Edge, other: &Edge) -> Ordering
    ensures { result ≡ edge_cmp edge.now other.now }
{
    let names = edge.target.name.cmp(&other.target.name);
    let versions = edge.version.cmp(&other.version);
    let extras = match (&edge.target.extra, &other.target.extra) {
        (None, None) => Ordering::Equal,
        (None, Some(_)) => Ordering::Less,
        (Some(_), None) => Ordering::Greater,
        (Some(x), Some(y)) => x.cmp(y),
    };
    names.then(versions.then(extras))
}

/// Files by the bytes of their names.
pub fn file_order(file: &FileEntry, other: &FileEntry) -> Ordering
    ensures { result ≡ file_cmp file.now other.now }
{
    file.file
        .as_str()
        .as_bytes()
        .cmp(other.file.as_str().as_bytes())
}
