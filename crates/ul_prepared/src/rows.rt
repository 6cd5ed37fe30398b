//! The rows of one node, and their needs, from what the node asks of each list of requirements.
ghost use Rattle.std.specs.Prelude.{◌≡◌, All, IfOk, length, map};
ghost use Rattle.std.specs.List.{AllZip};
ghost use Rattle.ul_prepared.specs.Shared.{IsOfList, IsPlaced, IsRowOf, list_in};

use crate::shared::Fitted;
use std::alloc::{AllocError, Global};
use ul_base::owned::{beside, with_made};
use ul_problem::NeedRow;
use ul_ranges::SharedList;
use ul_region::{Asked, Row};

// What stands at the place of a release's list, with one owner more.
fn copy_at<T: Drop>(
    lists: &[SharedList<T>],
    release: &Fitted<'_>,
) -> Result<SharedList<T>, AllocError>
    requires { IsPlaced (length lists.now) release.now }
    ensures { IfOk result (IsOfList lists.now release.now) }
{
    lists[release.list].copy()
}

// The row of a release.
fn row_of<'a>(asked: &[SharedList<Asked<'a>>], release: &Fitted<'a>) -> Result<Row<'a>, AllocError>
    requires { IsPlaced (length asked.now) release.now }
    ensures { IfOk result (IsRowOf asked.now release.now) }
{
    let asked = copy_at(asked, release)?;
    Ok(Row {
        release: release.release,
        fit: release.fit,
        asked,
    })
}

// The rows of releases, in order.
fn rows_with<'a>(
    alloc: Global,
    asked: &[SharedList<Asked<'a>>],
    releases: &[Fitted<'a>],
) -> Result<Vec<Row<'a>>, AllocError>
    requires { All (IsPlaced (length asked.now)) releases.now }
    ensures { IfOk result (λ v. AllZip (IsRowOf asked.now) releases.now v.items) }
{
    let mut rows = Vec::with_capacity(alloc, releases.len())?;
    for release in releases {
        rows = with_made(rows, row_of(asked, release))?;
    }
    Ok(rows)
}

// The needs of releases, in order.
fn aims_with(
    alloc: Global,
    aims: &[SharedList<NeedRow>],
    releases: &[Fitted<'_>],
) -> Result<Vec<SharedList<NeedRow>>, AllocError>
    requires { All (IsPlaced (length aims.now)) releases.now }
    ensures { IfOk result (λ v. AllZip (IsOfList aims.now) releases.now v.items) }
{
    let mut list = Vec::with_capacity(alloc, releases.len())?;
    for release in releases {
        list = with_made(list, copy_at(aims, release))?;
    }
    Ok(list)
}

// The places of the lists of releases, in order.
fn list_places(alloc: Global, releases: &[Fitted<'_>]) -> Result<Vec<usize>, AllocError>
    ensures { IfOk result (λ v. v.items ≡ map list_in releases.now) }
{
    let mut places = Vec::with_capacity(alloc, releases.len())?;
    for release in releases {
        places.push(release.list)?;
    }
    Ok(places)
}

/// What a node has of each version.
#[derive(Drop)]
pub(crate) struct OwnRows<'a> {
    pub(crate) rows: Vec<Row<'a>>,
    pub(crate) aims: Vec<SharedList<NeedRow>>,
    pub(crate) lists: Vec<usize>,
}

/// The rows of releases, in order, their needs, and the places of their lists: of each what stands at the place of its list.
///
/// # Errors
///
/// Only for want of memory.
pub(crate) fn rows_of<'a>(
    alloc: Global,
    asked: &[SharedList<Asked<'a>>],
    aims: &[SharedList<NeedRow>],
    releases: &[Fitted<'a>],
) -> Result<OwnRows<'a>, AllocError>
    requires asked { All (IsPlaced (length asked.now)) releases.now }
    requires aims { All (IsPlaced (length aims.now)) releases.now }
    ensures rows { IfOk result (λ own. AllZip (IsRowOf asked.now) releases.now own.rows.items) }
    ensures aims { IfOk result (λ own. AllZip (IsOfList aims.now) releases.now own.aims.items) }
    ensures lists { IfOk result (λ own. own.lists.items ≡ map list_in releases.now) }
{
    let rows = rows_with(alloc, asked, releases)?;
    let (rows, aims) = beside(rows, aims_with(alloc, aims, releases))?;
    let (both, lists) = beside((rows, aims), list_places(alloc, releases))?;
    let (rows, aims) = both;
    Ok(OwnRows { rows, aims, lists })
}
