//! What is known of a name: its eligible versions, and the order in which they are tried.
ghost use Rattle.std.specs.Prelude.{◌≡◌, ◌<◌, ◌^◌, All, IfOk, ◌++◌, Some, filter, length, map, not, reverse, slice_get};
ghost use Rattle.std.specs.List.{list_any};
ghost use Rattle.std.specs.Ordering.{is_eq};
ghost use Rattle.ul_version.specs.Order.{version_cmp};
ghost use Rattle.ul_index.specs.Catalogs.{releases_of as spec_releases_of};
ghost use Rattle.ul_index.specs.Eligible.{eligible, version_at};
ghost use Rattle.ul_index.specs.Preference as spec;
ghost use Rattle.ul_index.specs.Preference.{is_direct, is_kept};
ghost use Rattle.ul_problem.specs.Problems.{Increases, VersionBefore};
ghost use Rattle.ul_prepared.specs.Orders.{flag_at, order_in, places_below, tried_places};
ghost use Rattle.ul_prepared.specs.Prepared.{IsName};
ghost use Rattle.ul_prepared.specs.Releases.{AreReleasesOf};

use crate::prepared::NameFacts;
use crate::sources::Sources;
use std::alloc::{AllocError, Global};
use ul_base::Name;
use ul_base::owned::{beside, made_from, with_made};
use ul_index::laws::eligible_rises;
use ul_index::{Catalog, eligible, eligible_indirect};
use ul_problem::{Places, Versions};
use ul_requirement::{Mode, Release};
use ul_version::Version;

// The release at a place.
fn release_at<'a>(releases: &'a [Release], place: u32) -> &'a Release
    requires { place < length releases.now }
    ensures { Some result.now ≡ slice_get releases.now place }
{
    &releases[place as usize]
}

// The releases at places.
fn releases_at<'a>(
    alloc: Global,
    releases: &'a [Release],
    places: &[u32],
) -> Result<Vec<&'a Release>, AllocError>
    requires { All (λ p. p < length releases.now) places.now }
    ensures { IfOk result (λ v. map (λ r. Some r.now) v.items ≡ map (slice_get releases.now) places.now) }
{
    let mut found = Vec::with_capacity(alloc, places.len())?;
    for place in places {
        let release = release_at(releases, *place);
        found.push(release)?;
    }
    Ok(found)
}

fn version_of(alloc: Global, release: &Release) -> Result<Version, AllocError>
    ensures { IfOk result (λ v. v ≡ release.now.version) }
{
    let version: &Version = &release.version;
    let copy = version.copy(alloc)?;
    Ok(copy)
}

// The versions of releases.
fn versions_of(alloc: Global, releases: &[&Release]) -> Result<Vec<Version>, AllocError>
    ensures { IfOk result (λ v. v.items ≡ map (λ r. r.now.version) releases.now) }
{
    let mut versions = Vec::with_capacity(alloc, releases.len())?;
    for release in releases {
        let release: &Release = release;
        versions = with_made(versions, version_of(alloc, release))?;
    }
    Ok(versions)
}

// Whether a version is one of these, by the order of versions.
fn is_one_of(kept: &[&Version], version: &Version) -> bool
    ensures { result ≡ list_any (λ k. is_eq (version_cmp k.now version.now)) kept.now }
{
    for old in kept {
        if old.cmp(version).is_eq() {
            return true;
        }
    }
    false
}

// Of each version whether it is one of these.
fn flags_of(alloc: Global, kept: &[&Version], versions: &[Version]) -> Result<Vec<bool>, AllocError>
    ensures { IfOk result (λ v. v.items
        ≡ map (λ x. list_any (λ k. is_eq (version_cmp k.now x)) kept.now) versions.now) }
{
    let mut flags = Vec::with_capacity(alloc, versions.len())?;
    for version in versions {
        flags.push(is_one_of(kept, version))?;
    }
    Ok(flags)
}

// Whether the versions of a name are tried from the oldest on.
fn is_oldest_first(sources: &Sources<'_, '_>, name: &Name) -> bool
    ensures { result ≡ spec.is_oldest_first sources.now.1.mode (spec.is_direct sources.now.0 name.now) }
{
    match sources.wish().mode() {
        Mode::Highest => false,
        Mode::Lowest => true,
        Mode::LowestDirect => sources.is_direct(name),
    }
}

// The places below a size, from the first on.
pub(crate) fn rising_places(alloc: Global, size: u32) -> Result<Vec<u32>, AllocError>
    ensures { IfOk result (λ v. v.items ≡ places_below size) }
{
    let mut places = Vec::with_capacity(alloc, size as usize)?;
    for place in 0..size {
        places.push(place)?;
    }
    Ok(places)
}

// The places below a size, from the last on.
fn falling_places(alloc: Global, size: u32) -> Result<Vec<u32>, AllocError>
    ensures { IfOk result (λ v. v.items ≡ reverse (places_below size)) }
{
    let mut places = rising_places(alloc, size)?;
    places.reverse();
    Ok(places)
}

fn has_flag(flags: &[bool], place: u32) -> bool
    ensures { result ≡ flag_at flags.now place }
{
    match flags.get(place as usize) {
        Some(flag) => *flag,
        None => false,
    }
}

// Those of the places that have a flag.
pub(crate) fn flagged(alloc: Global, flags: &[bool], places: &[u32]) -> Result<Vec<u32>, AllocError>
    ensures { IfOk result (λ v. v.items ≡ filter (flag_at flags.now) places.now) }
{
    let mut found = Vec::new(alloc);
    for place in places {
        if has_flag(flags, *place) {
            found.push(*place)?;
        }
    }
    Ok(found)
}

// The places that are there, and then those of the places that have no flag.
fn put_others(found: &mut Vec<u32>, flags: &[bool], places: &[u32]) -> Result<(), AllocError>
    ensures { IfOk result (λ _. found.new.items
        ≡ found.old.items ++ filter (λ k. not (flag_at flags.now k)) places.now) }
{
    for place in places {
        if !has_flag(flags, *place) {
            found.push(*place)?;
        }
    }
    Ok(())
}

// The places of versions in the order in which they are tried.
fn tried(alloc: Global, flags: &[bool], oldest: bool) -> Result<Vec<u32>, AllocError>
    requires { length flags.now < 2 ^ 32 }
    ensures { IfOk result (λ v. v.items ≡ tried_places flags.now oldest) }
{
    let size = flags.len() as u32;
    let falling = falling_places(alloc, size)?;
    let mut order = flagged(alloc, flags, falling.as_slice())?;
    if oldest {
        let rising = rising_places(alloc, size)?;
        put_others(&mut order, flags, rising.as_slice())?;
    } else {
        put_others(&mut order, flags, falling.as_slice())?;
    }
    Ok(order)
}

// The places of a name's eligible releases, in the order of their versions. The project's requirements are looked at only where one of
// them is on the name, which `direct` says.
fn eligible_places(
    alloc: Global,
    catalog: &Catalog,
    name: &Name,
    direct: bool,
) -> Result<Vec<u32>, AllocError>
    requires { direct ≡ is_direct catalog.now name.now }
    ensures { IfOk result (λ places. map (version_at (spec_releases_of catalog.now name.now)) places.items
        ≡ map Some (eligible catalog.now name.now)) }
{
    if direct {
        eligible(alloc, catalog, name)
    } else {
        eligible_indirect(alloc, catalog, name)
    }
}

/// The releases of a name's eligible versions, in the order of the versions. `direct` says whether the project requires the name.
///
/// # Errors
///
/// Only for want of memory.
pub(crate) fn releases_of<'a>(
    alloc: Global,
    catalog: &'a Catalog,
    name: &Name,
    direct: bool,
) -> Result<Vec<&'a Release>, AllocError>
    requires { direct ≡ is_direct catalog.now name.now }
    ensures versions { IfOk result (λ v. map (λ r. r.now.version) v.items ≡ eligible catalog.now name.now) }
    ensures releases { IfOk result (λ v. AreReleasesOf catalog.now name.now
        (eligible catalog.now name.now) (map (λ r. r.now) v.items)) }
    ensures rising { IfOk result (λ _. Increases VersionBefore (eligible catalog.now name.now)) }
    ensures few { IfOk result (λ v. length v.items < 2 ^ 32) }
{
    eligible_rises();
    let places = eligible_places(alloc, catalog, name, direct)?;
    let own = catalog.releases_of(name);
    let releases = releases_at(alloc, own, places.as_slice())?;
    Ok(releases)
}

// The places of a name's versions in the order in which they are tried.
fn order_of(
    alloc: Global,
    sources: &Sources<'_, '_>,
    name: &Name,
    versions: &[Version],
) -> Result<Places, AllocError>
    requires { length versions.now < 2 ^ 32 }
    ensures { IfOk result (λ o. o ≡ order_in sources.now.0 sources.now.1 name.now versions.now) }
{
    let kept = sources.wish().kept(alloc, name)?;
    let flags = made_from(flags_of(alloc, kept.as_slice(), versions), kept)?;
    let oldest = is_oldest_first(sources, name);
    let order = made_from(tried(alloc, flags.as_slice(), oldest), flags)?;
    Places::of(alloc, order)
}

/// What is known of a name, by its eligible releases in the order of their versions.
///
/// # Errors
///
/// Only for want of memory.
pub(crate) fn name_facts(
    alloc: Global,
    sources: &Sources<'_, '_>,
    name: &Name,
    releases: &[&Release],
) -> Result<NameFacts, AllocError>
    requires versions { map (λ r. r.now.version) releases.now ≡ eligible sources.now.0 name.now }
    requires rising { Increases VersionBefore (eligible sources.now.0 name.now) }
    requires few { length releases.now < 2 ^ 32 }
    ensures name { IfOk result (λ f. f.name ≡ name.now) }
    ensures facts { IfOk result (IsName sources.now.0 sources.now.1) }
{
    let list = versions_of(alloc, releases)?;
    let order = order_of(alloc, sources, name, list.as_slice());
    let (list, order) = beside(list, order)?;
    let (order, versions) = beside(order, Versions::of(alloc, list))?;
    let (facts, name) = beside((versions, order), name.copy(alloc))?;
    let (versions, order) = facts;
    Ok(NameFacts {
        name,
        versions,
        order,
    })
}
