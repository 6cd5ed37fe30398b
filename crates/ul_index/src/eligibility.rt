//! Eligible releases.

ghost use Rattle.std.specs.Prelude.{◌≡◌, ◌<◌, ◌^◌, Bool, false, length, map, IfOk, Some};
ghost use Rattle.std.specs.List.{list_any};
ghost use Rattle.ul_version.specs.Fields.{is_pre_of};
ghost use Rattle.ul_specifier.specs.Meaning.{lower_list, meets_list, names_pre_of, pins_of};
ghost use Rattle.ul_comparison.specs.Truth.{python_release};
ghost use Rattle.ul_requirement.specs.Fields.{RequirementFields, VersionsDiffer};
ghost use Rattle.ul_index.specs.Catalogs.{is_release_fit, releases_of};
ghost use Rattle.ul_index.specs.Eligible as Eligible;
ghost use Rattle.ul_index.specs.Eligible.{eligible, version_at};
ghost use Rattle.ul_index.specs.Preference.{is_direct};
ghost use Rattle.ul_index.specs.VersionOrders.{IsOrder};

use crate::Catalog;
use crate::version_order::VersionOrder;
use std::alloc::{AllocError, Global};
use ul_base::Name;
use ul_requirement::{Prereleases, Release, Requirement};
use ul_specifier::Specifiers;
use ul_version::Version;

fn names_pre(requirement: &Requirement) -> bool
    ensures { result ≡ names_pre_of requirement.now.specifiers }
{
    let specifiers: &Specifiers = &requirement.specifiers;
    specifiers.names_pre()
}

fn pins(requirement: &Requirement, version: &Version) -> bool
    ensures { result ≡ pins_of requirement.now.specifiers version.now }
{
    let specifiers: &Specifiers = &requirement.specifiers;
    specifiers.pins(version)
}

// Whether a requirement names a pre-release.
fn any_names_pre(directs: &[&Requirement]) -> bool
    ensures { result ≡ Eligible.is_named (map (λ q. q.now) directs.now) }
{
    for requirement in directs {
        if names_pre(requirement) {
            return true;
        }
    }
    false
}

// Whether a requirement pins the version.
fn any_pins(directs: &[&Requirement], version: &Version) -> bool
    ensures { result ≡ list_any (λ q. pins_of q.specifiers version.now) (map (λ q. q.now) directs.now) }
{
    for requirement in directs {
        if pins(requirement, version) {
            return true;
        }
    }
    false
}

fn is_pre(release: &Release) -> bool
    ensures { result ≡ is_pre_of release.now.version }
{
    let version: &Version = &release.version;
    version.is_pre()
}

// Whether all releases are pre-releases.
fn are_pre(releases: &[Release]) -> bool
    ensures { result ≡ Eligible.is_necessary releases.now }
{
    for release in releases {
        if !is_pre(release) {
            return false;
        }
    }
    true
}

// Whether pre-releases of a package count in a mode, by the direct requirements on it.
fn takes_pre(mode: Prereleases, directs: &[&Requirement], releases: &[Release]) -> bool
    ensures { result ≡ Eligible.takes_pre mode (map (λ q. q.now) directs.now) releases.now }
{
    match mode {
        Prereleases::Disallow => false,
        Prereleases::Allow => true,
        Prereleases::IfNecessary => are_pre(releases),
        Prereleases::Explicit => any_names_pre(directs),
        Prereleases::IfNecessaryOrExplicit => any_names_pre(directs) || are_pre(releases),
    }
}

fn version_of(release: &Release) -> &Version
    ensures { result.now ≡ release.now.version }
{
    let version: &Version = &release.version;
    version
}

// Whether a release of a package counts, by the direct requirements on it.
fn passes(directs: &[&Requirement], pre: bool, release: &Release) -> bool
    ensures { result ≡ Eligible.passes (map (λ q. q.now) directs.now) pre release.now }
{
    let version: &Version = &release.version;
    (!version.is_pre() || pre) && (!release.yanked || any_pins(directs, version))
}

// The places of the releases of a package that count in a mode, in the order of their versions, by the direct
// requirements on it.
fn order<'a>(
    alloc: Global,
    mode: Prereleases,
    directs: &[&Requirement],
    releases: &'a [Release],
) -> Result<VersionOrder<'a>, AllocError>
    requires differ { VersionsDiffer releases.now }
    requires few { length releases.now < 2 ^ 32 }
    ensures { IfOk result (IsOrder mode (map (λ q. q.now) directs.now) releases.now) }
{
    let pre = takes_pre(mode, directs, releases);
    let mut order = VersionOrder::new(alloc);
    let mut place = releases.len();
    while place > 0 {
        place -= 1;
        let release: &Release = &releases[place];
        if !passes(directs, pre, release) {
            continue;
        }
        let _added = order.add(version_of(release), place as u32)?;
    }
    Ok(order)
}

/// The places of a name's eligible releases, in increasing order of their versions.
///
/// A pre-release is passed over where it doesn't count in the package's mode ([`Prereleases`]): a direct requirement
/// names a pre-release where it has a clause other than `!=` that does. The project's own release is never passed over
/// as a pre-release. A yanked release (PEP 592) is passed over, unless some direct requirement on the name has a clause
/// `==V` without `.*` whose V is equal to its version. A direct requirement is one of the project's, whatever its
/// marker. A name that the catalog doesn't have has no eligible releases.
pub fn eligible(alloc: Global, catalog: &Catalog, name: &Name) -> Result<Vec<u32>, AllocError>
    ensures { IfOk result (λ places.
        map (version_at (releases_of catalog.now name.now)) places.items ≡ map Some (eligible catalog.now name.now)) }
{
    let directs = catalog.directs_on(alloc, name)?;
    let releases = catalog.releases_of(name);
    let order = order(
        alloc,
        catalog.prereleases_of(name),
        directs.as_slice(),
        releases,
    )?;
    order.places(alloc)
}

/// The places of the eligible releases of a name on which the project has no requirement: those of [`eligible`], found
/// without a look at the project's requirements.
pub fn eligible_indirect(
    alloc: Global,
    catalog: &Catalog,
    name: &Name,
) -> Result<Vec<u32>, AllocError>
    requires { is_direct catalog.now name.now ≡ false }
    ensures { IfOk result (λ places.
        map (version_at (releases_of catalog.now name.now)) places.items ≡ map Some (eligible catalog.now name.now)) }
{
    let releases = catalog.releases_of(name);
    let order = order(alloc, catalog.prereleases_of(name), &[], releases)?;
    order.places(alloc)
}
