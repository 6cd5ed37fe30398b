//! Releases of a catalog by their versions.
ghost use Rattle.std.specs.Prelude.{◌≡◌, IfOk, All, List, ℕ, find, map, option_map};
ghost use Rattle.std.specs.Ordering.{is_eq};
ghost use Rattle.ul_version.specs.Order.{version_cmp};
ghost use Rattle.ul_requirement.specs.Fields.{VersionsDiffer};
ghost use Rattle.ul_index.specs.Catalogs.{release_of, releases_of, requirements, requirements_in};
ghost use Rattle.ul_sound.specs.Merged.{files_in};

use std::alloc::{AllocError, Global};
use ul_base::Name;
use ul_base::owned::with_made;
use ul_index::Catalog;
use ul_lock::Files;
use ul_requirement::{FileEntry, Package, Release, Requirement};
use ul_version::Version;

// Whether a release has a version.
fn has_version(release: &Release, version: &Version) -> bool
    ensures { result ≡ is_eq (version_cmp release.now.version version.now) }
{
    let own: &Version = &release.version;
    own.cmp(version).is_eq()
}

// The release of a version.
fn release_in<'a>(releases: &'a [Release], version: &Version) -> Option<&'a Release>
    ensures { option_map (λ r. r.now) result ≡ find (λ r. is_eq (version_cmp r.version version.now)) releases.now }
{
    for release in releases {
        if has_version(release, version) {
            return Some(release);
        }
    }
    None
}

/// The release of a name at a version.
#[tactic(auto, unfolding(ul_index::specs::Catalogs::release_of))]
pub(crate) fn release_at<'a>(
    catalog: &'a Catalog,
    name: &Name,
    version: &Version,
) -> Option<&'a Release>
    ensures { option_map (λ r. r.now) result ≡ release_of catalog.now name.now version.now }
{
    let releases = catalog.releases_of(name);
    release_in(releases, version)
}

/// What a release requires; nothing where there is no release.
pub(crate) fn requirements_of<'a>(release: Option<&'a Release>) -> &'a [Requirement]
    ensures { result.now ≡ requirements_in (option_map (λ r. r.now) release.entry) }
{
    match release {
        Some(release) => {
            let own: &Vec<Requirement> = release.requirements.as_vec();
            own.as_slice()
        }
        None => &[],
    }
}

// Equal files.
fn copied_files(alloc: Global, files: &[FileEntry]) -> Result<Vec<FileEntry>, AllocError>
    ensures { IfOk result (λ v. v.items ≡ files.now) }
{
    let mut list = Vec::with_capacity(alloc, files.len())?;
    for file in files {
        list = with_made(list, file.copy(alloc))?;
    }
    Ok(list)
}

/// The files of a release; none where there is no release.
pub(crate) fn files_of(alloc: Global, release: Option<&Release>) -> Result<Files, AllocError>
    ensures { IfOk result (λ v. v ≡ files_in (option_map (λ r. r.now) release.entry)) }
{
    match release {
        Some(release) => {
            let own: &Vec<FileEntry> = &release.files;
            let files = copied_files(alloc, own.as_slice())?;
            Ok(Files::of(files))
        }
        None => Ok(Files::new(alloc)),
    }
}

/// The files that a lock has of a name at a version: those of the catalog's release; none where there is no release.
///
/// # Errors
///
/// Only for want of memory.
pub fn files_at(
    alloc: Global,
    catalog: &Catalog,
    name: &Name,
    version: &Version,
) -> Result<Files, AllocError>
    ensures { IfOk result (λ v. v ≡ files_in (release_of catalog.now name.now version.now)) }
{
    let release = release_at(catalog, name, version);
    let files = files_of(alloc, release)?;
    Ok(files)
}

// The versions of each package's releases differ.
fn each_differs(packages: &[Package])
    ensures { All (λ p. VersionsDiffer p.releases) packages.now }
{
    for one in packages {
        let _releases = one.releases();
    }
}

/// The versions of each name's releases differ.
pub(crate) fn all_differ(catalog: &Catalog)
    ensures { (name : List ℕ) → VersionsDiffer (releases_of catalog.now name) }
{
    let packages = catalog.packages();
    each_differs(packages);
}
