//! Copies of requirements, releases and packages.

ghost use Rattle.std.specs.Prelude.{◌≡◌, IfOk, option_map};
ghost use Rattle.ul_marker.specs.Views.{marker_view};

use crate::{FileEntry, Package, Release, Requirement};
use std::alloc::{AllocError, Global};
use ul_base::Name;
use ul_marker::Marker;
use ul_specifier::{Clause, Specifiers};
use ul_version::Version;

// Equal names.
fn copy_names(alloc: Global, names: &[Name]) -> Result<Vec<Name>, AllocError>
    ensures { IfOk result (λ v. v.items ≡ names.now) }
{
    let mut list = Vec::with_capacity(alloc, names.len())?;
    for name in names {
        list.push(name.copy(alloc)?)?;
    }
    Ok(list)
}

// Equal clauses.
fn copy_clauses(alloc: Global, clauses: &[Clause]) -> Result<Vec<Clause>, AllocError>
    ensures { IfOk result (λ v. v.items ≡ clauses.now) }
{
    let mut list = Vec::with_capacity(alloc, clauses.len())?;
    for clause in clauses {
        list.push(clause.copy(alloc)?)?;
    }
    Ok(list)
}

// An equal specifier.
fn copy_specifiers(alloc: Global, specifiers: &Specifiers) -> Result<Specifiers, AllocError>
    ensures { IfOk result (λ s. s ≡ specifiers.now) }
{
    let clauses: &Vec<Clause> = &specifiers.clauses;
    let clauses = copy_clauses(alloc, clauses)?;
    Ok(Specifiers { clauses })
}

// An equal marker, where there is one.
fn copy_marker(alloc: Global, marker: &Option<Marker>) -> Result<Option<Marker>, AllocError>
    ensures { IfOk result (λ m. option_map marker_view m ≡ option_map marker_view marker.now) }
{
    match marker {
        Some(marker) => Ok(Some(marker.copy(alloc)?)),
        None => Ok(None),
    }
}

impl Requirement {
    /// An equal requirement.
    pub fn copy(&self, alloc: Global) -> Result<Requirement, AllocError>
        ensures { IfOk result (λ q. q ≡ self.now) }
    {
        let name: &Name = &self.name;
        let name = name.copy(alloc)?;
        let extras: &Vec<Name> = &self.extras;
        let extras = copy_names(alloc, extras)?;
        let specifiers: &Specifiers = &self.specifiers;
        let specifiers = copy_specifiers(alloc, specifiers)?;
        let marker: &Option<Marker> = &self.marker;
        let marker = copy_marker(alloc, marker)?;
        Ok(Requirement {
            name,
            extras,
            specifiers,
            marker,
        })
    }
}

impl FileEntry {
    /// An equal file.
    pub fn copy(&self, alloc: Global) -> Result<FileEntry, AllocError>
        ensures { IfOk result (λ f. f ≡ self.now) }
    {
        let file = String::from_str(alloc, self.file.as_str())?;
        let sha256 = String::from_str(alloc, self.sha256.as_str())?;
        Ok(FileEntry { file, sha256 })
    }
}

// Equal files.
fn copy_files(alloc: Global, files: &[FileEntry]) -> Result<Vec<FileEntry>, AllocError>
    ensures { IfOk result (λ v. v.items ≡ files.now) }
{
    let mut list = Vec::with_capacity(alloc, files.len())?;
    for file in files {
        list.push(file.copy(alloc)?)?;
    }
    Ok(list)
}

// An equal source, where there is one.
fn copy_source(alloc: Global, source: &Option<Name>) -> Result<Option<Name>, AllocError>
    ensures { IfOk result (λ s. s ≡ source.now) }
{
    match source {
        Some(source) => Ok(Some(source.copy(alloc)?)),
        None => Ok(None),
    }
}

impl Release {
    /// An equal release. It shares the list of requirements.
    pub fn copy(&self, alloc: Global) -> Result<Release, AllocError>
        ensures { IfOk result (λ r. r ≡ self.now) }
    {
        let version: &Version = &self.version;
        let version = version.copy(alloc)?;
        let python: &Specifiers = &self.python;
        let python = copy_specifiers(alloc, python)?;
        let requirements = self.requirements.copy()?;
        let files: &Vec<FileEntry> = &self.files;
        let files = copy_files(alloc, files)?;
        let source: &Option<Name> = &self.source;
        let source = copy_source(alloc, source)?;
        Ok(Release {
            version,
            python,
            requirements,
            yanked: self.yanked,
            files,
            source,
        })
    }
}

// Equal releases.
fn copy_releases(alloc: Global, releases: &[Release]) -> Result<Vec<Release>, AllocError>
    ensures { IfOk result (λ v. v.items ≡ releases.now) }
{
    let mut list = Vec::with_capacity(alloc, releases.len())?;
    for release in releases {
        list.push(release.copy(alloc)?)?;
    }
    Ok(list)
}

impl Package {
    /// An equal package.
    pub fn copy(&self, alloc: Global) -> Result<Package, AllocError>
        ensures { IfOk result (λ p. p ≡ self.now) }
    {
        let name: &Name = &self.name;
        let name = name.copy(alloc)?;
        let releases: &Vec<Release> = &self.releases;
        let releases = copy_releases(alloc, releases)?;
        Ok(Package {
            name,
            entries: self.entries,
            prereleases: self.prereleases,
            releases,
        })
    }
}
